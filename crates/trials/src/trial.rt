use crate::case::{Case, Story};
use crate::dice::Dice;
use crate::difference::{Difference, same};
use crate::history::History;
use crate::model::rule::Rule;
use crate::model::{Model, device_of};
use crate::run_error::RunError;
use crate::totals::{Counts, Totals, add, bump};
use protocol::answer::Answer;
use protocol::call::Call;
use protocol::outcome::Outcome;
use record::refusal::Refusal;
use std::alloc::{AllocError, Global};

// Where a run differs, and after how many calls.
#[derive(Clone, Copy)]
pub struct Found {
    pub difference: Difference,
    pub call: u64,
}

// One run: the dice, the model beside the group, and what was seen so far.
#[derive(Drop)]
pub struct Trial<'a> {
    pub heap: Global,
    totals: &'a mut Totals,
    pub story: Story,
    pub dice: Dice,
    // most records in an account
    limit: u32,
    // how many devices make most calls
    pub cast: u32,
    pub model: Model,
    pub history: History,
    pub calls: u64,
    pub last_attempt_used: bool,
}

impl<'a> Trial<'a> {
    pub fn new(heap: Global, totals: &'a mut Totals, case: Case) -> Trial<'a> {
        let mut dice = Dice::for_run(case.seed, case.number);
        let limit = match dice.below(4) {
            0 => 4,
            1 => 10,
            _ => 40,
        };
        let cast = dice.below(6).saturating_add(1);
        Trial {
            heap,
            totals,
            story: case.story,
            dice,
            limit,
            cast,
            model: Model::new(heap, Rule::Count),
            history: History::new(heap),
            calls: 0,
            last_attempt_used: false,
        }
    }

    // What all runs together did so far.
    pub fn counts(&mut self) -> &mut Counts {
        &mut self.totals.counts
    }

    // Ends a run: what it did goes into the totals, and where it differs is told.
    pub fn end(&mut self, outcome: Result<(), RunError>) -> Result<Option<Found>, AllocError> {
        let counts = &mut self.totals.counts;
        bump(&mut counts.runs);
        add(&mut counts.opened, self.history.proposals.len() as u64);
        add(&mut counts.answered, self.history.answered() as u64);
        add(&mut counts.versions, u64::from(self.history.decided));
        add(&mut counts.late_accepts, self.model.late_accepts());
        match outcome {
            Ok(()) => Ok(None),
            Err(RunError::NoMemory(error)) => Err(error),
            Err(RunError::Differs(difference)) => {
                bump(&mut counts.differences);
                let call = self.calls;
                Ok(Some(Found { difference, call }))
            }
        }
    }

    // Holds what a check said against what it should say.
    pub fn expect(
        &mut self,
        said: Result<(), Refusal>,
        expected: Result<(), Refusal>,
    ) -> Result<(), RunError> {
        if let Err(refusal) = said {
            self.totals.count_refusal(refusal)?;
        }
        same(said, expected, Difference::Founding)?;
        Ok(())
    }

    // One call that the group answered: the model makes it too.
    pub fn take(&mut self, call: Call, answer: Answer) -> Result<(), RunError> {
        bump(&mut self.calls);
        self.totals.count(answer)?;
        let expected = self.model.call(call)?;
        same(answer, expected, Difference::Answer)?;
        if answer == Answer::Attempt(u16::MAX) {
            self.last_attempt_used = true;
        }
        let prepared = matches!(answer, Answer::Taken(_, Outcome::Prepared));
        if prepared && self.model.has_adopted(device_of(call)) {
            bump(&mut self.totals.counts.adopted);
        }
        let holds = self.model.holds(call);
        self.history.note(self.calls, call, answer, holds)
    }

    // The size of the layout's next account.
    pub fn next_maximum(&mut self) -> Result<usize, AllocError> {
        let maximum = match self.story {
            Story::Random => self.dice.below(self.limit).saturating_add(1),
            Story::Versions => 4096,
            Story::Attempts => 8,
        };
        self.model.add(self.heap, maximum as usize)?;
        Ok(maximum as usize)
    }
}
