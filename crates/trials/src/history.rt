use crate::difference::Difference;
use crate::proposal::{Answered, Fate, Proposal};
use crate::run_error::RunError;
use protocol::answer::Answer;
use protocol::call::Call;
use protocol::outcome::Outcome;
use protocol::version::Version;
use record::value::Value;
use std::alloc::{AllocError, Global};

// The proposals of a run, and one order of them, which grows as versions are decided. The order has their places
// and not the proposals: one that stands in it is still to be answered.
#[derive(Drop)]
pub struct History {
    pub proposals: Vec<Proposal>,
    order: Vec<usize>,
    pub decided: u16,
}

impl History {
    pub fn new(heap: Global) -> History {
        History {
            proposals: Vec::new(heap),
            order: Vec::new(heap),
            decided: 0,
        }
    }

    // One more call and its answer; `holds` is the version that its device then holds.
    pub fn note(
        &mut self,
        time: u64,
        call: Call,
        answer: Answer,
        holds: Version,
    ) -> Result<(), RunError> {
        match (call, answer) {
            (
                Call::Propose {
                    device,
                    base,
                    value,
                },
                Answer::Attempt(_),
            ) => self.proposals.push(Proposal {
                device,
                base,
                value,
                opened: time,
                fate: Fate::Open,
            })?,
            (Call::Read { device, .. }, Answer::Taken(_, Outcome::Decided)) => {
                self.decides(
                    device,
                    Answered {
                        at: time,
                        version: holds,
                    },
                )?
            }
            (Call::Restart { device }, Answer::Done) => self.forgets(device),
            _ => {}
        }
        Ok(())
    }

    fn forgets(&mut self, device: u32) {
        for proposal in self.proposals.iter_mut() {
            if proposal.is_open_at(device) {
                proposal.fate = Fate::Forgotten;
            }
        }
    }

    // At the first decision of a version, the proposal whose value it is goes to the order's end; then the
    // deciding device's own, unless it stands there.
    fn decides(&mut self, device: u32, answered: Answered) -> Result<(), RunError> {
        let number = answered.version.number;
        if number > self.decided.saturating_add(1) {
            return Err(Difference::VersionSkipped.into());
        }
        if number > self.decided {
            self.decided = number;
            let proposer = self.proposer(answered.version);
            self.order
                .push(proposer.ok_or(Difference::NobodyProposed)?)?;
        }
        if let Some(i) = self.answers(device, answered) {
            if !self.stands(i) {
                self.order.push(i)?;
            }
        }
        Ok(())
    }

    fn stands(&self, i: usize) -> bool {
        self.order.contains(&i)
    }

    // A proposal that no version has answered so far and that asks for just this one.
    fn proposer(&self, version: Version) -> Option<usize> {
        self.proposals.iter().enumerate().position(|(i, proposal)| proposal.asks_for(version)
            && !self.stands(i))
    }

    // Answers the device's open proposal, if there is one.
    fn answers(&mut self, device: u32, answered: Answered) -> Option<usize> {
        let i = self
            .proposals
            .iter()
            .position(|proposal| proposal.is_open_at(device))?;
        self.proposals.get_mut(i)?.fate = Fate::Answered(answered);
        Some(i)
    }

    pub fn answered(&self) -> usize {
        self.proposals
            .iter()
            .filter(|proposal| proposal.answered().is_some())
            .count()
    }

    // Whether the order is as it should be; `held` has what each device holds in the end.
    pub fn check(&self, heap: Global, held: &[Version]) -> Result<(), RunError> {
        self.check_members()?;
        self.check_earlier()?;
        let mut chain = Vec::new(heap);
        for proposal in self.order.iter().filter_map(|i| self.proposals.get(*i)) {
            if chain.len() == proposal.base as usize {
                chain.push(proposal.value)?;
            }
            if !proposal.agrees(chain.as_slice()) {
                return Err(Difference::ChainAnswers.into());
            }
        }
        check_held(held, chain.as_slice())?;
        Ok(())
    }

    // Each once, only such as were opened, and every answered one.
    fn check_members(&self) -> Result<(), Difference> {
        for (at, i) in self.order.iter().enumerate() {
            if *i >= self.proposals.len() {
                return Err(Difference::OrderInvents);
            }
            if self.order.iter().take(at).any(|earlier| *earlier == *i) {
                return Err(Difference::OrderRepeats);
            }
        }
        let lacks = self.proposals.iter().enumerate().any(|(i, proposal)| proposal
            .answered()
            .is_some()
            && !self.stands(i));
        if lacks {
            return Err(Difference::OrderLacks);
        }
        Ok(())
    }

    // What was answered before another was opened stands earlier.
    fn check_earlier(&self) -> Result<(), Difference> {
        for (at, i) in self.order.iter().enumerate() {
            if self.order.iter().skip(at).any(|j| self.precedes(*j, *i)) {
                return Err(Difference::OrderEarlier);
            }
        }
        Ok(())
    }

    fn precedes(&self, i: usize, j: usize) -> bool {
        let both = self.proposals.get(i).zip(self.proposals.get(j));
        both.is_some_and(|(first, second)| first.was_answered_before(second))
    }
}

fn check_held(held: &[Version], chain: &[Value]) -> Result<(), Difference> {
    for version in held {
        let place = usize::from(version.number).checked_sub(1);
        if place.is_some_and(|place| chain.get(place) != Some(&version.value)) {
            return Err(Difference::Held);
        }
    }
    Ok(())
}
