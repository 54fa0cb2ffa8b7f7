use protocol::answer::Answer;
use protocol::outcome::Outcome;
use record::refusal::Refusal;
use std::alloc::{AllocError, Global};
use std::collections::BTreeMap;
use std::fmt;

// What all runs together did.
#[derive(Drop)]
pub struct Totals {
    // by their numbers
    refusals: BTreeMap<u8, u64>,
    pub counts: Counts,
}

#[derive(Clone, Copy, Default)]
pub struct Counts {
    pub runs: u64,
    pub calls: u64,
    pub opened: u64,
    pub answered: u64,
    pub versions: u64,
    pub decided: u64,
    pub preempted: u64,
    pub adopted: u64,
    pub late_accepts: u64,
    pub rounds: u64,
    pub rounds_answered: u64,
    pub other_rounds: u64,
    pub differences: u64,
}

pub fn bump(count: &mut u64) {
    add(count, 1);
}

pub fn add(count: &mut u64, more: u64) {
    *count = count.saturating_add(more);
}

impl Totals {
    pub fn new(heap: Global) -> Totals {
        Totals {
            refusals: BTreeMap::new(heap),
            counts: Counts::default(),
        }
    }

    pub fn count_refusal(&mut self, refusal: Refusal) -> Result<(), AllocError> {
        bump(self.refusals.entry(refusal.into())?.or_insert(0));
        Ok(())
    }

    pub fn count(&mut self, answer: Answer) -> Result<(), AllocError> {
        bump(&mut self.counts.calls);
        match answer {
            Answer::Refused(refusal) => self.count_refusal(refusal)?,
            Answer::Taken(_, Outcome::Decided) => bump(&mut self.counts.decided),
            Answer::Taken(_, Outcome::Preempted) => bump(&mut self.counts.preempted),
            _ => {}
        }
        Ok(())
    }
}

impl fmt::Display for Totals {
    fn fmt<W: fmt::Write>(&self, f: &mut fmt::Formatter<W>) -> fmt::Result {
        let t = &self.counts;
        writeln!(f, "runs: {}, calls: {}", t.runs, t.calls)?;
        write!(f, "refusals, each number with how often it was seen:")?;
        for (number, count) in self.refusals.iter() {
            write!(f, " {number} ({count})")?;
        }
        write!(f, "\n{t}")
    }
}

impl fmt::Display for Counts {
    fn fmt<W: fmt::Write>(&self, f: &mut fmt::Formatter<W>) -> fmt::Result {
        writeln!(
            f,
            "proposals: {} opened, {} answered",
            self.opened, self.answered
        )?;
        writeln!(
            f,
            "versions decided: {}, reads that decided: {}",
            self.versions, self.decided
        )?;
        writeln!(
            f,
            "preemptions: {}, values taken over from an earlier ACCEPT: {}, ACCEPTs accepted after a higher one: {}",
            self.preempted, self.adopted, self.late_accepts
        )?;
        writeln!(
            f,
            "rounds that have to end: {} made, {} answered",
            self.rounds, self.rounds_answered
        )?;
        writeln!(f, "rounds that need not end: {} made", self.other_rounds)?;
        write!(f, "differences: {}", self.differences)
    }
}
