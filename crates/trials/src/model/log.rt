use crate::model::ballot::Ballot;
use crate::model::line::Line;
use crate::model::told::Told;
use record::kind::Kind;
use record::refusal::Refusal;
use std::alloc::{AllocError, Global};

// An account: its records, and how many it takes at most.
#[derive(Drop)]
pub struct Log {
    maximum: usize,
    pub lines: Vec<Line>,
}

impl Log {
    pub fn new(heap: Global, maximum: usize) -> Log {
        Log {
            maximum,
            lines: Vec::new(heap),
        }
    }

    // How many more records it takes.
    pub fn room(&self) -> usize {
        self.maximum.saturating_sub(self.lines.len())
    }

    // The new length, unless it is full.
    pub fn append(&mut self, line: Line) -> Result<Result<usize, Refusal>, AllocError> {
        if self.room() == 0 {
            return Ok(Err(Refusal::Full));
        }
        self.lines.push(line)?;
        Ok(Ok(self.lines.len()))
    }

    // What its records up to a place say about a version, and of one ballot.
    pub fn told(&self, version: u16, place: usize, own: Option<Ballot>) -> Told {
        self.lines
            .iter()
            .take(place)
            .filter(|line| line.version == version)
            .fold(Told::NONE, |told, line| told.and(line, own))
    }

    // How many of its ACCEPTs were accepted after one with a higher ballot.
    pub fn late_accepts(&self) -> usize {
        self.lines
            .iter()
            .enumerate()
            .filter(|(place, line)| self.is_late(*place, line))
            .count()
    }

    fn is_late(&self, place: usize, line: &Line) -> bool {
        let told = self.told(line.version, place, None);
        line.kind == Kind::Accept
            && told.promised <= Some(line.ballot)
            && told
                .accepted
                .is_some_and(|accepted| accepted.ballot > line.ballot)
    }
}
