use std::fmt;

// What a run does: one of three, and no more, so it is matched where they part.
#[derive(Clone, Copy, Debug)]
pub enum Story {
    // calls at random, and rounds
    Random,
    // one device after another to the last version
    Versions,
    // one device to the last attempt
    Attempts,
}

// What tells a run from all others: the same case is the same run.
#[derive(Clone, Copy)]
pub struct Case {
    pub story: Story,
    pub seed: u64,
    pub number: u64,
}

impl fmt::Display for Case {
    fn fmt<W: fmt::Write>(&self, f: &mut fmt::Formatter<W>) -> fmt::Result {
        let Case {
            story,
            seed,
            number,
        } = *self;
        write!(
            f,
            "run {number} ({story:?}); to see it again: trials 1 {seed} {number}"
        )
    }
}
