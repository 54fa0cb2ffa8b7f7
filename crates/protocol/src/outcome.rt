ghost use Rattle.std.specs.Prelude.{◌≡◌};
ghost use Rattle.protocol.specs.Codes.{outcome_number};

// What a device concludes from a read. The discriminant is the number that is answered.
#[derive(Clone, Copy, Debug, PartialEq, Eq)]
pub enum Outcome {
    Waiting = 0,
    Prepared = 1,
    Decided = 2,
    Preempted = 3,
}

impl From<Outcome> for u8 {
    ghost from_gives = { λ outcome n. n ≡ outcome_number outcome };

    fn from(outcome: Outcome) -> u8 {
        outcome as u8
    }
}
