// Where a group and the model part, or which promise a run breaks.
#[derive(Clone, Copy, Debug)]
pub enum Difference {
    // what a call was answered, and how many answers a round gave
    Answer,
    AnswerCount,
    // founding
    Founding,
    // accounts
    AccountCount,
    Length,
    Record,
    PastEnd,
    // devices
    NoDevice,
    Joined,
    Attempt,
    Known,
    Phase,
    Proposed,
    Carried,
    Seen,
    Links,
    Place,
    Promised,
    Accepted,
    Sent,
    Own,
    // one order
    NobodyProposed,
    VersionSkipped,
    OrderRepeats,
    OrderInvents,
    OrderLacks,
    ChainAnswers,
    OrderEarlier,
    Held,
    // rounds
    RoundUnanswered,
}

// What was seen is what should be, or else it is the difference named.
pub fn same<T: PartialEq + Drop>(
    seen: T,
    expected: T,
    difference: Difference,
) -> Result<(), Difference> {
    if seen == expected {
        Ok(())
    } else {
        Err(difference)
    }
}
