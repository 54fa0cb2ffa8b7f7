ghost use Rattle.std.specs.Prelude.{◌≡◌};
ghost use Rattle.record.specs.Codes.{code};

// Every reason for which something is refused. The discriminant is the number that is answered.
#[derive(Clone, Copy, Debug, PartialEq, Eq)]
pub enum Refusal {
    // records
    NotWhole = 1,
    UnknownKind = 2,
    NoAttempt = 3,
    NoVersion = 4,
    PrepareWithValue = 5,
    TooWide = 6,
    // accounts
    Full = 10,
    PastEnd = 11,
    BadSize = 12,
    // quorums
    BadAccountCount = 20,
    NoWeight = 21,
    // founding a group
    QuorumOfOtherSize = 30,
    NotEmpty = 31,
    // calls
    NoSuchDevice = 40,
    NotJoined = 41,
    AlreadyJoined = 42,
    NoSuchAccount = 43,
    NoSuchLinkState = 44,
    ProposalOpen = 45,
    NoProposal = 46,
    OtherBase = 47,
    LastVersion = 48,
    NoAttemptLeft = 49,
    AlreadySent = 50,
    LinkDown = 51,
    RepliesLost = 52,
    // the script
    UnknownCommand = 60,
    WrongCount = 61,
    BadNumber = 62,
    InputTooLong = 63,
}

impl From<Refusal> for u8 {
    ghost from_gives = { λ refusal n. n ≡ code refusal };

    fn from(refusal: Refusal) -> u8 {
        refusal as u8
    }
}
