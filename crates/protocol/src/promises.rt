// The two promises over whole runs, each on a small function whose answer is a number that the promise speaks of.
ghost use Rattle.std.specs.Prelude.{◌≡◌, ◌+◌, ◌*◌};
ghost use Rattle.protocol.specs.Chain.{One-order, number_after};
ghost use Rattle.protocol.specs.Rounds.{A-round-ends};

// The number of the version with which the chain answers a proposal on this base; on the last version there is none.
// And the proposals of any run have one order, along which the chain gives each its answer.
pub fn version_after(base: u16) -> Option<u16>
    ensures number { result ≡ number_after base }
    ensures order { One-order }
{
    if base >= 1023 { None } else { Some(base + 1) }
}

// How many calls a round over so many accounts takes. And over a quorum that its device reaches, with room in each account,
// it answers the device's open proposal.
pub fn calls_in_round(accounts: u8) -> u16
    ensures count { result ≡ 5 * accounts + 1 }
    ensures answered { A-round-ends }
{
    5 * u16::from(accounts) + 1
}
