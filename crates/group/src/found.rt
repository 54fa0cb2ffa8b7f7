ghost use Rattle.std.specs.Prelude.{◌≡◌, length, Ok, OnOk, IfOk};
ghost use Rattle.protocol.specs.Chain.{OneOrder};
ghost use Rattle.group.specs.Founding.{all_empty, founding, new_state, new_model, Replayed};
ghost use Rattle.group.specs.Models.{model_of};
ghost use Rattle.group.specs.Sound.{AreSound};
ghost use Rattle.group.specs.declared.found.NotRun.TheVariants.{Refused, NoMemory};

use crate::calls::Calls;
use crate::group::Group;
use crate::reading::log_length;
use crate::table::DeviceTable;
use account::accounts::Accounts;
use protocol::answer::Answer;
use protocol::call::Call;
use quorum::quorum::Quorum;
use record::refusal::Refusal;
use std::alloc::{AllocError, Global};

// What became of a list of calls on a group that was founded for them: the answers, and the devices in the end.
#[derive(Drop)]
pub struct Replay {
    pub answers: Vec<Answer>,
    pub devices: DeviceTable,
}

// Why no call was made: the group cannot be founded, or there was no memory for the answers.
#[derive(Clone, Copy, Debug, PartialEq, Eq)]
pub enum NotRun {
    Refused(Refusal),
    NoMemory(AllocError),
}

impl From<Refusal> for NotRun {
    ghost from_gives = { λ refusal e. e ≡ Refused refusal };

    fn from(refusal: Refusal) -> NotRun {
        NotRun::Refused(refusal)
    }
}

impl From<AllocError> for NotRun {
    ghost from_gives = { λ error e. e ≡ NoMemory error };

    fn from(error: AllocError) -> NotRun {
        NotRun::NoMemory(error)
    }
}

fn all_empty<A: Accounts>(accounts: &A, count: usize) -> bool
    requires { count ≡ length (A.Accounts.books accounts.now) }
    ensures { result ≡ all_empty (A.Accounts.books accounts.now) }
{
    for k in 0..count {
        if log_length(accounts, k) != 0 {
            return false;
        }
    }
    true
}

// Whether a group can be founded on these accounts with this quorum.
pub fn check<A: Accounts, Q: Quorum>(accounts: &A, quorum: &Q) -> Result<(), Refusal>
    ensures { result ≡ founding (Q.Quorum.rule quorum.now) (A.Accounts.books accounts.now) }
{
    let size = quorum.size();
    if accounts.count() != size {
        return Err(Refusal::QuorumOfOtherSize);
    }
    if !all_empty(accounts, size) {
        return Err(Refusal::NotEmpty);
    }
    Ok(())
}

impl<A: Accounts, Q: Quorum> Group<A, Q> {
    // All devices, as they are now.
    pub fn devices(&self) -> DeviceTable
        ensures same { result ≡ self.now.table }
        ensures sound { AreSound result }
    {
        self.table.snapshot()
    }

    // The accounts, to read.
    pub fn accounts(&self) -> &A
        ensures { result.now ≡ self.now.accounts }
    {
        &self.accounts
    }

    // A group that nobody has joined, on what `check` accepts.
    pub fn new(accounts: A, quorum: Q) -> Group<A, Q>
        requires { founding (Q.Quorum.rule quorum) (A.Accounts.books accounts) ≡ Ok tt }
        ensures { model_of A.Accounts.books A.Accounts.lent Q.Quorum.rule result ≡ new_model (Q.Quorum.rule quorum) (A.Accounts.lent accounts) (A.Accounts.books accounts) }
    {
        Group {
            accounts,
            quorum,
            table: DeviceTable::new(),
        }
    }
}

// Founds a group, makes a list of calls in turn and lets the group go. Their proposals have one order.
pub fn found_and_run<A: Accounts + Drop, Q: Quorum + Drop>(
    heap: Global,
    accounts: A,
    quorum: Q,
    calls: &[Call],
) -> Result<Replay, NotRun>
    ensures run { Replayed (Q.Quorum.rule quorum) (A.Accounts.books accounts) calls.now result }
    ensures order { OnOk result (OneOrder (Q.Quorum.rule quorum) (new_state (A.Accounts.books accounts)) calls.now) }
    ensures sound { IfOk result (λ p. AreSound p.devices) }
{
    check(&accounts, &quorum)?;
    let mut group = Group::new(accounts, quorum);
    let answers = group.run(heap, calls)?;
    Ok(Replay {
        answers,
        devices: group.devices(),
    })
}
