ghost use Rattle.std.specs.Prelude.{◌≡◌, IfOk, OnOk, IfErr, alloc_error};
ghost use Rattle.protocol.specs.Chain.{OneOrder};
ghost use Rattle.protocol.specs.Runs.{runs};
ghost use Rattle.outsiders.specs.Chiefs.{chief};
ghost use Rattle.outsiders.specs.Shelves.{mixed_accounts};

use crate::chief::Chief;
use crate::shelf::Shelf;
use account::end::End;
use account::pair::Pair;
use group::found::{NotRun, found_and_run};
use protocol::answer::Answer;
use protocol::call::Call;
use std::alloc::Global;
use storage::byte_log::ByteLog;

// Makes calls on a shelf beside a byte log, counted by the chief: one order, and nothing of the group was proved again.
pub fn run(heap: Global, calls: &[Call]) -> Result<Vec<Answer>, NotRun>
    ensures answers { IfOk result (λ v. v.items ≡ (runs (chief 2) mixed_accounts calls.now).0) }
    ensures order { OnOk result (OneOrder (chief 2) mixed_accounts calls.now) }
    ensures not_made { IfErr result (λ e. e ≡ NotRun.NoMemory alloc_error) }
{
    let mut area = [0u8; 64];
    let mut first = Shelf::new();
    let mut second = ByteLog::new(&mut area);
    let last = Pair {
        first: &mut second,
        rest: End,
    };
    let accounts = Pair {
        first: &mut first,
        rest: last,
    };
    let quorum = Chief { accounts: 2 };
    let replay = found_and_run(heap, accounts, quorum, calls)?;
    Ok(replay.answers)
}
