ghost use Rattle.std.specs.Prelude.{◌≡◌, length, IfOk, Ok, OnOk};
ghost use Rattle.protocol.specs.Chain.{OneOrder};
ghost use Rattle.protocol.specs.Runs.{runs};
ghost use Rattle.quorum.specs.Weights.{majority, weighted, weight_in, weighted_by};
ghost use Rattle.bench.specs.Setup.{three_accounts, NotMade};

use account::end::End;
use account::pair::Pair;
use group::found::{NotRun, found_and_run};
use protocol::answer::Answer;
use protocol::call::Call;
use quorum::majority::Majority;
use quorum::quorum::Quorum;
use quorum::weighted::Weighted;
use std::alloc::Global;
use storage::byte_log::ByteLog;
use storage::row::Row;
use storage::versioned_file::VersionedFile;

// Makes a list of calls on three new accounts, counted by any rule.
pub fn run_with<Q: Quorum + Drop>(
    heap: Global,
    quorum: Q,
    calls: &[Call],
) -> Result<Vec<Answer>, NotRun>
    ensures answers { IfOk result (λ v. v.items ≡ (runs (Q.Quorum.rule quorum) three_accounts calls.now).0) }
    ensures order { OnOk result (OneOrder (Q.Quorum.rule quorum) three_accounts calls.now) }
    ensures not_made { NotMade (Ok (Q.Quorum.rule quorum)) result }
{
    let mut low = [0u8; 1024];
    let mut rows = [Row::BLANK; 64];
    let mut high = [0u8; 1024];
    let mut first = ByteLog::new(&mut low);
    let mut second = VersionedFile::new(&mut rows);
    let mut third = ByteLog::new(&mut high);
    let last = Pair {
        first: &mut third,
        rest: End,
    };
    let others = Pair {
        first: &mut second,
        rest: last,
    };
    let accounts = Pair {
        first: &mut first,
        rest: others,
    };
    let replay = found_and_run(heap, accounts, quorum, calls)?;
    Ok(replay.answers)
}

// The same counted by majority.
pub fn run(heap: Global, calls: &[Call]) -> Result<Vec<Answer>, NotRun>
    ensures answers { IfOk result (λ v. v.items ≡ (runs (majority 3) three_accounts calls.now).0) }
    ensures order { OnOk result (OneOrder (majority 3) three_accounts calls.now) }
    ensures not_made { NotMade (Ok (majority 3)) result }
{
    run_with(heap, Majority::new(3)?, calls)
}

// The same counted by weight, one weight for each account.
pub fn run_by_weight(heap: Global, weights: &[u8], calls: &[Call]) -> Result<Vec<Answer>, NotRun>
    ensures answers { IfOk result (λ v. v.items ≡ (runs (weighted (weight_in weights.now) (length weights.now)) three_accounts calls.now).0) }
    ensures order { OnOk result (OneOrder (weighted (weight_in weights.now) (length weights.now)) three_accounts calls.now) }
    ensures not_made { NotMade (weighted_by weights.now) result }
{
    run_with(heap, Weighted::new(weights)?, calls)
}
