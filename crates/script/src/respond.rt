ghost use Rattle.std.specs.Prelude.{◌≡◌, IfOk, string_bytes, OnOk};
ghost use Rattle.quorum.specs.Weights.{majority};
ghost use Rattle.protocol.specs.Chain.{OneOrder};
ghost use Rattle.bench.specs.Setup.{three_accounts};
ghost use Rattle.script.specs.Script.{parsed, calls_of, printed};

use crate::answers::show;
use crate::lines::{calls, parse};
use bench::runs::run;
use group::found::NotRun;
use std::alloc::{AllocError, Global};

// What a script prints, played on three new accounts counted by majority.
// The proposals of its calls have one order.
pub fn respond(heap: Global, input: &[u8]) -> Result<String, AllocError>
    ensures text { IfOk result (λ t. string_bytes t ≡ printed input.now) }
    ensures order { OnOk result
        (OneOrder (majority 3) three_accounts (calls_of (parsed input.now))) }
{
    let lines = parse(heap, input)?;
    let calls = calls(heap, lines.as_slice())?;
    match run(heap, calls.as_slice()) {
        Ok(answers) => show(heap, lines.as_slice(), answers.as_slice()),
        Err(NotRun::NoMemory(error)) => Err(error),
        // a majority of three can always be founded on three new accounts
        Err(NotRun::Refused(_)) => unreachable!(),
    }
}
