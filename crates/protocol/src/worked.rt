ghost use Rattle.std.specs.Prelude.{◌≡◌, map};
ghost use Rattle.protocol.specs.Runs.{runs};
ghost use Rattle.protocol.specs.Worked.{majority_of_three, three_accounts, worked_run};

use crate::call::Call;
use record::value::Value;

// The calls of the worked run, written out (tried: closures that make them; the proof by evaluation did not close).
// Made to three empty accounts counted by majority, they are answered as its table says.
pub fn worked_calls() -> [Call; 15]
    ensures calls { result ≡ map (λ line. line.0) worked_run }
    ensures answers { (runs majority_of_three three_accounts result).0 ≡ map (λ line. line.1) worked_run }
{
    let first = Value {
        root: 500,
        setup: 7,
    };
    let second = Value {
        root: 900,
        setup: 8,
    };
    [
        Call::Join { device: 1 },
        Call::Join { device: 2 },
        Call::Propose {
            device: 1,
            base: 0,
            value: first,
        },
        Call::Send {
            device: 1,
            account: 0,
        },
        Call::Send {
            device: 1,
            account: 1,
        },
        Call::Read {
            device: 1,
            account: 0,
        },
        Call::Read {
            device: 1,
            account: 1,
        },
        Call::Send {
            device: 1,
            account: 0,
        },
        Call::Send {
            device: 1,
            account: 1,
        },
        Call::Read {
            device: 1,
            account: 0,
        },
        Call::Read {
            device: 1,
            account: 1,
        },
        Call::Propose {
            device: 2,
            base: 0,
            value: second,
        },
        Call::Read {
            device: 2,
            account: 0,
        },
        Call::Read {
            device: 2,
            account: 1,
        },
        Call::Known { device: 2 },
    ]
}
