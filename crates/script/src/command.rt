ghost use Rattle.std.specs.Prelude.{◌≡◌, [], ◌∷◌};
ghost use Rattle.record.specs.Checks.{unless};
ghost use Rattle.protocol.specs.declared.call.Call.TheVariants.{Propose};
ghost use Rattle.script.specs.Commands.{field_at, number_at, number_checks, parsed_line};
ghost use Rattle.script.specs.Reading.{Reads, numbers_of};

use crate::cut::{count_numbers, token};
use crate::numeral::read;
use crate::token::Token;
use protocol::call::Call;
use record::refusal::Refusal;
use record::value::Value;

// The bytes of a field, counted from 0: none where there is no such field.
fn field(line: &[u8], index: usize) -> &[u8]
    ensures { result.now ≡ field_at line.now index }
{
    token(line, index).map_or(&[], Token::bytes)
}

// A number of a line, counted from 1, of any type.
fn number<T: TryFrom<u64>>(line: &[u8], index: usize) -> Result<T, Refusal>
where
    T::Error: Drop,
    ensures { Reads T.try_from_gives (field_at line.now index) result }
{
    read(field(line, index))
}

// The numbers of a line, where there are N, each of 32 bits.
#[tactic(auto, using(crate::proofs::Digits::number_is))]
fn numbers<const N: usize>(line: &[u8]) -> Result<[u32; N], Refusal>
    ensures { result ≡ numbers_of N line.now }
{
    if count_numbers(line) != N {
        return Err(Refusal::WrongCount);
    }
    // tried: `array::try_from_fn`, which asks in a `requires` that N numbers fit in memory
    let mut numbers = [0; N];
    for k in 0..N {
        numbers[k] = number(line, k + 1)?;
    }
    Ok(numbers)
}

// One of its numbers has 64 bits: an array of four as wide would leave three to be narrowed.
#[tactic(auto, using(crate::proofs::Digits::number_is))]
fn propose(line: &[u8]) -> Result<Call, Refusal>
    ensures { result ≡ unless (number_checks (32 ∷ 32 ∷ 64 ∷ 32 ∷ []) line.now)
        (Propose (number_at line.now 1) (number_at line.now 2)
        (record { root = number_at line.now 3; setup = number_at line.now 4 })) }
{
    if count_numbers(line) != 4 {
        return Err(Refusal::WrongCount);
    }
    Ok(Call::Propose {
        device: number(line, 1)?,
        base: number(line, 2)?,
        value: Value {
            root: number(line, 3)?,
            setup: number(line, 4)?,
        },
    })
}

// The call that a line stands for.
#[tactic(auto, using(crate::proofs::Refusing::refused_by), unfolding(crate::specs::Commands::parsed_line))]
pub fn parse_line(line: &[u8]) -> Result<Call, Refusal>
    ensures { result ≡ parsed_line line.now }
{
    match field(line, 0) {
        [b'J'] => {
            let [device] = numbers::<1>(line)?;
            Ok(Call::Join { device })
        }
        [b'L'] => {
            let [device, account, state] = numbers::<3>(line)?;
            Ok(Call::SetLink {
                device,
                account,
                state,
            })
        }
        [b'P'] => propose(line),
        [b'S'] => {
            let [device, account] = numbers::<2>(line)?;
            Ok(Call::Send { device, account })
        }
        [b'R'] => {
            let [device, account] = numbers::<2>(line)?;
            Ok(Call::Read { device, account })
        }
        [b'A'] => {
            let [device] = numbers::<1>(line)?;
            Ok(Call::Again { device })
        }
        [b'X'] => {
            let [device] = numbers::<1>(line)?;
            Ok(Call::Restart { device })
        }
        [b'K'] => {
            let [device] = numbers::<1>(line)?;
            Ok(Call::Known { device })
        }
        _ => Err(Refusal::UnknownCommand),
    }
}
