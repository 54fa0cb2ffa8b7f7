ghost use Rattle.std.specs.Prelude.{◌≡◌, ◌^◌, ◌&&◌, if◌then◌else◌, Some, None, nat_lt};
ghost use Rattle.script.specs.Numerals.{is_digits, value_of};
ghost use Rattle.script.specs.Reading.{is_plain, Reads};

use record::refusal::Refusal;

const MOST_DIGITS: usize = 20;

// Whether a field has 1 to 20 bytes, and no zero in front of more.
fn is_plain(field: &[u8]) -> bool
    ensures { result ≡ is_plain field.now }
{
    match field {
        [] | [b'0', _, ..] => false,
        _ => field.len() <= MOST_DIGITS,
    }
}

// What a field stands for, if it is all digits and fits 64 bits.
// tried: `from_utf8` and `parse`, with which 60 KB of mixed commands take 13% more instructions
#[tactic(auto, using(crate::proofs::Digits::digits))]
fn value(field: &[u8]) -> Option<u64>
    ensures { result ≡ (if is_digits field.now && nat_lt (value_of field.now) (2 ^ 64)
        then Some (value_of field.now) else None) }
{
    let mut value: u64 = 0;
    for b in field {
        if !b.is_ascii_digit() {
            return None;
        }
        value = value.checked_mul(10)?.checked_add(u64::from(*b - b'0'))?;
    }
    Some(value)
}

// A number of any type, from the bytes that write it.
pub(crate) fn read<T: TryFrom<u64>>(field: &[u8]) -> Result<T, Refusal>
where
    T::Error: Drop,
    ensures { Reads T.try_from_gives field.now result }
{
    if !is_plain(field) {
        return Err(Refusal::BadNumber);
    }
    let value = value(field).ok_or(Refusal::BadNumber)?;
    T::try_from(value).map_err(|_| Refusal::BadNumber)
}
