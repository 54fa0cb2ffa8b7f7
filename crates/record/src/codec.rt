ghost use Rattle.std.specs.Prelude.{◌≡◌, ◌^◌, ◌<◌, false, IfSome, IfOk, Ok};
ghost use Rattle.record.specs.Checks.{unless};
ghost use Rattle.record.specs.Codes.{kind_number};
ghost use Rattle.record.specs.Entry.{entry_of, entry_in, ballot};
ghost use Rattle.record.specs.Halves.{value_in, head_of};
ghost use Rattle.record.specs.Layout.{too_wide, meaningless, entry_from, from_numbers, decoded, encoded};

use super::kind::Kind;
use super::numbers::Numbers;
use super::record::Record;
use super::refusal::Refusal;
use super::value::Value;

// The record of numbers that fit their widths, under the kind that they name.
fn meaningful(kind: Kind, n: Numbers) -> Result<Record, Refusal>
    requires named { kind_number kind ≡ n.kind }
    requires fits { too_wide n ≡ false }
    ensures { entry_in result ≡ unless (meaningless n) (entry_from n) }
{
    if n.attempt == 0 {
        return Err(Refusal::NoAttempt);
    }
    if n.version == 0 {
        return Err(Refusal::NoVersion);
    }
    if kind == Kind::Prepare && (n.root != 0 || n.setup != 0) {
        return Err(Refusal::PrepareWithValue);
    }
    let value = Value {
        root: n.root as u64,
        setup: n.setup as u32,
    };
    Ok(Record {
        kind,
        attempt: n.attempt as u16,
        device: n.device as u8,
        version: n.version as u16,
        value,
    })
}

// The value in its twelve bytes.
fn value_in(bytes: &[u8]) -> Option<Value>
    ensures value { result ≡ value_in bytes.now }
    ensures bound { IfSome result (λ v. (v.root < 2 ^ 64) × (v.setup < 2 ^ 32)) }
{
    let [r0, r1, r2, r3, r4, r5, r6, r7, s0, s1, s2, s3] = bytes else {
        return None;
    };
    let root = u64::from_be_bytes([*r0, *r1, *r2, *r3, *r4, *r5, *r6, *r7]);
    let setup = u32::from_be_bytes([*s0, *s1, *s2, *s3]);
    Some(Value { root, setup })
}

impl Record {
    // The record that sixteen bytes stand for, or why they stand for none.
    // This pair is named as std names such a pair at a number, and each says a fact that no `TryFrom` would: that the other undoes it.
    pub fn from_bytes(bytes: &[u8]) -> Result<Record, Refusal>
        ensures value { entry_in result ≡ decoded bytes.now }
        ensures back { IfOk result (λ x. encoded (entry_of x) ≡ bytes.now) }
    {
        let [a, b, c, d, rest @ ..] = bytes else {
            return Err(Refusal::NotWhole);
        };
        let Some(value) = value_in(rest) else {
            return Err(Refusal::NotWhole);
        };
        let head = u32::from_be_bytes([*a, *b, *c, *d]) as u64;
        let n = Numbers {
            kind: head >> 30,
            attempt: (head >> 14) & 0xffff,
            device: (head >> 10) & 0xf,
            version: head & 0x3ff,
            root: value.root as u128,
            setup: value.setup as u64,
        };
        meaningful(Kind::try_from(n.kind)?, n)
    }

    // Kind, attempt, device and version in 32 bits.
    fn head(&self) -> u32
        ensures { result ≡ head_of (entry_of self.now) }
    {
        let kind = u8::from(self.kind);
        ((kind as u32) << 30)
            | ((self.attempt as u32) << 14)
            | ((self.device as u32) << 10)
            | (self.version as u32)
    }

    // The sixteen bytes of the record, which stand for it and no other.
    pub fn to_bytes(&self) -> [u8; 16]
        ensures value { result ≡ encoded (entry_of self.now) }
        ensures back { decoded result ≡ Ok (entry_of self.now) }
    {
        let [a, b, c, d] = self.head().to_be_bytes();
        let [r0, r1, r2, r3, r4, r5, r6, r7] = self.value.root.to_be_bytes();
        let [s0, s1, s2, s3] = self.value.setup.to_be_bytes();
        [a, b, c, d, r0, r1, r2, r3, r4, r5, r6, r7, s0, s1, s2, s3]
    }

    // Higher attempts outbid lower ones, and higher devices outbid lower ones within an attempt.
    pub fn ballot(&self) -> u32
        ensures { result ≡ ballot (entry_of self.now) }
    {
        self.attempt as u32 * 16 + self.device as u32
    }
}

// The record of these numbers, or why there is none.
impl TryFrom<Numbers> for Record {
    type Error = Refusal;

    ghost try_from_gives = { λ n r. entry_in r ≡ from_numbers n };

    fn try_from(n: Numbers) -> Result<Record, Refusal> {
        let kind = Kind::try_from(n.kind)?;
        if n.attempt > 0xffff
            || n.device > 0xf
            || n.version > 0x3ff
            || n.root > u64::MAX as u128
            || n.setup > u32::MAX as u64
        {
            return Err(Refusal::TooWide);
        }
        meaningful(kind, n)
    }
}
