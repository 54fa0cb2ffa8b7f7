ghost use Rattle.std.specs.Prelude.{◌≡◌, ◌^◌, ◌<◌, ◌≤◌};
ghost use Rattle.record.specs.declared.kind.Kind.TheVariants.{Prepare};

use super::kind::Kind;
use super::value::Value;

// One request of one device about one version. No record exists outside these ranges.
#[derive(Clone, Copy, Debug, PartialEq, Eq)]
pub struct Record {
    pub kind: Kind,
    pub attempt: u16,
    pub device: u8,
    pub version: u16,
    pub value: Value,
    ghost attempt_in: { (1 ≤ attempt) × (attempt < 2 ^ 16) },
    ghost device_in: { device < 2 ^ 4 },
    ghost version_in: { (1 ≤ version) × (version < 2 ^ 10) },
    ghost value_in: { (value.root < 2 ^ 64) × (value.setup < 2 ^ 32) },
    ghost prepare_empty: { (kind ≡ Prepare → (value.root ≡ 0) × (value.setup ≡ 0)) },
}
