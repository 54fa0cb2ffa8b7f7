ghost use Rattle.std.specs.Prelude.{◌≡◌, ℕ, ◌-◌, ◌<◌, ◌≤◌, true, length, is_ok};
ghost use Rattle.record.specs.Layout.{from_numbers};
ghost use Rattle.storage.specs.Rows.{row_at, numbers_of};

use super::row::Row;

mod calls;

// Rows in a lent slice, each with the place of the one before it. A reader goes back from the newest.
// What lies past the last record is never written. How many are used stands beside the rows, since those are lent.
#[derive(Drop)]
pub struct VersionedFile<'a> {
    rows: &'a mut [Row],
    used: usize,
    ghost size: { (1 ≤ length rows.now) × (length rows.now ≤ 4096) },
    ghost within: { used ≤ length rows.now },
    ghost linked: { ((k : ℕ) → k < used → (row_at rows.now k).before ≡ k - 1) },
    ghost sound: { ((k : ℕ) → k < used → is_ok (from_numbers (numbers_of (row_at rows.now k))) ≡ true) },
}
