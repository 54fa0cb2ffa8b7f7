ghost use Rattle.std.specs.Prelude.{◌≡◌, ℕ, ◌*◌, ◌%◌, ◌<◌, ◌≤◌, true, length, is_ok};
ghost use Rattle.record.specs.Layout.{decoded};
ghost use Rattle.storage.specs.Areas.{slot};

mod calls;

// Records side by side in a lent area of bytes, sixteen to a record. What lies past the last record is never written.
// How many are used stands beside the area, since that is lent and no memory is asked for.
#[derive(Drop)]
pub struct ByteLog<'a> {
    area: &'a mut [u8],
    used: usize,
    ghost whole: { (length area.now % 16 ≡ 0) × (16 ≤ length area.now) × (length area.now ≤ 65536) },
    ghost within: { used * 16 ≤ length area.now },
    ghost sound: { ((k : ℕ) → k < used → is_ok (decoded (slot area.now k)) ≡ true) },
}
