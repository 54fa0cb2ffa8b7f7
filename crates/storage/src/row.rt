ghost use Rattle.std.specs.Prelude.{◌≡◌, ◌<◌};
ghost use Rattle.record.specs.Entry.{entry_of};
ghost use Rattle.storage.specs.Rows.{row_of, numbers_of};

use record::numbers::Numbers;
use record::record::Record;

// One entry of a versioned file: a record's fields as bare numbers, and the place of the entry before it.
// Any numbers may stand here: the record is made from them on reading.
#[derive(Clone, Copy, Debug, PartialEq, Eq)]
pub struct Row {
    pub kind: u8,
    pub attempt: u16,
    pub device: u8,
    pub version: u16,
    pub root: u64,
    pub setup: u32,
    pub before: u16,
}

impl Row {
    // What an entry may hold before it is written.
    pub const BLANK: Row = Row {
        kind: 0,
        attempt: 0,
        device: 0,
        version: 0,
        root: 0,
        setup: 0,
        before: 0,
    };

    // The row of a record at a place.
    pub(crate) fn new(r: &Record, place: usize) -> Row
        requires { place < 4096 }
        ensures { result ≡ row_of (entry_of r.now) place }
    {
        Row {
            kind: r.kind.into(),
            attempt: r.attempt,
            device: r.device,
            version: r.version,
            root: r.value.root,
            setup: r.value.setup,
            before: place.saturating_sub(1) as u16,
        }
    }
}

// The numbers of the record in a row.
impl From<Row> for Numbers {
    ghost from_gives = { λ row n. n ≡ numbers_of row };

    fn from(row: Row) -> Numbers {
        Numbers {
            kind: row.kind.into(),
            attempt: row.attempt.into(),
            device: row.device.into(),
            version: row.version.into(),
            root: row.root.into(),
            setup: row.setup.into(),
        }
    }
}
