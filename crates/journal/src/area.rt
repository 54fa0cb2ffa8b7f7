ghost use Rattle.std.specs.Prelude.{◌≡◌, IfOk};
ghost use Rattle.journal.specs.Area.{inspected, reading_of, read_area, limit};

use crate::view::View;
use record::record::Record;
use record::refusal::Refusal;
use std::alloc::{AllocError, Global};

// The most records that an area may hold.
const MOST: usize = 4096;

// Why an area was not inspected to its end: the area or the version, or the record at a place counted from 0.
#[derive(Clone, Copy, Debug, PartialEq, Eq)]
pub enum Fault {
    Request(Refusal),
    Record(usize, Refusal),
}

// What an area of whole records says about a version.
pub fn inspect(area: &[u8], version: u32) -> Result<View, Fault>
    ensures { result ≡ inspected area.now version }
{
    if area.len() % 16 != 0 || area.len() > 16 * MOST {
        return Err(Fault::Request(Refusal::NotWhole));
    }
    if version > 1023 {
        return Err(Fault::Request(Refusal::TooWide));
    }
    if version == 0 {
        return Err(Fault::Request(Refusal::NoVersion));
    }
    let mut view = View::new();
    for (place, bytes) in area.chunks(16).enumerate() {
        let r = Record::from_bytes(bytes).map_err(|refusal| Fault::Record(place, refusal))?;
        view.tell(version, &r);
    }
    Ok(view)
}

// The records at the front of an area, and why the one after them is none, if one comes.
#[derive(Drop)]
pub struct Reading {
    pub records: Vec<Record>,
    pub refusal: Option<Refusal>,
}

// Reads an area up to its end or to the first thing in it that is no record.
pub fn read_area(heap: Global, area: &[u8]) -> Result<Reading, AllocError>
    ensures { IfOk result (λ x. reading_of x ≡ read_area limit area.now) }
{
    let mut records = Vec::new(heap);
    for bytes in area.chunks(16) {
        if records.len() == MOST {
            return Ok(Reading {
                records,
                refusal: Some(Refusal::NotWhole),
            });
        }
        match Record::from_bytes(bytes) {
            Ok(r) => records.push(r)?,
            Err(e) => return Ok(Reading {
                records,
                refusal: Some(e),
            }),
        }
    }
    Ok(Reading {
        records,
        refusal: None,
    })
}
