ghost use Rattle.std.specs.Prelude.{◌≡◌, ◌++◌, ◌==◌, map, position, IfOk, string_bytes, OnOk};
ghost use Rattle.record.specs.Entry.{entry_of};
ghost use Rattle.report.specs.Report.{record_lines, surveyed, version_lines, version_count, prepares, refusal_lines, front_text, reported};

use crate::page::Page;
use journal::area::{Reading, read_area};
use journal::view::View;
use record::kind::Kind;
use record::record::Record;
use record::refusal::Refusal;
use std::alloc::{AllocError, Global};

// Where the first record of a version stands.
fn first_of(records: &[Record], version: u32) -> Option<usize>
    ensures { result ≡ position (λ r. r.version == version) records.now }
{
    records.iter().position(|r| u32::from(r.version) == version)
}

// What the records say about a version, if one of them is of that version: those before the first of it say nothing.
fn survey(records: &[Record], version: u32) -> Option<View>
    ensures { result ≡ surveyed version (map entry_of records.now) }
{
    let first = first_of(records, version)?;
    let mut view = View::new();
    let rest = &records[first..];
    for r in rest {
        view.tell(version, r);
    }
    Some(view)
}

fn count_prepares(records: &[Record]) -> usize
    ensures { result ≡ prepares (map entry_of records.now) }
{
    records.iter().filter(|r| r.kind == Kind::Prepare).count()
}

impl Page {
    fn add_records(&mut self, records: &[Record]) -> Result<(), AllocError>
        ensures { OnOk result (self.new ≡ self.old ++ record_lines 0 (map entry_of records.now)) }
    {
        for (place, r) in records.iter().enumerate() {
            self.add_record(place, r)?;
        }
        Ok(())
    }

    // A line for each version that occurs, and how many there are.
    fn add_versions(&mut self, records: &[Record]) -> Result<u32, AllocError>
        ensures text { OnOk result (self.new ≡ self.old ++ version_lines 1023 1 (map entry_of records.now)) }
        ensures count { IfOk result (λ n. n ≡ version_count 1023 1 (map entry_of records.now)) }
    {
        let mut versions = 0;
        for version in 1..1024 {
            if let Some(view) = survey(records, version) {
                self.add_view(version, view)?;
                versions += 1;
            }
        }
        Ok(versions)
    }

    fn add_stop(&mut self, place: usize, refusal: Option<Refusal>) -> Result<(), AllocError>
        ensures { OnOk result (self.new ≡ self.old ++ refusal_lines place refusal) }
    {
        match refusal {
            Some(refusal) => self.add_refusal(place, refusal),
            None => Ok(()),
        }
    }

    fn add_front(&mut self, records: &[Record], refusal: Option<Refusal>) -> Result<(), AllocError>
        ensures { OnOk result (self.new ≡ self.old ++ front_text (map entry_of records.now) refusal) }
    {
        self.add_records(records)?;
        self.add_stop(records.len(), refusal)?;
        let versions = self.add_versions(records)?;
        let prepares = count_prepares(records);
        self.add_counts(prepares, records.len() - prepares, versions)
    }
}

// The report of an area of bytes, whatever it holds: all that is read before the first thing that is no record.
pub fn report(heap: Global, area: &[u8]) -> Result<String, AllocError>
    ensures { IfOk result (λ t. string_bytes t ≡ reported area.now) }
{
    let Reading { records, refusal } = read_area(heap, area)?;
    let mut page = Page {
        text: String::new(heap),
    };
    page.add_front(records.as_slice(), refusal)?;
    Ok(page.text)
}
