ghost use Rattle.std.specs.Prelude.{◌≡◌, ◌++◌, OnOk};
ghost use Rattle.record.specs.Entry.{entry_of};
ghost use Rattle.report.specs.Lines.{record_line, meaning_text, refusal_line, view_line, closing_line};

use crate::page::Page;
use journal::view::View;
use record::record::Record;
use record::refusal::Refusal;
use std::alloc::AllocError;

// What a refusal says of a record.
fn meaning(refusal: Refusal) -> &'static str
    ensures { result.now ≡ meaning_text refusal }
{
    match refusal {
        Refusal::NotWhole => "not sixteen bytes, or beyond the 4096 records of an area",
        Refusal::UnknownKind => "the kind is neither PREPARE nor ACCEPT",
        Refusal::NoAttempt => "the attempt is 0",
        Refusal::NoVersion => "the version is 0",
        Refusal::PrepareWithValue => "a PREPARE carries a value",
        _ => "no record",
    }
}

impl Page {
    // One record of a log, under its place.
    pub(crate) fn add_record(&mut self, place: usize, r: &Record) -> Result<(), AllocError>
        ensures { OnOk result (self.new ≡ self.old ++ record_line place (entry_of r.now)) }
    {
        write!(
            self.text,
            "{place} {} attempt {} device {} version {} ballot {}",
            r.kind,
            r.attempt,
            r.device,
            r.version,
            r.ballot()
        )?;
        writeln!(self.text, " root {} setup {}", r.value.root, r.value.setup)
    }

    // What stands at a place where a record should, and is none.
    pub(crate) fn add_refusal(&mut self, place: usize, refusal: Refusal) -> Result<(), AllocError>
        ensures { OnOk result (self.new ≡ self.old ++ refusal_line place refusal) }
    {
        writeln!(
            self.text,
            "{place} refused {}: {}",
            u8::from(refusal),
            meaning(refusal)
        )
    }

    // What the log says about one version.
    pub(crate) fn add_view(&mut self, version: u32, view: View) -> Result<(), AllocError>
        ensures { OnOk result (self.new ≡ self.old ++ view_line version view) }
    {
        writeln!(
            self.text,
            "version {version} promised {} accepted {} root {} setup {}",
            view.promised, view.accepted, view.value.root, view.value.setup
        )
    }

    // How many records there were, and of how many versions.
    pub(crate) fn add_counts(
        &mut self,
        prepares: usize,
        accepts: usize,
        versions: u32,
    ) -> Result<(), AllocError>
        ensures { OnOk result (self.new ≡ self.old ++ closing_line prepares accepts versions) }
    {
        writeln!(
            self.text,
            "read {prepares} PREPARE and {accepts} ACCEPT of {versions} versions"
        )
    }
}
