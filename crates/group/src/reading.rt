ghost use Rattle.std.specs.Prelude.{◌≡◌, length};
ghost use Rattle.protocol.specs.Device.{slot_at};
ghost use Rattle.protocol.specs.Reading.{is_own, seen_with, noted, notes_before};
ghost use Rattle.record.specs.Entry.{entry_of};
ghost use Rattle.group.specs.Models.{log_of, notes_from};

use crate::account_number::AccountNumber;
use crate::device::Device;
use crate::device_number::DeviceNumber;
use account::accounts::Accounts;
use journal::view::View;
use protocol::notes::Notes;
use protocol::phase::Phase;
use record::kind::Kind;
use record::record::Record;

// How long the log of account k is; no account has an empty one.
pub(crate) fn log_length<A: Accounts>(accounts: &A, k: usize) -> usize
    ensures { result ≡ length (log_of (A.Accounts.books accounts.now) k) }
{
    accounts.length(k).unwrap_or(0)
}

impl Device {
    // How far it has read account k.
    pub(crate) fn place(&self, k: AccountNumber) -> usize
        ensures { result ≡ (slot_at self.now k.number).place }
    {
        self.slots[k.number].place
    }

    // What it has noted about account k so far.
    pub(crate) fn notes(&self, k: AccountNumber) -> Notes
        ensures { result ≡ notes_before self.now k.number }
    {
        let slot = &self.slots[k.number];
        Notes {
            view: slot.view,
            own: slot.own,
            seen: self.seen,
        }
    }

    // Whether a record is its own ACCEPT, as device d, and is accepted after what the view says.
    fn confirms(&self, d: DeviceNumber, view: View, r: &Record) -> bool
        ensures { result ≡ is_own d.number self.now view (entry_of r.now) }
    {
        match (self.phase, r.kind) {
            (Phase::Accepting, Kind::Accept) => {
                let ballot = r.ballot();
                r.version == self.known + 1 && ballot >= view.promised && ballot == self.ballot(d)
            }
            _ => false,
        }
    }

    // The highest attempt in a record of its next version, with one record more.
    fn highest_attempt(&self, seen: u16, r: &Record) -> u16
        ensures { result ≡ seen_with self.now seen (entry_of r.now) }
    {
        if r.version == self.known + 1 {
            seen.max(r.attempt)
        } else {
            seen
        }
    }

    // Notes one record more, as device d.
    pub(crate) fn note(&self, d: DeviceNumber, notes: Notes, r: &Record) -> Notes
        ensures { result ≡ noted d.number self.now notes (entry_of r.now) }
    {
        let own = notes.own || self.confirms(d, notes.view, r);
        let seen = self.highest_attempt(notes.seen, r);
        let mut view = notes.view;
        view.tell(u32::from(self.known) + 1, r);
        Notes { view, own, seen }
    }

    // Notes all records of account k from its place to the end, as device d.
    pub(crate) fn note_all<A: Accounts>(
        &self,
        d: DeviceNumber,
        accounts: &A,
        k: AccountNumber,
        end: usize,
    ) -> Notes
        requires { end ≡ length (log_of (A.Accounts.books accounts.now) k.number) }
        ensures { result ≡ notes_from d.number self.now (A.Accounts.books accounts.now) k.number }
    {
        let mut notes = self.notes(k);
        for i in self.place(k)..end {
            if let Ok(r) = accounts.read(k.number, i) {
                notes = self.note(d, notes, &r);
            }
        }
        notes
    }
}
