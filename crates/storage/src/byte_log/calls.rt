ghost use Rattle.std.specs.Prelude.{◌≡◌, ◌/◌, true, [], ◌∷◌, length, is_ok};
ghost use Rattle.record.specs.Entry.{entry_of};
ghost use Rattle.account.specs.Books.{appended, empty};
ghost use Rattle.storage.specs.Sizes.{byte_room};
ghost use Rattle.storage.specs.ByteLogs.{area_of, log_book, written};
ghost use Rattle.storage.specs.Kept.{log-keeps};

use super::ByteLog;
use account::account::Account;
use record::record::Record;
use record::refusal::Refusal;

// Each kind shows by itself what an account means, over memory of its own: what its calls have in common with the other kind's
// is that meaning, and stands in the trait.
impl<'a> ByteLog<'a> {
    // How many records an area has room for, or that no log can be founded on it.
    pub fn check(area: &[u8]) -> Result<usize, Refusal>
        ensures { result ≡ byte_room (length area.now) }
    {
        let size = area.len();
        if size % 16 != 0 || size < 16 || size > 65536 {
            return Err(Refusal::BadSize);
        }
        Ok(size / 16)
    }

    // An empty log over an area that `check` accepts, whatever the area holds.
    pub fn new(area: &'a mut [u8]) -> ByteLog<'a>
        requires { is_ok (byte_room (length area.old)) ≡ true }
        ensures book { log_book result ≡ empty (length area.old / 16) }
        ensures used { result.used ≡ 0 }
        ensures area { area_of result ≡ area.old }
        ensures name { result.area.ghost_name ≡ area.entry.ghost_name }
    {
        ByteLog { area, used: 0 }
    }
}

impl Account for ByteLog<'_> {
    ghost book = { log_book };

    ghost keeps = { log-keeps };

    ghost lent = { λ s. s.area.ghost_name ∷ [] };

    fn append(&mut self, r: &Record) -> Result<usize, Refusal>
        ensures call { (result, log_book self.new) ≡ appended (log_book self.old) (entry_of r.now) }
        ensures lent { self.new.area.ghost_name ∷ [] ≡ self.old.area.ghost_name ∷ [] }
        ensures area { area_of self.new ≡ written self.old (entry_of r.now) }
    {
        let used = self.used;
        let at = used * 16;
        if at >= self.area.len() {
            return Err(Refusal::Full);
        }
        self.area[at..at + 16].copy_from_slice(&r.to_bytes());
        self.used = used + 1;
        Ok(used + 1)
    }

    fn read(&self, place: usize) -> Result<Record, Refusal> {
        if place >= self.used {
            return Err(Refusal::PastEnd);
        }
        let at = place * 16;
        Record::from_bytes(&self.area[at..at + 16])
    }

    fn length(&self) -> usize {
        self.used
    }
}
