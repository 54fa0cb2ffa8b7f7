ghost use Rattle.std.specs.Prelude.{◌≡◌, ◌<◌, true, [], ◌∷◌, length, is_ok};
ghost use Rattle.record.specs.Entry.{entry_of};
ghost use Rattle.account.specs.Books.{appended, empty};
ghost use Rattle.storage.specs.Sizes.{row_room};
ghost use Rattle.storage.specs.VersionedFiles.{rows_of, file_book, filled};
ghost use Rattle.storage.specs.Kept.{file-keeps};

use super::VersionedFile;
use crate::row::Row;
use account::account::Account;
use record::numbers::Numbers;
use record::record::Record;
use record::refusal::Refusal;

// Twins of a byte log's calls only in outline: see there.
impl<'a> VersionedFile<'a> {
    // How many records a slice has room for, or that no file can be founded on it.
    pub fn check(rows: &[Row]) -> Result<usize, Refusal>
        ensures { result ≡ row_room (length rows.now) }
    {
        let size = rows.len();
        if size < 1 || size > 4096 {
            return Err(Refusal::BadSize);
        }
        Ok(size)
    }

    // An empty file over a slice that `check` accepts, whatever the rows hold.
    pub fn new(rows: &'a mut [Row]) -> VersionedFile<'a>
        requires { is_ok (row_room (length rows.old)) ≡ true }
        ensures book { file_book result ≡ empty (length rows.old) }
        ensures used { result.used ≡ 0 }
        ensures rows { rows_of result ≡ rows.old }
        ensures name { result.rows.ghost_name ≡ rows.entry.ghost_name }
    {
        VersionedFile { rows, used: 0 }
    }
}

impl Account for VersionedFile<'_> {
    ghost book = { file_book };

    ghost keeps = { file-keeps };

    ghost lent = { λ s. s.rows.ghost_name ∷ [] };

    fn append(&mut self, r: &Record) -> Result<usize, Refusal>
        ensures call { (result, file_book self.new) ≡ appended (file_book self.old) (entry_of r.now) }
        ensures lent { self.new.rows.ghost_name ∷ [] ≡ self.old.rows.ghost_name ∷ [] }
        ensures rows { rows_of self.new ≡ filled self.old (entry_of r.now) }
    {
        let used = self.used;
        if used >= self.rows.len() {
            return Err(Refusal::Full);
        }
        self.rows[used] = Row::new(r, used);
        self.used = used + 1;
        Ok(used + 1)
    }

    fn read(&self, place: usize) -> Result<Record, Refusal> {
        if place >= self.used {
            return Err(Refusal::PastEnd);
        }
        // a reader of such a file knows the newest row and goes back by the places in the rows
        let mut at = self.used - 1;
        while at > place {
            at = usize::from(self.rows[at].before);
        }
        Numbers::from(self.rows[at]).try_into()
    }

    fn length(&self) -> usize {
        self.used
    }
}
