ghost use Rattle.std.specs.Prelude.{◌≡◌, []};
ghost use Rattle.account.specs.Books.{empty};
ghost use Rattle.outsiders.specs.Shelves.{shelf_book, shelf-keeps};

use super::Shelf;
use account::account::Account;
use record::kind::Kind;
use record::record::Record;
use record::refusal::Refusal;
use record::value::Value;

impl Shelf {
    // An empty shelf. What lies on it before the first append means nothing.
    pub fn new() -> Shelf
        ensures { shelf_book result ≡ empty 4 }
    {
        let blank = Record {
            kind: Kind::Prepare,
            attempt: 1,
            device: 0,
            version: 1,
            value: Value::NONE,
        };
        Shelf {
            rows: [blank; 4],
            used: 0,
        }
    }
}

// As somebody else would write it, who has only the trait: nothing is shared with the two kinds of storage.
impl Account for Shelf {
    ghost book = { shelf_book };

    ghost keeps = { shelf-keeps };

    ghost lent = { λ _. [] };

    fn append(&mut self, r: &Record) -> Result<usize, Refusal> {
        let used = self.used;
        if used >= 4 {
            return Err(Refusal::Full);
        }
        self.rows[used] = *r;
        self.used = used + 1;
        Ok(used + 1)
    }

    fn read(&self, place: usize) -> Result<Record, Refusal> {
        if place >= self.used {
            return Err(Refusal::PastEnd);
        }
        let rows: &[Record] = &self.rows;
        Ok(rows[place])
    }

    fn length(&self) -> usize {
        self.used
    }
}
