ghost use Rattle.std.specs.Prelude.{◌≡◌, ℕ, List, length};
ghost use Rattle.record.specs.Entry.{entry_of, entry_in};
ghost use Rattle.account.specs.Books.{Book, Keeps, appended, fetched};

use record::record::Record;
use record::refusal::Refusal;

// A list of records that grows at its end, up to a maximum that never changes.
// Whoever meets these contracts is an account: nothing above asks for more.
pub trait Account {
    ghost book: { Self → Book };

    // The proof that each value keeps to its book's bounds.
    ghost keeps: { (s : Self) → Keeps (book s) };

    // The names of the references through which the account reaches memory that it was lent.
    // They stay the same, so a lender learns what its memory holds afterwards.
    ghost lent: { Self → List ℕ };

    // Adds a record at the end and answers the new length. Refused where the account is full.
    fn append(&mut self, r: &Record) -> Result<usize, Refusal>
        ensures call { (result, book self.new) ≡ appended (book self.old) (entry_of r.now) }
        ensures lent { lent self.new ≡ lent self.old };

    // The record at a place, counted from 0. Refused past the end.
    fn read(&self, place: usize) -> Result<Record, Refusal>
        ensures { entry_in result ≡ fetched (book self.now).log place };

    // How many records there are.
    fn length(&self) -> usize
        ensures { result ≡ length (book self.now).log };
}
