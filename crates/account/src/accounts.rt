ghost use Rattle.std.specs.Prelude.{◌≡◌, ℕ, List};
ghost use Rattle.record.specs.Entry.{entry_of, entry_in};
ghost use Rattle.account.specs.Books.{Book, AllKeep, counted, appended_at, fetched_at, length_at};

use record::record::Record;
use record::refusal::Refusal;

// Accounts side by side, of any kinds, told by a number from 0 on. A number without an account is refused.
pub trait Accounts {
    ghost books: { Self → List Book };

    ghost keeps: { (s : Self) → AllKeep (books s) };

    ghost lent: { Self → List ℕ };

    // How many accounts there are.
    fn count(&self) -> usize
        ensures { result ≡ counted (books self.now) };

    // Appends to account k.
    fn append(&mut self, k: usize, r: &Record) -> Result<usize, Refusal>
        ensures call { (result, books self.new) ≡ appended_at (books self.old) k (entry_of r.now) }
        ensures lent { lent self.new ≡ lent self.old };

    // Reads a record of account k.
    fn read(&self, k: usize, place: usize) -> Result<Record, Refusal>
        ensures { entry_in result ≡ fetched_at (books self.now) k place };

    // The length of account k.
    fn length(&self, k: usize) -> Result<usize, Refusal>
        ensures { result ≡ length_at (books self.now) k };
}
