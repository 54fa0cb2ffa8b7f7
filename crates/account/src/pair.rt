ghost use Rattle.std.specs.Prelude.{◌∷◌, ◌++◌};

use crate::account::Account;
use crate::accounts::Accounts;
use record::record::Record;
use record::refusal::Refusal;

// One account, and those after it. The three calls go on alike: one function that picks
// the account could not answer it, since the first and the rest are of different types.
#[derive(Drop)]
pub struct Pair<'a, A, B> {
    pub first: &'a mut A,
    pub rest: B,
}

impl<'a, A: Account, B: Accounts> Accounts for Pair<'a, A, B> {
    ghost books = { λ p. A.Account.book p.first.now ∷ B.Accounts.books p.rest };

    ghost keeps = { λ p. (A.Account.keeps p.first.now, B.Accounts.keeps p.rest) };

    ghost lent = { λ p. p.first.ghost_name ∷ (A.Account.lent p.first.now ++ B.Accounts.lent p.rest) };

    fn count(&self) -> usize {
        self.rest.count().saturating_add(1)
    }

    fn append(&mut self, k: usize, r: &Record) -> Result<usize, Refusal> {
        if k == 0 {
            self.first.append(r)
        } else {
            self.rest.append(k - 1, r)
        }
    }

    fn read(&self, k: usize, place: usize) -> Result<Record, Refusal> {
        if k == 0 {
            self.first.read(place)
        } else {
            self.rest.read(k - 1, place)
        }
    }

    fn length(&self, k: usize) -> Result<usize, Refusal> {
        if k == 0 {
            Ok(self.first.length())
        } else {
            self.rest.length(k - 1)
        }
    }
}
