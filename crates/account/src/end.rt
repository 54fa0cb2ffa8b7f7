ghost use Rattle.std.specs.Prelude.{[]};

use crate::accounts::Accounts;
use record::record::Record;
use record::refusal::Refusal;

// No account: each call of one is refused. The three say so alike, each for the result that it has.
#[derive(Clone, Copy)]
pub struct End;

impl Accounts for End {
    ghost books = { λ _. [] };

    ghost keeps = { λ _. tt };

    ghost lent = { λ _. [] };

    fn count(&self) -> usize {
        0
    }

    fn append(&mut self, k: usize, r: &Record) -> Result<usize, Refusal> {
        Err(Refusal::NoSuchAccount)
    }

    fn read(&self, k: usize, place: usize) -> Result<Record, Refusal> {
        Err(Refusal::NoSuchAccount)
    }

    fn length(&self, k: usize) -> Result<usize, Refusal> {
        Err(Refusal::NoSuchAccount)
    }
}
