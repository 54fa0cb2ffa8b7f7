ghost use Rattle.std.specs.Prelude.{◌≡◌, ◌≤◌};
ghost use Rattle.quorum.specs.Weights.{majority, majority_of, rule_in};
ghost use Rattle.quorum.specs.Weighing.{majority-lawful};

use crate::quorum::Quorum;
use record::refusal::Refusal;

// More than half of the accounts are a quorum.
#[derive(Clone, Copy)]
pub struct Majority {
    n: usize,
    ghost size_in: { (1 ≤ n) × (n ≤ 7) },
}

impl Majority {
    // The rule for n accounts, of which there are 1 to 7.
    pub fn new(n: usize) -> Result<Majority, Refusal>
        ensures { rule_in (λ m. majority m.n) result ≡ majority_of n }
    {
        if n < 1 || n > 7 {
            return Err(Refusal::BadAccountCount);
        }
        Ok(Majority { n })
    }
}

impl Quorum for Majority {
    ghost rule = { λ m. majority m.n };

    ghost lawful = { λ x. majority-lawful x.n x.size_in.0 x.size_in.1 };

    fn size(&self) -> usize {
        self.n
    }

    // tried: `filter(..).count()`, with which seven accounts take a third longer
    fn is_quorum(&self, set: [bool; 7]) -> bool {
        let members: usize = set[..self.n]
            .iter()
            .map(|marked| usize::from(*marked))
            .sum();
        2 * members > self.n
    }
}
