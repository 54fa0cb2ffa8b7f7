ghost use Rattle.std.specs.Prelude.{◌≡◌, ◌≤◌, length};
ghost use Rattle.quorum.specs.Weights.{weight, everyone, weight_in, weighted, weighted_by, rule_in};
ghost use Rattle.std.proofs.Common.{arith};
ghost use Rattle.quorum.specs.Weighing.{weighted-lawful};

use crate::quorum::Quorum;
use record::refusal::Refusal;

// More than half of the weight of all accounts is a quorum.
// A fixed array with its length beside it: a rule is made without memory, and is copied.
#[derive(Clone, Copy)]
pub struct Weighted {
    n: usize,
    weights: [u8; 7],
    total: u32,
    ghost size_in: { (1 ≤ n) × (n ≤ 7) },
    ghost seven: { length weights ≡ 7 },
    ghost adds_up: { total ≡ weight (weight_in weights) n everyone },
    ghost heavy: { 1 ≤ total },
}

impl Weighted {
    // The rule for as many accounts as there are weights, 1 to 7, not all of them 0.
    pub fn new(weights: &[u8]) -> Result<Weighted, Refusal>
        ensures { rule_in (λ m. weighted (weight_in m.weights) m.n) result ≡ weighted_by weights.now }
    {
        let n = weights.len();
        if n < 1 || n > 7 {
            return Err(Refusal::BadAccountCount);
        }
        let total: u32 = weights.iter().map(|weight| u32::from(*weight)).sum();
        if total == 0 {
            return Err(Refusal::NoWeight);
        }
        let mut held = [0u8; 7];
        held[..n].copy_from_slice(weights);
        Ok(Weighted {
            n,
            weights: held,
            total,
        })
    }
}

impl Quorum for Weighted {
    ghost rule = { λ m. weighted (weight_in m.weights) m.n };

    ghost lawful = { λ x. weighted-lawful (weight_in x.weights) x.n x.size_in.0 x.size_in.1 (omega arith) };

    fn size(&self) -> usize {
        self.n
    }

    fn is_quorum(&self, set: [bool; 7]) -> bool {
        let mut weight = 0u32;
        for (marked, of_it) in set.iter().zip(&self.weights[..self.n]) {
            if *marked {
                weight += u32::from(*of_it);
            }
        }
        2 * weight > self.total
    }
}
