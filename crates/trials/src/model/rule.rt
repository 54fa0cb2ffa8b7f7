// Which sets of accounts are quorums: more than half of the accounts, or of their weight.
#[derive(Clone, Copy)]
pub enum Rule {
    Count,
    Weight([u8; 7]),
}

impl Rule {
    // Whether the marked ones of n accounts are a quorum.
    pub fn is_quorum(&self, n: usize, marks: &[bool; 7]) -> bool {
        let all = self.weight(n, &[true; 7]);
        let marked = self.weight(n, marks);
        marked.saturating_mul(2) > all
    }

    // The weight of the marked ones of n accounts. A fold: the check finds no bound for a `sum` after `take`.
    fn weight(&self, n: usize, marks: &[bool; 7]) -> u32 {
        let weights = match self {
            Rule::Count => [1; 7],
            Rule::Weight(weights) => *weights,
        };
        weights
            .iter()
            .zip(marks.iter())
            .take(n)
            .filter(|(_, mark)| **mark)
            .fold(0u32, |sum, (weight, _)| {
                sum.saturating_add(u32::from(*weight))
            })
    }
}
