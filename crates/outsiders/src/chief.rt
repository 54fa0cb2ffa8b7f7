ghost use Rattle.std.specs.Prelude.{◌≤◌};
ghost use Rattle.outsiders.specs.Chiefs.{chief};
ghost use Rattle.std.proofs.Common.{rules};

use quorum::quorum::Quorum;

// The sets that hold account 0 are the quorums, whatever else they hold.
#[derive(Clone, Copy)]
pub struct Chief {
    pub accounts: usize,
    ghost accounts_in: { (1 ≤ accounts) × (accounts ≤ 7) },
}

impl Quorum for Chief {
    ghost rule = { λ c. chief c.accounts };

    ghost lawful = { Prim.search rules };

    fn size(&self) -> usize {
        self.accounts
    }

    fn is_quorum(&self, set: [bool; 7]) -> bool {
        set[0]
    }
}
