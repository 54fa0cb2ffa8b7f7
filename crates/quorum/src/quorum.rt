ghost use Rattle.std.specs.Prelude.{◌≡◌};
ghost use Rattle.quorum.specs.Rules.{Rule, Lawful, marked};

// A rule says which sets of its accounts are quorums. It never changes.
// Whoever keeps the law may stand here: every promise above holds for it.
pub trait Quorum {
    ghost rule: { Self → Rule };

    // For how many accounts the rule was made.
    fn size(&self) -> usize
        ensures { result ≡ (rule self.now).size };

    // Marks of accounts from the rule's size on are passed over.
    fn is_quorum(&self, set: [bool; 7]) -> bool
        ensures { result ≡ (rule self.now).is_quorum (marked set) };

    ghost lawful: { (x : Self) → Lawful (rule x) };
}
