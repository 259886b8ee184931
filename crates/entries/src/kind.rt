ghost use Rattle.std.specs.Prelude.{◌≡◌, ℕ, Bool};

use names::Stamp;

// A kind of entry that stores can keep: any two entries have a join (the merge of a semilattice), so that
// copies which took the same entries hold the same, in whatever order and however often these came.
pub trait Joinable: Copy {
    // the one blank entry
    ghost empty: { Self };

    // the join of two entries
    ghost joined: { Self → Self → Self };

    fn blank() -> Self
        ensures { result ≡ empty };

    fn join(self, other: Self) -> Self
        ensures { result ≡ joined self other };

    ghost idempotent: { (a : Self) → joined a a ≡ a };

    ghost commutative: { (a b : Self) → joined a b ≡ joined b a };

    ghost associative: { (a b c : Self) → joined (joined a b) c ≡ joined a (joined b c) };
}

// A kind that rings can keep: its entries also say when they were made, and whether their form is sound.
pub trait Dated: Joinable {
    // the stamp of an entry
    ghost dated: { Self → ℕ };

    // whether an entry's form is sound
    ghost formed: { Self → Bool };

    fn stamp(&self) -> Stamp
        ensures { result ≡ dated self.now };

    fn is_sound(&self) -> bool
        ensures { result ≡ formed self.now };
}
