//! Masks made of kept sets, whose walks read few words.
ghost use Rattle.std.specs.Prelude.{◌≡◌, ℕ, ◌+◌, ◌*◌, ◌≤◌, min, refl};
ghost use Rattle.hibitset_sets.specs.Walk.{words_walked};

use crate::bit_set::BitSet;
use crate::bit_set_like::BitSetLike;
use crate::ops::BitSetAnd;

/// A `BitSet`, a reference to such a mask, or the `BitSetAnd` of two.
pub trait KeptMasks: BitSetLike {
    /// How many kept sets the mask is made of.
    ghost kept: { Self → ℕ };

    /// How many members below `MAX_EID` the smallest of them has.
    ghost least: { Self → ℕ };

    /// Each word is read once from each kept set.
    ghost reads_kept: { (mask : Self) (layer : ℕ) → Self.reads mask layer ≡ kept mask };

    /// A walk goes through at most three words a member, and one.
    ghost few_words: { (mask : Self) → words_walked (λ _. 1) (Self.words mask) ≤ 3 * least mask + 1 };
}

impl KeptMasks for BitSet {
    ghost use Rattle.std.specs.Prelude.{refl};
    ghost use Rattle.hibitset_sets.specs.BitSet.{has_member};
    ghost use Rattle.hibitset_sets.specs.KeptMasks.{member_count};
    ghost use Rattle.hibitset_sets.specs.BoundLemmas.{walked-bound};

    ghost kept = { λ _. 1 };

    ghost least = { member_count };

    ghost reads_kept = { λ _ _. refl };

    ghost few_words = { λ mask. walked-bound (has_member mask) };
}

impl<'a, T: KeptMasks> KeptMasks for &'a T {
    ghost kept = { λ mask. T.kept mask.now };

    ghost least = { λ mask. T.least mask.now };

    ghost reads_kept = { λ mask. T.reads_kept mask.now };

    ghost few_words = { λ mask. T.few_words mask.now };
}

impl<A: KeptMasks, B: KeptMasks> KeptMasks for BitSetAnd<A, B> {
    ghost use Rattle.std.specs.Prelude.{◌+◌, min};
    ghost use Rattle.hibitset_sets.specs.BoundLemmas.{and-few};

    ghost kept = { λ mask. A.kept mask.0 + B.kept mask.1 };

    ghost least = { λ mask. min (A.least mask.0) (B.least mask.1) };

    ghost reads_kept = { λ mask layer. (λ j. A.reads_kept mask.0 layer j + B.reads_kept mask.1 layer j) };

    ghost few_words = { λ mask. and-few (A.words mask.0) (B.words mask.1) (A.least mask.0) (B.least mask.1)
        (A.few_words mask.0) (B.few_words mask.1) };
}
