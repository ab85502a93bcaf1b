//! Several masks in one.
ghost use Rattle.std.specs.Prelude.{◌≡◌, ℕ, Bool, ◌&&◌};

use hibitset::{BitSetAnd, BitSetLike};

/// A tuple of sets that can be made one.
pub trait BitAnd {
    /// The set of what is in all of them.
    type Value: BitSetLike;

    /// Whether an index is in all sets of the tuple.
    ghost in_all: { Self → ℕ → Bool };

    /// The set of the indices that are in all sets of the tuple.
    fn and(self) -> Self::Value
    where
        Self: Sized,
        ensures members { (index : ℕ) → Self.Value.members result index ≡ in_all self index };
}

impl<A: BitSetLike> BitAnd for (A,) {
    type Value = A;

    ghost in_all = { λ sets. A.members sets.0 };

    fn and(self) -> A
        ensures members { (index : ℕ) → A.members result index ≡ A.members self.0 index }
        ensures sets { result ≡ self.0 }
    {
        self.0
    }
}

impl<A: BitSetLike, B: BitSetLike> BitAnd for (A, B) {
    type Value = BitSetAnd<A, B>;

    ghost use Rattle.std.specs.Prelude.{◌&&◌};

    ghost in_all = { λ sets index. A.members sets.0 index && B.members sets.1 index };

    fn and(self) -> BitSetAnd<A, B>
        ensures members { (index : ℕ) → (A.members result.0 index && B.members result.1 index)
            ≡ (A.members self.0 index && B.members self.1 index) }
        ensures first { result.0 ≡ self.0 }
        ensures second { result.1 ≡ self.1 }
    {
        let (one, other) = self;
        BitSetAnd(one, other)
    }
}

impl<A: BitSetLike, B: BitSetLike, C: BitSetLike> BitAnd for (A, B, C) {
    type Value = BitSetAnd<A, BitSetAnd<B, C>>;

    ghost use Rattle.std.specs.Prelude.{◌&&◌};

    ghost in_all = { λ sets index. A.members sets.0 index && (B.members sets.1 index && C.members sets.2 index) };

    fn and(self) -> BitSetAnd<A, BitSetAnd<B, C>>
        ensures members { (here : ℕ) → (A.members result.0 here
            && (B.members result.1.0 here && C.members result.1.1 here))
            ≡ (A.members self.0 here && (B.members self.1 here && C.members self.2 here)) }
        ensures first { result.0 ≡ self.0 }
        ensures second { result.1.0 ≡ self.1 }
        ensures third { result.1.1 ≡ self.2 }
    {
        let (first, second, third) = self;
        BitSetAnd(first, BitSetAnd(second, third))
    }
}

impl<A: BitSetLike, B: BitSetLike, C: BitSetLike, D: BitSetLike> BitAnd for (A, B, C, D) {
    type Value = BitSetAnd<BitSetAnd<A, B>, BitSetAnd<C, D>>;

    ghost use Rattle.std.specs.Prelude.{◌&&◌};

    ghost in_all = { λ sets index. (A.members sets.0 index && B.members sets.1 index)
        && (C.members sets.2 index && D.members sets.3 index) };

    fn and(self) -> BitSetAnd<BitSetAnd<A, B>, BitSetAnd<C, D>>
        ensures members { (index : ℕ) → ((A.members result.0.0 index && B.members result.0.1 index)
            && (C.members result.1.0 index && D.members result.1.1 index))
            ≡ ((A.members self.0 index && B.members self.1 index)
            && (C.members self.2 index && D.members self.3 index)) }
        ensures first { result.0.0 ≡ self.0 }
        ensures second { result.0.1 ≡ self.1 }
        ensures third { result.1.0 ≡ self.2 }
        ensures fourth { result.1.1 ≡ self.3 }
    {
        let (first, second, third, fourth) = self;
        BitSetAnd(BitSetAnd(first, second), BitSetAnd(third, fourth))
    }
}
