//! A `for` over a set walks its members below `MAX_EID`.
ghost use Rattle.std.specs.Prelude.{◌≡◌, true};
ghost use Rattle.hibitset_sets.specs.Operators.{members_of_and, members_of_or, members_of_xor, members_of_not};

use crate::bit_set::BitSet;
use crate::bit_set_like::BitSetLike;
use crate::iter::BitIter;
use crate::ops::{BitSetAll, BitSetAnd, BitSetNot, BitSetOr, BitSetXor};
use crate::util::Index;

impl<'a> IntoIterator for &'a BitSet {
    type Item = Index;

    type IntoIter = BitIter<&'a BitSet>;

    ghost use Rattle.std.specs.Prelude.{◌≡◌, true};
    ghost use Rattle.hibitset_sets.specs.BitSet.{has_member};
    ghost use Rattle.hibitset_sets.specs.Operators.{members_of_and, members_of_or, members_of_xor, members_of_not};
    ghost use Rattle.hibitset_sets.specs.Iter.{walks};

    ghost into_iter_gives = { walks (λ s. has_member s.now) };

    fn into_iter(self) -> BitIter<&'a BitSet> {
        self.iter()
    }
}

impl<A: BitSetLike + Drop, B: BitSetLike + Drop> IntoIterator for BitSetAnd<A, B> {
    type Item = Index;

    type IntoIter = BitIter<BitSetAnd<A, B>>;

    ghost use Rattle.std.specs.Prelude.{◌≡◌, true};
    ghost use Rattle.hibitset_sets.specs.BitSet.{has_member};
    ghost use Rattle.hibitset_sets.specs.Operators.{members_of_and, members_of_or, members_of_xor, members_of_not};
    ghost use Rattle.hibitset_sets.specs.Iter.{walks};

    ghost into_iter_gives = { walks (λ s. members_of_and (A.members s.0) (B.members s.1)) };

    fn into_iter(self) -> BitIter<BitSetAnd<A, B>> {
        self.iter()
    }
}

impl<'a, A: BitSetLike, B: BitSetLike> IntoIterator for &'a BitSetAnd<A, B> {
    type Item = Index;

    type IntoIter = BitIter<&'a BitSetAnd<A, B>>;

    ghost use Rattle.std.specs.Prelude.{◌≡◌, true};
    ghost use Rattle.hibitset_sets.specs.BitSet.{has_member};
    ghost use Rattle.hibitset_sets.specs.Operators.{members_of_and, members_of_or, members_of_xor, members_of_not};
    ghost use Rattle.hibitset_sets.specs.Iter.{walks};

    ghost into_iter_gives = { walks (λ s. members_of_and (A.members s.now.0) (B.members s.now.1)) };

    fn into_iter(self) -> BitIter<&'a BitSetAnd<A, B>> {
        self.iter()
    }
}

impl<A: BitSetLike + Drop, B: BitSetLike + Drop> IntoIterator for BitSetOr<A, B> {
    type Item = Index;

    type IntoIter = BitIter<BitSetOr<A, B>>;

    ghost use Rattle.std.specs.Prelude.{◌≡◌, true};
    ghost use Rattle.hibitset_sets.specs.BitSet.{has_member};
    ghost use Rattle.hibitset_sets.specs.Operators.{members_of_and, members_of_or, members_of_xor, members_of_not};
    ghost use Rattle.hibitset_sets.specs.Iter.{walks};

    ghost into_iter_gives = { walks (λ s. members_of_or (A.members s.0) (B.members s.1)) };

    fn into_iter(self) -> BitIter<BitSetOr<A, B>> {
        self.iter()
    }
}

impl<'a, A: BitSetLike, B: BitSetLike> IntoIterator for &'a BitSetOr<A, B> {
    type Item = Index;

    type IntoIter = BitIter<&'a BitSetOr<A, B>>;

    ghost use Rattle.std.specs.Prelude.{◌≡◌, true};
    ghost use Rattle.hibitset_sets.specs.BitSet.{has_member};
    ghost use Rattle.hibitset_sets.specs.Operators.{members_of_and, members_of_or, members_of_xor, members_of_not};
    ghost use Rattle.hibitset_sets.specs.Iter.{walks};

    ghost into_iter_gives = { walks (λ s. members_of_or (A.members s.now.0) (B.members s.now.1)) };

    fn into_iter(self) -> BitIter<&'a BitSetOr<A, B>> {
        self.iter()
    }
}

impl<A: BitSetLike + Drop, B: BitSetLike + Drop> IntoIterator for BitSetXor<A, B> {
    type Item = Index;

    type IntoIter = BitIter<BitSetXor<A, B>>;

    ghost use Rattle.std.specs.Prelude.{◌≡◌, true};
    ghost use Rattle.hibitset_sets.specs.BitSet.{has_member};
    ghost use Rattle.hibitset_sets.specs.Operators.{members_of_and, members_of_or, members_of_xor, members_of_not};
    ghost use Rattle.hibitset_sets.specs.Iter.{walks};

    ghost into_iter_gives = { walks (λ s. members_of_xor (A.members s.0) (B.members s.1)) };

    fn into_iter(self) -> BitIter<BitSetXor<A, B>> {
        self.iter()
    }
}

impl<'a, A: BitSetLike, B: BitSetLike> IntoIterator for &'a BitSetXor<A, B> {
    type Item = Index;

    type IntoIter = BitIter<&'a BitSetXor<A, B>>;

    ghost use Rattle.std.specs.Prelude.{◌≡◌, true};
    ghost use Rattle.hibitset_sets.specs.BitSet.{has_member};
    ghost use Rattle.hibitset_sets.specs.Operators.{members_of_and, members_of_or, members_of_xor, members_of_not};
    ghost use Rattle.hibitset_sets.specs.Iter.{walks};

    ghost into_iter_gives = { walks (λ s. members_of_xor (A.members s.now.0) (B.members s.now.1)) };

    fn into_iter(self) -> BitIter<&'a BitSetXor<A, B>> {
        self.iter()
    }
}

impl<A: BitSetLike + Drop> IntoIterator for BitSetNot<A> {
    type Item = Index;

    type IntoIter = BitIter<BitSetNot<A>>;

    ghost use Rattle.std.specs.Prelude.{◌≡◌, true};
    ghost use Rattle.hibitset_sets.specs.BitSet.{has_member};
    ghost use Rattle.hibitset_sets.specs.Operators.{members_of_and, members_of_or, members_of_xor, members_of_not};
    ghost use Rattle.hibitset_sets.specs.Iter.{walks};

    ghost into_iter_gives = { walks (λ s. members_of_not (A.members s.0)) };

    fn into_iter(self) -> BitIter<BitSetNot<A>> {
        self.iter()
    }
}

impl<'a, A: BitSetLike> IntoIterator for &'a BitSetNot<A> {
    type Item = Index;

    type IntoIter = BitIter<&'a BitSetNot<A>>;

    ghost use Rattle.std.specs.Prelude.{◌≡◌, true};
    ghost use Rattle.hibitset_sets.specs.BitSet.{has_member};
    ghost use Rattle.hibitset_sets.specs.Operators.{members_of_and, members_of_or, members_of_xor, members_of_not};
    ghost use Rattle.hibitset_sets.specs.Iter.{walks};

    ghost into_iter_gives = { walks (λ s. members_of_not (A.members s.now.0)) };

    fn into_iter(self) -> BitIter<&'a BitSetNot<A>> {
        self.iter()
    }
}

impl IntoIterator for BitSetAll {
    type Item = Index;

    type IntoIter = BitIter<BitSetAll>;

    ghost use Rattle.std.specs.Prelude.{◌≡◌, true};
    ghost use Rattle.hibitset_sets.specs.BitSet.{has_member};
    ghost use Rattle.hibitset_sets.specs.Operators.{members_of_and, members_of_or, members_of_xor, members_of_not};
    ghost use Rattle.hibitset_sets.specs.Iter.{walks};

    ghost into_iter_gives = { walks (λ s. λ _. true) };

    fn into_iter(self) -> BitIter<BitSetAll> {
        self.iter()
    }
}

impl<'a> IntoIterator for &'a BitSetAll {
    type Item = Index;

    type IntoIter = BitIter<&'a BitSetAll>;

    ghost use Rattle.std.specs.Prelude.{◌≡◌, true};
    ghost use Rattle.hibitset_sets.specs.BitSet.{has_member};
    ghost use Rattle.hibitset_sets.specs.Operators.{members_of_and, members_of_or, members_of_xor, members_of_not};
    ghost use Rattle.hibitset_sets.specs.Iter.{walks};

    ghost into_iter_gives = { walks (λ s. λ _. true) };

    fn into_iter(self) -> BitIter<&'a BitSetAll> {
        self.iter()
    }
}
