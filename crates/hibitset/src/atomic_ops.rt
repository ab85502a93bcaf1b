//! Operators over a set for several threads, and `for` over it, as the other sets have them.
ghost use Rattle.std.specs.Prelude.{◌≡◌};

use crate::atomic::AtomicBitSet;
use hibitset_sets::count::Uncounted;
use hibitset_sets::{BitIter, BitSetAnd, BitSetLike, BitSetNot, BitSetOr, BitSetXor, Index};
use std::ops::{BitAnd, BitOr, BitXor, Not};

impl<T: BitSetLike> BitAnd<T> for AtomicBitSet {
    type Output = BitSetAnd<AtomicBitSet, T>;

    ghost bitand_gives = { λ one other result. (result.0 ≡ one) × (result.1 ≡ other) };

    fn bitand(self, rhs: T) -> BitSetAnd<AtomicBitSet, T> {
        BitSetAnd(self, rhs)
    }
}

impl<'a, T: BitSetLike> BitAnd<T> for &'a AtomicBitSet {
    type Output = BitSetAnd<&'a AtomicBitSet, T>;

    ghost bitand_gives = { λ one other result. (result.0 ≡ one) × (result.1 ≡ other) };

    fn bitand(self, rhs: T) -> BitSetAnd<&'a AtomicBitSet, T> {
        BitSetAnd(self, rhs)
    }
}

impl<T: BitSetLike> BitOr<T> for AtomicBitSet {
    type Output = BitSetOr<AtomicBitSet, T>;

    ghost bitor_gives = { λ one other result. (result.0 ≡ one) × (result.1 ≡ other) };

    fn bitor(self, rhs: T) -> BitSetOr<AtomicBitSet, T> {
        BitSetOr(self, rhs)
    }
}

impl<'a, T: BitSetLike> BitOr<T> for &'a AtomicBitSet {
    type Output = BitSetOr<&'a AtomicBitSet, T>;

    ghost bitor_gives = { λ one other result. (result.0 ≡ one) × (result.1 ≡ other) };

    fn bitor(self, rhs: T) -> BitSetOr<&'a AtomicBitSet, T> {
        BitSetOr(self, rhs)
    }
}

impl<T: BitSetLike> BitXor<T> for AtomicBitSet {
    type Output = BitSetXor<AtomicBitSet, T>;

    ghost bitxor_gives = { λ one other result. (result.0 ≡ one) × (result.1 ≡ other) };

    fn bitxor(self, rhs: T) -> BitSetXor<AtomicBitSet, T> {
        BitSetXor(self, rhs)
    }
}

impl<'a, T: BitSetLike> BitXor<T> for &'a AtomicBitSet {
    type Output = BitSetXor<&'a AtomicBitSet, T>;

    ghost bitxor_gives = { λ one other result. (result.0 ≡ one) × (result.1 ≡ other) };

    fn bitxor(self, rhs: T) -> BitSetXor<&'a AtomicBitSet, T> {
        BitSetXor(self, rhs)
    }
}

impl Not for AtomicBitSet {
    type Output = BitSetNot<AtomicBitSet>;

    ghost not_gives = { λ set result. result.0 ≡ set };

    fn not(self) -> BitSetNot<AtomicBitSet> {
        BitSetNot(self)
    }
}

impl<'a> Not for &'a AtomicBitSet {
    type Output = BitSetNot<&'a AtomicBitSet>;

    ghost not_gives = { λ set result. result.0 ≡ set };

    fn not(self) -> BitSetNot<&'a AtomicBitSet> {
        BitSetNot(self)
    }
}

impl<'a> IntoIterator for &'a AtomicBitSet {
    type Item = Index;

    type IntoIter = BitIter<&'a AtomicBitSet>;

    ghost use Rattle.hibitset_sets.specs.BitSet.{has_member};
    ghost use Rattle.hibitset_sets.specs.Iter.{walks};

    ghost into_iter_gives = { walks (λ s. has_member s.now) };

    fn into_iter(self) -> BitIter<&'a AtomicBitSet> {
        self.iter()
    }
}

/// The walk over a set for several threads that it owns. A `for` over an `AtomicBitSet` by value goes through it.
#[derive(Drop)]
pub struct AtomicBitSetIter {
    walk: BitIter<AtomicBitSet>,
}

impl Iterator for AtomicBitSetIter {
    type Item = Index;

    ghost use Rattle.std.specs.Iterator.{YieldsFirst, item_count};
    ghost use Rattle.hibitset_sets.specs.BitSet.{has_member};
    ghost use Rattle.hibitset_sets.specs.Iter.{left_of};
    ghost use Rattle.hibitset.specs.Atomic.{owned_walk};

    ghost next_gives = { YieldsFirst (λ it. left_of has_member (owned_walk it)) };

    ghost remaining = { item_count (λ it. left_of has_member (owned_walk it)) };

    fn next(&mut self) -> Option<Index> {
        self.walk.next_counted(&mut Uncounted)
    }
}

impl IntoIterator for AtomicBitSet {
    type Item = Index;

    type IntoIter = AtomicBitSetIter;

    ghost use Rattle.std.specs.Prelude.{◌≡◌};
    ghost use Rattle.hibitset_sets.specs.BitSet.{has_member};
    ghost use Rattle.hibitset_sets.specs.Iter.{left_of};
    ghost use Rattle.hibitset_sets.specs.Walk.{walk};
    ghost use Rattle.hibitset.specs.Atomic.{owned_walk};

    ghost into_iter_gives = { λ set it. left_of has_member (owned_walk it) ≡ walk (has_member set) };

    fn into_iter(self) -> AtomicBitSetIter {
        AtomicBitSetIter { walk: self.iter() }
    }
}
