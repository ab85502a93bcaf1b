//! `|`: the virtual set of the indices in one of two sets or in both.
ghost use Rattle.std.specs.Prelude.{◌≡◌};

use crate::bit_set::BitSet;
use crate::bit_set_like::BitSetLike;
use crate::ops::{BitSetAll, BitSetAnd, BitSetNot, BitSetOr, BitSetXor};
use std::ops::BitOr;

impl<T: BitSetLike> BitOr<T> for BitSet {
    type Output = BitSetOr<BitSet, T>;

    ghost bitor_gives = { λ one other result. (result.0 ≡ one) × (result.1 ≡ other) };

    fn bitor(self, rhs: T) -> BitSetOr<BitSet, T> {
        BitSetOr(self, rhs)
    }
}

impl<'a, T: BitSetLike> BitOr<T> for &'a BitSet {
    type Output = BitSetOr<&'a BitSet, T>;

    ghost bitor_gives = { λ one other result. (result.0 ≡ one) × (result.1 ≡ other) };

    fn bitor(self, rhs: T) -> BitSetOr<&'a BitSet, T> {
        BitSetOr(self, rhs)
    }
}

impl<A: BitSetLike, B: BitSetLike, T: BitSetLike> BitOr<T> for BitSetAnd<A, B> {
    type Output = BitSetOr<BitSetAnd<A, B>, T>;

    ghost bitor_gives = { λ one other result. (result.0 ≡ one) × (result.1 ≡ other) };

    fn bitor(self, rhs: T) -> BitSetOr<BitSetAnd<A, B>, T> {
        BitSetOr(self, rhs)
    }
}

impl<'a, A: BitSetLike, B: BitSetLike, T: BitSetLike> BitOr<T> for &'a BitSetAnd<A, B> {
    type Output = BitSetOr<&'a BitSetAnd<A, B>, T>;

    ghost bitor_gives = { λ one other result. (result.0 ≡ one) × (result.1 ≡ other) };

    fn bitor(self, rhs: T) -> BitSetOr<&'a BitSetAnd<A, B>, T> {
        BitSetOr(self, rhs)
    }
}

impl<A: BitSetLike, B: BitSetLike, T: BitSetLike> BitOr<T> for BitSetOr<A, B> {
    type Output = BitSetOr<BitSetOr<A, B>, T>;

    ghost bitor_gives = { λ one other result. (result.0 ≡ one) × (result.1 ≡ other) };

    fn bitor(self, rhs: T) -> BitSetOr<BitSetOr<A, B>, T> {
        BitSetOr(self, rhs)
    }
}

impl<'a, A: BitSetLike, B: BitSetLike, T: BitSetLike> BitOr<T> for &'a BitSetOr<A, B> {
    type Output = BitSetOr<&'a BitSetOr<A, B>, T>;

    ghost bitor_gives = { λ one other result. (result.0 ≡ one) × (result.1 ≡ other) };

    fn bitor(self, rhs: T) -> BitSetOr<&'a BitSetOr<A, B>, T> {
        BitSetOr(self, rhs)
    }
}

impl<A: BitSetLike, B: BitSetLike, T: BitSetLike> BitOr<T> for BitSetXor<A, B> {
    type Output = BitSetOr<BitSetXor<A, B>, T>;

    ghost bitor_gives = { λ one other result. (result.0 ≡ one) × (result.1 ≡ other) };

    fn bitor(self, rhs: T) -> BitSetOr<BitSetXor<A, B>, T> {
        BitSetOr(self, rhs)
    }
}

impl<'a, A: BitSetLike, B: BitSetLike, T: BitSetLike> BitOr<T> for &'a BitSetXor<A, B> {
    type Output = BitSetOr<&'a BitSetXor<A, B>, T>;

    ghost bitor_gives = { λ one other result. (result.0 ≡ one) × (result.1 ≡ other) };

    fn bitor(self, rhs: T) -> BitSetOr<&'a BitSetXor<A, B>, T> {
        BitSetOr(self, rhs)
    }
}

impl<A: BitSetLike, T: BitSetLike> BitOr<T> for BitSetNot<A> {
    type Output = BitSetOr<BitSetNot<A>, T>;

    ghost bitor_gives = { λ one other result. (result.0 ≡ one) × (result.1 ≡ other) };

    fn bitor(self, rhs: T) -> BitSetOr<BitSetNot<A>, T> {
        BitSetOr(self, rhs)
    }
}

impl<'a, A: BitSetLike, T: BitSetLike> BitOr<T> for &'a BitSetNot<A> {
    type Output = BitSetOr<&'a BitSetNot<A>, T>;

    ghost bitor_gives = { λ one other result. (result.0 ≡ one) × (result.1 ≡ other) };

    fn bitor(self, rhs: T) -> BitSetOr<&'a BitSetNot<A>, T> {
        BitSetOr(self, rhs)
    }
}

impl<T: BitSetLike> BitOr<T> for BitSetAll {
    type Output = BitSetOr<BitSetAll, T>;

    ghost bitor_gives = { λ one other result. (result.0 ≡ one) × (result.1 ≡ other) };

    fn bitor(self, rhs: T) -> BitSetOr<BitSetAll, T> {
        BitSetOr(self, rhs)
    }
}

impl<'a, T: BitSetLike> BitOr<T> for &'a BitSetAll {
    type Output = BitSetOr<&'a BitSetAll, T>;

    ghost bitor_gives = { λ one other result. (result.0 ≡ one) × (result.1 ≡ other) };

    fn bitor(self, rhs: T) -> BitSetOr<&'a BitSetAll, T> {
        BitSetOr(self, rhs)
    }
}
