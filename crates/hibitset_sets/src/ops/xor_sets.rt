//! `^`: the virtual set of the indices in one of two sets and not in both.
ghost use Rattle.std.specs.Prelude.{◌≡◌};

use crate::bit_set::BitSet;
use crate::bit_set_like::BitSetLike;
use crate::ops::{BitSetAll, BitSetAnd, BitSetNot, BitSetOr, BitSetXor};
use std::ops::BitXor;

impl<T: BitSetLike> BitXor<T> for BitSet {
    type Output = BitSetXor<BitSet, T>;

    ghost bitxor_gives = { λ one other result. (result.0 ≡ one) × (result.1 ≡ other) };

    fn bitxor(self, rhs: T) -> BitSetXor<BitSet, T> {
        BitSetXor(self, rhs)
    }
}

impl<'a, T: BitSetLike> BitXor<T> for &'a BitSet {
    type Output = BitSetXor<&'a BitSet, T>;

    ghost bitxor_gives = { λ one other result. (result.0 ≡ one) × (result.1 ≡ other) };

    fn bitxor(self, rhs: T) -> BitSetXor<&'a BitSet, T> {
        BitSetXor(self, rhs)
    }
}

impl<A: BitSetLike, B: BitSetLike, T: BitSetLike> BitXor<T> for BitSetAnd<A, B> {
    type Output = BitSetXor<BitSetAnd<A, B>, T>;

    ghost bitxor_gives = { λ one other result. (result.0 ≡ one) × (result.1 ≡ other) };

    fn bitxor(self, rhs: T) -> BitSetXor<BitSetAnd<A, B>, T> {
        BitSetXor(self, rhs)
    }
}

impl<'a, A: BitSetLike, B: BitSetLike, T: BitSetLike> BitXor<T> for &'a BitSetAnd<A, B> {
    type Output = BitSetXor<&'a BitSetAnd<A, B>, T>;

    ghost bitxor_gives = { λ one other result. (result.0 ≡ one) × (result.1 ≡ other) };

    fn bitxor(self, rhs: T) -> BitSetXor<&'a BitSetAnd<A, B>, T> {
        BitSetXor(self, rhs)
    }
}

impl<A: BitSetLike, B: BitSetLike, T: BitSetLike> BitXor<T> for BitSetOr<A, B> {
    type Output = BitSetXor<BitSetOr<A, B>, T>;

    ghost bitxor_gives = { λ one other result. (result.0 ≡ one) × (result.1 ≡ other) };

    fn bitxor(self, rhs: T) -> BitSetXor<BitSetOr<A, B>, T> {
        BitSetXor(self, rhs)
    }
}

impl<'a, A: BitSetLike, B: BitSetLike, T: BitSetLike> BitXor<T> for &'a BitSetOr<A, B> {
    type Output = BitSetXor<&'a BitSetOr<A, B>, T>;

    ghost bitxor_gives = { λ one other result. (result.0 ≡ one) × (result.1 ≡ other) };

    fn bitxor(self, rhs: T) -> BitSetXor<&'a BitSetOr<A, B>, T> {
        BitSetXor(self, rhs)
    }
}

impl<A: BitSetLike, B: BitSetLike, T: BitSetLike> BitXor<T> for BitSetXor<A, B> {
    type Output = BitSetXor<BitSetXor<A, B>, T>;

    ghost bitxor_gives = { λ one other result. (result.0 ≡ one) × (result.1 ≡ other) };

    fn bitxor(self, rhs: T) -> BitSetXor<BitSetXor<A, B>, T> {
        BitSetXor(self, rhs)
    }
}

impl<'a, A: BitSetLike, B: BitSetLike, T: BitSetLike> BitXor<T> for &'a BitSetXor<A, B> {
    type Output = BitSetXor<&'a BitSetXor<A, B>, T>;

    ghost bitxor_gives = { λ one other result. (result.0 ≡ one) × (result.1 ≡ other) };

    fn bitxor(self, rhs: T) -> BitSetXor<&'a BitSetXor<A, B>, T> {
        BitSetXor(self, rhs)
    }
}

impl<A: BitSetLike, T: BitSetLike> BitXor<T> for BitSetNot<A> {
    type Output = BitSetXor<BitSetNot<A>, T>;

    ghost bitxor_gives = { λ one other result. (result.0 ≡ one) × (result.1 ≡ other) };

    fn bitxor(self, rhs: T) -> BitSetXor<BitSetNot<A>, T> {
        BitSetXor(self, rhs)
    }
}

impl<'a, A: BitSetLike, T: BitSetLike> BitXor<T> for &'a BitSetNot<A> {
    type Output = BitSetXor<&'a BitSetNot<A>, T>;

    ghost bitxor_gives = { λ one other result. (result.0 ≡ one) × (result.1 ≡ other) };

    fn bitxor(self, rhs: T) -> BitSetXor<&'a BitSetNot<A>, T> {
        BitSetXor(self, rhs)
    }
}

impl<T: BitSetLike> BitXor<T> for BitSetAll {
    type Output = BitSetXor<BitSetAll, T>;

    ghost bitxor_gives = { λ one other result. (result.0 ≡ one) × (result.1 ≡ other) };

    fn bitxor(self, rhs: T) -> BitSetXor<BitSetAll, T> {
        BitSetXor(self, rhs)
    }
}

impl<'a, T: BitSetLike> BitXor<T> for &'a BitSetAll {
    type Output = BitSetXor<&'a BitSetAll, T>;

    ghost bitxor_gives = { λ one other result. (result.0 ≡ one) × (result.1 ≡ other) };

    fn bitxor(self, rhs: T) -> BitSetXor<&'a BitSetAll, T> {
        BitSetXor(self, rhs)
    }
}
