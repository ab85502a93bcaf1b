//! `&`: the virtual set of the indices in both.
ghost use Rattle.std.specs.Prelude.{◌≡◌};

use crate::bit_set::BitSet;
use crate::bit_set_like::BitSetLike;
use crate::ops::{BitSetAll, BitSetAnd, BitSetNot, BitSetOr, BitSetXor};
use std::ops::BitAnd;

impl<T: BitSetLike> BitAnd<T> for BitSet {
    type Output = BitSetAnd<BitSet, T>;

    ghost bitand_gives = { λ one other result. (result.0 ≡ one) × (result.1 ≡ other) };

    fn bitand(self, rhs: T) -> BitSetAnd<BitSet, T> {
        BitSetAnd(self, rhs)
    }
}

impl<'a, T: BitSetLike> BitAnd<T> for &'a BitSet {
    type Output = BitSetAnd<&'a BitSet, T>;

    ghost bitand_gives = { λ one other result. (result.0 ≡ one) × (result.1 ≡ other) };

    fn bitand(self, rhs: T) -> BitSetAnd<&'a BitSet, T> {
        BitSetAnd(self, rhs)
    }
}

impl<A: BitSetLike, B: BitSetLike, T: BitSetLike> BitAnd<T> for BitSetAnd<A, B> {
    type Output = BitSetAnd<BitSetAnd<A, B>, T>;

    ghost bitand_gives = { λ one other result. (result.0 ≡ one) × (result.1 ≡ other) };

    fn bitand(self, rhs: T) -> BitSetAnd<BitSetAnd<A, B>, T> {
        BitSetAnd(self, rhs)
    }
}

impl<'a, A: BitSetLike, B: BitSetLike, T: BitSetLike> BitAnd<T> for &'a BitSetAnd<A, B> {
    type Output = BitSetAnd<&'a BitSetAnd<A, B>, T>;

    ghost bitand_gives = { λ one other result. (result.0 ≡ one) × (result.1 ≡ other) };

    fn bitand(self, rhs: T) -> BitSetAnd<&'a BitSetAnd<A, B>, T> {
        BitSetAnd(self, rhs)
    }
}

impl<A: BitSetLike, B: BitSetLike, T: BitSetLike> BitAnd<T> for BitSetOr<A, B> {
    type Output = BitSetAnd<BitSetOr<A, B>, T>;

    ghost bitand_gives = { λ one other result. (result.0 ≡ one) × (result.1 ≡ other) };

    fn bitand(self, rhs: T) -> BitSetAnd<BitSetOr<A, B>, T> {
        BitSetAnd(self, rhs)
    }
}

impl<'a, A: BitSetLike, B: BitSetLike, T: BitSetLike> BitAnd<T> for &'a BitSetOr<A, B> {
    type Output = BitSetAnd<&'a BitSetOr<A, B>, T>;

    ghost bitand_gives = { λ one other result. (result.0 ≡ one) × (result.1 ≡ other) };

    fn bitand(self, rhs: T) -> BitSetAnd<&'a BitSetOr<A, B>, T> {
        BitSetAnd(self, rhs)
    }
}

impl<A: BitSetLike, B: BitSetLike, T: BitSetLike> BitAnd<T> for BitSetXor<A, B> {
    type Output = BitSetAnd<BitSetXor<A, B>, T>;

    ghost bitand_gives = { λ one other result. (result.0 ≡ one) × (result.1 ≡ other) };

    fn bitand(self, rhs: T) -> BitSetAnd<BitSetXor<A, B>, T> {
        BitSetAnd(self, rhs)
    }
}

impl<'a, A: BitSetLike, B: BitSetLike, T: BitSetLike> BitAnd<T> for &'a BitSetXor<A, B> {
    type Output = BitSetAnd<&'a BitSetXor<A, B>, T>;

    ghost bitand_gives = { λ one other result. (result.0 ≡ one) × (result.1 ≡ other) };

    fn bitand(self, rhs: T) -> BitSetAnd<&'a BitSetXor<A, B>, T> {
        BitSetAnd(self, rhs)
    }
}

impl<A: BitSetLike, T: BitSetLike> BitAnd<T> for BitSetNot<A> {
    type Output = BitSetAnd<BitSetNot<A>, T>;

    ghost bitand_gives = { λ one other result. (result.0 ≡ one) × (result.1 ≡ other) };

    fn bitand(self, rhs: T) -> BitSetAnd<BitSetNot<A>, T> {
        BitSetAnd(self, rhs)
    }
}

impl<'a, A: BitSetLike, T: BitSetLike> BitAnd<T> for &'a BitSetNot<A> {
    type Output = BitSetAnd<&'a BitSetNot<A>, T>;

    ghost bitand_gives = { λ one other result. (result.0 ≡ one) × (result.1 ≡ other) };

    fn bitand(self, rhs: T) -> BitSetAnd<&'a BitSetNot<A>, T> {
        BitSetAnd(self, rhs)
    }
}

impl<T: BitSetLike> BitAnd<T> for BitSetAll {
    type Output = BitSetAnd<BitSetAll, T>;

    ghost bitand_gives = { λ one other result. (result.0 ≡ one) × (result.1 ≡ other) };

    fn bitand(self, rhs: T) -> BitSetAnd<BitSetAll, T> {
        BitSetAnd(self, rhs)
    }
}

impl<'a, T: BitSetLike> BitAnd<T> for &'a BitSetAll {
    type Output = BitSetAnd<&'a BitSetAll, T>;

    ghost bitand_gives = { λ one other result. (result.0 ≡ one) × (result.1 ≡ other) };

    fn bitand(self, rhs: T) -> BitSetAnd<&'a BitSetAll, T> {
        BitSetAnd(self, rhs)
    }
}
