//! `!`: the virtual set of the indices that a set lacks.
ghost use Rattle.std.specs.Prelude.{◌≡◌};

use crate::bit_set::BitSet;
use crate::bit_set_like::BitSetLike;
use crate::ops::{BitSetAll, BitSetAnd, BitSetNot, BitSetOr, BitSetXor};
use std::ops::Not;

impl Not for BitSet {
    type Output = BitSetNot<BitSet>;

    ghost not_gives = { λ set result. result.0 ≡ set };

    fn not(self) -> BitSetNot<BitSet> {
        BitSetNot(self)
    }
}

impl<'a> Not for &'a BitSet {
    type Output = BitSetNot<&'a BitSet>;

    ghost not_gives = { λ set result. result.0 ≡ set };

    fn not(self) -> BitSetNot<&'a BitSet> {
        BitSetNot(self)
    }
}

impl<A: BitSetLike, B: BitSetLike> Not for BitSetAnd<A, B> {
    type Output = BitSetNot<BitSetAnd<A, B>>;

    ghost not_gives = { λ set result. result.0 ≡ set };

    fn not(self) -> BitSetNot<BitSetAnd<A, B>> {
        BitSetNot(self)
    }
}

impl<'a, A: BitSetLike, B: BitSetLike> Not for &'a BitSetAnd<A, B> {
    type Output = BitSetNot<&'a BitSetAnd<A, B>>;

    ghost not_gives = { λ set result. result.0 ≡ set };

    fn not(self) -> BitSetNot<&'a BitSetAnd<A, B>> {
        BitSetNot(self)
    }
}

impl<A: BitSetLike, B: BitSetLike> Not for BitSetOr<A, B> {
    type Output = BitSetNot<BitSetOr<A, B>>;

    ghost not_gives = { λ set result. result.0 ≡ set };

    fn not(self) -> BitSetNot<BitSetOr<A, B>> {
        BitSetNot(self)
    }
}

impl<'a, A: BitSetLike, B: BitSetLike> Not for &'a BitSetOr<A, B> {
    type Output = BitSetNot<&'a BitSetOr<A, B>>;

    ghost not_gives = { λ set result. result.0 ≡ set };

    fn not(self) -> BitSetNot<&'a BitSetOr<A, B>> {
        BitSetNot(self)
    }
}

impl<A: BitSetLike, B: BitSetLike> Not for BitSetXor<A, B> {
    type Output = BitSetNot<BitSetXor<A, B>>;

    ghost not_gives = { λ set result. result.0 ≡ set };

    fn not(self) -> BitSetNot<BitSetXor<A, B>> {
        BitSetNot(self)
    }
}

impl<'a, A: BitSetLike, B: BitSetLike> Not for &'a BitSetXor<A, B> {
    type Output = BitSetNot<&'a BitSetXor<A, B>>;

    ghost not_gives = { λ set result. result.0 ≡ set };

    fn not(self) -> BitSetNot<&'a BitSetXor<A, B>> {
        BitSetNot(self)
    }
}

impl<A: BitSetLike> Not for BitSetNot<A> {
    type Output = BitSetNot<BitSetNot<A>>;

    ghost not_gives = { λ set result. result.0 ≡ set };

    fn not(self) -> BitSetNot<BitSetNot<A>> {
        BitSetNot(self)
    }
}

impl<'a, A: BitSetLike> Not for &'a BitSetNot<A> {
    type Output = BitSetNot<&'a BitSetNot<A>>;

    ghost not_gives = { λ set result. result.0 ≡ set };

    fn not(self) -> BitSetNot<&'a BitSetNot<A>> {
        BitSetNot(self)
    }
}

impl Not for BitSetAll {
    type Output = BitSetNot<BitSetAll>;

    ghost not_gives = { λ set result. result.0 ≡ set };

    fn not(self) -> BitSetNot<BitSetAll> {
        BitSetNot(self)
    }
}

impl<'a> Not for &'a BitSetAll {
    type Output = BitSetNot<&'a BitSetAll>;

    ghost not_gives = { λ set result. result.0 ≡ set };

    fn not(self) -> BitSetNot<&'a BitSetAll> {
        BitSetNot(self)
    }
}
