//! Virtual sets: the connectives of sets, made without memory.
ghost use Rattle.std.specs.Prelude.{◌≡◌, ℕ, ◌+◌, ◌<◌, true};
ghost use Rattle.hibitset_sets.specs.Operators.{members_of_and, members_of_or, members_of_xor, members_of_not};
ghost use Rattle.hibitset_sets.specs.Operators.{words_of_and, words_of_or, words_of_xor, words_of_not};
ghost use Rattle.hibitset_sets.specs.Operators.{reads_of_not};
ghost use Rattle.hibitset_sets.specs.OperatorLemmas.{and-over, and-agree, and-fit, or-over, or-agree, or-fit};
ghost use Rattle.hibitset_sets.specs.OperatorLemmas.{xor-over, xor-agree, xor-fit, not-over, not-agree, not-fit};
ghost use Rattle.hibitset_sets.specs.OperatorLemmas.{all-over, all-agree, all-fit};

mod and_sets;
mod kept_walks;
mod not_sets;
mod or_sets;
mod walks;
mod xor_sets;

use crate::bit_set_like::BitSetLike;
use crate::count::Counter;
use crate::util::Index;
pub use kept_walks::BitSetIter;

/// The indices that are in both sets.
#[derive(Clone, Copy, Drop)]
pub struct BitSetAnd<A, B>(pub A, pub B);

/// The indices that are in one of two sets, or in both.
#[derive(Clone, Copy, Drop)]
pub struct BitSetOr<A, B>(pub A, pub B);

/// The indices that are in one of two sets, and not in both.
#[derive(Clone, Copy, Drop)]
pub struct BitSetXor<A, B>(pub A, pub B);

/// The indices that a set lacks. `contains` is true past `MAX_EID`, and the walk stops below it.
#[derive(Clone, Copy, Drop)]
pub struct BitSetNot<A>(pub A);

/// All indices.
#[derive(Clone, Copy, Drop)]
pub struct BitSetAll;

impl<A: BitSetLike, B: BitSetLike> BitSetLike for BitSetAnd<A, B> {
    ghost members = { λ set. members_of_and (A.members set.0) (B.members set.1) };

    ghost words = { λ set. words_of_and (A.words set.0) (B.words set.1) };

    ghost reads = { λ set layer. A.reads set.0 layer + B.reads set.1 layer };

    ghost stands_over = { λ set. and-over (A.words set.0) (B.words set.1) (A.stands_over set.0) (B.stands_over set.1) };

    ghost words_agree = { λ set. and-agree (A.words set.0) (B.words set.1) (A.members set.0) (B.members set.1)
        (A.words_agree set.0) (B.words_agree set.1) };

    ghost words_fit = { λ set. and-fit (A.words set.0) (B.words set.1) (A.words_fit set.0) };

    fn read<C: Counter>(&self, count: &mut C, layer: usize, idx: usize) -> u64 {
        let one = self.0.read(count, layer, idx);
        let other = self.1.read(count, layer, idx);
        one & other
    }

    fn layer3(&self) -> u64 {
        self.0.layer3() & self.1.layer3()
    }

    fn layer2(&self, i: usize) -> u64 {
        self.0.layer2(i) & self.1.layer2(i)
    }

    fn layer1(&self, i: usize) -> u64 {
        self.0.layer1(i) & self.1.layer1(i)
    }

    fn layer0(&self, i: usize) -> u64 {
        self.0.layer0(i) & self.1.layer0(i)
    }

    fn contains(&self, i: Index) -> bool {
        self.0.contains(i) && self.1.contains(i)
    }
}

impl<A: BitSetLike, B: BitSetLike> BitSetLike for BitSetOr<A, B> {
    ghost members = { λ set. members_of_or (A.members set.0) (B.members set.1) };

    ghost words = { λ set. words_of_or (A.words set.0) (B.words set.1) };

    ghost reads = { λ set layer. A.reads set.0 layer + B.reads set.1 layer };

    ghost stands_over = { λ set. or-over (A.words set.0) (B.words set.1) (A.stands_over set.0) (B.stands_over set.1) };

    ghost words_agree = { λ set. or-agree (A.words set.0) (B.words set.1) (A.members set.0) (B.members set.1)
        (A.words_agree set.0) (B.words_agree set.1) };

    ghost words_fit = { λ set. or-fit (A.words set.0) (B.words set.1) (A.words_fit set.0) (B.words_fit set.1) };

    fn read<C: Counter>(&self, count: &mut C, layer: usize, idx: usize) -> u64 {
        let one = self.0.read(count, layer, idx);
        let other = self.1.read(count, layer, idx);
        one | other
    }

    fn layer3(&self) -> u64 {
        self.0.layer3() | self.1.layer3()
    }

    fn layer2(&self, i: usize) -> u64 {
        self.0.layer2(i) | self.1.layer2(i)
    }

    fn layer1(&self, i: usize) -> u64 {
        self.0.layer1(i) | self.1.layer1(i)
    }

    fn layer0(&self, i: usize) -> u64 {
        self.0.layer0(i) | self.1.layer0(i)
    }

    fn contains(&self, i: Index) -> bool {
        self.0.contains(i) || self.1.contains(i)
    }
}

impl<A: BitSetLike, B: BitSetLike> BitSetLike for BitSetXor<A, B> {
    ghost members = { λ set. members_of_xor (A.members set.0) (B.members set.1) };

    ghost words = { λ set. words_of_xor (A.words set.0) (B.words set.1) };

    ghost reads = { λ set layer. A.reads set.0 layer + B.reads set.1 layer };

    ghost stands_over = { λ set. xor-over (A.words set.0) (B.words set.1) (A.stands_over set.0) (B.stands_over set.1) };

    ghost words_agree = { λ set. xor-agree (A.words set.0) (B.words set.1) (A.members set.0) (B.members set.1)
        (A.words_agree set.0) (B.words_agree set.1) };

    ghost words_fit = { λ set. xor-fit (A.words set.0) (B.words set.1) (A.words_fit set.0) (B.words_fit set.1) };

    fn read<C: Counter>(&self, count: &mut C, layer: usize, idx: usize) -> u64 {
        let one = self.0.read(count, layer, idx);
        let other = self.1.read(count, layer, idx);
        if layer == 0 { one ^ other } else { one | other }
    }

    fn layer3(&self) -> u64 {
        self.0.layer3() | self.1.layer3()
    }

    fn layer2(&self, i: usize) -> u64 {
        self.0.layer2(i) | self.1.layer2(i)
    }

    fn layer1(&self, i: usize) -> u64 {
        self.0.layer1(i) | self.1.layer1(i)
    }

    fn layer0(&self, i: usize) -> u64 {
        self.0.layer0(i) ^ self.1.layer0(i)
    }

    fn contains(&self, i: Index) -> bool {
        self.0.contains(i) ^ self.1.contains(i)
    }
}

impl<A: BitSetLike> BitSetLike for BitSetNot<A> {
    ghost members = { λ set. members_of_not (A.members set.0) };

    ghost words = { λ set. words_of_not (A.words set.0) };

    ghost reads = { λ set. reads_of_not (A.reads set.0) };

    ghost stands_over = { λ set. not-over (A.words set.0) };

    ghost words_agree = { λ set. not-agree (A.words set.0) (A.words_fit set.0) (A.members set.0)
        (A.words_agree set.0) };

    ghost words_fit = { λ set. not-fit (A.words set.0) };

    fn read<C: Counter>(&self, count: &mut C, layer: usize, idx: usize) -> u64 {
        if layer == 0 {
            !self.0.read(count, 0, idx)
        } else {
            u64::MAX
        }
    }

    fn layer3(&self) -> u64 {
        u64::MAX
    }

    fn layer2(&self, _i: usize) -> u64 {
        u64::MAX
    }

    fn layer1(&self, _i: usize) -> u64 {
        u64::MAX
    }

    fn layer0(&self, i: usize) -> u64 {
        !self.0.layer0(i)
    }

    fn contains(&self, i: Index) -> bool {
        !self.0.contains(i)
    }
}

impl BitSetLike for BitSetAll {
    ghost members = { λ _ _. true };

    ghost words = { λ _ _ _. 18446744073709551615 };

    ghost reads = { λ _ _. 0 };

    ghost stands_over = { λ _. all-over };

    ghost words_agree = { λ _ i _. all-agree i };

    ghost words_fit = { λ _. all-fit };

    fn read<C: Counter>(&self, _count: &mut C, _layer: usize, _idx: usize) -> u64 {
        u64::MAX
    }

    fn layer3(&self) -> u64 {
        u64::MAX
    }

    fn layer2(&self, _i: usize) -> u64 {
        u64::MAX
    }

    fn layer1(&self, _i: usize) -> u64 {
        u64::MAX
    }

    fn layer0(&self, _i: usize) -> u64 {
        u64::MAX
    }

    fn contains(&self, _i: Index) -> bool {
        true
    }
}
