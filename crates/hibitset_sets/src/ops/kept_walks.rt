//! A `for` over a kept set by value.
use crate::bit_set::BitSet;
use crate::bit_set_like::BitSetLike;
use crate::count::Uncounted;
use crate::iter::BitIter;
use crate::util::Index;

/// The walk over a set that it owns. A `for` over a `BitSet` by value goes through it.
#[derive(Drop)]
pub struct BitSetIter {
    walk: BitIter<BitSet>,
}

impl Iterator for BitSetIter {
    type Item = Index;

    ghost use Rattle.std.specs.Iterator.{YieldsFirst, item_count};
    ghost use Rattle.hibitset_sets.specs.BitSet.{has_member};
    ghost use Rattle.hibitset_sets.specs.Iter.{left_of, owned_walk};

    ghost next_gives = { YieldsFirst (λ it. left_of has_member (owned_walk it)) };

    ghost remaining = { item_count (λ it. left_of has_member (owned_walk it)) };

    fn next(&mut self) -> Option<Index> {
        self.walk.next_counted(&mut Uncounted)
    }
}

impl IntoIterator for BitSet {
    type Item = Index;

    type IntoIter = BitSetIter;

    ghost use Rattle.std.specs.Prelude.{◌≡◌};
    ghost use Rattle.hibitset_sets.specs.BitSet.{has_member};
    ghost use Rattle.hibitset_sets.specs.Iter.{left_of, owned_walk};
    ghost use Rattle.hibitset_sets.specs.Walk.{walk};

    ghost into_iter_gives = { λ set it. left_of has_member (owned_walk it) ≡ walk (has_member set) };

    fn into_iter(self) -> BitSetIter {
        BitSetIter { walk: self.iter() }
    }
}
