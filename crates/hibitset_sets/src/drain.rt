//! Drains: walks that take each item out of the set.
ghost use Rattle.std.specs.Prelude.{◌≡◌, ℕ, ◌<◌, ◌==◌, Bool, not, ◌&&◌};
ghost use Rattle.std.specs.Iterator.{at_most};
ghost use Rattle.hibitset_sets.specs.Walk.{IsPlaced, walk, is_pending};

use crate::bit_set::BitSet;
use crate::bit_set_like::BitSetLike;
use crate::count::Uncounted;
use crate::iter::BitIter;
use crate::ops::{BitSetAnd, BitSetOr};
use crate::util::{Index, LAYERS};

/// A walk that takes each item out of the set. Dropped, it has taken out those that it gave.
pub struct DrainBitIter<'a, T> {
    set: &'a mut T,
    masks: [u64; LAYERS],
    prefix: [u32; 3],
    ghost placed: { IsPlaced masks prefix },
}

impl<T> Drop for DrainBitIter<'_, T> {
    ghost use Rattle.hibitset_sets.specs.Drain.{lent_set};

    /// Leaves the set as it is.
    fn drop(self)
        ensures { self.exit.0.now ≡ (lent_set self.entry).now }
    {
        let DrainBitIter {
            set: _,
            masks: _,
            prefix: _,
        } = self;
    }
}

impl<'a, T: DrainableBitSet> DrainBitIter<'a, T> {
    ghost use Rattle.hibitset_sets.specs.Drain.{drained_of, lent_set};

    /// A drain that goes on from these masks and prefixes, under the condition of `BitIter::new`.
    pub fn new(set: &'a mut T, masks: [u64; LAYERS], prefix: [u32; 3]) -> Self
        requires { IsPlaced masks prefix }
        ensures same_reference { (lent_set result).ghost_name ≡ set.entry.ghost_name }
        ensures set { (lent_set result).now ≡ set.old }
        ensures items { drained_of T.members result ≡ walk (is_pending (T.members set.old) masks prefix) }
    {
        DrainBitIter { set, masks, prefix }
    }
}

/// A set from which indices can be taken without memory.
pub trait DrainableBitSet: BitSetLike {
    ghost use Rattle.hibitset_sets.specs.Drain.{Without, drained_of, lent_set};

    /// Takes `i` out of the set, and answers whether it was a member.
    fn remove(&mut self, i: Index) -> bool
        ensures removed { result ≡ Self.members self.old i }
        ensures members { Without (Self.members self.old) i (Self.members self.new) };

    /// A walk that takes each item out of the set. Dropped after k items, it has taken out those.
    final fn drain<'a>(&'a mut self) -> DrainBitIter<'a, Self>
    where
        Self: Sized,
        ensures same_reference { (lent_set result).ghost_name ≡ self.entry.ghost_name }
        ensures set { (lent_set result).now ≡ self.old }
        ensures items { drained_of Self.members result ≡ walk (Self.members self.old) }
    {
        let layer3 = self.layer3();
        DrainBitIter::new(self, [0, 0, 0, layer3], [0, 0, 0])
    }
}

impl<'a, T: DrainableBitSet> Iterator for DrainBitIter<'a, T> {
    type Item = Index;

    ghost use Rattle.hibitset_sets.specs.Drain.{DrainsFirst, drained_of};
    ghost use Rattle.std.specs.Iterator.{item_count};

    ghost next_gives = { DrainsFirst T.members };

    ghost remaining = { item_count (drained_of T.members) };

    fn next(&mut self) -> Option<Index> {
        let mut iter = BitIter::new(&*self.set, self.masks, self.prefix);
        let next = iter.next_counted(&mut Uncounted);
        let (_, masks, prefix) = iter.into_parts();
        self.masks = masks;
        self.prefix = prefix;
        if let Some(i) = next {
            let _ = self.set.remove(i);
        }
        next
    }
}

impl DrainableBitSet for BitSet {
    fn remove(&mut self, i: Index) -> bool {
        BitSet::remove(self, i)
    }
}

impl<'b, T: DrainableBitSet> DrainableBitSet for &'b mut T {
    fn remove(&mut self, i: Index) -> bool {
        (**self).remove(i)
    }
}

impl<A: DrainableBitSet, B: DrainableBitSet> DrainableBitSet for BitSetAnd<A, B> {
    ghost use Rattle.hibitset_sets.specs.Drain.{LosesIf, Without};
    ghost use Rattle.hibitset_sets.specs.Operators.{members_of_and};

    /// Takes `i` out of both sets where both have it. Else both stay as they are.
    fn remove(&mut self, i: Index) -> bool
        ensures removed { result ≡ members_of_and (A.members self.old.0) (B.members self.old.1) i }
        ensures members { Without (members_of_and (A.members self.old.0) (B.members self.old.1)) i
            (members_of_and (A.members self.new.0) (B.members self.new.1)) }
        ensures first { LosesIf result (A.members self.old.0) i (A.members self.new.0) }
        ensures second { LosesIf result (B.members self.old.1) i (B.members self.new.1) }
    {
        let was = self.contains(i);
        if was {
            let _ = self.0.remove(i);
            let _ = self.1.remove(i);
        }
        was
    }
}

impl<A: DrainableBitSet, B: DrainableBitSet> DrainableBitSet for BitSetOr<A, B> {
    fn remove(&mut self, i: Index) -> bool {
        let one = self.0.remove(i);
        let other = self.1.remove(i);
        one || other
    }
}
