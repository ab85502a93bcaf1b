//! `AtomicBitSet` of the Rust crate, held by one owner; `share` gives it to threads.
ghost use Rattle.std.specs.Prelude.{◌≡◌, ℕ, ◌<◌, ◌≤◌, IsTrue, ◌↔◌, IsOk, IfOk, OnOk, OnErr, true, map, List};
ghost use Rattle.std.specs.FinSet as set;
ghost use Rattle.hibitset_sets.specs.BitSet.{has_member};
ghost use Rattle.hibitset.specs.AtomicCore.{AreWordsOf};
ghost use Rattle.hibitset.specs.Rows.{sizes_for};

use crate::rows::layers_in_row;
use hibitset_sets::count::Counter;
use hibitset_sets::{BitSet, BitSetLike, DrainableBitSet, Index};
use std::alloc::{AllocError, Global};
use std::marker::Model;

/// A set of indices below `MAX_EID`, held by one owner.
///
/// It has one bit for each index up to the greatest that it has room for, and 1/64 of that in
/// summaries, whatever its members are.
#[derive(Drop)]
pub struct AtomicBitSet {
    pub(crate) bits: BitSet,
}

impl Model for AtomicBitSet {
    ghost use Rattle.hibitset_sets.specs.BitSet.{SetWithRoom, set_with_room_code};

    ghost Value = { SetWithRoom };

    ghost coded = { set_with_room_code };

    ghost view = { λ s. s.bits };
}

impl AtomicBitSet {
    /// A set without members, which takes no memory.
    pub fn new(alloc: Global) -> AtomicBitSet
        ensures members { result.members ≡ set.empty }
        ensures room { result.room ≡ 0 }
    {
        AtomicBitSet {
            bits: BitSet::new(alloc),
        }
    }

    /// Makes room for each index below `max`: no `add` of one is refused until `clear`.
    ///
    /// Errors: `AllocError`, and the set is as it was.
    pub fn reserve(&mut self, max: Index) -> Result<(), AllocError>
        requires { max ≤ 16777216 }
        ensures ok { OnOk result (self.new.members ≡ self.old.members) }
        ensures room { OnOk result (max ≤ self.new.room) }
        ensures kept { self.old.room ≤ self.new.room }
        ensures succeeds { max ≤ self.old.room → IsOk result }
        ensures err { OnErr result (self.new ≡ self.old) }
    {
        self.bits.reserve(max)
    }

    /// Puts `id` into the set, and answers whether it was there already.
    ///
    /// Below the set's room it isn't refused.
    ///
    /// Errors: `AllocError`, and the set is as it was.
    pub fn add(&mut self, id: Index) -> Result<bool, AllocError>
        requires { id < 16777216 }
        ensures was_there { IfOk result (λ was. was ≡ set.contains self.old.members id) }
        ensures ok { OnOk result (self.new.members ≡ set.insert self.old.members id) }

        // Below the room it is never refused, the room does not shrink, and a refusal changes nothing.
        ensures succeeds { id < self.old.room → IsOk result }
        ensures room { self.old.room ≤ self.new.room }
        ensures holds { OnOk result (id < self.new.room) }
        ensures err { OnErr result (self.new ≡ self.old) }
    {
        self.bits.add(id)
    }

    /// Takes `id` out of the set, and answers whether it was a member.
    pub fn remove(&mut self, id: Index) -> bool
        ensures removed { result ≡ set.contains self.old.members id }
        ensures members { self.new.members ≡ set.remove self.old.members id }
        ensures room { self.new.room ≡ self.old.room }
    {
        self.bits.remove(id)
    }

    /// Whether `id` is a member.
    pub fn contains(&self, id: Index) -> bool
        ensures value { result ≡ set.contains self.now.members id }
        ensures within { set.contains self.now.members id ≡ true → id < self.now.room }
    {
        self.bits.contains(id)
    }

    /// Takes all members out, and gives up the room.
    pub fn clear(&mut self)
        ensures members { self.new.members ≡ set.empty }
        ensures room { self.new.room ≡ 0 }
    {
        self.bits.clear();
    }

    /// True where the set has no member.
    pub fn is_empty(&self) -> bool
        ensures { IsTrue result ↔ (self.now.members ≡ set.empty) }
    {
        self.bits.is_empty()
    }

    /// The words of the four layers that reach over the indices below `count`, in one row, the lowest
    /// layer first.
    ///
    /// Errors: `AllocError`.
    pub fn layers_in_row(&self, count: usize) -> Result<Vec<u64>, AllocError>
        requires few { count ≤ 16777216 }
        requires within { (index : ℕ) → has_member self.now index ≡ true → index < count }
        ensures { IfOk result (λ words. AreWordsOf (sizes_for count) (has_member self.now) words.items) }
    {
        layers_in_row(self.bits.allocator(), &self.bits, count)
    }
}

impl BitSetLike for AtomicBitSet {
    ghost use Rattle.hibitset_sets.specs.BitSet.{has_member};
    ghost use Rattle.hibitset_sets.specs.Words.{word_of};
    ghost use Rattle.hibitset_sets.specs.WordLemmas.{StandsOver-word_of, words_agree-word_of, word_of-lt};

    ghost members = { has_member };

    ghost words = { λ s. word_of (has_member s) };

    ghost reads = { λ _ _. 1 };

    ghost stands_over = { λ s. StandsOver-word_of (has_member s) };

    ghost words_agree = { λ s i _. words_agree-word_of (has_member s) i };

    ghost words_fit = { λ s. word_of-lt (has_member s) };

    fn read<C: Counter>(&self, count: &mut C, layer: usize, idx: usize) -> u64 {
        self.bits.read(count, layer, idx)
    }

    fn layer3(&self) -> u64 {
        self.bits.layer3()
    }

    fn layer2(&self, i: usize) -> u64 {
        self.bits.layer2(i)
    }

    fn layer1(&self, i: usize) -> u64 {
        self.bits.layer1(i)
    }

    fn layer0(&self, i: usize) -> u64 {
        self.bits.layer0(i)
    }

    fn contains(&self, i: Index) -> bool {
        self.bits.contains(i)
    }
}

impl DrainableBitSet for AtomicBitSet {
    fn remove(&mut self, i: Index) -> bool {
        AtomicBitSet::remove(self, i)
    }
}

ghost use Rattle.std.specs.Iterator.{ExtendsWithItems};
ghost use Rattle.hibitset_sets.specs.Extend.{Extends, ExtendsRef, GivesOnly, IsIndex, IsIndexRef, IsMadeOf};

impl AtomicBitSet {
    /// Puts the indices in, in the order in which they come. Each has to be below `MAX_EID`.
    ///
    /// Errors: `AllocError`, and the indices that came before are in.
    pub fn extend_indices<U: IntoIterator<Item = Index>>(
        &mut self,
        indices: U,
    ) -> Result<(), AllocError>
        requires { GivesOnly U.into_iter_gives U.IntoIter.can_next U.IntoIter.remaining U.IntoIter.next_gives
            IsIndex indices }
        ensures { ExtendsWithItems U.into_iter_gives U.IntoIter.next_gives Extends indices self.old self.new result }
    {
        self.bits.extend_indices(indices)
    }

    /// Puts the indices in that references refer to, as `extend_indices` does.
    ///
    /// Errors: `AllocError`, and the indices that came before are in.
    pub fn extend_indices_by_ref<'a, U: IntoIterator<Item = &'a Index>>(
        &mut self,
        indices: U,
    ) -> Result<(), AllocError>
        requires { GivesOnly U.into_iter_gives U.IntoIter.can_next U.IntoIter.remaining U.IntoIter.next_gives
            IsIndexRef indices }
        ensures { ExtendsWithItems U.into_iter_gives U.IntoIter.next_gives ExtendsRef indices self.old self.new result }
    {
        self.bits.extend_indices_by_ref(indices)
    }

    /// The set of the indices, each of which has to be below `MAX_EID`.
    ///
    /// Errors: `AllocError`.
    pub fn from_indices<U: IntoIterator<Item = Index>>(
        alloc: Global,
        indices: U,
    ) -> Result<AtomicBitSet, AllocError>
        requires { GivesOnly U.into_iter_gives U.IntoIter.can_next U.IntoIter.remaining U.IntoIter.next_gives
            IsIndex indices }
        ensures { IfOk result (IsMadeOf U.into_iter_gives U.IntoIter.next_gives Extends indices) }
    {
        let bits = BitSet::from_indices(alloc, indices)?;
        Ok(AtomicBitSet { bits })
    }

    /// The set of the indices that references refer to, as `from_indices` makes it.
    ///
    /// Errors: `AllocError`.
    pub fn from_indices_by_ref<'a, U: IntoIterator<Item = &'a Index>>(
        alloc: Global,
        indices: U,
    ) -> Result<AtomicBitSet, AllocError>
        requires { GivesOnly U.into_iter_gives U.IntoIter.can_next U.IntoIter.remaining U.IntoIter.next_gives
            IsIndexRef indices }
        ensures { IfOk result (IsMadeOf U.into_iter_gives U.IntoIter.next_gives ExtendsRef indices) }
    {
        let bits = BitSet::from_indices_by_ref(alloc, indices)?;
        Ok(AtomicBitSet { bits })
    }
}
