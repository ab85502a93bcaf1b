//! Walks: the members of a set below `MAX_EID`, in ascending order.
ghost use Rattle.std.specs.Prelude.{◌≡◌, ◌≢◌, ℕ, ◌+◌, ◌-◌, ◌/◌, ◌<◌, ◌≤◌, [], ◌∷◌, ◌++◌, false};
ghost use Rattle.std.specs.Prelude.{◌↔◌, Bool, IsTrue, IfSome, IfNone, slice_index};
ghost use Rattle.std.specs.Iterator.{YieldsFirst, item_count};
ghost use Rattle.hibitset_sets.specs.Walk.{walk, is_pending, IsPlaced};
ghost use Rattle.hibitset_sets.specs.Steps.{TakesLowest};

use crate::bit_set_like::BitSetLike;
use crate::count::{Counter, Uncounted};
use crate::util::{BITS, Index, LAYERS};
use std::alloc::AllocError;

/// A walk over the members of a set below `MAX_EID`, in ascending order.
///
/// Each mask is the rest of a word whose bits are still to be gone through, and each prefix the
/// number of that word's first bit in its layer.
#[derive(Drop)]
pub struct BitIter<T> {
    pub(crate) set: T,
    pub(crate) masks: [u64; LAYERS],
    pub(crate) prefix: [u32; 3],
    ghost placed: { IsPlaced masks prefix },
}

/// Takes the lowest bit out of the mask of a layer, and answers its place.
#[inline]
fn take_lowest(masks: &mut [u64; LAYERS], layer: usize) -> u32
    requires layer { layer < 4 }
    requires some { slice_index masks.old layer ≢ 0 }
    ensures { TakesLowest masks.old masks.new layer result }
{
    let word = masks[layer];
    let place = word.trailing_zeros();
    masks[layer] = word & !(1 << place);
    place
}

/// Takes the first index out of a walk that is known by its masks and prefixes alone, while the word at which it
/// stands has one. It reads no set, so none need be lent meanwhile.
#[inline]
pub fn take_in_word(masks: &mut [u64; LAYERS], prefix: &[u32; 3]) -> Index
    requires placed { IsPlaced masks.old prefix.now }
    requires some { slice_index masks.old 0 ≢ 0 }
    ensures placed { IsPlaced masks.new prefix.now }
    ensures items { (members : ℕ → Bool) → walk (is_pending members masks.old prefix.now)
        ≡ result ∷ walk (is_pending members masks.new prefix.now) }
    ensures gone { (members : ℕ → Bool) → is_pending members masks.new prefix.now result ≡ false }
{
    let place = take_lowest(masks, 0);
    prefix[0] + place
}

impl<T: BitSetLike> BitIter<T> {
    ghost use Rattle.hibitset_sets.specs.Walk.{word_indices, words_left};
    ghost use Rattle.hibitset_sets.specs.Iter.{left_of, unread, walked_set, masks_left, prefixes};

    /// A walk that goes on from these masks and prefixes.
    ///
    /// From each mask that isn't empty on upwards the prefixes have to be aligned and to agree, and
    /// the bits left above have to come later. The bits of `masks[0]` come first, as they stand.
    pub fn new(set: T, masks: [u64; LAYERS], prefix: [u32; 3]) -> Self
        requires { IsPlaced masks prefix }
        ensures items { left_of T.members result ≡ walk (is_pending (T.members set) masks prefix) }
        ensures set { walked_set result ≡ set }
        ensures masks { masks_left result ≡ masks }
        ensures prefix { prefixes result ≡ prefix }
    {
        BitIter { set, masks, prefix }
    }

    /// The set that is walked, the masks with the bits that are left, and their prefixes.
    ///
    /// `BitIter::new` of them is the same walk.
    pub fn into_parts(self) -> (T, [u64; LAYERS], [u32; 3])
        ensures set { result.0 ≡ walked_set self }
        ensures masks { result.1 ≡ masks_left self }
        ensures prefix { result.2 ≡ prefixes self }
        ensures placed { IsPlaced result.1 result.2 }
    {
        (self.set, self.masks, self.prefix)
    }

    /// Whether `i` is a member of the set that is walked.
    pub fn contains(&self, i: Index) -> bool
        ensures { result ≡ T.members (walked_set self.now) i }
    {
        self.set.contains(i)
    }

    /// The number of the first bit of the word at which `layer` stands.
    fn first_of(&self, layer: usize) -> u32
        requires { layer < 4 }
        ensures { result ≡ slice_index self.now.prefix layer }
    {
        if layer < 3 { self.prefix[layer] } else { 0 }
    }

    /// The lowest layer above 0 with a bit left, or `LAYERS` where there is none.
    fn lowest(&self) -> usize
        ensures range { 0 < result }
        ensures last { result ≤ 4 }
        ensures empty { (k : ℕ) → 0 < k → k < result → slice_index self.now.masks k ≡ 0 }
        ensures some { result < 4 → slice_index self.now.masks result ≢ 0 }
    {
        if self.masks[1] != 0 {
            1
        } else if self.masks[2] != 0 {
            2
        } else if self.masks[3] != 0 {
            3
        } else {
            LAYERS
        }
    }

    /// Takes the lowest index out of layer 0.
    #[inline]
    fn take(&mut self) -> Index
        requires { slice_index self.old.masks 0 ≢ 0 }
        ensures set { self.new.set ≡ self.old.set }
        ensures items { left_of T.members self.old ≡ result ∷ left_of T.members self.new }
        ensures range { result < 16777216 }
        ensures word { result / 64 ≡ slice_index self.new.prefix 0 / 64 }
        ensures gone { is_pending (T.members self.old.set) self.new.masks self.new.prefix result ≡ false }
        ensures unread { unread T.reads T.words self.new ≡ unread T.reads T.words self.old }
    {
        let place = take_lowest(&mut self.masks, 0);
        self.prefix[0] + place
    }

    /// Reads the word under the lowest bit of `layer` into the layer below.
    fn load<C: Counter>(&mut self, layer: usize, count: &mut C)
        requires above { 0 < layer }
        requires layer { layer < 4 }
        requires empty { (k : ℕ) → k < layer → slice_index self.old.masks k ≡ 0 }
        requires some { slice_index self.old.masks layer ≢ 0 }
        ensures set { self.new.set ≡ self.old.set }
        ensures items { left_of T.members self.new ≡ left_of T.members self.old }
        ensures words { (reads : ℕ → ℕ) → words_left reads (T.words self.old.set) self.old.masks self.old.prefix
            ≡ reads (layer - 1) + words_left reads (T.words self.old.set) self.new.masks self.new.prefix }
        ensures counted { C.ticked count.old (T.reads self.old.set (layer - 1)) count.new }
    {
        let below = layer - 1;
        let first = self.first_of(layer);
        let place = take_lowest(&mut self.masks, layer);
        let number = first + place;
        self.masks[below] = self.set.read(count, below, number as usize);
        self.prefix[below] = number << BITS;
    }

    /// The next item, telling of each word that is read.
    pub fn next_counted<C: Counter>(&mut self, count: &mut C) -> Option<Index>
        ensures item { YieldsFirst (left_of T.members) self.old result self.new }
        ensures range { IfSome result (λ i. i < 16777216) }
        ensures word { IfSome result (λ i. i / 64 ≡ slice_index (prefixes self.new) 0 / 64) }
        ensures gone { IfSome result (λ i. is_pending (T.members (walked_set self.old)) (masks_left self.new)
            (prefixes self.new) i ≡ false) }
        ensures set { walked_set self.new ≡ walked_set self.old }
        ensures fewer { unread T.reads T.words self.new ≤ unread T.reads T.words self.old }
        ensures ended { IfNone result (unread T.reads T.words self.new ≡ 0) }
        ensures counted { C.ticked count.old
            (unread T.reads T.words self.old - unread T.reads T.words self.new) count.new }
    {
        while self.masks[0] == 0 {
            let layer = self.lowest();
            if layer == LAYERS {
                return None;
            }
            self.load(layer, count);
        }
        Some(self.take())
    }

    /// The next index, and the bits of its word that are left behind it: the items go on with their indices, and then with
    /// those of later words, which alone are left.
    pub fn next_word(&mut self) -> Option<(Index, u64)>
        ensures items { IfSome result (λ word. left_of T.members self.old
            ≡ word.0 ∷ word_indices (word.0 / 64) word.1 ++ left_of T.members self.new) }
        ensures none { IfNone result (left_of T.members self.old ≡ []) }
        ensures range { IfSome result (λ word. word.0 < 16777216) }
        ensures set { walked_set self.new ≡ walked_set self.old }
    {
        let index = self.next_counted(&mut Uncounted)?;
        let more = self.masks[0];
        self.masks[0] = 0;
        Some((index, more))
    }
}

impl<T: BitSetLike + Drop> Iterator for BitIter<T> {
    type Item = Index;

    ghost use Rattle.std.specs.Iterator.{YieldsFirst, item_count};
    ghost use Rattle.hibitset_sets.specs.Iter.{left_of};

    ghost next_gives = { YieldsFirst (left_of T.members) };

    ghost remaining = { item_count (left_of T.members) };

    fn next(&mut self) -> Option<Index> {
        self.next_counted(&mut Uncounted)
    }
}

impl<T: Copy> Clone for BitIter<T> {
    ghost use Rattle.std.specs.Prelude.{◌≡◌, ⊤};

    ghost is_clone = { λ one other. other ≡ one };

    ghost is_infallible = { λ _. ⊤ };

    /// The same walk, from where this one stands. Takes no memory.
    fn clone(&self) -> Result<BitIter<T>, AllocError> {
        Ok(BitIter {
            set: self.set,
            masks: self.masks,
            prefix: self.prefix,
        })
    }
}

/// Whether a set has no member below `MAX_EID`, by looking for the first.
pub(crate) fn walks_nothing<T: BitSetLike>(set: &T) -> bool
    ensures { IsTrue result ↔ ((i : ℕ) → i < 16777216 → T.members set.now i ≡ false) }
{
    set.iter().next().is_none()
}
