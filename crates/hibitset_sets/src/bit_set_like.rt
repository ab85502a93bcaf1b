//! What every set of indices answers, whether it is kept or virtual.
ghost use Rattle.std.specs.Prelude.{◌≡◌, ℕ, ◌+◌, ◌/◌, ◌%◌, ◌^◌, ◌<◌, ◌==◌, ◌↔◌, [], ◌∷◌, Bool};
ghost use Rattle.std.specs.Prelude.{true, false, IsTrue, if◌then◌else◌};
ghost use Rattle.hibitset_sets.specs.Iter.{left_of, unread, walked_set, masks_left};
ghost use Rattle.hibitset_sets.specs.Walk.{walk, words_walked};
ghost use Rattle.hibitset_sets.specs.Words.{is_marked, StandsOver};

use crate::count::{Counter, Uncounted};
use crate::iter::{BitIter, walks_nothing};
use crate::util::Index;

/// A set of indices that can be read as layers of words.
///
/// Below `MAX_EID` the words and `contains` tell the same members. A bit of a higher layer stands
/// over each word below it that isn't zero; over a word that is zero it may stand too.
pub trait BitSetLike {
    /// Whether an index is a member.
    ghost members: { Self → ℕ → Bool };

    /// The words of each layer, by their position in it.
    ghost words: { Self → ℕ → ℕ → ℕ };

    /// How many words of kept sets a word of a layer is read from.
    ghost reads: { Self → ℕ → ℕ };

    /// The word at `idx` of `layer`, which is at most 3. Layer 3 has one word, whatever `idx` is.
    fn get_from_layer(&self, layer: usize, idx: usize) -> u64
        requires { layer < 4 }
        ensures { result ≡ words self.now layer (if layer == 3 then 0 else idx) }
    {
        match layer {
            0 => self.layer0(idx),
            1 => self.layer1(idx),
            2 => self.layer2(idx),
            _ => self.layer3(),
        }
    }

    /// `get_from_layer`, telling of each word of a kept set that is read.
    fn read<C: Counter>(&self, count: &mut C, layer: usize, idx: usize) -> u64
        requires { layer < 4 }
        ensures value { result ≡ words self.now layer (if layer == 3 then 0 else idx) }
        ensures counted { C.ticked count.old (reads self.now layer) count.new };

    /// The word of layer 3.
    fn layer3(&self) -> u64
        ensures { result ≡ words self.now 3 0 };

    /// Word `i` of layer 2. It has its meaning for `i` below 64.
    fn layer2(&self, i: usize) -> u64
        ensures { result ≡ words self.now 2 i };

    /// Word `i` of layer 1. It has its meaning for `i` below 4096.
    fn layer1(&self, i: usize) -> u64
        ensures { result ≡ words self.now 1 i };

    /// Word `i` of layer 0. It has its meaning for `i` below 262,144.
    fn layer0(&self, i: usize) -> u64
        ensures { result ≡ words self.now 0 i };

    /// Whether `i` is a member.
    fn contains(&self, i: Index) -> bool
        ensures { result ≡ members self.now i };

    /// A walk over the members below `MAX_EID`, in ascending order.
    final fn iter(self) -> BitIter<Self>
    where
        Self: Sized,
        ensures set { walked_set result ≡ self }
        ensures items { left_of members result ≡ walk (members self) }
        ensures masks { masks_left result ≡ 0 ∷ 0 ∷ 0 ∷ words self 3 0 ∷ [] }
    {
        self.iter_counted(&mut Uncounted)
    }

    /// The same walk, telling of the word that making it reads.
    final fn iter_counted<C: Counter>(self, count: &mut C) -> BitIter<Self>
    where
        Self: Sized,
        ensures set { walked_set result ≡ self }
        ensures items { left_of members result ≡ walk (members self) }
        ensures masks { masks_left result ≡ 0 ∷ 0 ∷ 0 ∷ words self 3 0 ∷ [] }
        ensures unread { reads self 3 + unread reads words result ≡ words_walked (reads self) (words self) }
        ensures counted { C.ticked count.old (reads self 3) count.new }
    {
        let layer3 = self.read(count, 3, 0);
        BitIter::new(self, [0, 0, 0, layer3], [0, 0, 0])
    }

    /// True where no index below `MAX_EID` is a member.
    final fn is_empty(&self) -> bool
    where
        Self: Sized,
        ensures { IsTrue result ↔ ((i : ℕ) → i < 16777216 → members self.now i ≡ false) }
    {
        walks_nothing(self)
    }

    /// A bit that is set has its summary bit set.
    ghost stands_over: { (set : Self) → StandsOver (words set) };

    /// Below `MAX_EID` the bits of layer 0 are the members.
    ghost words_agree: { (set : Self) (i : ℕ) → i < 16777216 → is_marked (words set) 0 i ≡ members set i };

    /// Each word has 64 bits.
    ghost words_fit: { (set : Self) (layer i : ℕ) → words set layer i < 2 ^ 64 };
}

impl<'a, T: BitSetLike> BitSetLike for &'a T {
    ghost members = { λ set. T.members set.now };

    ghost words = { λ set. T.words set.now };

    ghost reads = { λ set. T.reads set.now };

    ghost stands_over = { λ set. T.stands_over set.now };

    ghost words_agree = { λ set. T.words_agree set.now };

    ghost words_fit = { λ set. T.words_fit set.now };

    fn read<C: Counter>(&self, count: &mut C, layer: usize, idx: usize) -> u64 {
        (**self).read(count, layer, idx)
    }

    fn layer3(&self) -> u64 {
        (**self).layer3()
    }

    fn layer2(&self, i: usize) -> u64 {
        (**self).layer2(i)
    }

    fn layer1(&self, i: usize) -> u64 {
        (**self).layer1(i)
    }

    fn layer0(&self, i: usize) -> u64 {
        (**self).layer0(i)
    }

    fn contains(&self, i: Index) -> bool {
        (**self).contains(i)
    }
}

impl<'a, T: BitSetLike> BitSetLike for &'a mut T {
    ghost members = { λ set. T.members set.now };

    ghost words = { λ set. T.words set.now };

    ghost reads = { λ set. T.reads set.now };

    ghost stands_over = { λ set. T.stands_over set.now };

    ghost words_agree = { λ set. T.words_agree set.now };

    ghost words_fit = { λ set. T.words_fit set.now };

    fn read<C: Counter>(&self, count: &mut C, layer: usize, idx: usize) -> u64 {
        (**self).read(count, layer, idx)
    }

    fn layer3(&self) -> u64 {
        (**self).layer3()
    }

    fn layer2(&self, i: usize) -> u64 {
        (**self).layer2(i)
    }

    fn layer1(&self, i: usize) -> u64 {
        (**self).layer1(i)
    }

    fn layer0(&self, i: usize) -> u64 {
        (**self).layer0(i)
    }

    fn contains(&self, i: Index) -> bool {
        (**self).contains(i)
    }
}
