//! The set that is kept in memory.
ghost use Rattle.std.specs.Prelude.{◌≡◌, ◌≢◌, ℕ, ◌+◌, ◌-◌, ◌*◌, ◌/◌, ◌%◌, ◌^◌, ◌<◌, ◌≤◌, ◌==◌, Bool, true, false};
ghost use Rattle.std.specs.Prelude.{not, max, IsTrue, ◌↔◌, IsOk, IfOk, OnOk, OnErr, length, slice_index};
ghost use Rattle.std.specs.FinSet as set;

use crate::bit_set_like::BitSetLike;
use crate::count::Counter;
use crate::layers::{clear_bit, covers, extend_words, set_bit, word_or_zero};
use crate::util::{Index, Row, SHIFT0, SHIFT1};
use std::alloc::{AllocError, Global};
use std::marker::Model;

/// A set of indices below `MAX_EID`, in four layers of words.
///
/// It has one bit for each index up to the greatest that it has room for, and 1/64 of that in
/// summaries, whatever its members are.
#[derive(Drop)]
pub struct BitSet {
    layer3: u64,
    layer2: Vec<u64>,
    layer1: Vec<u64>,
    layer0: Vec<u64>,
}

impl Model for BitSet {
    ghost use Rattle.hibitset_sets.specs.BitSet.{SetWithRoom, set_with_room_code};

    ghost Value = { SetWithRoom };

    ghost coded = { set_with_room_code };

    ghost use Rattle.hibitset_sets.specs.Layout.{view_of, is_layered};

    ghost view = { view_of };

    ghost invariant = { is_layered };
}

impl BitSet {
    ghost use Rattle.hibitset_sets.specs.Assign.{PutsWord};
    ghost use Rattle.hibitset_sets.specs.BitSet.{has_member};
    ghost use Rattle.hibitset_sets.specs.Words.{word_of};

    /// How many bits a word has.
    pub const BITS_PER_USIZE: usize = 64;

    /// How many indices stand under one bit of layer 1.
    pub const LAYER1_GRANULARITY: usize = 64;

    /// How many indices stand under one bit of layer 2.
    pub const LAYER2_GRANULARITY: usize = 4096;

    /// A set without members, which takes no memory.
    pub fn new(alloc: Global) -> BitSet
        ensures members { result.members ≡ set.empty }
        ensures room { result.room ≡ 0 }
    {
        BitSet {
            layer3: 0,
            layer2: Vec::new(alloc),
            layer1: Vec::new(alloc),
            layer0: Vec::new(alloc),
        }
    }

    /// A set without members that has room for each index below `max`.
    ///
    /// Errors: `AllocError`.
    pub fn with_capacity(alloc: Global, max: Index) -> Result<BitSet, AllocError>
        requires { max ≤ 16777216 }
        ensures members { IfOk result (λ s. s.members ≡ set.empty) }
        ensures room { IfOk result (λ s. max ≤ s.room) }
    {
        let mut set = BitSet::new(alloc);
        set.reserve(max)?;
        Ok(set)
    }

    /// Makes room for each index below `max`: no `add` of one is refused until `clear`.
    ///
    /// Errors: `AllocError`, and the set is as it was.
    pub fn reserve(&mut self, max: Index) -> Result<(), AllocError>
        requires { max ≤ 16777216 }
        ensures ok { OnOk result (self.new.members ≡ self.old.members) }
        ensures room { OnOk result (max ≤ self.new.room) }
        ensures kept { self.old.room ≤ self.new.room }
        ensures succeeds { max ≤ self.old.room → IsOk result }
        ensures err { OnErr result (self.new ≡ self.old) }
    {
        self.grow((max as usize + 63) / 64)
    }

    /// Makes room for that many words of layer 0, and for their summaries.
    #[cold]
    #[inline(never)]
    pub(crate) fn grow(&mut self, words: usize) -> Result<(), AllocError>
        requires { words ≤ 262144 }
        ensures ok { OnOk result (self.new.members ≡ self.old.members) }
        ensures room { OnOk result (self.new.room ≡ max self.old.room (64 * words)) }
        ensures succeeds { 64 * words < self.old.room + 64 → IsOk result }
        ensures err { OnErr result (self.new ≡ self.old) }
    {
        if self.layer0.len() >= words {
            return Ok(());
        }
        let summaries = (words + 63) / 64;
        extend_words(&mut self.layer2, (summaries + 63) / 64)?;
        extend_words(&mut self.layer1, summaries)?;
        extend_words(&mut self.layer0, words)
    }

    /// Puts `id` into the set, and answers whether it was there already.
    ///
    /// Below the set's room it isn't refused.
    ///
    /// Errors: `AllocError`, and the set is as it was.
    #[inline]
    pub fn add(&mut self, id: Index) -> Result<bool, AllocError>
        requires { id < 16777216 }
        ensures was_there { IfOk result (λ was. was ≡ set.contains self.old.members id) }
        ensures ok { OnOk result (self.new.members ≡ set.insert self.old.members id) }

        // Below the room it is never refused, the room does not shrink, and a refusal changes nothing.
        ensures succeeds { id < self.old.room → IsOk result }
        ensures room { self.old.room ≤ self.new.room }
        ensures holds { OnOk result (id < self.new.room) }
        ensures err { OnErr result (self.new ≡ self.old) }
    {
        let place = id.offset(SHIFT1);
        if place >= self.layer0.len() {
            self.grow(place + 1)?;
        }
        Ok(self.put(id))
    }

    /// Puts an index into the set that there is room for, and answers whether it was there already.
    ///
    /// The summaries are written only where its word was zero.
    #[inline]
    fn put(&mut self, id: Index) -> bool
        requires { id < self.old.room }
        ensures was_there { result ≡ set.contains self.old.members id }
        ensures members { self.new.members ≡ set.insert self.old.members id }
        ensures room { self.new.room ≡ self.old.room }
    {
        let number1 = id as usize / 64;
        let bit = id.mask(SHIFT0);
        let word = self.layer0[number1];
        if word & bit != 0 {
            return true;
        }
        self.layer0[number1] = word | bit;
        if word == 0 {
            let number2 = number1 / 64;
            let number3 = number2 / 64;
            set_bit(&mut self.layer1, number1);
            set_bit(&mut self.layer2, number2);
            self.layer3 |= 1 << number3;
        }
        false
    }

    /// Takes `id` out of the set, and answers whether it was a member.
    pub fn remove(&mut self, id: Index) -> bool
        ensures removed { result ≡ set.contains self.old.members id }
        ensures members { self.new.members ≡ set.remove self.old.members id }
        ensures room { self.new.room ≡ self.old.room }
    {
        if !BitSet::contains(self, id) {
            return false;
        }
        self.take_out(id);
        true
    }

    /// Takes a member out of the set.
    fn take_out(&mut self, id: Index)
        requires { set.contains self.old.members id ≡ true }
        ensures members { self.new.members ≡ set.remove self.old.members id }
        ensures room { self.new.room ≡ self.old.room }
    {
        let number0 = id as usize;
        let number1 = number0 / 64;
        let number2 = number1 / 64;
        let number3 = number2 / 64;
        if !clear_bit(&mut self.layer0, number0) {
            return;
        }
        if !clear_bit(&mut self.layer1, number1) {
            return;
        }
        if !clear_bit(&mut self.layer2, number2) {
            return;
        }
        self.layer3 &= !(1 << number3);
    }

    /// Replaces a word of layer 0 that there is room for: bit `i` of `word` says whether
    /// `64 * place + i` is a member from now on, and no other index comes or goes.
    ///
    /// The summaries are written only where the word becomes zero, or was zero.
    #[inline]
    pub fn put_word(&mut self, place: usize, word: u64)
        requires { 64 * place < self.old.room }
        ensures members { PutsWord (has_member self.old) place word (has_member self.new) }
        ensures room { self.new.room ≡ self.old.room }
    {
        if word == 0 {
            self.empty_word(place);
        } else {
            self.fill_word(place, word);
        }
    }

    /// Replaces a word of layer 0 by one that isn't zero.
    #[inline]
    fn fill_word(&mut self, place: usize, word: u64)
        requires room { 64 * place < self.old.room }
        requires some { word ≢ 0 }
        ensures members { PutsWord (has_member self.old) place word (has_member self.new) }
        ensures room { self.new.room ≡ self.old.room }
    {
        let old = self.layer0[place];
        self.layer0[place] = word;
        if old == 0 {
            let second = place / 64;
            let third = second / 64;
            set_bit(&mut self.layer1, place);
            set_bit(&mut self.layer2, second);
            self.layer3 |= 1 << third;
        }
    }

    /// Makes a word of layer 0 zero.
    fn empty_word(&mut self, place: usize)
        requires { 64 * place < self.old.room }
        ensures members { PutsWord (has_member self.old) place 0 (has_member self.new) }
        ensures room { self.new.room ≡ self.old.room }
    {
        let second = place / 64;
        let third = second / 64;
        self.layer0[place] = 0;
        if !clear_bit(&mut self.layer1, place) {
            return;
        }
        if !clear_bit(&mut self.layer2, second) {
            return;
        }
        self.layer3 &= !(1 << third);
    }

    /// Whether `id` is a member.
    #[inline]
    pub fn contains(&self, id: Index) -> bool
        ensures value { result ≡ set.contains self.now.members id }
        ensures within { set.contains self.now.members id ≡ true → id < self.now.room }
    {
        let place = id.offset(SHIFT1);
        place < self.layer0.len() && self.layer0[place] & id.mask(SHIFT0) != 0
    }

    /// The allocator that the set takes its memory from.
    pub fn allocator(&self) -> Global {
        *self.layer0.allocator()
    }

    /// Takes all members out, and gives up the room.
    pub fn clear(&mut self)
        ensures members { self.new.members ≡ set.empty }
        ensures room { self.new.room ≡ 0 }
    {
        self.layer3 = 0;
        self.layer2.clear();
        self.layer1.clear();
        self.layer0.clear();
    }

    /// The words of layer 0: bit `i` of word `w` says that `64 * w + i` is a member.
    pub fn layer0_as_slice(&self) -> &[u64]
        ensures words { (w : ℕ) → slice_index result.now w ≡ word_of (has_member self.now) 0 w }
        ensures room { 64 * length result.now ≡ self.now.room }
        ensures limit { self.now.room ≤ 16777216 }
        ensures within { (i : ℕ) → set.contains self.now.members i ≡ true → i < self.now.room }
    {
        self.layer0.as_slice()
    }

    /// The words of layer 1: bit `i` of word `w` says that word `64 * w + i` of layer 0 isn't zero.
    pub fn layer1_as_slice(&self) -> &[u64]
        ensures words { (w : ℕ) → slice_index result.now w ≡ word_of (has_member self.now) 1 w }
        ensures room { self.now.room ≤ 4096 * length result.now }
    {
        self.layer1.as_slice()
    }

    /// The words of layer 2: bit `i` of word `w` says that word `64 * w + i` of layer 1 isn't zero.
    pub fn layer2_as_slice(&self) -> &[u64]
        ensures words { (w : ℕ) → slice_index result.now w ≡ word_of (has_member self.now) 2 w }
        ensures room { self.now.room ≤ 262144 * length result.now }
    {
        self.layer2.as_slice()
    }
}

impl BitSet {
    ghost use Rattle.hibitset_sets.specs.BitSet.{has_member};

    /// True where the set has no member.
    pub fn is_empty(&self) -> bool
        ensures { IsTrue result ↔ (self.now.members ≡ set.empty) }
    {
        self.layer3 == 0
    }

    /// Whether each member of `other` is a member.
    pub fn contains_set(&self, other: &BitSet) -> bool
        ensures { result ≡ set.is_subset other.now.members self.now.members }
    {
        covers(&self.layer0, &other.layer0)
    }
}

impl BitSetLike for BitSet {
    ghost use Rattle.hibitset_sets.specs.BitSet.{has_member};
    ghost use Rattle.hibitset_sets.specs.Words.{word_of};
    ghost use Rattle.hibitset_sets.specs.WordLemmas.{StandsOver-word_of, words_agree-word_of, word_of-lt};

    ghost members = { has_member };

    ghost words = { λ s. word_of (has_member s) };

    ghost reads = { λ _ _. 1 };

    ghost stands_over = { λ s. StandsOver-word_of (has_member s) };

    ghost words_agree = { λ s i _. words_agree-word_of (has_member s) i };

    ghost words_fit = { λ s. word_of-lt (has_member s) };

    fn read<C: Counter>(&self, count: &mut C, layer: usize, idx: usize) -> u64 {
        count.tick();
        self.get_from_layer(layer, idx)
    }

    fn layer3(&self) -> u64 {
        self.layer3
    }

    fn layer2(&self, i: usize) -> u64 {
        word_or_zero(&self.layer2, i)
    }

    fn layer1(&self, i: usize) -> u64 {
        word_or_zero(&self.layer1, i)
    }

    fn layer0(&self, i: usize) -> u64 {
        word_or_zero(&self.layer0, i)
    }

    #[inline]
    fn contains(&self, i: Index) -> bool {
        BitSet::contains(self, i)
    }
}

impl Clone for BitSet {
    ghost is_clone = { λ s t. t ≡ s };

    fn clone(&self) -> Result<BitSet, AllocError> {
        let layer2 = self.layer2.clone()?;
        let layer1 = self.layer1.clone()?;
        let layer0 = self.layer0.clone()?;
        Ok(BitSet {
            layer3: self.layer3,
            layer2,
            layer1,
            layer0,
        })
    }
}

impl PartialEq for BitSet {
    ghost use Rattle.hibitset_sets.specs.BitSetEq.{same_members, same_members-laws};

    ghost eq = { same_members };

    ghost laws = { same_members-laws };

    fn eq(&self, other: &BitSet) -> bool {
        self.contains_set(other) && other.contains_set(self)
    }
}

impl Eq for BitSet {
    ghost use Rattle.hibitset_sets.specs.BitSetEq.{same_members-equivalence};

    ghost laws = { same_members-equivalence };
}
