//! Assignments: a set becomes its intersection, union or difference with another.
ghost use Rattle.std.specs.Prelude.{◌≡◌, ◌≢◌, ℕ, zero, suc, ◌*◌, ◌<◌, ◌≤◌, true, IsOk, OnOk, OnErr};
ghost use Rattle.hibitset_sets.specs.Assign.{EndsBelow, words_in};
ghost use Rattle.hibitset_sets.specs.Bits.{has_bit};
ghost use Rattle.hibitset_sets.specs.Operators.{members_of_and, members_of_or, members_of_xor};

use crate::bit_set::BitSet;
use crate::bit_set_like::BitSetLike;
use crate::util::{Index, take_bit};
use std::alloc::AllocError;
use std::ops::BitAndAssign;

/// A number above the place of each bit of a word: 0 for a word without bits.
fn bits_end(word: u64) -> usize
    ensures above { (i : ℕ) → has_bit word i ≡ true → i < result }
    ensures limit { result ≤ 64 }
{
    64 - word.leading_zeros() as usize
}

/// A number above that of each bit of `layer` that stands over a member, found in one word of that layer by such a number
/// for the layer above, `end`.
fn end_in_layer<B: BitSetLike>(set: &B, layer: usize, end: usize) -> usize
    requires layer { layer < 4 }
    requires top { layer ≡ 3 → end ≤ 1 }
    requires fits { end ≤ 262144 }
    requires above { EndsBelow (B.members set.now) (suc layer) end }
    ensures above { EndsBelow (B.members set.now) layer result }
    ensures limit { result ≤ 64 * end }
{
    if end == 0 {
        return 0;
    }
    64 * (end - 1) + bits_end(set.get_from_layer(layer, end - 1))
}

/// A number above each member below `MAX_EID`, found in one word of each layer.
fn bound_of<B: BitSetLike>(set: &B) -> Index
    ensures above { EndsBelow (B.members set.now) zero result }
    ensures limit { result ≤ 16777216 }
{
    let third = end_in_layer(set, 3, 1);
    let second = end_in_layer(set, 2, third);
    let first = end_in_layer(set, 1, second);
    end_in_layer(set, 0, first) as Index
}

/// Takes out what isn't in `rhs`.
impl<'a, B: BitSetLike> BitAndAssign<&'a B> for BitSet {
    ghost use Rattle.std.specs.Prelude.{◌≡◌};
    ghost use Rattle.hibitset_sets.specs.Operators.{members_of_and};
    ghost use Rattle.hibitset_sets.specs.Assign.{Assigns};
    ghost use Rattle.hibitset_sets.specs.BitSet.{has_member};

    ghost bitand_assign_gives = { λ old other new.
        Assigns (members_of_and (has_member old) (B.members other.now)) (has_member new) × (new.room ≡ old.room) };

    fn bitand_assign(&mut self, rhs: &'a B) {
        let words = self.layer0_as_slice().len();
        for place in 0..words {
            let own = <BitSet as BitSetLike>::layer0(self, place);
            self.put_word(place, own & rhs.layer0(place));
        }
    }
}

impl BitSet {
    ghost use Rattle.hibitset_sets.specs.Assign.{AddsWord, Assigns, EndsBelow, UnitesUnder, words_in};
    ghost use Rattle.hibitset_sets.specs.BitSet.{has_member};

    /// Puts in what is in `rhs` below `MAX_EID`, word by word, and reads no word of layer 0 over which no bit stands.
    ///
    /// It makes room up to the last word that the layers of `rhs` name. A virtual set may name some past its greatest
    /// member.
    ///
    /// Errors: `AllocError`, and the set is as it was.
    pub fn bitor_assign<B: BitSetLike>(&mut self, rhs: &B) -> Result<(), AllocError>
        ensures ok { OnOk result (Assigns (members_of_or (has_member self.old) (B.members rhs.now))
            (has_member self.new)) }
        ensures err { OnErr result (self.new ≡ self.old) }
    {
        let bound = bound_of(rhs);
        self.reserve(bound)?;
        self.unite(rhs);
        Ok(())
    }

    /// Puts in what is in `rhs` below `MAX_EID` and wasn't in the set, and takes out what was in both.
    ///
    /// Errors: `AllocError`, and the set is as it was.
    pub fn bitxor_assign<B: BitSetLike>(&mut self, rhs: &B) -> Result<(), AllocError>
        ensures ok { OnOk result (Assigns (members_of_xor (has_member self.old) (B.members rhs.now))
            (has_member self.new)) }
        ensures err { OnErr result (self.new ≡ self.old) }
    {
        self.reserve(bound_of(rhs))?;
        self.toggle(rhs);
        Ok(())
    }

    /// Puts in the indices of a word of layer 0: those `64 * place + i` whose bit `i` is set.
    ///
    /// Below the set's room it isn't refused, nor is a word without bits.
    ///
    /// Errors: `AllocError`, and the set is as it was.
    pub fn add_word(&mut self, place: usize, word: u64) -> Result<(), AllocError>
        requires { place < 262144 }
        ensures ok { OnOk result (AddsWord (has_member self.old) place word (has_member self.new)) }
        ensures succeeds { 64 * place < self.old.room → IsOk result }
        ensures nothing { word ≡ 0 → IsOk result }
        ensures room { self.old.room ≤ self.new.room }
        ensures err { OnErr result (self.new ≡ self.old) }
    {
        if word != 0 && place >= self.layer0_as_slice().len() {
            self.grow(place + 1)?;
        }
        self.unite_word(place, word);
        Ok(())
    }

    /// `add_word` where there is room.
    fn unite_word(&mut self, place: usize, word: u64)
        requires { word ≢ 0 → 64 * place < self.old.room }
        ensures members { AddsWord (has_member self.old) place word (has_member self.new) }
        ensures room { self.new.room ≡ self.old.room }
    {
        if word != 0 {
            let own = <BitSet as BitSetLike>::layer0(self, place);
            self.put_word(place, own | word);
        }
    }

    /// Puts in the members of `rhs` under word `number` of `layer`, for which there is room.
    fn unite_under<B: BitSetLike>(&mut self, rhs: &B, layer: usize, number: usize)
        requires layer { layer < 4 }
        requires number { number < words_in layer }
        requires room { EndsBelow (B.members rhs.now) zero self.old.room }
        ensures members { UnitesUnder (B.members rhs.now) (suc layer) number (has_member self.old)
            (has_member self.new) }
        ensures room { self.new.room ≡ self.old.room }
    {
        let mut left = rhs.get_from_layer(layer, number);
        if layer == 0 {
            self.unite_word(number, left);
            return;
        }
        while left != 0 {
            let (place, rest) = take_bit(left);
            left = rest;
            self.unite_under(rhs, layer - 1, 64 * number + place as usize);
        }
    }

    /// `bitor_assign` where there is room for each member of `rhs`.
    fn unite<B: BitSetLike>(&mut self, rhs: &B)
        requires { EndsBelow (B.members rhs.now) zero self.old.room }
        ensures { Assigns (members_of_or (has_member self.old) (B.members rhs.now)) (has_member self.new) }
    {
        if !self.layer0_as_slice().is_empty() {
            self.unite_under(rhs, 3, 0);
        }
    }

    /// `bitxor_assign` where there is room for each member of `rhs`.
    fn toggle<B: BitSetLike>(&mut self, rhs: &B)
        requires { EndsBelow (B.members rhs.now) zero self.old.room }
        ensures { Assigns (members_of_xor (has_member self.old) (B.members rhs.now)) (has_member self.new) }
    {
        let words = self.layer0_as_slice().len();
        for place in 0..words {
            let own = <BitSet as BitSetLike>::layer0(self, place);
            self.put_word(place, own ^ rhs.layer0(place));
        }
    }
}
