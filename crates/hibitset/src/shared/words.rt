//! The words of a set, as they are shared and as they come back.
ghost use Rattle.std.specs.Prelude.{◌≡◌, ℕ, ◌/◌, ◌%◌, ◌<◌, ◌≤◌, ◌==◌, true, IfOk, if◌then◌else◌, slice_index};
ghost use Rattle.std.specs.Slots.{slots_items, slots_len, IsFull};
ghost use Rattle.hibitset_sets.specs.BitSet.{has_member};
ghost use Rattle.hibitset_sets.specs.Bits.{has_bit};
ghost use Rattle.hibitset_sets.specs.Words.{word_of};
ghost use Rattle.hibitset.specs.AtomicCore.{AreWordsOf};
ghost use Rattle.hibitset.specs.SharedRule.{full};

use crate::rows::layers_in_row;
use atomic_table::Closed;
use hibitset_sets::BitSet;
use std::alloc::{AllocError, Global};

/// The words of a set in one row, with room for each index.
pub(super) fn row_of(alloc: Global, bits: &BitSet) -> Result<Vec<u64>, AllocError>
    ensures { IfOk result (λ words. AreWordsOf full (has_member bits.now) words.items) }
{
    let _ = bits.layer0_as_slice();
    layers_in_row(alloc, bits, 16_777_216)
}

/// Whether the 64 words of layer 0 over which one word of layer 1 stands are those of a set. It looks at each of them, which
/// costs less than to stop at the first that differs.
fn is_block_of(bits: &BitSet, closed: &Closed<(), Global>, block: usize) -> bool
    requires block { block < 4096 }
    requires full { (slots_len closed.now.words ≡ 266305) × IsFull closed.now.words }
    requires room { 16777216 ≤ bits.now.room }
    ensures { result ≡ true → (place : ℕ) → place / 64 ≡ block
        → slice_index (slots_items closed.now.words) place ≡ word_of (has_member bits.now) 0 place }
{
    let lowest = bits.layer0_as_slice();
    let mut same = true;
    for place in 64 * block..64 * block + 64 {
        if closed.word(place) != lowest[place] {
            same = false;
        }
    }
    same
}

/// Puts 64 words of layer 0 into a set, those over which one word of layer 1 stands. A word that is as it was isn't written.
pub(super) fn put_block(bits: &mut BitSet, closed: &Closed<(), Global>, block: usize)
    requires block { block < 4096 }
    requires full { (slots_len closed.now.words ≡ 266305) × IsFull closed.now.words }
    requires room { 16777216 ≤ bits.old.room }
    ensures members { (index : ℕ) → has_member bits.new index ≡ (if index / 4096 == block
        then has_bit (slice_index (slots_items closed.now.words) (index / 64)) (index % 64)
        else has_member bits.old index) }
    ensures room { bits.new.room ≡ bits.old.room }
{
    if is_block_of(bits, closed, block) {
        return;
    }
    for place in 64 * block..64 * block + 64 {
        let word = closed.word(place);
        if word != bits.layer0_as_slice()[place] {
            bits.put_word(place, word);
        }
    }
}
