//! One layer of words as a list, and edits of one bit. No public clause cites this file.
ghost use Rattle.std.specs.Prelude.{◌≡◌, ℕ, ◌/◌, ◌<◌, ◌≤◌, ◌==◌, true, false, max, OnOk, OnErr, length, slice_index};
ghost use Rattle.hibitset_sets.specs.Edits.{bit_of, with_bit, without_bit};

use std::alloc::AllocError;

/// Makes the words at least `len` long, by words that are zero.
pub(crate) fn extend_words(words: &mut Vec<u64>, len: usize) -> Result<(), AllocError>
    ensures same { (w : ℕ) → slice_index words.new.items w ≡ slice_index words.old.items w }
    ensures ok { OnOk result (length words.new.items ≡ max (length words.old.items) len) }
    ensures longer { length words.old.items ≤ length words.new.items }
    ensures upto { length words.new.items ≤ max (length words.old.items) len }
    ensures err { OnErr result (words.new.items ≡ words.old.items) }
{
    if words.len() < len {
        if words.is_empty() {
            *words = Vec::from_elem(*words.allocator(), 0, len)?;
        } else {
            words.resize(len, 0)?;
        }
    }
    Ok(())
}

/// Sets one bit.
#[inline]
pub(crate) fn set_bit(words: &mut Vec<u64>, number: usize)
    requires { number / 64 < length words.old.items }
    ensures { words.new.items ≡ with_bit words.old.items number }
{
    words[number / 64] |= 1 << (number % 64);
}

/// Clears one bit, and answers whether its word is zero then.
#[inline]
pub(crate) fn clear_bit(words: &mut Vec<u64>, number: usize) -> bool
    requires { number / 64 < length words.old.items }
    ensures after { words.new.items ≡ without_bit words.old.items number }
    ensures zero { result ≡ (slice_index words.new.items (number / 64) == 0) }
{
    words[number / 64] &= !(1 << (number % 64));
    words[number / 64] == 0
}

/// Word `i`, or 0 past the words.
#[inline]
pub(crate) fn word_or_zero(words: &Vec<u64>, i: usize) -> u64
    ensures { result ≡ slice_index words.now.items i }
{
    if i < words.len() { words[i] } else { 0 }
}

/// Whether each bit that is set in `part` is set in `words`.
pub(crate) fn covers(words: &Vec<u64>, part: &Vec<u64>) -> bool
    ensures yes { result ≡ true → (i : ℕ) → bit_of part.now.items i ≡ true → bit_of words.now.items i ≡ true }
    ensures no { result ≡ false → (i : ℕ) × (bit_of part.now.items i ≡ true) × (bit_of words.now.items i ≡ false) }
{
    for place in 0..part.len() {
        if part[place] & !word_or_zero(words, place) != 0 {
            return false;
        }
    }
    true
}
