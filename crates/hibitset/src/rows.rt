//! The words of a set in one row, layer after layer.
ghost use Rattle.std.specs.Prelude.{◌≡◌, ℕ, ◌+◌, ◌<◌, ◌≤◌, IfOk, true, length, slice_index};
ghost use Rattle.hibitset_sets.specs.BitSet.{has_member};
ghost use Rattle.hibitset_sets.specs.Words.{word_of};
ghost use Rattle.hibitset.specs.AtomicCore.{AreWordsOf};
ghost use Rattle.hibitset.specs.Rows.{sizes_for};

use hibitset_sets::{BitSet, BitSetLike};
use std::alloc::{AllocError, Global};

/// Copies the first words of a layer to a place in the row.
fn copy_layer(row: &mut Vec<u64>, set: &BitSet, layer: usize, start: usize, count: usize)
    requires layer { layer < 4 }
    requires one { layer ≡ 3 → count ≡ 1 }
    requires room { start + count ≤ length row.old.items }
    requires small { start + count < 300000 }
    ensures length { length row.new.items ≡ length row.old.items }
    ensures copied { (place : ℕ) → place < count
        → slice_index row.new.items (start + place) ≡ word_of (has_member set.now) layer place }
    ensures before { (place : ℕ) → place < start
        → slice_index row.new.items place ≡ slice_index row.old.items place }
{
    for place in 0..count {
        row[start + place] = set.get_from_layer(layer, place);
    }
}

/// A row of so many words that begins with the first `count` words of layer 0, and is zero from there on.
///
/// Errors: `AllocError`.
fn row_with_lowest(
    alloc: Global,
    set: &BitSet,
    count: usize,
    words: usize,
) -> Result<Vec<u64>, AllocError>
    requires room { count ≤ words }
    ensures length { IfOk result (λ row. length row.items ≡ words) }
    ensures copied { IfOk result (λ row. (place : ℕ) → place < count
        → slice_index row.items place ≡ word_of (has_member set.now) 0 place) }
{
    let lowest = set.layer0_as_slice();
    let kept = lowest.len().min(count);
    let mut row = Vec::with_capacity(alloc, words)?;
    row.extend_from_slice(&lowest[..kept])?;
    row.resize(words, 0)?;
    Ok(row)
}

/// The words of the four layers that reach over the indices below `count`, the lowest layer first.
///
/// Errors: `AllocError`.
pub(crate) fn layers_in_row(
    alloc: Global,
    set: &BitSet,
    count: usize,
) -> Result<Vec<u64>, AllocError>
    requires few { count ≤ 16777216 }
    requires within { (index : ℕ) → has_member set.now index ≡ true → index < count }
    ensures { IfOk result (λ words. AreWordsOf (sizes_for count) (has_member set.now) words.items) }
{
    let first = (count + 63) / 64;
    let second = (first + 63) / 64;
    let third = (second + 63) / 64;
    let mut row = row_with_lowest(alloc, set, first, first + second + third + 1)?;
    copy_layer(&mut row, set, 1, first, second);
    copy_layer(&mut row, set, 2, first + second, third);
    copy_layer(&mut row, set, 3, first + second + third, 1);
    Ok(row)
}
