//! Changes of the parts of a layout by the words of the set of their indices.
ghost use Rattle.std.specs.Prelude.{◌≡◌, ℕ, ◌+◌, ◌/◌, ◌%◌, ◌<◌, ◌≤◌, ◌==◌, IsSome};
ghost use Rattle.specs_join.specs.Tested.{Ends, AreThere, in_word, in_group, in_groups};

use crate::join::Join;
use crate::join::change::{Change, EachError};
use hibitset::{BitSetLike, Index};
use hibitset_sets::util::take_bit;
use specs_layouts::UnprotectedStorage;

/// Changes the part at an index, beside the item there.
#[inline(always)]
fn change_at<T: Drop, L: UnprotectedStorage<T>, R: Join, C: Change<T, R>>(
    parts: &mut L,
    values: &R::Value,
    change: &C,
    index: Index,
) -> Result<(), EachError<C::Refusal>>
where
    R::Type: Drop,
    C::Refusal: Drop,
    requires range { index < 16777216 }
    requires part { IsSome (L.part_at parts.old index) }
    requires item { IsSome (R.value_at values.now index) }
    ensures { Ends L.part_at L.events L.emits (C.changed change.now) (R.value_at values.now) (λ other. other == index)
        parts.old result parts.new }
{
    let item = R::get(values, index);
    match parts.get_mut(index) {
        Ok(part) => match change.change(part, item) {
            Ok(()) => Ok(()),
            Err(refusal) => Err(EachError::Refused(index, refusal)),
        },
        Err(_) => Err(EachError::Memory),
    }
}

/// Changes the parts at all 64 indices of a word.
#[inline(never)]
fn change_row<T: Drop, L: UnprotectedStorage<T>, R: Join, C: Change<T, R>>(
    parts: &mut L,
    values: &R::Value,
    change: &C,
    first: Index,
) -> Result<(), EachError<C::Refusal>>
where
    R::Type: Drop,
    C::Refusal: Drop,
    requires aligned { first % 64 ≡ 0 }
    requires range { first < 16777216 }
    requires ready { AreThere (L.part_at parts.old) (R.value_at values.now)
        (in_word 18446744073709551615 (first / 64)) }
    ensures { Ends L.part_at L.events L.emits (C.changed change.now) (R.value_at values.now)
        (in_word 18446744073709551615 (first / 64)) parts.old result parts.new }
{
    for index in first..first + 64 {
        match change_at::<T, L, R, C>(parts, values, change, index) {
            Ok(()) => {}
            Err(error) => return Err(error),
        }
    }
    Ok(())
}

/// Changes the parts at the indices of the bits of a word.
#[inline(always)]
fn change_bits<T: Drop, L: UnprotectedStorage<T>, R: Join, C: Change<T, R>>(
    parts: &mut L,
    values: &R::Value,
    change: &C,
    first: Index,
    bits: u64,
) -> Result<(), EachError<C::Refusal>>
where
    R::Type: Drop,
    C::Refusal: Drop,
    requires aligned { first % 64 ≡ 0 }
    requires range { first < 16777216 }
    requires ready { AreThere (L.part_at parts.old) (R.value_at values.now) (in_word bits (first / 64)) }
    ensures { Ends L.part_at L.events L.emits (C.changed change.now) (R.value_at values.now) (in_word bits (first / 64))
        parts.old result parts.new }
{
    let mut left = bits;
    while left != 0 {
        let (place, rest) = take_bit(left);
        left = rest;
        match change_at::<T, L, R, C>(parts, values, change, first + place) {
            Ok(()) => {}
            Err(error) => return Err(error),
        }
    }
    Ok(())
}

/// Changes the parts at the indices of the bits of a word, all in a row where it has all 64.
#[inline(always)]
fn change_word<T: Drop, L: UnprotectedStorage<T>, R: Join, C: Change<T, R>>(
    parts: &mut L,
    values: &R::Value,
    change: &C,
    first: Index,
    bits: u64,
) -> Result<(), EachError<C::Refusal>>
where
    R::Type: Drop,
    C::Refusal: Drop,
    requires aligned { first % 64 ≡ 0 }
    requires range { first < 16777216 }
    requires ready { AreThere (L.part_at parts.old) (R.value_at values.now) (in_word bits (first / 64)) }
    ensures { Ends L.part_at L.events L.emits (C.changed change.now) (R.value_at values.now) (in_word bits (first / 64))
        parts.old result parts.new }
{
    if bits == u64::MAX {
        change_row::<T, L, R, C>(parts, values, change, first)
    } else {
        change_bits::<T, L, R, C>(parts, values, change, first, bits)
    }
}

/// Changes the parts at the members of a set in the 64 words under word `top` of layer 1.
#[inline(always)]
fn change_group<T: Drop, L: UnprotectedStorage<T>, R: Join, C: Change<T, R>, M: BitSetLike + Drop>(
    set: &M,
    parts: &mut L,
    values: &R::Value,
    change: &C,
    top: usize,
) -> Result<(), EachError<C::Refusal>>
where
    R::Type: Drop,
    C::Refusal: Drop,
    requires range { top < 4096 }
    requires ready { AreThere (L.part_at parts.old) (R.value_at values.now) (in_group (M.members set.now) top) }
    ensures { Ends L.part_at L.events L.emits (C.changed change.now) (R.value_at values.now)
        (in_group (M.members set.now) top) parts.old result parts.new }
{
    let mut groups = set.layer1(top);
    while groups != 0 {
        let (place, rest) = take_bit(groups);
        groups = rest;
        let word = top * 64 + place as usize;
        let first = (word * 64) as Index;
        let bits = set.layer0(word);
        match change_word::<T, L, R, C>(parts, values, change, first, bits) {
            Ok(()) => {}
            Err(error) => return Err(error),
        }
    }
    Ok(())
}

/// Changes the parts at the members of a set in the words under the first words of layer 1.
pub(crate) fn change_set<
    T: Drop,
    L: UnprotectedStorage<T>,
    R: Join,
    C: Change<T, R>,
    M: BitSetLike + Drop,
>(
    set: &M,
    parts: &mut L,
    values: &R::Value,
    change: &C,
    tops: usize,
) -> Result<(), EachError<C::Refusal>>
where
    R::Type: Drop,
    C::Refusal: Drop,
    requires range { tops ≤ 4096 }
    requires ready { AreThere (L.part_at parts.old) (R.value_at values.now) (in_groups (M.members set.now) tops) }
    ensures { Ends L.part_at L.events L.emits (C.changed change.now) (R.value_at values.now)
        (in_groups (M.members set.now) tops) parts.old result parts.new }
{
    for top in 0..tops {
        match change_group::<T, L, R, C, M>(set, parts, values, change, top) {
            Ok(()) => {}
            Err(error) => return Err(error),
        }
    }
    Ok(())
}
