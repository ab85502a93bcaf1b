//! Parts that are written all at once, from a list.
ghost use Rattle.std.specs.Prelude.{◌≡◌, false, ◌∷◌, [], length, IsOk, OnOk, OnErr, MatchOption};
ghost use Rattle.hibitset_sets.specs.BitSet.{has_member};
ghost use Rattle.hibitset_sets.specs.Walk.{walk, IsPlaced};
ghost use Rattle.specs_join.specs.Joins.{values_at};
ghost use Rattle.specs_layouts.specs.MaskedChanges.{KeepsParts};
ghost use Rattle.specs_join.specs.Storing.{all_told, left_at};

use hibitset::{BitIter, BitSet, BitSetLike, Index, Uncounted, take_in_word};
use specs_layouts::{Component, MaskedStorage};
use std::alloc::AllocError;

/// Goes on to the next index of a walk over a set.
fn next_index(set: &BitSet, masks: &mut [u64; 4], prefix: &mut [u32; 3]) -> Option<Index>
    requires { IsPlaced masks.old prefix.old }
    ensures item { MatchOption result (left_at set.now masks.old prefix.old ≡ [])
        (λ index. left_at set.now masks.old prefix.old ≡ index ∷ left_at set.now masks.new prefix.new) }
    ensures placed { IsPlaced masks.new prefix.new }
{
    if masks[0] != 0 {
        return Some(take_in_word(masks, prefix));
    }
    search(set, masks, prefix)
}

/// `next_index` by a step of a walk, which looks for the next word.
fn search(set: &BitSet, masks: &mut [u64; 4], prefix: &mut [u32; 3]) -> Option<Index>
    requires { IsPlaced masks.old prefix.old }
    ensures item { MatchOption result (left_at set.now masks.old prefix.old ≡ [])
        (λ index. left_at set.now masks.old prefix.old ≡ index ∷ left_at set.now masks.new prefix.new) }
    ensures placed { IsPlaced masks.new prefix.new }
{
    let mut walk = BitIter::new(set, *masks, *prefix);
    let next = walk.next_counted(&mut Uncounted);
    let (_, rest, first) = walk.into_parts();
    *masks = rest;
    *prefix = first;
    next
}

/// Writes the k-th value over the part at the k-th index of the storage's mask, ascending. Each part is
/// lent for writing by `get_mut`, so a storage that emits tells of it.
///
/// There have to be as many values as the mask has indices.
///
/// Errors: `AllocError`, where the storage emits, and each index has the part that it had.
pub fn store_all<T: Component>(
    storage: &mut MaskedStorage<T>,
    values: Vec<T>,
) -> Result<(), AllocError>
    requires { length values.items ≡ length (walk (has_member storage.old.mask)) }
    ensures mask { storage.new.mask ≡ storage.old.mask }
    ensures ok { OnOk result (
        values_at (T.Storage.part_at storage.new.inner) (walk (has_member storage.old.mask)) ≡ values.items) }
    ensures err { OnErr result (KeepsParts T.Storage.part_at storage.old storage.new) }
    ensures succeeds { T.Storage.emits storage.old.inner ≡ false → IsOk result }

    // One event tells of each part that was lent, and a refusal writes none.
    ensures events { OnOk result (T.Storage.events storage.new.inner
        ≡ all_told (T.Storage.emits storage.old.inner) (T.Storage.events storage.old.inner)
        (walk (has_member storage.old.mask))) }
    ensures silent { OnErr result (T.Storage.events storage.new.inner ≡ T.Storage.events storage.old.inner) }
    ensures emission { T.Storage.emits storage.new.inner ≡ T.Storage.emits storage.old.inner }
{
    storage.make_room(values.len())?;
    let (_, mut masks, mut prefix) = storage.mask().iter().into_parts();
    for value in values {
        let Some(index) = next_index(storage.mask(), &mut masks, &mut prefix) else {
            unreachable!()
        };
        match storage.get_mut(index) {
            Ok(place) => *place = value,
            Err(_) => unreachable!(),
        }
    }
    Ok(())
}
