//! Changes of the parts of a layout, of which a channel is told beside it.
ghost use Rattle.std.specs.Prelude.{◌≡◌, ◌⊎◌, ℕ, true, is_some, List, OnOk, IfErr};
ghost use Rattle.specs_layouts.specs.Channels.{log_of, with_more};
ghost use Rattle.specs_layouts.specs.Masked.{Agrees};
ghost use Rattle.specs_layouts.specs.Shows.{Names};
ghost use Rattle.specs_layouts.specs.declared.track.ComponentEvent.{ComponentEvent};
ghost use Rattle.specs_join.specs.ChangeEach.{AreChanged, AreChangedBelow, IsRefused, told_each, shared_indices};
ghost use Rattle.specs_join.specs.EachErrors.{OnMemory, OnRefused};

use super::Join;
use crate::join::change::{Change, EachError};
use crate::join::words::change_set;
use hibitset::{BitSet, BitSetAnd};
use specs_layouts::{ComponentEvent, DistinctStorage, EventChannel};

/// Changes each part of a layout that has an item of the join at its index, ascending by index, as `change_laid_out` does.
/// The layout tells of nothing; that the parts are modified is written into a channel first, a word of indices at a time.
/// The indices with a part are those of `mask`.
///
/// Errors: `Memory`, where there is no memory for the events, and no part is changed; `Refused` with the least index
/// whose change is refused. The parts at lesser indices are changed, the others are as they were. What is written then
/// names indices of both.
pub fn change_told<T: Drop, L: DistinctStorage<T>, R: Join, C: Change<T, R>>(
    mask: &BitSet,
    parts: &mut L,
    channel: &mut EventChannel<ComponentEvent>,
    read: R,
    change: &C,
) -> Result<(), EachError<C::Refusal>>
where
    R::Type: Drop,
    C::Refusal: Drop,
    requires { Agrees mask.now (L.part_at parts.old) }
    ensures ok { OnOk result (AreChanged (C.changed change.now) (L.part_at parts.old) (R.joins read)
        (L.part_at parts.new)) }
    ensures events { OnOk result (log_of channel.new ≡ told_each true (log_of channel.old)
        (shared_indices mask.now (R.joins read))) }

    // Also where it is refused, the events name each index whose part is another, and the same indices have a part.
    ensures shows { (more : List ComponentEvent) × (log_of channel.new ≡ with_more (log_of channel.old) more)
        × ((index : ℕ) → (L.part_at parts.new index ≡ L.part_at parts.old index) ⊎ Names more index) }
    ensures same { (index : ℕ) → is_some (L.part_at parts.new index) ≡ is_some (L.part_at parts.old index) }

    ensures memory { IfErr result (OnMemory
        ((index : ℕ) × AreChangedBelow (C.changed change.now) (L.part_at parts.old) (R.joins read) index
        (L.part_at parts.new))) }
    ensures refused { IfErr result (OnRefused
        (IsRefused (C.changed change.now) (L.part_at parts.old) (R.joins read))) }
    ensures below { IfErr result (OnRefused
        (λ index. AreChangedBelow (C.changed change.now) (L.part_at parts.old) (R.joins read) index
        (L.part_at parts.new))) }
{
    let words = mask.layer0_as_slice().len();
    let (beside, values) = read.open();
    let set = BitSetAnd(mask, &beside);
    if channel
        .write_all(ComponentEvent::Modified(0), &set)
        .is_err()
    {
        return Err(EachError::Memory);
    }
    change_set::<T, L, R, C, BitSetAnd<&BitSet, &R::Mask>>(
        &set,
        parts,
        &values,
        change,
        (words + 63) / 64,
    )
}
