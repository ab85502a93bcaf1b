//! Changes of the parts of a scene, whose layout is found once for all of them.
ghost use Rattle.std.specs.Prelude.{◌≡◌, ◌⊎◌, ℕ, true, false, is_some, List, OnOk, IfErr};
ghost use Rattle.specs_layouts.specs.Channels.{log_of, with_more};
ghost use Rattle.specs_layouts.specs.Flagged.{tells};
ghost use Rattle.specs_layouts.specs.Masked.{Agrees};
ghost use Rattle.specs_layouts.specs.Shows.{Names};
ghost use Rattle.specs_layouts.specs.declared.track.ComponentEvent.{ComponentEvent};
ghost use Rattle.specs_join.specs.ChangeEach.{AreChanged, AreChangedBelow, IsRefused, told_each, shared_indices};
ghost use Rattle.specs_join.specs.EachErrors.{OnMemory, OnRefused};
ghost use Rattle.scene_world.specs.Stores.{store_part};
ghost use Rattle.scene_world.specs.StoreChanges.{ShowsParts};

use crate::any_store::AnyStore;
use crate::parts::SceneStorage;
use hibitset_sets::BitSet;
use specs_join::{Change, EachError, Join, change_laid_out, change_told};
use specs_layouts::{ComponentEvent, EventChannel, FlaggedStorage};

/// Changes each part that has an item of the join at its index, in whichever layout the parts lie. The indices with a part
/// are those of `mask`.
///
/// Errors: `Refused` with the least index whose change is refused. The parts at lesser indices are changed, the others are
/// as they were.
fn change_in_layout<T: Drop, R: Join, C: Change<T, R>>(
    mask: &BitSet,
    parts: &mut AnyStore<T>,
    read: R,
    change: &C,
) -> Result<(), EachError<C::Refusal>>
where
    R::Type: Drop,
    C::Refusal: Drop,
    requires { Agrees mask.now (store_part parts.old) }
    ensures ok { OnOk result (AreChanged (C.changed change.now) (store_part parts.old) (R.joins read)
        (store_part parts.new)) }
    ensures same { (index : ℕ) → is_some (store_part parts.new index) ≡ is_some (store_part parts.old index) }
    ensures memory { IfErr result (OnMemory ⊥) }
    ensures refused { IfErr result (OnRefused
        (IsRefused (C.changed change.now) (store_part parts.old) (R.joins read))) }
    ensures below { IfErr result (OnRefused
        (λ index. AreChangedBelow (C.changed change.now) (store_part parts.old) (R.joins read) index
        (store_part parts.new))) }
{
    match parts {
        AnyStore::Vec(layout) => change_laid_out(mask, layout, read, change),
        AnyStore::Dense(layout) => change_laid_out(mask, layout, read, change),
        AnyStore::Hash(layout) => change_laid_out(mask, layout, read, change),
        AnyStore::BTree(layout) => change_laid_out(mask, layout, read, change),
    }
}

/// `change_in_layout`, of which a channel is told beside it.
///
/// Errors: `Memory`, where there is no memory for the events, and no part is changed; `Refused` as there.
fn change_told_in_layout<T: Drop, R: Join, C: Change<T, R>>(
    mask: &BitSet,
    parts: &mut AnyStore<T>,
    channel: &mut EventChannel<ComponentEvent>,
    read: R,
    change: &C,
) -> Result<(), EachError<C::Refusal>>
where
    R::Type: Drop,
    C::Refusal: Drop,
    requires { Agrees mask.now (store_part parts.old) }
    ensures ok { OnOk result (AreChanged (C.changed change.now) (store_part parts.old) (R.joins read)
        (store_part parts.new)) }
    ensures events { OnOk result (log_of channel.new ≡ told_each true (log_of channel.old)
        (shared_indices mask.now (R.joins read))) }
    ensures shows { (more : List ComponentEvent) × (log_of channel.new ≡ with_more (log_of channel.old) more)
        × ((here : ℕ) → (store_part parts.new here ≡ store_part parts.old here) ⊎ Names more here) }
    ensures same { (index : ℕ) → is_some (store_part parts.new index) ≡ is_some (store_part parts.old index) }
    ensures memory { IfErr result (OnMemory
        ((index : ℕ) × AreChangedBelow (C.changed change.now) (store_part parts.old) (R.joins read) index
        (store_part parts.new))) }
    ensures refused { IfErr result (OnRefused
        (IsRefused (C.changed change.now) (store_part parts.old) (R.joins read))) }
    ensures below { IfErr result (OnRefused
        (λ index. AreChangedBelow (C.changed change.now) (store_part parts.old) (R.joins read) index
        (store_part parts.new))) }
{
    match parts {
        AnyStore::Vec(layout) => change_told(mask, layout, channel, read, change),
        AnyStore::Dense(layout) => change_told(mask, layout, channel, read, change),
        AnyStore::Hash(layout) => change_told(mask, layout, channel, read, change),
        AnyStore::BTree(layout) => change_told(mask, layout, channel, read, change),
    }
}

/// Changes each part of a scene's storage that has an item of the join at its index, ascending by index. The indices with a
/// part are those of `mask`.
///
/// It is what `change_laid_out` is to any layout; but it looks once in which of the four the parts lie, and not at each
/// part, and where changes are told it tells of them a word of indices at a time, before the parts are changed.
///
/// Errors: `Memory`, where the storage tells of changes and there is no memory for the events, and no part is changed;
/// `Refused` with the least index whose change is refused. The parts at lesser indices are changed, the others are as
/// they were; what is told then names indices of both.
pub fn change_parts<T: Drop, R: Join, C: Change<T, R>>(
    mask: &BitSet,
    storage: SceneStorage<T>,
    read: R,
    change: &C,
) -> (SceneStorage<T>, Result<(), EachError<C::Refusal>>)
where
    R::Type: Drop,
    C::Refusal: Drop,
    requires { Agrees mask.now (store_part storage.inner) }
    ensures ok { OnOk result.1 (AreChanged (C.changed change.now) (store_part storage.inner) (R.joins read)
        (store_part result.0.inner)) }
    ensures events { OnOk result.1 (log_of result.0.channel ≡ told_each (tells storage) (log_of storage.channel)
        (shared_indices mask.now (R.joins read))) }
    ensures succeeds { tells storage ≡ false → IfErr result.1 (OnMemory ⊥) }

    // Also where it is refused, the events show what was changed, and the indices with a part are the same.
    ensures shows { ShowsParts storage result.0 }
    ensures same { (index : ℕ) → is_some (store_part result.0.inner index) ≡ is_some (store_part storage.inner index) }

    ensures memory { IfErr result.1 (OnMemory
        ((index : ℕ) × AreChangedBelow (C.changed change.now) (store_part storage.inner) (R.joins read) index
        (store_part result.0.inner))) }
    ensures refused { IfErr result.1 (OnRefused
        (IsRefused (C.changed change.now) (store_part storage.inner) (R.joins read))) }
    ensures below { IfErr result.1 (OnRefused
        (λ index. AreChangedBelow (C.changed change.now) (store_part storage.inner) (R.joins read) index
        (store_part result.0.inner))) }
{
    if storage.is_telling() {
        let (mut parts, mut channel, emission) = storage.into_parts();
        let outcome = change_told_in_layout(mask, &mut parts, &mut channel, read, change);
        return (
            FlaggedStorage::from_parts(parts, channel, emission),
            outcome,
        );
    }
    let (mut parts, channel, emission) = storage.into_parts();
    let outcome = change_in_layout(mask, &mut parts, read, change);
    (
        FlaggedStorage::from_parts(parts, channel, emission),
        outcome,
    )
}
