//! Changes of the parts of a storage beside the items of a join.
ghost use Rattle.std.specs.Prelude.{◌≡◌, ℕ, false, OnOk, IfErr};
ghost use Rattle.specs_layouts.specs.Shows.{Shows};
ghost use Rattle.specs_join.specs.ChangeEach.{AreChanged, AreChangedBelow, IsRefused, told_each, shared_indices};
ghost use Rattle.specs_join.specs.EachErrors.{OnMemory, OnRefused};

use crate::join::Join;
use crate::join::change::{Change, EachError};
use crate::join::cursor::JoinCursor;
use specs_layouts::{Component, MaskedStorage};

/// Changes each part of the storage that has an item of the join at its index, ascending by index.
///
/// Errors: `Memory`, where the storage emits and there is no memory for an event; `Refused` with the least index whose change
/// is refused. The parts at lesser indices are changed, the others are as they were.
pub fn change_each<T: Component, R: Join, C: Change<T, R>>(
    storage: &mut MaskedStorage<T>,
    read: R,
    change: &C,
) -> Result<(), EachError<C::Refusal>>
where
    R::Type: Drop,
    C::Refusal: Drop,
    ensures ok { OnOk result (AreChanged (C.changed change.now) (T.Storage.part_at storage.old.inner) (R.joins read)
        (T.Storage.part_at storage.new.inner)) }
    ensures events { OnOk result (T.Storage.events storage.new.inner
        ≡ told_each (T.Storage.emits storage.old.inner) (T.Storage.events storage.old.inner)
        (shared_indices storage.old.mask (R.joins read))) }
    ensures succeeds { T.Storage.emits storage.old.inner ≡ false → IfErr result (OnMemory ⊥) }

    // Also where it is refused, the events show what was changed.
    ensures shows { Shows T.Storage.part_at T.Storage.events T.Storage.emits storage.old.inner storage.new.inner }

    ensures memory { IfErr result (OnMemory
        ((index : ℕ) × AreChangedBelow (C.changed change.now) (T.Storage.part_at storage.old.inner)
        (R.joins read) index (T.Storage.part_at storage.new.inner))) }
    ensures refused { IfErr result (OnRefused
        (IsRefused (C.changed change.now) (T.Storage.part_at storage.old.inner) (R.joins read))) }
    ensures below { IfErr result (OnRefused
        (λ index. AreChangedBelow (C.changed change.now) (T.Storage.part_at storage.old.inner) (R.joins read) index
        (T.Storage.part_at storage.new.inner))) }
{
    let _mask = storage.mask();
    let mut cursor = JoinCursor::new(storage, read);
    while cursor.advance() {
        let index = cursor.index();
        let item = cursor.item();
        match cursor.values() {
            Ok(part) => {
                if let Err(refusal) = change.change(part, item) {
                    return Err(EachError::Refused(index, refusal));
                }
            }
            Err(_) => return Err(EachError::Memory),
        }
    }
    Ok(())
}
