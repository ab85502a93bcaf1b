//! Laws on which callers rely. Each contract is the law.
ghost use Rattle.std.specs.Prelude.{◌≡◌, ◌<◌, ℕ, true, IsSome};
ghost use Rattle.std.specs.FinMap as map;
ghost use Rattle.specs_layouts.specs.Channels.{CaughtUp, IsReader, unread};
ghost use Rattle.specs_layouts.specs.PartMap.{parts_under};
ghost use Rattle.specs_layouts.specs.Parts.{SameParts};
ghost use Rattle.specs_layouts.specs.Shows.{Shows};
ghost use Rattle.specs_layouts.specs.Tells.{Tells};

use crate::comp::Component;
use crate::masked::MaskedStorage;
use crate::unprotected::UnprotectedStorage;
use hibitset_sets::Index;
use std::alloc::{AllocError, AllocFailed};

/// The parts of a storage are a finite map from index to part, over the members of its mask.
pub fn parts_are_a_finite_map<T: Component>(storage: &MaskedStorage<T>)
    ensures { (index : ℕ) → map.get (parts_under storage.now.mask (T.Storage.part_at storage.now.inner)) index
        ≡ T.Storage.part_at storage.now.inner index }
{
    let _mask = storage.mask();
}

/// The events of a storage show nothing where nothing changed, and of one change after another they show both.
pub fn what_is_shown_adds_up<T: Drop, S: UnprotectedStorage<T>>(first: &S, second: &S, third: &S)
    ensures none { Shows S.part_at S.events S.emits first.now first.now }
    ensures both { Shows S.part_at S.events S.emits first.now second.now
        → Shows S.part_at S.events S.emits second.now third.now
        → Shows S.part_at S.events S.emits first.now third.now }
{}

/// What a reader has yet to read names each index whose part is another than where the reader caught up: nothing
/// then, and each change that is shown while the storage emits; also where another reads or catches up.
pub fn a_reader_is_told_of_each_change<T: Drop, S: UnprotectedStorage<T>>(
    was: &S,
    now: &S,
    later: &S,
)
    ensures caught_up { (reader : ℕ) → CaughtUp (S.events was.now) reader → IsReader (S.events was.now) reader }
    ensures first { (reader : ℕ) → IsReader (S.events was.now) reader
        → Tells S.part_at S.events reader was.now was.now }
    ensures more { (reader : ℕ) → Tells S.part_at S.events reader was.now now.now → S.emits now.now ≡ true
        → Shows S.part_at S.events S.emits now.now later.now → Tells S.part_at S.events reader was.now later.now }
    ensures others { (reader : ℕ) → Tells S.part_at S.events reader was.now now.now
        → SameParts (S.part_at now.now) (S.part_at later.now) → IsReader (S.events later.now) reader
        → unread (S.events later.now) reader ≡ unread (S.events now.now) reader
        → Tells S.part_at S.events reader was.now later.now }
    ensures alike { (reader : ℕ) → Tells S.part_at S.events reader now.now later.now
        → SameParts (S.part_at was.now) (S.part_at now.now) → Tells S.part_at S.events reader was.now later.now }
{}

/// `MaskedStorage::insert`, whose change is shown, also where it is refused.
pub fn insertions_are_shown<T: Component>(
    storage: &mut MaskedStorage<T>,
    id: Index,
    part: T,
) -> Result<Option<T>, AllocFailed<T>>
    requires { id < 16777216 }
    ensures { Shows T.Storage.part_at T.Storage.events T.Storage.emits storage.old.inner storage.new.inner }
{
    storage.insert(id, part)
}

/// `MaskedStorage::remove`, whose change is shown, also where it is refused.
pub fn removals_are_shown<T: Component>(
    storage: &mut MaskedStorage<T>,
    id: Index,
) -> Result<Option<T>, AllocError>
    ensures { Shows T.Storage.part_at T.Storage.events T.Storage.emits storage.old.inner storage.new.inner }
{
    match storage.remove(id) {
        Ok(part) => Ok(part),
        Err(refused) => Err(refused),
    }
}

/// What is written through `MaskedStorage::get_mut` is shown.
pub fn writes_are_shown<T: Component>(
    storage: &mut MaskedStorage<T>,
    id: Index,
    part: T,
) -> Result<(), AllocError>
    requires { IsSome (T.Storage.part_at storage.old.inner id) }
    ensures { Shows T.Storage.part_at T.Storage.events T.Storage.emits storage.old.inner storage.new.inner }
{
    let place = storage.get_mut(id)?;
    *place = part;
    Ok(())
}
