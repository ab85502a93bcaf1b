//! A caller of storages whose changes are told, whose contract is what two readers read.
ghost use Rattle.std.specs.Prelude.{◌≡◌, ◌≢◌, ◌<◌, ◌∷◌, ◌++◌, [], ℕ, true, None, length, IfOk, OnOk, IsSome};
ghost use Rattle.hibitset_sets.specs.BitSet.{has_member};
ghost use Rattle.specs_layouts.specs.Channels.{with_more, CaughtUp};
ghost use Rattle.specs_layouts.specs.Shows.{Shows};
ghost use Rattle.specs_layouts.specs.Tells.{Tells};
ghost use Rattle.specs_layouts.specs.declared.track.ComponentEvent.TheVariants as event;

use hibitset::{BitSet, Index};
use specs_join::{Change, Join, change_each};
use specs_layouts::laws::removals_are_shown;
use specs_layouts::{
    Component, ComponentEvent, FlaggedStorage, MaskedStorage, ReaderId, Tracked, TryDefault,
};
use std::alloc::{AllocError, Global};

/// Puts a part where none is.
fn put<T: Component>(storage: &mut MaskedStorage<T>, id: Index, part: T) -> Result<(), AllocError>
    requires range { id < 16777216 }
    requires absent { T.Storage.part_at storage.old.inner id ≡ None }
    requires emits { T.Storage.emits storage.old.inner ≡ true }
    ensures told { OnOk result (T.Storage.events storage.new.inner
        ≡ with_more (T.Storage.events storage.old.inner) (event.Inserted id ∷ [])) }
    ensures emits { T.Storage.emits storage.new.inner ≡ true }
    ensures there { OnOk result (IsSome (T.Storage.part_at storage.new.inner id)) }
{
    match storage.insert(id, part) {
        Ok(_) => Ok(()),
        Err(_) => Err(AllocError),
    }
}

/// Writes a part over the one at an index.
fn write<T: Component>(storage: &mut MaskedStorage<T>, id: Index, part: T) -> Result<(), AllocError>
    requires there { IsSome (T.Storage.part_at storage.old.inner id) }
    requires emits { T.Storage.emits storage.old.inner ≡ true }
    ensures told { OnOk result (T.Storage.events storage.new.inner
        ≡ with_more (T.Storage.events storage.old.inner) (event.Modified id ∷ [])) }
    ensures emits { OnOk result (T.Storage.emits storage.new.inner ≡ true) }
    ensures there { OnOk result (IsSome (T.Storage.part_at storage.new.inner id)) }
{
    *storage.get_mut(id)? = part;
    Ok(())
}

/// Takes the part at an index out.
fn take<T: Component>(storage: &mut MaskedStorage<T>, id: Index) -> Result<(), AllocError>
    requires there { IsSome (T.Storage.part_at storage.old.inner id) }
    requires emits { T.Storage.emits storage.old.inner ≡ true }
    ensures told { OnOk result (T.Storage.events storage.new.inner
        ≡ with_more (T.Storage.events storage.old.inner) (event.Removed id ∷ [])) }
{
    match storage.remove(id) {
        Ok(_) => Ok(()),
        Err(refused) => Err(refused),
    }
}

/// Puts a part where none is, writes another over it, and takes that out.
///
/// Errors: `AllocError`, and what was done before is done.
pub fn put_write_and_take<T: Component>(
    storage: &mut MaskedStorage<T>,
    id: Index,
    first: T,
    second: T,
) -> Result<(), AllocError>
    requires range { id < 16777216 }
    requires absent { T.Storage.part_at storage.old.inner id ≡ None }
    requires emits { T.Storage.emits storage.old.inner ≡ true }
    ensures events { OnOk result (T.Storage.events storage.new.inner ≡ with_more (T.Storage.events storage.old.inner)
        (event.Inserted id ∷ event.Modified id ∷ event.Removed id ∷ [])) }
{
    put(storage, id, first)?;
    write(storage, id, second)?;
    take(storage, id)?;
    Ok(())
}

/// What two readers who have read all read of it: the same, though one reads before the other.
///
/// Errors: `AllocError`.
pub fn two_read<T: Component>(
    storage: &mut MaskedStorage<T>,
    id: Index,
    parts: (T, T),
    one: &ReaderId,
    one_list: &mut Vec<ComponentEvent>,
    other: &ReaderId,
    other_list: &mut Vec<ComponentEvent>,
) -> Result<(), AllocError>
where
    T::Storage: Tracked<T>,
    requires range { id < 16777216 }
    requires absent { T.Storage.part_at storage.old.inner id ≡ None }
    requires emits { T.Storage.emits storage.old.inner ≡ true }
    requires one_has_read { CaughtUp (T.Storage.events storage.old.inner) one.now }
    requires other_has_read { CaughtUp (T.Storage.events storage.old.inner) other.now }
    requires apart { other.now ≢ one.now }
    ensures one { OnOk result (one_list.new.items
        ≡ one_list.old.items ++ event.Inserted id ∷ event.Modified id ∷ event.Removed id ∷ []) }
    ensures other { OnOk result (other_list.new.items
        ≡ other_list.old.items ++ event.Inserted id ∷ event.Modified id ∷ event.Removed id ∷ []) }
{
    let (first, second) = parts;
    put_write_and_take(storage, id, first, second)?;
    storage.channel_mut().read(one, one_list)?;
    storage.channel_mut().read(other, other_list)
}

/// Changes each part beside a join, and takes one out: whatever comes of it, the events show what changed.
///
/// Errors: `AllocError` where one of the two is refused.
pub fn change_and_take<T: Component, R: Join, C: Change<T, R>>(
    storage: &mut MaskedStorage<T>,
    read: R,
    change: &C,
    id: Index,
) -> Result<(), AllocError>
where
    R::Type: Drop,
    C::Refusal: Drop,
    ensures { Shows T.Storage.part_at T.Storage.events T.Storage.emits storage.old.inner storage.new.inner }
{
    let changed = change_each(storage, read, change).is_ok();
    let taken = removals_are_shown(storage, id).is_ok();
    answer_of(changed && taken)
}

/// Lets a reader catch up, changes each part beside a join, and takes one out: whatever comes of it, the reader is told
/// of each index whose part is another than it was.
///
/// Errors: `AllocError` where one of the two is refused.
pub fn change_behind_a_reader<T: Component, R: Join, C: Change<T, R>>(
    storage: &mut MaskedStorage<T>,
    reader: &ReaderId,
    read: R,
    change: &C,
    id: Index,
) -> Result<(), AllocError>
where
    R::Type: Drop,
    C::Refusal: Drop,
    T::Storage: Tracked<T>,
    requires reader { reader.now < length (T.Storage.events storage.old.inner).places }
    requires emits { T.Storage.emits storage.old.inner ≡ true }
    ensures { Tells T.Storage.part_at T.Storage.events reader.now storage.old.inner storage.new.inner }
{
    storage.catch_up(reader);
    change_and_take(storage, read, change, id)
}

/// `change_behind_a_reader`, and then the indices of which the reader is told, in a set: each below `MAX_EID` whose part is
/// another than it was is a member.
///
/// Errors: `AllocError`.
pub fn touched_behind_a_reader<T: Component, R: Join, C: Change<T, R>>(
    storage: &mut MaskedStorage<T>,
    reader: &ReaderId,
    read: R,
    change: &C,
    id: Index,
    touched: &mut BitSet,
) -> Result<(), AllocError>
where
    R::Type: Drop,
    C::Refusal: Drop,
    T::Storage: Tracked<T>,
    requires reader { reader.now < length (T.Storage.events storage.old.inner).places }
    requires emits { T.Storage.emits storage.old.inner ≡ true }
    ensures { OnOk result ((index : ℕ) → index < 16777216
        → T.Storage.part_at storage.new.inner index ≢ T.Storage.part_at storage.old.inner index
        → has_member touched.new index ≡ true) }
{
    let _done = change_behind_a_reader(storage, reader, read, change, id).is_ok();
    storage.channel().unread_indices(reader, touched)
}

/// What is answered where all was done, or not.
fn answer_of(done: bool) -> Result<(), AllocError> {
    if done { Ok(()) } else { Err(AllocError) }
}

/// A part whose changes are told.
#[derive(Drop)]
pub struct Shield(pub u32);

impl Component for Shield {
    type Storage = FlaggedStorage<Shield>;
}

/// What two readers of shields read after one is put at 3, written and taken out.
///
/// Errors: `AllocError`.
pub fn shields_are_told(
    alloc: Global,
) -> Result<(Vec<ComponentEvent>, Vec<ComponentEvent>), AllocError>
    ensures one { IfOk result (λ lists. lists.0.items
        ≡ event.Inserted 3 ∷ event.Modified 3 ∷ event.Removed 3 ∷ []) }
    ensures other { IfOk result (λ lists. lists.1.items
        ≡ event.Inserted 3 ∷ event.Modified 3 ∷ event.Removed 3 ∷ []) }
{
    let mut storage: MaskedStorage<Shield> = MaskedStorage::new(
        alloc,
        FlaggedStorage::unwrap_default(alloc),
    );
    let one = storage.register_reader()?;
    let other = storage.register_reader()?;
    let mut one_list = Vec::new(alloc);
    let mut other_list = Vec::new(alloc);
    two_read(
        &mut storage,
        3,
        (Shield(1), Shield(2)),
        &one,
        &mut one_list,
        &other,
        &mut other_list,
    )?;
    Ok((one_list, other_list))
}
