//! Places whose part is put where none is, and lent.
ghost use Rattle.std.specs.Prelude.{◌≡◌, is_some, false, Some, IsSome, IfOk, IfErr, IsOk, IsErrOf};
ghost use Rattle.std.specs.Option.{unwrap_or, UnwrapsOrElse};
ghost use Rattle.std.specs.Borrow.{sem};
ghost use Rattle.specs_storage.specs.declared.entry.EntryError.TheVariants as refusal;
ghost use Rattle.specs_storage.specs.EntryLends.{lends_at, lends_put, lends_or, store_of, id_of};

use super::vacant::fill;
use super::{EntryError, OccupiedEntry, StorageEntry, VacantEntry};
use hibitset::Index;
use specs_layouts::{Component, MaskedStorage, UnprotectedStorage};
use std::alloc::AllocFailed;

impl<'a, T: Component> StorageEntry<'a, T> {
    /// The part for writing, which is `part` where none was there.
    ///
    /// A storage that emits writes `Modified`, and before it `Inserted` where none was there.
    ///
    /// Errors: want of memory, which hands `part` back, and each index has the part that it had.
    pub fn or_insert(self, part: T) -> Result<&'a mut T, AllocFailed<T>>
        ensures* writes_back { sem 𝓛 (lends_or T.row T.Storage.row T.Storage.UnprotectedStorage
            (store_of self.entry) (id_of self.entry) result) }
        ensures value { IfOk result (λ lent. lent.now
            ≡ unwrap_or (T.Storage.part_at (store_of self.entry).now.inner (id_of self.entry)) part) }
        ensures handed_back { IfErr result (λ refused. refused.value ≡ part) }
        ensures succeeds { IsSome (T.Storage.part_at (store_of self.entry).now.inner (id_of self.entry))
            → T.Storage.emits (store_of self.entry).now.inner ≡ false → IsOk result }
    {
        match self {
            StorageEntry::Occupied(entry) => lend(entry, part),
            StorageEntry::Vacant(entry) => entry.insert(part),
        }
    }

    /// The part for writing, which is what `default` gives where none was there; it is called there alone.
    ///
    /// A storage that emits writes `Modified`, and before it `Inserted` where none was there.
    ///
    /// Errors: `Refused` with the part that `default` gave, for want of memory to put it; `NotLent`, where a part was there
    /// and the storage emits. Each index has the part that it had.
    pub fn or_insert_with<F: FnOnce() -> T + Drop>(
        self,
        default: F,
    ) -> Result<&'a mut T, EntryError<T>>
        requires { is_some (T.Storage.part_at (store_of self).now.inner (id_of self)) ≡ false → F.pre default }
        ensures* writes_back { sem 𝓛 (lends_or T.row T.Storage.row T.Storage.UnprotectedStorage
            (store_of self.entry) (id_of self.entry) result) }
        ensures value { IfOk result (λ lent. UnwrapsOrElse
            (T.Storage.part_at (store_of self.entry).now.inner (id_of self.entry)) (F.post default) lent.now) }
        ensures handed_back { (value : T) → IsErrOf result (refusal.Refused value) → F.post default value }
        ensures refused { (value : T) → IsErrOf result (refusal.Refused value)
            → is_some (T.Storage.part_at (store_of self.entry).now.inner (id_of self.entry)) ≡ false }
        ensures not_lent { IsErrOf result refusal.NotLent
            → IsSome (T.Storage.part_at (store_of self.entry).now.inner (id_of self.entry)) }
        ensures succeeds { IsSome (T.Storage.part_at (store_of self.entry).now.inner (id_of self.entry))
            → T.Storage.emits (store_of self.entry).now.inner ≡ false → IsOk result }
    {
        match self {
            StorageEntry::Occupied(entry) => lend_or_tell(entry),
            StorageEntry::Vacant(entry) => put_or_tell(entry, default()),
        }
    }
}

/// The part at a place that has one, or `part` where it isn't lent.
fn lend<'a, T: Component>(entry: OccupiedEntry<'a, T>, part: T) -> Result<&'a mut T, AllocFailed<T>>
    ensures* writes_back { sem 𝓛 (lends_at T.row T.Storage.row T.Storage.UnprotectedStorage entry.entry.store
        entry.entry.id result) }
    ensures value { IfOk result (λ lent. T.Storage.part_at entry.entry.store.now.inner entry.entry.id ≡ Some lent.now) }
    ensures handed_back { IfErr result (λ refused. refused.value ≡ part) }
    ensures succeeds { T.Storage.emits entry.entry.store.now.inner ≡ false → IsOk result }
{
    let OccupiedEntry { store, id } = entry;
    lend_at(store, id, part)
}

/// The part at an index that has one, or `part` where it isn't lent.
fn lend_at<T: Component>(
    store: &mut MaskedStorage<T>,
    id: Index,
    part: T,
) -> Result<&mut T, AllocFailed<T>>
    requires { IsSome (T.Storage.part_at store.old.inner id) }
    ensures* writes_back { sem 𝓛 (lends_at T.row T.Storage.row T.Storage.UnprotectedStorage store.entry id result) }
    ensures value { IfOk result (λ lent. T.Storage.part_at store.old.inner id ≡ Some lent.now) }
    ensures handed_back { IfErr result (λ refused. refused.value ≡ part) }
    ensures succeeds { T.Storage.emits store.old.inner ≡ false → IsOk result }
{
    match store.get_mut(id) {
        Ok(place) => Ok(place),
        Err(_) => Err(AllocFailed { value: part }),
    }
}

/// The part at a place that has one.
fn lend_or_tell<'a, T: Component>(entry: OccupiedEntry<'a, T>) -> Result<&'a mut T, EntryError<T>>
    ensures* writes_back { sem 𝓛 (lends_at T.row T.Storage.row T.Storage.UnprotectedStorage entry.entry.store
        entry.entry.id result) }
    ensures value { IfOk result (λ part. T.Storage.part_at entry.entry.store.now.inner entry.entry.id ≡ Some part.now) }
    ensures not_lent { IfErr result (λ refused. refused ≡ refusal.NotLent) }
    ensures succeeds { T.Storage.emits entry.entry.store.now.inner ≡ false → IsOk result }
{
    let OccupiedEntry { store, id } = entry;
    let place = store.get_mut(id)?;
    Ok(place)
}

/// The part that is put at a place that has none.
fn put_or_tell<'a, T: Component>(
    entry: VacantEntry<'a, T>,
    part: T,
) -> Result<&'a mut T, EntryError<T>>
    ensures* writes_back { sem 𝓛 (lends_put T.row T.Storage.row T.Storage.UnprotectedStorage entry.entry.store
        entry.entry.id result) }
    ensures value { IfOk result (λ lent. lent.now ≡ part) }
    ensures handed_back { IfErr result (λ refused. refused ≡ refusal.Refused part) }
{
    let VacantEntry { store, id } = entry;
    let place = fill(store, id, part)?;
    Ok(place)
}
