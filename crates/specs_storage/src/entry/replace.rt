//! Places whose part is replaced.
ghost use Rattle.std.specs.Prelude.{◌≡◌, ◌<◌, is_some, false, IsSome, IfOk, IfErr, OnOk, OnErr, IsOk};
ghost use Rattle.specs_storage.specs.EntryLends.{store_of, id_of, IsSettled, IsLeft};

use super::occupied::swap;
use super::vacant::fill;
use super::{OccupiedEntry, Spot, StorageEntry, VacantEntry};
use hibitset::Index;
use specs_layouts::{Component, MaskedStorage, UnprotectedStorage};
use std::alloc::AllocFailed;

impl<'a, T: Component> StorageEntry<'a, T> {
    ghost use Rattle.specs_storage.specs.Left.{left_of};

    /// Puts `part` there, and answers the part that was there, or none.
    ///
    /// A storage that emits writes `Modified`, and before it `Inserted` where none was there.
    ///
    /// Errors: want of memory, which hands `part` back, and each index has the part that it had.
    pub fn replace(self, part: T) -> Result<Option<T>, AllocFailed<T>>
        ensures value { IfOk result (λ old. old
            ≡ T.Storage.part_at (store_of self.entry).now.inner (id_of self.entry)) }
        ensures ok { OnOk result (IsSettled T.Storage.UnprotectedStorage (store_of self.entry).now
            (id_of self.entry) part (left_of self.exit).now) }
        ensures err { OnErr result (IsLeft T.Storage.UnprotectedStorage (store_of self.entry).now
            (left_of self.exit).now) }
        ensures handed_back { IfErr result (λ refused. refused.value ≡ part) }
        ensures succeeds { IsSome (T.Storage.part_at (store_of self.entry).now.inner (id_of self.entry))
            → T.Storage.emits (store_of self.entry).now.inner ≡ false → IsOk result }
    {
        let spot = self.spot();
        spot.put(part)
    }

    /// The storage and the index.
    fn spot(self) -> Spot<'a, T>
        ensures store { result.store ≡ store_of self.entry }
        ensures id { result.id ≡ id_of self.entry }
    {
        match self {
            StorageEntry::Occupied(entry) => full_spot(entry),
            StorageEntry::Vacant(entry) => bare_spot(entry),
        }
    }
}

/// The storage and the index of a place with a part.
fn full_spot<T: Component>(entry: OccupiedEntry<'_, T>) -> Spot<'_, T>
    ensures store { result.store ≡ entry.entry.store }
    ensures id { result.id ≡ entry.entry.id }
{
    let OccupiedEntry { store, id } = entry;
    Spot { store, id }
}

/// The storage and the index of a place without a part.
fn bare_spot<T: Component>(entry: VacantEntry<'_, T>) -> Spot<'_, T>
    ensures store { result.store ≡ entry.entry.store }
    ensures id { result.id ≡ entry.entry.id }
{
    let VacantEntry { store, id } = entry;
    Spot { store, id }
}

impl<'a, T: Component> Spot<'a, T> {
    /// Puts a part there, and answers the one that was there, or none.
    fn put(self, part: T) -> Result<Option<T>, AllocFailed<T>>
        ensures value { IfOk result (λ old. old ≡ T.Storage.part_at self.entry.store.now.inner self.entry.id) }
        ensures ok { OnOk result (IsSettled T.Storage.UnprotectedStorage self.entry.store.now self.entry.id part
            self.exit.0.now) }
        ensures err { OnErr result (IsLeft T.Storage.UnprotectedStorage self.entry.store.now self.exit.0.now) }
        ensures handed_back { IfErr result (λ refused. refused.value ≡ part) }
        ensures succeeds { IsSome (T.Storage.part_at self.entry.store.now.inner self.entry.id)
            → T.Storage.emits self.entry.store.now.inner ≡ false → IsOk result }
    {
        let id = self.id;
        put(self.store, id, part)
    }
}

/// Puts a part at an index, and answers the one that was there, or none.
fn put<T: Component>(
    store: &mut MaskedStorage<T>,
    id: Index,
    part: T,
) -> Result<Option<T>, AllocFailed<T>>
    requires { id < 16777216 }
    ensures value { IfOk result (λ old. old ≡ T.Storage.part_at store.old.inner id) }
    ensures ok { OnOk result (IsSettled T.Storage.UnprotectedStorage store.old id part store.new) }
    ensures err { OnErr result (IsLeft T.Storage.UnprotectedStorage store.old store.new) }
    ensures handed_back { IfErr result (λ refused. refused.value ≡ part) }
    ensures succeeds { IsSome (T.Storage.part_at store.old.inner id) → T.Storage.emits store.old.inner ≡ false
        → IsOk result }
{
    if store.contains(id) {
        let old = swap(store, id, part)?;
        return Ok(Some(old));
    }
    fill(store, id, part)?;
    Ok(None)
}
