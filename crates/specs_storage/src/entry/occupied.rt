//! Places with a part.
ghost use Rattle.std.specs.Prelude.{◌≡◌, ◌<◌, IsSome, false, Some, None, IfOk, IfErr, OnOk, OnErr, IsOk};
ghost use Rattle.std.specs.Borrow.{sem};
ghost use Rattle.specs_layouts.specs.MaskedChanges.{PutsIn, KeepsParts, told_in};
ghost use Rattle.specs_layouts.specs.declared.track.ComponentEvent.TheVariants as event;

use super::OccupiedEntry;
use hibitset::Index;
use specs_layouts::{Component, MaskedStorage, UnprotectedStorage};
use std::alloc::{AllocError, AllocFailed};

impl<'a, T: Component> OccupiedEntry<'a, T> {
    ghost use Rattle.specs_storage.specs.EntryLends.{lends_at, lends_there};

    /// The part.
    pub fn get(&self) -> &T
        ensures { T.Storage.part_at self.now.store.now.inner self.now.id ≡ Some result.now }
    {
        self.store.get(self.id)
    }

    /// The part for writing.
    ///
    /// Errors: `AllocError`, where the storage emits, and nothing changed.
    pub fn get_mut(&mut self) -> Result<&mut T, AllocError>
        ensures* writes_back { sem 𝓛 (lends_there T.row T.Storage.row self.entry result) }
        ensures value { IfOk result (λ part. T.Storage.part_at self.old.store.now.inner self.old.id ≡ Some part.now) }
        ensures succeeds { T.Storage.emits self.old.store.now.inner ≡ false → IsOk result }
    {
        let id = self.id;
        self.store.get_mut(id)
    }

    /// The part for writing, for as long as the storage is lent.
    ///
    /// Errors: `AllocError`, where the storage emits, and nothing changed.
    pub fn into_mut(self) -> Result<&'a mut T, AllocError>
        ensures* writes_back { sem 𝓛 (lends_at T.row T.Storage.row T.Storage.UnprotectedStorage self.entry.store
            self.entry.id result) }
        ensures value { IfOk result (λ part. T.Storage.part_at self.entry.store.now.inner self.entry.id
            ≡ Some part.now) }
        ensures succeeds { T.Storage.emits self.entry.store.now.inner ≡ false → IsOk result }
    {
        let OccupiedEntry { store, id } = self;
        store.get_mut(id)
    }

    /// Takes out the part.
    ///
    /// Errors: `AllocError`, where the storage emits and has no room, and each index has the part that it had.
    pub fn remove(self) -> Result<T, AllocError>
        ensures value { IfOk result (λ part. T.Storage.part_at self.entry.store.now.inner self.entry.id ≡ Some part) }
        ensures ok { OnOk result (PutsIn T.Storage.part_at self.entry.store.now self.entry.id None self.exit.0.now) }
        ensures err { OnErr result (KeepsParts T.Storage.part_at self.entry.store.now self.exit.0.now) }
        ensures succeeds { T.Storage.emits self.entry.store.now.inner ≡ false → IsOk result }

        // One event tells of it, and a refusal writes none.
        ensures events { OnOk result (T.Storage.events self.exit.0.now.inner
            ≡ told_in T.Storage.emits T.Storage.events self.entry.store.now (event.Removed self.entry.id)) }
        ensures silent { OnErr result (T.Storage.events self.exit.0.now.inner
            ≡ T.Storage.events self.entry.store.now.inner) }
        ensures emission { T.Storage.emits self.exit.0.now.inner ≡ T.Storage.emits self.entry.store.now.inner }
    {
        let id = self.id;
        take(self.store, id)
    }

    /// Puts `part` in the place of the part, and answers that. A storage that emits writes `Modified`.
    ///
    /// Errors: want of memory, where the storage emits, which hands `part` back, and each index has the part that it had.
    pub fn insert(&mut self, part: T) -> Result<T, AllocFailed<T>>
        ensures value { IfOk result (λ old. T.Storage.part_at self.old.store.now.inner self.old.id ≡ Some old) }
        ensures ok { OnOk result (PutsIn T.Storage.part_at self.old.store.now self.old.id
            (Some part) self.new.store.now) }
        ensures err { OnErr result (KeepsParts T.Storage.part_at self.old.store.now self.new.store.now) }
        ensures handed_back { IfErr result (λ refused. refused.value ≡ part) }
        ensures succeeds { T.Storage.emits self.old.store.now.inner ≡ false → IsOk result }

        // One event tells of it, and a refusal writes none.
        ensures events { OnOk result (T.Storage.events self.new.store.now.inner
            ≡ told_in T.Storage.emits T.Storage.events self.old.store.now (event.Modified self.old.id)) }
        ensures silent { OnErr result (T.Storage.events self.new.store.now.inner
            ≡ T.Storage.events self.old.store.now.inner) }
        ensures emission { T.Storage.emits self.new.store.now.inner ≡ T.Storage.emits self.old.store.now.inner }
        ensures same_reference { self.new.store.ghost_name ≡ self.old.store.ghost_name }
        ensures id { self.new.id ≡ self.old.id }
    {
        let id = self.id;
        swap(self.store, id, part)
    }
}

/// Puts a part in the place of the one at an index that has one, and answers that.
pub(super) fn swap<T: Component>(
    store: &mut MaskedStorage<T>,
    id: Index,
    part: T,
) -> Result<T, AllocFailed<T>>
    requires there { IsSome (T.Storage.part_at store.old.inner id) }
    requires range { id < 16777216 }
    ensures value { IfOk result (λ old. T.Storage.part_at store.old.inner id ≡ Some old) }
    ensures ok { OnOk result (PutsIn T.Storage.part_at store.old id (Some part) store.new) }
    ensures err { OnErr result (KeepsParts T.Storage.part_at store.old store.new) }
    ensures handed_back { IfErr result (λ refused. refused.value ≡ part) }
    ensures succeeds { T.Storage.emits store.old.inner ≡ false → IsOk result }
    ensures events { OnOk result (T.Storage.events store.new.inner
        ≡ told_in T.Storage.emits T.Storage.events store.old (event.Modified id)) }
    ensures silent { OnErr result (T.Storage.events store.new.inner ≡ T.Storage.events store.old.inner) }
    ensures emission { T.Storage.emits store.new.inner ≡ T.Storage.emits store.old.inner }
{
    match store.insert(id, part)? {
        Some(old) => Ok(old),
        None => unreachable!(),
    }
}

/// Takes out the part at an index that has one.
fn take<T: Component>(store: &mut MaskedStorage<T>, id: Index) -> Result<T, AllocError>
    requires { IsSome (T.Storage.part_at store.old.inner id) }
    ensures value { IfOk result (λ part. T.Storage.part_at store.old.inner id ≡ Some part) }
    ensures ok { OnOk result (PutsIn T.Storage.part_at store.old id None store.new) }
    ensures err { OnErr result (KeepsParts T.Storage.part_at store.old store.new) }
    ensures succeeds { T.Storage.emits store.old.inner ≡ false → IsOk result }
    ensures events { OnOk result (T.Storage.events store.new.inner
        ≡ told_in T.Storage.emits T.Storage.events store.old (event.Removed id)) }
    ensures silent { OnErr result (T.Storage.events store.new.inner ≡ T.Storage.events store.old.inner) }
    ensures emission { T.Storage.emits store.new.inner ≡ T.Storage.emits store.old.inner }
{
    match store.remove(id)? {
        Some(part) => Ok(part),
        None => unreachable!(),
    }
}
