//! Places without a part.
ghost use Rattle.std.specs.Prelude.{◌≡◌, ◌<◌, is_some, false, Some, IfOk, IfErr};
ghost use Rattle.std.specs.Borrow.{sem};
ghost use Rattle.specs_layouts.specs.MaskedChanges.{PutsIn, told_in};
ghost use Rattle.specs_layouts.specs.declared.track.ComponentEvent.TheVariants as event;
ghost use Rattle.specs_storage.specs.EntryLends.{rests_if_refused, lends_put};

use super::{OccupiedEntry, VacantEntry};
use hibitset::Index;
use specs_layouts::{Component, MaskedStorage, UnprotectedStorage};
use std::alloc::AllocFailed;

impl<'a, T: Component> VacantEntry<'a, T> {
    /// Puts `part` there, and lends it for writing.
    ///
    /// A storage that emits writes `Inserted`, and then `Modified`, since the part is lent.
    ///
    /// Errors: want of memory, which hands `part` back, and each index has the part that it had.
    pub fn insert(self, part: T) -> Result<&'a mut T, AllocFailed<T>>
        ensures* writes_back { sem 𝓛 (lends_put T.row T.Storage.row T.Storage.UnprotectedStorage self.entry.store
            self.entry.id result) }
        ensures value { IfOk result (λ lent. lent.now ≡ part) }
        ensures handed_back { IfErr result (λ refused. refused.value ≡ part) }
    {
        let VacantEntry { store, id } = self;
        fill(store, id, part)
    }

    /// Puts `part` there, and answers the place as one that has it.
    ///
    /// Errors: want of memory, which hands `part` back, and each index has the part that it had.
    pub fn insert_entry(self, part: T) -> Result<OccupiedEntry<'a, T>, AllocFailed<T>>
        ensures* rests { sem 𝓛 (rests_if_refused T.row T.Storage.row T.Storage.UnprotectedStorage self.entry.store
            result) }
        ensures same_reference { IfOk result (λ entry. entry.store.ghost_name ≡ self.entry.store.ghost_name) }
        ensures id { IfOk result (λ entry. entry.id ≡ self.entry.id) }
        ensures ok { IfOk result (λ entry. PutsIn T.Storage.part_at self.entry.store.now self.entry.id
            (Some part) entry.store.now) }
        ensures handed_back { IfErr result (λ refused. refused.value ≡ part) }
        ensures events { IfOk result (λ entry. T.Storage.events entry.store.now.inner
            ≡ told_in T.Storage.emits T.Storage.events self.entry.store.now (event.Inserted self.entry.id)) }
        ensures emission { IfOk result (λ entry. T.Storage.emits entry.store.now.inner
            ≡ T.Storage.emits self.entry.store.now.inner) }
    {
        let VacantEntry { store, id } = self;
        put(store, id, part)
    }
}

/// Puts a part at an index that has none.
fn put<T: Component>(
    store: &mut MaskedStorage<T>,
    id: Index,
    part: T,
) -> Result<OccupiedEntry<'_, T>, AllocFailed<T>>
    requires lacking { is_some (T.Storage.part_at store.old.inner id) ≡ false }
    requires range { id < 16777216 }
    ensures* rests { sem 𝓛 (rests_if_refused T.row T.Storage.row T.Storage.UnprotectedStorage store.entry result) }
    ensures same_reference { IfOk result (λ entry. entry.store.ghost_name ≡ store.entry.ghost_name) }
    ensures id { IfOk result (λ entry. entry.id ≡ id) }
    ensures ok { IfOk result (λ entry. PutsIn T.Storage.part_at store.old id (Some part) entry.store.now) }
    ensures handed_back { IfErr result (λ refused. refused.value ≡ part) }
    ensures events { IfOk result (λ entry. T.Storage.events entry.store.now.inner
        ≡ told_in T.Storage.emits T.Storage.events store.old (event.Inserted id)) }
    ensures emission { IfOk result (λ entry. T.Storage.emits entry.store.now.inner ≡ T.Storage.emits store.old.inner) }
{
    store.insert(id, part)?;
    Ok(OccupiedEntry { store, id })
}

/// Puts a part at an index that has none, and lends it.
pub(crate) fn fill<T: Component>(
    store: &mut MaskedStorage<T>,
    id: Index,
    part: T,
) -> Result<&mut T, AllocFailed<T>>
    requires lacking { is_some (T.Storage.part_at store.old.inner id) ≡ false }
    requires range { id < 16777216 }
    ensures* writes_back { sem 𝓛 (lends_put T.row T.Storage.row T.Storage.UnprotectedStorage store.entry id result) }
    ensures value { IfOk result (λ lent. lent.now ≡ part) }
    ensures handed_back { IfErr result (λ refused. refused.value ≡ part) }
{
    if store.make_room(2).is_err() {
        return Err(AllocFailed { value: part });
    }
    store.insert(id, part)?;
    match store.get_mut(id) {
        Ok(place) => Ok(place),
        Err(_) => unreachable!(),
    }
}
