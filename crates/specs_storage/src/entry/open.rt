//! How the place of an entity's part is found.
ghost use Rattle.std.specs.Prelude.{◌≡◌, ◌↔◌, ◌<◌, IfOk, IfErr, IsOk, IsTrue, unwrap_or};
ghost use Rattle.std.specs.Borrow.{sem};
ghost use Rattle.specs_entity.specs.Births.{IsAlive, persistent_at};
ghost use Rattle.specs_entity.specs.Life.{first_life};
ghost use Rattle.specs_storage.specs.StorageLends.{lends_store};
ghost use Rattle.specs_storage.specs.EntryLends.{lends_open, lends_entry, store_of, id_of};

use super::{EntryOf, OccupiedEntry, StorageEntry, VacantEntry};
use crate::storage::Storage;
use hibitset::Index;
use specs_entity::{Entity, Generation, WrongGeneration};
use specs_layouts::{Component, MaskedStorage, UnprotectedStorage};

impl<'e, T: Component> Storage<'e, T, &'e mut MaskedStorage<T>> {
    /// The place of an entity's part, as one with a part or one without.
    ///
    /// Errors: `WrongGeneration` if the entity isn't alive, with the generation that `EntitiesRes::generation` gives for
    /// its index, or 1 where that has none; and nothing changed.
    pub fn entry(&mut self, e: Entity) -> Result<StorageEntry<'_, T>, WrongGeneration>
        ensures* rests { sem 𝓛 (lends_entry T.row T.Storage.row T.Storage.UnprotectedStorage self.entry result) }
        ensures value { IfOk result (λ entry. (store_of entry).now ≡ self.old.store.now) }
        ensures id { IfOk result (λ entry. id_of entry ≡ e.id) }
        ensures succeeds { IsOk result ↔ IsAlive self.old.entities.now e }
        ensures wrong_generation { IfErr result
            (λ refusal. (refusal.entity ≡ e) × (refusal.actual_gen
            ≡ unwrap_or (persistent_at self.old.entities.now e.id) first_life)) }
    {
        let asked = self.entry_of(e);
        asked.open()
    }

    /// The parts, with what is known of an entity.
    fn entry_of(&mut self, e: Entity) -> EntryOf<'_, T>
        ensures* writes_back { sem 𝓛 (lends_store T.row T.Storage.row T.Storage.UnprotectedStorage self.entry
            result.store) }
        ensures value { result.store.now ≡ self.old.store.now }
        ensures entity { result.entity ≡ e }
        ensures alive { IsTrue result.is_alive ↔ IsAlive self.old.entities.now e }
        ensures last { result.last ≡ unwrap_or (persistent_at self.old.entities.now e.id) first_life }
    {
        let is_alive = self.entities.is_alive(e);
        let last = self.entities.generation(e.id());
        EntryOf {
            store: self.store,
            entity: e,
            is_alive,
            last: last.unwrap_or(Generation::one()),
        }
    }
}

impl<'a, T: Component> EntryOf<'a, T> {
    /// The place, or the refusal of an entity that isn't alive.
    fn open(self) -> Result<StorageEntry<'a, T>, WrongGeneration>
        ensures* rests { sem 𝓛 (lends_open T.row T.Storage.row T.Storage.UnprotectedStorage self.entry.store result) }
        ensures same_reference { IfOk result (λ entry. (store_of entry).ghost_name ≡ self.entry.store.ghost_name) }
        ensures value { IfOk result (λ entry. (store_of entry).now ≡ self.entry.store.now) }
        ensures id { IfOk result (λ entry. id_of entry ≡ self.entry.entity.id) }
        ensures succeeds { IsOk result ↔ IsTrue self.entry.is_alive }
        ensures wrong_generation { IfErr result
            (λ refusal. (refusal.entity ≡ self.entry.entity) × (refusal.actual_gen ≡ self.entry.last)) }
    {
        let EntryOf {
            store,
            entity,
            is_alive,
            last,
        } = self;
        if !is_alive {
            return Err(WrongGeneration {
                action: "take the entry",
                actual_gen: last,
                entity,
            });
        }
        Ok(entry_at(store, entity.id()))
    }
}

/// The place of the part at an index, as one with a part or one without. No entity is asked whether it is alive:
/// `Storage::entry` is that question and this place.
///
/// What a caller does with the place is known of the storage that lent it.
pub fn entry_at<T: Component>(store: &mut MaskedStorage<T>, id: Index) -> StorageEntry<'_, T>
    requires { id < 16777216 }
    ensures same_reference { (store_of result).ghost_name ≡ store.entry.ghost_name }
    ensures store { (store_of result).now ≡ store.old }
    ensures id { id_of result ≡ id }
{
    if store.contains(id) {
        StorageEntry::Occupied(OccupiedEntry { store, id })
    } else {
        StorageEntry::Vacant(VacantEntry { store, id })
    }
}
