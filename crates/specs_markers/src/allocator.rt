//! What gives markers, and knows the entities that bear them.
ghost use Rattle.std.specs.Prelude.{◌≡◌, ℕ, Option, None, IsSome, IsOk, IfOk, IfErr, OnOk, OnErr, false};
ghost use Rattle.specs_entity.specs.Births.{IsAlive};
ghost use Rattle.specs_entity.specs.declared.ids.Entity.{Entity};
ghost use Rattle.specs_entity.specs.declared.errors.Error.{Error};
ghost use Rattle.specs_entity.specs.declared.errors.Error.TheVariants as refusal;
ghost use Rattle.specs_markers.specs.Marking.{IsUntold, RefusesMark, Retrieves, RefusesRetrieval, TellsMark};
ghost use Rattle.specs_markers.specs.Marks.{Notes, IsAsked, IsNoteOfLast};

use crate::marker::Marker;
use crate::marking::{create_marked, known, mark_at, renew, tell};
use specs_entity::{EntitiesRes, Entity, Error};
use specs_layouts::{Component, MaskedStorage, UnprotectedStorage};

/// Gives markers, and notes under each id the entity that it was given for last.
///
/// The name and the calls are those of `specs`.
pub trait MarkerAllocator<M: Marker> {
    /// The entity that is noted under each id.
    ghost noted: { Self → M.Identifier → Option Entity };

    /// Which marker an entity is given for an id, or for none, and what the allocator is after it.
    ghost allocates: { Self → Entity → Option M.Identifier → M → Self → Type 0 };

    /// What a marker for an id, or for none, is refused for.
    ghost refuses: { Self → Option M.Identifier → Error → Type 0 };

    /// Gives a marker for an entity, and notes the entity under its id: the one asked for, or a new one.
    ///
    /// Errors: `MarkersSpent` if no id is left, and `Memory`. The allocator is as it was.
    fn allocate(&mut self, entity: Entity, id: Option<M::Identifier>) -> Result<M, Error>
        ensures value { IfOk result (λ marker. allocates self.old entity id marker self.new) }
        ensures asked { IfOk result (λ marker. IsAsked id (M.id_of marker)) }
        ensures ok { IfOk result (λ marker. Notes (noted self.old) (M.id_of marker) entity (noted self.new)) }
        ensures refused { IfErr result (refuses self.old id) }
        ensures err { OnErr result (self.new ≡ self.old) };

    /// The entity that is noted under an id, also where it is dead.
    fn retrieve_entity_internal(&self, id: M::Identifier) -> Option<Entity>
        ensures { result ≡ noted self.now id };

    /// Notes the living marked entities alone, each under its marker's id; of two with one id that of the
    /// greater index.
    ///
    /// Errors: `Memory`, and the allocator is as it was.
    fn maintain(&mut self, entities: &EntitiesRes, storage: &MaskedStorage<M>) -> Result<(), Error>
        ensures ok { OnOk result ((id : M.Identifier) → IsNoteOfLast M.id_of entities.now
            (M.Storage.part_at storage.now.inner) id (noted self.new id)) }
        ensures refused { IfErr result (λ error. error ≡ refusal.Memory) }
        ensures err { OnErr result (self.new ≡ self.old) };

    /// Marks an entity, and answers the id of its marker beside whether that is new, or none where the entity isn't
    /// alive. An entity that is marked keeps its marker.
    ///
    /// A storage that emits writes `Modified`, and of a new marker `Inserted` before it.
    ///
    /// Errors: `Memory`, and those of `allocate`; none where the entity is marked and the storage doesn't emit.
    /// Each index has the marker that it had, and nothing was told. The allocator is as it was, or, at a `Memory`
    /// alone, gave a marker that found no place.
    final fn mark(
        &mut self,
        entity: Entity,
        storage: &mut MaskedStorage<M>,
        entities: &EntitiesRes,
    ) -> Result<Option<(M::Identifier, bool)>, Error>
    where
        Self: Sized,
        ensures ok { IfOk result (TellsMark noted allocates M.id_of M.Storage.UnprotectedStorage entities.now entity
            self.old self.new storage.old storage.new) }
        ensures untold { OnErr result (IsUntold M.Storage.UnprotectedStorage storage.old storage.new) }
        ensures refused { IfErr result (RefusesMark noted allocates M.id_of refuses entity self.old self.new) }
        ensures alive { OnErr result (IsAlive entities.now entity) }
        ensures succeeds { IsSome (M.Storage.part_at storage.old.inner entity.id)
            → M.Storage.emits storage.old.inner ≡ false → IsOk result }
    {
        let new = mark_at(self, entity, storage, entities)?;
        Ok(tell(storage, entity.id(), new))
    }

    /// The entity that is noted under the marker's id, where it is alive and marked: its marker is brought up to
    /// date. Else a new one, with the marker that `allocate` gives for that id.
    ///
    /// A storage that emits writes `Modified` of a marker that was there, else `Inserted`.
    ///
    /// Errors, all of which hand `marker` back: `Memory` for the event of a marker that is there, or those of
    /// `EntitiesRes::create`, and nothing changed; then those of `allocate`, and `Memory` for the storage, after
    /// which the entity that was created has its deletion accepted, and may be noted under the id. Each index has
    /// the marker that it had.
    final fn retrieve_entity(
        &mut self,
        marker: M,
        storage: &mut MaskedStorage<M>,
        entities: &mut EntitiesRes,
    ) -> Result<Entity, (Error, M)>
    where
        Self: Sized,
        ensures ok { IfOk result (Retrieves noted allocates M.id_of M.Storage.UnprotectedStorage (M.id_of marker)
            entities.old entities.new self.old self.new storage.old storage.new) }
        ensures refused { IfErr result (λ refused. RefusesRetrieval noted allocates M.id_of
            M.Storage.UnprotectedStorage (M.id_of marker) entities.old entities.new self.old self.new
            storage.old storage.new refuses refused.0) }
        ensures handed_back { IfErr result (λ refused. refused.1 ≡ marker) }
    {
        match known(self, marker.id(), storage, entities) {
            Some(entity) => match renew(storage, entity.id(), marker) {
                Ok(()) => Ok(entity),
                Err(refused) => Err((Error::Memory, refused.value)),
            },
            None => create_marked(self, marker, storage, entities),
        }
    }
}
