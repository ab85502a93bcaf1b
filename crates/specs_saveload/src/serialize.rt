//! Saving: the marked entities as a list of data.
ghost use Rattle.std.specs.Prelude.{◌≡◌, ◌++◌, ◌⊎◌, ◌↔◌, ℕ, List, Option};
ghost use Rattle.std.specs.Prelude.{Some, None, IsSome, IfOk, IfErr, IfSome, IsErrOf, OnOk};
ghost use Rattle.specs_entity.specs.declared.ids.Entity.{Entity};
ghost use Rattle.specs_entity.specs.declared.errors.Error.TheVariants as refusal;
ghost use Rattle.specs_saveload.specs.Bearing.{IsAmong};
ghost use Rattle.specs_saveload.specs.Asked.{LeavesMarks, SavesReached, marking_of};
ghost use Rattle.specs_saveload.specs.Reached.{KeepsMarks, RefusesReached, marked_first};
ghost use Rattle.specs_saveload.specs.Saved.{IsEntryOf, IsSavedNext, NamesNone, entry_of, name_of, saved};
ghost use Rattle.specs_join.specs.Joins.{living_entity};
ghost use Rattle.specs_saveload.specs.declared.serialize.SaveRefusal.TheVariants as want;

use crate::convert::ConvertSaveload;
use crate::names::{Marks, Names, SavedMarker};
use crate::recursive::save_reached;
use crate::{EntityData, PartForms};
use hibitset::{BitSetLike, Index};
use specs_entity::{EntitiesRes, Entity, Error};
use specs_layouts::{Component, MaskedStorage, UnprotectedStorage};
use specs_markers::MarkerAllocator;
use std::alloc::{AllocError, Global};

/// Storages whose parts are saved: one, or a tuple of two to four such, which nest.
///
/// The name and the calls are those of `specs`.
pub trait SerializeComponents<M: SavedMarker> {
    /// The data of an entity's parts.
    type Data: PartForms;

    /// An entity's parts, each there or absent.
    type Parts;

    /// The parts at each index.
    ghost parts_at: { Self → ℕ → Self.Parts };

    /// The entities that parts name.
    ghost refers_to: { Self.Parts → List Entity };

    /// The data of parts, under a map from entity to marker; none where they name an entity that has none.
    ghost plain: { (Entity → Option M) → Self.Parts → Option Self.Data };

    /// Puts the entities that the parts at an entity's index name behind a list.
    ///
    /// Errors: `AllocError`.
    fn references(&self, entity: Entity, list: &mut Vec<Entity>) -> Result<(), AllocError>
        ensures { OnOk result (list.new.items ≡ list.old.items ++ refers_to (parts_at self.now entity.id)) };

    /// The data of the parts at an entity's index.
    ///
    /// Errors: `Unmarked` if one of them names an entity that has no marker; `Memory`.
    fn serialize_entity<N: Names<M>>(
        &self,
        alloc: Global,
        entity: Entity,
        names: &N,
    ) -> Result<Self::Data, Error>
        ensures ok { IfOk result (λ found. plain (N.name names.now) (parts_at self.now entity.id) ≡ Some found) }
        ensures unmarked { IsErrOf result refusal.Unmarked
            → plain (N.name names.now) (parts_at self.now entity.id) ≡ None }
        ensures refused { IfErr result (λ error. (error ≡ refusal.Unmarked) ⊎ (error ≡ refusal.Memory)) };

    /// The marker of an entity and the data of its parts, as `serialize` has it, or none where it isn't alive or has
    /// no marker.
    ///
    /// Errors: those of `serialize_entity`.
    final fn serialize_marked(
        &self,
        alloc: Global,
        entity: Entity,
        entities: &EntitiesRes,
        markers: &MaskedStorage<M>,
    ) -> Result<Option<EntityData<M, Self::Data>>, Error>
    where
        Self: Sized,
        ensures none { IfOk result (λ found. found ≡ None
            → name_of entities.now (M.Storage.part_at markers.now.inner) entity ≡ None) }
        ensures some { IfOk result (λ found. IfSome found (IsEntryOf plain (parts_at self.now) entities.now
            (M.Storage.part_at markers.now.inner) entity)) }
        ensures unmarked { IsErrOf result refusal.Unmarked → NamesNone plain (parts_at self.now) entities.now
            (M.Storage.part_at markers.now.inner) entity }
        ensures refused { IfErr result (λ error. (error ≡ refusal.Unmarked) ⊎ (error ≡ refusal.Memory)) }
    {
        match entry_at(self, alloc, entity, entities, markers) {
            Ok(found) => Ok(found),
            Err(SaveRefusal::Unmarked) => Err(Error::Unmarked),
            Err(SaveRefusal::Memory) => Err(Error::Memory),
        }
    }

    /// The marker and the data of each living marked entity, ascending by index.
    ///
    /// Errors: `Unmarked` if a part of one of them names an entity that isn't alive or has no marker; `Memory`.
    final fn serialize(
        &self,
        alloc: Global,
        entities: &EntitiesRes,
        markers: &MaskedStorage<M>,
    ) -> Result<Vec<EntityData<M, Self::Data>>, Error>
    where
        Self: Sized,
        ensures ok { IfOk result (λ list. saved plain (parts_at self.now) entities.now
            (M.Storage.part_at markers.now.inner) ≡ Some list.items) }
        ensures unmarked { IsErrOf result refusal.Unmarked
            → saved plain (parts_at self.now) entities.now (M.Storage.part_at markers.now.inner) ≡ None }
        ensures refused { IfErr result (λ error. (error ≡ refusal.Unmarked) ⊎ (error ≡ refusal.Memory)) }
    {
        match save_all(self, alloc, entities, markers) {
            Ok(list) => Ok(list),
            Err(SaveRefusal::Unmarked) => Err(Error::Unmarked),
            Err(SaveRefusal::Memory) => Err(Error::Memory),
        }
    }

    /// As `serialize`, but each entity that the parts of a saved one name is marked where it has no marker, and saved
    /// behind those before it: first the marked ones ascending by index, then, wave after wave, those that were newly
    /// marked, in the order in which they were asked for.
    ///
    /// Errors: `Unmarked` if one that is asked for isn't alive; those that `allocate` has for a marker without an id;
    /// `Memory`. The marks that were made until then stay, and no other are made.
    final fn serialize_recursive<A: MarkerAllocator<M>>(
        &self,
        alloc: Global,
        entities: &EntitiesRes,
        markers: &mut MaskedStorage<M>,
        allocator: &mut A,
    ) -> Result<Vec<EntityData<M, Self::Data>>, Error>
    where
        Self: Sized,
        ensures ok { IfOk result (λ list. SavesReached A.noted A.allocates M.id_of M.Storage.UnprotectedStorage
            entities.now plain refers_to (parts_at self.now) (marking_of allocator.old markers.old)
            (marking_of allocator.new markers.new) list.items) }
        ensures refused { IfErr result (RefusesReached A.refuses (λ one. refers_to (parts_at self.now one.id))
            (marked_first entities.now (M.Storage.part_at markers.old.inner)) entities.now allocator.new) }
        ensures leaves { IfErr result (λ error. LeavesMarks A.noted A.allocates M.id_of M.Storage.UnprotectedStorage
            entities.now A.refuses (λ entity. refers_to (parts_at self.now entity.id))
            (marked_first entities.now (M.Storage.part_at markers.old.inner)) error
            (marking_of allocator.old markers.old) (marking_of allocator.new markers.new)) }
        ensures keeps { KeepsMarks (M.Storage.part_at markers.old.inner) (M.Storage.part_at markers.new.inner) }
    {
        save_reached(self, alloc, entities, markers, allocator)
    }

    /// Parts have data just where each entity that they name has a marker.
    ghost named: { (names : Entity → Option M) (parts : Self.Parts)
        → IsSome (plain names parts) ↔ ((entity : Entity) → IsAmong entity (refers_to parts) → IsSome (names entity)) };
}

/// Why an entity isn't saved.
#[derive(Clone, Copy)]
pub(crate) enum SaveRefusal {
    /// A part of it names an entity that has no marker.
    Unmarked,
    /// There was no memory.
    Memory,
}

/// The entity that lives at an index.
pub(crate) fn living_at(entities: &EntitiesRes, id: Index) -> Option<Entity>
    ensures { result ≡ living_entity entities.now id }
{
    let entity = entities.entity(id);
    if entities.is_alive(entity) {
        Some(entity)
    } else {
        None
    }
}

/// What is saved of an entity with a marker.
fn entry_for<M: SavedMarker, S: SerializeComponents<M>, N: Names<M>>(
    storages: &S,
    alloc: Global,
    entity: Entity,
    marker: &M,
    names: &N,
) -> Result<EntityData<M, S::Data>, SaveRefusal>
    ensures ok { IfOk result (λ entry. entry_of (S.plain (N.name names.now)) (S.parts_at storages.now)
        (entity, marker.now) ≡ Some entry) }
    ensures unmarked { IsErrOf result want.Unmarked → entry_of (S.plain (N.name names.now))
        (S.parts_at storages.now) (entity, marker.now) ≡ None }
{
    let components = match storages.serialize_entity(alloc, entity, names) {
        Ok(components) => components,
        Err(Error::Unmarked) => return Err(SaveRefusal::Unmarked),
        Err(_) => return Err(SaveRefusal::Memory),
    };
    match marker.copy() {
        Ok(marker) => Ok(EntityData { marker, components }),
        Err(_) => Err(SaveRefusal::Memory),
    }
}

/// What is saved of an entity, or none where it isn't alive or has no marker.
pub(crate) fn entry_at<M: SavedMarker, S: SerializeComponents<M>>(
    storages: &S,
    alloc: Global,
    entity: Entity,
    entities: &EntitiesRes,
    markers: &MaskedStorage<M>,
) -> Result<Option<EntityData<M, S::Data>>, SaveRefusal>
    ensures none { IfOk result (λ found. found ≡ None
        → name_of entities.now (M.Storage.part_at markers.now.inner) entity ≡ None) }
    ensures some { IfOk result (λ found. IfSome found (IsEntryOf S.plain (S.parts_at storages.now) entities.now
        (M.Storage.part_at markers.now.inner) entity)) }
    ensures unmarked { IsErrOf result want.Unmarked → NamesNone S.plain (S.parts_at storages.now) entities.now
        (M.Storage.part_at markers.now.inner) entity }
{
    let marks = Marks { entities, markers };
    if !entities.is_alive(entity) || !markers.contains(entity.id()) {
        return Ok(None);
    }
    match entry_for(storages, alloc, entity, markers.get(entity.id()), &marks) {
        Ok(entry) => Ok(Some(entry)),
        Err(refused) => Err(refused),
    }
}

/// Puts what is saved of one entity behind a list.
fn save_one<M: SavedMarker, S: SerializeComponents<M>, N: Names<M>>(
    list: &mut Vec<EntityData<M, S::Data>>,
    storages: &S,
    alloc: Global,
    entity: Entity,
    marker: &M,
    names: &N,
) -> Result<(), SaveRefusal>
    ensures ok { OnOk result (IsSavedNext (entry_of (S.plain (N.name names.now)) (S.parts_at storages.now)
        (entity, marker.now)) list.old.items list.new.items) }
    ensures unmarked { IsErrOf result want.Unmarked → entry_of (S.plain (N.name names.now))
        (S.parts_at storages.now) (entity, marker.now) ≡ None }
{
    let entry = match entry_for(storages, alloc, entity, marker, names) {
        Ok(entry) => entry,
        Err(refused) => return Err(refused),
    };
    match list.push(entry) {
        Ok(()) => Ok(()),
        Err(_) => Err(SaveRefusal::Memory),
    }
}

/// What is saved of all living marked entities, in one pass over the indices that have a marker.
fn save_all<M: SavedMarker, S: SerializeComponents<M>>(
    storages: &S,
    alloc: Global,
    entities: &EntitiesRes,
    markers: &MaskedStorage<M>,
) -> Result<Vec<EntityData<M, S::Data>>, SaveRefusal>
    ensures ok { IfOk result (λ list. saved S.plain (S.parts_at storages.now) entities.now
        (M.Storage.part_at markers.now.inner) ≡ Some list.items) }
    ensures unmarked { IsErrOf result want.Unmarked
        → saved S.plain (S.parts_at storages.now) entities.now (M.Storage.part_at markers.now.inner) ≡ None }
{
    let marks = Marks { entities, markers };
    let mut list = Vec::new(alloc);
    for id in markers.mask().iter() {
        if let Some(entity) = living_at(entities, id) {
            match save_one(&mut list, storages, alloc, entity, markers.get(id), &marks) {
                Ok(()) => {}
                Err(refused) => return Err(refused),
            }
        }
    }
    Ok(list)
}

/// The parts of one kind.
impl<M: SavedMarker, C: Component + ConvertSaveload<M>> SerializeComponents<M>
    for MaskedStorage<C> {
    type Data = Option<C::Data>;

    type Parts = Option<C>;

    ghost use Rattle.specs_saveload.specs.Saved.{named_in, plain_in};
    ghost use Rattle.specs_saveload.specs.NamingLemmas.{option-named};

    ghost parts_at = { λ storage. C.Storage.part_at storage.inner };

    ghost refers_to = { named_in C.refers_to };

    ghost plain = { λ names. plain_in (C.plain names) };

    fn references(&self, entity: Entity, list: &mut Vec<Entity>) -> Result<(), AllocError> {
        if self.contains(entity.id()) {
            self.get(entity.id()).references(list)
        } else {
            Ok(())
        }
    }

    fn serialize_entity<N: Names<M>>(
        &self,
        alloc: Global,
        entity: Entity,
        names: &N,
    ) -> Result<Option<C::Data>, Error> {
        if !self.contains(entity.id()) {
            return Ok(None);
        }
        let found = self.get(entity.id()).convert_into(alloc, names)?;
        Ok(Some(found))
    }

    ghost named = { λ names. option-named C.refers_to (C.plain names) names (C.named names) };
}

/// Storages that are lent for reading.
impl<M: SavedMarker, S: SerializeComponents<M>> SerializeComponents<M> for &S {
    type Data = S::Data;

    type Parts = S::Parts;

    ghost parts_at = { λ storages. S.parts_at storages.now };

    ghost refers_to = { S.refers_to };

    ghost plain = { S.plain };

    fn references(&self, entity: Entity, list: &mut Vec<Entity>) -> Result<(), AllocError> {
        (**self).references(entity, list)
    }

    fn serialize_entity<N: Names<M>>(
        &self,
        alloc: Global,
        entity: Entity,
        names: &N,
    ) -> Result<S::Data, Error> {
        (**self).serialize_entity(alloc, entity, names)
    }

    ghost named = { S.named };
}

/// The parts of both.
impl<M: SavedMarker, A: SerializeComponents<M>, B: SerializeComponents<M>> SerializeComponents<M>
    for (A, B) {
    type Data = (A::Data, B::Data);

    type Parts = (A::Parts, B::Parts);

    ghost use Rattle.std.specs.Prelude.{◌++◌};
    ghost use Rattle.specs_join.specs.Joins.{both};
    ghost use Rattle.specs_saveload.specs.NamingLemmas.{both-named};

    ghost parts_at = { λ storages index. (A.parts_at storages.0 index, B.parts_at storages.1 index) };

    ghost refers_to = { λ parts. A.refers_to parts.0 ++ B.refers_to parts.1 };

    ghost plain = { λ names parts. both (A.plain names parts.0) (B.plain names parts.1) };

    fn references(&self, entity: Entity, list: &mut Vec<Entity>) -> Result<(), AllocError> {
        self.0.references(entity, list)?;
        self.1.references(entity, list)
    }

    fn serialize_entity<N: Names<M>>(
        &self,
        alloc: Global,
        entity: Entity,
        names: &N,
    ) -> Result<(A::Data, B::Data), Error> {
        let first = self.0.serialize_entity(alloc, entity, names)?;
        let second = self.1.serialize_entity(alloc, entity, names)?;
        Ok((first, second))
    }

    ghost named = { λ names parts. both-named names (A.plain names parts.0) (B.plain names parts.1)
        (A.refers_to parts.0) (B.refers_to parts.1) (A.named names parts.0) (B.named names parts.1) };
}

/// The parts of all three.
impl<
    M: SavedMarker,
    A: SerializeComponents<M>,
    B: SerializeComponents<M>,
    C: SerializeComponents<M>,
> SerializeComponents<M> for (A, B, C) {
    type Data = (A::Data, B::Data, C::Data);

    type Parts = (A::Parts, B::Parts, C::Parts);

    ghost use Rattle.std.specs.Prelude.{◌++◌};
    ghost use Rattle.specs_join.specs.Joins.{all_three};
    ghost use Rattle.specs_saveload.specs.NamingLemmas.{three-named};

    ghost parts_at = { λ storages index. (
      A.parts_at storages.0 index,
      B.parts_at storages.1 index,
      C.parts_at storages.2 index,
    ) };

    ghost refers_to = { λ parts. A.refers_to parts.0 ++ (B.refers_to parts.1 ++ C.refers_to parts.2) };

    ghost plain = { λ names parts. all_three (A.plain names parts.0) (B.plain names parts.1) (C.plain names parts.2) };

    fn references(&self, entity: Entity, list: &mut Vec<Entity>) -> Result<(), AllocError> {
        self.0.references(entity, list)?;
        self.1.references(entity, list)?;
        self.2.references(entity, list)
    }

    fn serialize_entity<N: Names<M>>(
        &self,
        alloc: Global,
        entity: Entity,
        names: &N,
    ) -> Result<(A::Data, B::Data, C::Data), Error> {
        let first = self.0.serialize_entity(alloc, entity, names)?;
        let second = self.1.serialize_entity(alloc, entity, names)?;
        let third = self.2.serialize_entity(alloc, entity, names)?;
        Ok((first, second, third))
    }

    ghost named = { λ names parts. three-named names (A.plain names parts.0) (B.plain names parts.1)
        (C.plain names parts.2) (A.refers_to parts.0) (B.refers_to parts.1) (C.refers_to parts.2)
        (A.named names parts.0) (B.named names parts.1) (C.named names parts.2) };
}

/// The parts of all four. Their data is that of the first two beside that of the last two, and is written as one list.
impl<
    M: SavedMarker,
    A: SerializeComponents<M>,
    B: SerializeComponents<M>,
    C: SerializeComponents<M>,
    D: SerializeComponents<M>,
> SerializeComponents<M> for (A, B, C, D) {
    type Data = ((A::Data, B::Data), (C::Data, D::Data));

    type Parts = ((A::Parts, B::Parts), (C::Parts, D::Parts));

    ghost use Rattle.std.specs.Prelude.{◌++◌};
    ghost use Rattle.specs_join.specs.Joins.{both};
    ghost use Rattle.specs_saveload.specs.NamingLemmas.{both-named};

    ghost parts_at = { λ storages index. (
      (A.parts_at storages.0 index, B.parts_at storages.1 index),
      (C.parts_at storages.2 index, D.parts_at storages.3 index),
    ) };

    ghost refers_to = { λ parts. (A.refers_to parts.0.0 ++ B.refers_to parts.0.1)
        ++ (C.refers_to parts.1.0 ++ D.refers_to parts.1.1) };

    ghost plain = { λ names parts. both (both (A.plain names parts.0.0) (B.plain names parts.0.1))
        (both (C.plain names parts.1.0) (D.plain names parts.1.1)) };

    fn references(&self, entity: Entity, list: &mut Vec<Entity>) -> Result<(), AllocError> {
        self.0.references(entity, list)?;
        self.1.references(entity, list)?;
        self.2.references(entity, list)?;
        self.3.references(entity, list)
    }

    fn serialize_entity<N: Names<M>>(
        &self,
        alloc: Global,
        entity: Entity,
        names: &N,
    ) -> Result<((A::Data, B::Data), (C::Data, D::Data)), Error> {
        let first = self.0.serialize_entity(alloc, entity, names)?;
        let second = self.1.serialize_entity(alloc, entity, names)?;
        let third = self.2.serialize_entity(alloc, entity, names)?;
        let fourth = self.3.serialize_entity(alloc, entity, names)?;
        Ok(((first, second), (third, fourth)))
    }

    ghost named = { λ names parts. both-named names
        (both (A.plain names parts.0.0) (B.plain names parts.0.1))
        (both (C.plain names parts.1.0) (D.plain names parts.1.1))
        (A.refers_to parts.0.0 ++ B.refers_to parts.0.1) (C.refers_to parts.1.0 ++ D.refers_to parts.1.1)
        (both-named names (A.plain names parts.0.0) (B.plain names parts.0.1) (A.refers_to parts.0.0)
        (B.refers_to parts.0.1) (A.named names parts.0.0) (B.named names parts.0.1))
        (both-named names (C.plain names parts.1.0) (D.plain names parts.1.1) (C.refers_to parts.1.0)
        (D.refers_to parts.1.1) (C.named names parts.1.0) (D.named names parts.1.1)) };
}
