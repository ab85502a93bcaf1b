//! Saving with all that is named: who is asked for is marked, and saved behind those before it.
ghost use Rattle.std.specs.Prelude.{◌≡◌, ◌⊎◌, ◌∷◌, [], map, flat_map, slice_get, Some, None};
ghost use Rattle.std.specs.Prelude.{IfOk, IfErr, IsErrOf, OnOk};
ghost use Rattle.specs_entity.specs.Births.{IsAlive};
ghost use Rattle.specs_entity.specs.declared.ids.Entity.{Entity};
ghost use Rattle.specs_entity.specs.declared.errors.Error.TheVariants as refusal;
ghost use Rattle.specs_saveload.specs.Bearing.{IsAmong};
ghost use Rattle.specs_saveload.specs.Orders.{ReachesAll};
ghost use Rattle.specs_saveload.specs.Asked.{AsksEach, AsksFor, AsksSome, LeavesMarks, SavesReached, marking_of};
ghost use Rattle.specs_saveload.specs.Reached.{IsOrder, KeepsMarks, RefusesAsked, RefusesReached};
ghost use Rattle.specs_saveload.specs.Reached.{Order, marked_first, named_entry};
ghost use Rattle.specs_saveload.specs.Reached.{with_asked, with_all_asked};
ghost use Rattle.specs_saveload.specs.Saved.{all_some};

use crate::EntityData;
use crate::names::SavedMarker;
use crate::serialize::{SaveRefusal, SerializeComponents, entry_at, living_at};
use hibitset::{BitSetLike, MAX_EID};
use specs_entity::laws::the_living_are_below_the_limit;
use specs_entity::{EntitiesRes, Entity, Error};
use specs_layouts::{Component, MaskedStorage, UnprotectedStorage};
use specs_markers::{Marker, MarkerAllocator};
use std::alloc::{AllocError, Global};

/// The living marked entities, ascending by index.
fn marked_entities<M: SavedMarker>(
    alloc: Global,
    entities: &EntitiesRes,
    markers: &MaskedStorage<M>,
) -> Result<Vec<Entity>, AllocError>
    ensures { IfOk result (λ list. list.items ≡ (marked_first entities.now
        (M.Storage.part_at markers.now.inner)).entities) }
{
    let mut list = Vec::new(alloc);
    for id in markers.mask().iter() {
        if let Some(entity) = living_at(entities, id) {
            match list.push(entity) {
                Ok(()) => {}
                Err(refused) => return Err(refused.into()),
            }
        }
    }
    Ok(list)
}

/// Asks for an entity: where it has no marker it is marked, and put behind a list.
fn ask<M: SavedMarker, A: MarkerAllocator<M>>(
    entity: Entity,
    list: &mut Vec<Entity>,
    entities: &EntitiesRes,
    markers: &mut MaskedStorage<M>,
    allocator: &mut A,
) -> Result<(), Error>
    ensures ok { OnOk result ((was : Order) → IsOrder was (M.Storage.part_at markers.old.inner) list.old.items
        → IsOrder (with_asked was entity) (M.Storage.part_at markers.new.inner) list.new.items) }
    ensures asks { OnOk result (AsksFor A.noted A.allocates M.id_of M.Storage.UnprotectedStorage entities.now entity
        (marking_of allocator.old markers.old) (marking_of allocator.new markers.new)) }
    ensures leaves { IfErr result (λ error. AsksSome A.noted A.allocates M.id_of M.Storage.UnprotectedStorage
        entities.now A.refuses
        (entity ∷ []) error (marking_of allocator.old markers.old) (marking_of allocator.new markers.new)) }
    ensures alive { OnOk result (IsAlive entities.now entity) }
    ensures refused { IfErr result (RefusesAsked A.refuses entities.now allocator.new entity) }
    ensures keeps { KeepsMarks (M.Storage.part_at markers.old.inner) (M.Storage.part_at markers.new.inner) }
{
    match allocator.mark(entity, markers, entities) {
        Ok(Some((_, true))) => match list.push(entity) {
            Ok(()) => Ok(()),
            Err(_) => Err(Error::Memory),
        },
        Ok(Some((_, false))) => Ok(()),
        Ok(None) => Err(Error::Unmarked),
        Err(error) => Err(error),
    }
}

/// Asks for the entities of a list, one after the other.
fn ask_all<M: SavedMarker, A: MarkerAllocator<M>>(
    asked: Vec<Entity>,
    list: &mut Vec<Entity>,
    entities: &EntitiesRes,
    markers: &mut MaskedStorage<M>,
    allocator: &mut A,
) -> Result<(), Error>
    ensures ok { OnOk result ((order : Order) → IsOrder order (M.Storage.part_at markers.old.inner) list.old.items
        → IsOrder (with_all_asked order asked.items) (M.Storage.part_at markers.new.inner) list.new.items) }
    ensures asks { OnOk result (AsksEach A.noted A.allocates M.id_of M.Storage.UnprotectedStorage entities.now
        asked.items
        (marking_of allocator.old markers.old) (marking_of allocator.new markers.new)) }
    ensures leaves { IfErr result (λ error. AsksSome A.noted A.allocates M.id_of M.Storage.UnprotectedStorage
        entities.now A.refuses
        asked.items error (marking_of allocator.old markers.old) (marking_of allocator.new markers.new)) }
    ensures alive { OnOk result ((entity : Entity) → IsAmong entity asked.items → IsAlive entities.now entity) }
    ensures refused { IfErr result (λ error. (entity : Entity) × IsAmong entity asked.items
        × RefusesAsked A.refuses entities.now allocator.new entity error) }
    ensures keeps { KeepsMarks (M.Storage.part_at markers.old.inner) (M.Storage.part_at markers.new.inner) }
{
    let _count = asked.as_slice().len();
    for entity in asked {
        match ask(entity, list, entities, markers, allocator) {
            Ok(()) => {}
            Err(error) => return Err(error),
        }
    }
    Ok(())
}

/// Asks for the entities that the parts of one name.
fn ask_for_named<M: SavedMarker, S: SerializeComponents<M>, A: MarkerAllocator<M>>(
    storages: &S,
    alloc: Global,
    entity: Entity,
    list: &mut Vec<Entity>,
    entities: &EntitiesRes,
    markers: &mut MaskedStorage<M>,
    allocator: &mut A,
) -> Result<(), Error>
    ensures ok { OnOk result ((order : Order) → IsOrder order (M.Storage.part_at markers.old.inner) list.old.items
        → IsOrder (with_all_asked order (S.refers_to (S.parts_at storages.now entity.id)))
        (M.Storage.part_at markers.new.inner) list.new.items) }
    ensures asks { OnOk result (AsksEach A.noted A.allocates M.id_of M.Storage.UnprotectedStorage entities.now
        (S.refers_to (S.parts_at storages.now entity.id))
        (marking_of allocator.old markers.old) (marking_of allocator.new markers.new)) }
    ensures leaves { IfErr result (λ error. AsksSome A.noted A.allocates M.id_of M.Storage.UnprotectedStorage
        entities.now A.refuses
        (S.refers_to (S.parts_at storages.now entity.id)) error
        (marking_of allocator.old markers.old) (marking_of allocator.new markers.new)) }
    ensures alive { OnOk result ((named : Entity) → IsAmong named (S.refers_to (S.parts_at storages.now entity.id))
        → IsAlive entities.now named) }
    ensures refused { IfErr result (λ error. ((named : Entity)
        × IsAmong named (S.refers_to (S.parts_at storages.now entity.id))
        × RefusesAsked A.refuses entities.now allocator.new named error) ⊎ (error ≡ refusal.Memory)) }
    ensures keeps { KeepsMarks (M.Storage.part_at markers.old.inner) (M.Storage.part_at markers.new.inner) }
{
    let mut asked = Vec::new(alloc);
    match storages.references(entity, &mut asked) {
        Ok(()) => ask_all(asked, list, entities, markers, allocator),
        Err(_) => Err(Error::Memory),
    }
}

/// The entity at a place of a list.
fn entity_at(list: &[Entity], place: usize) -> Option<Entity>
    ensures { result ≡ slice_get list.now place }
{
    list.get(place).copied()
}

/// Marks all that are reached, and answers them in their order. Each has an index of its own, so they are no more than
/// there are indices.
///
/// Errors: `Unmarked` if one that is asked for isn't alive; those of `mark`; `Memory`.
fn reach<M: SavedMarker, S: SerializeComponents<M>, A: MarkerAllocator<M>>(
    storages: &S,
    alloc: Global,
    entities: &EntitiesRes,
    markers: &mut MaskedStorage<M>,
    allocator: &mut A,
) -> Result<Vec<Entity>, Error>
    ensures ok { IfOk result (λ list. ReachesAll (λ entity. S.refers_to (S.parts_at storages.now entity.id))
        entities.now (marked_first entities.now (M.Storage.part_at markers.old.inner))
        (M.Storage.part_at markers.new.inner) list.items) }
    ensures asks { IfOk result (λ list. AsksEach A.noted A.allocates M.id_of M.Storage.UnprotectedStorage
        entities.now
        (flat_map (λ entity. S.refers_to (S.parts_at storages.now entity.id)) list.items)
        (marking_of allocator.old markers.old) (marking_of allocator.new markers.new)) }
    ensures leaves { IfErr result (λ error. LeavesMarks A.noted A.allocates M.id_of M.Storage.UnprotectedStorage
        entities.now A.refuses
        (λ entity. S.refers_to (S.parts_at storages.now entity.id))
        (marked_first entities.now (M.Storage.part_at markers.old.inner)) error
        (marking_of allocator.old markers.old) (marking_of allocator.new markers.new)) }
    ensures refused { IfErr result (RefusesReached A.refuses (λ entity. S.refers_to
        (S.parts_at storages.now entity.id))
        (marked_first entities.now (M.Storage.part_at markers.old.inner)) entities.now allocator.new) }
    ensures keeps { KeepsMarks (M.Storage.part_at markers.old.inner) (M.Storage.part_at markers.new.inner) }
{
    the_living_are_below_the_limit(entities);
    let mut list = match marked_entities(alloc, entities, markers) {
        Ok(list) => list,
        Err(_) => return Err(Error::Memory),
    };
    for place in 0..MAX_EID {
        let Some(entity) = entity_at(list.as_slice(), place) else {
            return Ok(list);
        };
        match ask_for_named(
            storages, alloc, entity, &mut list, entities, markers, allocator,
        ) {
            Ok(()) => {}
            Err(error) => return Err(error),
        }
    }
    Ok(list)
}

/// What is saved of the entities of a list, one after the other.
fn save_each<M: SavedMarker, S: SerializeComponents<M>>(
    storages: &S,
    alloc: Global,
    list: Vec<Entity>,
    entities: &EntitiesRes,
    markers: &MaskedStorage<M>,
) -> Result<Vec<EntityData<M, S::Data>>, Error>
    ensures ok { IfOk result (λ saved. all_some (map (named_entry S.plain (S.parts_at storages.now) entities.now
        (M.Storage.part_at markers.now.inner)) list.items) ≡ Some saved.items) }
    ensures unmarked { IsErrOf result refusal.Unmarked → (entity : Entity) × IsAmong entity list.items
        × (named_entry S.plain (S.parts_at storages.now) entities.now (M.Storage.part_at markers.now.inner) entity
        ≡ None) }
    ensures refused { IfErr result (λ error. (error ≡ refusal.Unmarked) ⊎ (error ≡ refusal.Memory)) }
{
    let mut saved = Vec::new(alloc);
    let _count = list.as_slice().len();
    for entity in list {
        let entry = match entry_at(storages, alloc, entity, entities, markers) {
            Ok(Some(entry)) => entry,
            Ok(None) => return Err(Error::Unmarked),
            Err(SaveRefusal::Unmarked) => return Err(Error::Unmarked),
            Err(SaveRefusal::Memory) => return Err(Error::Memory),
        };
        match saved.push(entry) {
            Ok(()) => {}
            Err(_) => return Err(Error::Memory),
        }
    }
    Ok(saved)
}

/// Marks all that are reached, and saves them in their order.
pub(crate) fn save_reached<M: SavedMarker, S: SerializeComponents<M>, A: MarkerAllocator<M>>(
    storages: &S,
    alloc: Global,
    entities: &EntitiesRes,
    markers: &mut MaskedStorage<M>,
    allocator: &mut A,
) -> Result<Vec<EntityData<M, S::Data>>, Error>
    ensures ok { IfOk result (λ list. SavesReached A.noted A.allocates M.id_of M.Storage.UnprotectedStorage
        entities.now
        S.plain S.refers_to (S.parts_at storages.now)
        (marking_of allocator.old markers.old) (marking_of allocator.new markers.new) list.items) }
    ensures leaves { IfErr result (λ error. LeavesMarks A.noted A.allocates M.id_of M.Storage.UnprotectedStorage
        entities.now A.refuses
        (λ entity. S.refers_to (S.parts_at storages.now entity.id))
        (marked_first entities.now (M.Storage.part_at markers.old.inner)) error
        (marking_of allocator.old markers.old) (marking_of allocator.new markers.new)) }
    ensures refused { IfErr result (RefusesReached A.refuses (λ entity. S.refers_to
        (S.parts_at storages.now entity.id))
        (marked_first entities.now (M.Storage.part_at markers.old.inner)) entities.now allocator.new) }
    ensures keeps { KeepsMarks (M.Storage.part_at markers.old.inner) (M.Storage.part_at markers.new.inner) }
{
    match reach(storages, alloc, entities, markers, allocator) {
        Ok(list) => save_each(storages, alloc, list, entities, markers),
        Err(error) => Err(error),
    }
}
