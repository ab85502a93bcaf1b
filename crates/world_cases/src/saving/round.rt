//! A world that is saved, loaded into a new one, and saved again.
ghost use Rattle.std.specs.Prelude.{◌≡◌, ◌≢◌, ℕ, None, Some, IfOk, IfSome, IsTrue};
ghost use Rattle.specs_layouts.specs.Dense.{dense_part};
ghost use Rattle.specs_saveload.specs.Bearing.{IsAmong};
ghost use Rattle.specs_saveload.specs.declared.entity_data.EntityData.{EntityData};
ghost use Rattle.specs_saveload.specs.Images.{NamesOwn};
ghost use Rattle.specs_saveload.specs.Loading.{AreApart};
ghost use Rattle.specs_saveload.specs.Saved.{saved};
ghost use Rattle.specs_markers.specs.Simple.{IsBelowNext, noted_under};

use specs_entity::{EntitiesRes, Error};
use specs_layouts::{DenseVecStorage, MaskedStorage, TryDefault};
use specs_markers::laws::a_new_id_is_above_all_that_are_noted;
use specs_markers::{Marker, MarkerAllocator, SimpleMarker, SimpleMarkerAllocator};
use specs_saveload::laws::{a_loaded_list_is_saved_again, a_saved_list_names_its_own};
use specs_saveload::{DeserializeComponents, EntityData, SerializeComponents};
use std::alloc::Global;

/// What is saved of a world, the new world into which that is loaded, and what is saved of the new one.
#[derive(Drop)]
pub struct Loaded<T, D> {
    /// What is saved of the world.
    pub list: Vec<EntityData<SimpleMarker<T>, D>>,
    /// The entities of the new world.
    pub entities: EntitiesRes,
    /// Their markers.
    pub markers: MaskedStorage<SimpleMarker<T>>,
    /// What is saved of the new world.
    pub again: Vec<EntityData<SimpleMarker<T>, D>>,
}

/// Whether no entry has a marker with that id.
fn lacks<T, D>(list: &[EntityData<SimpleMarker<T>, D>], id: u64) -> bool
    ensures { IsTrue result → (other : EntityData ℕ D) → IsAmong other list.now → id ≢ other.marker }
{
    match list.split_first() {
        Some((first, rest)) => id != first.marker.id() && lacks(rest, id),
        None => true,
    }
}

/// Whether no two entries have one marker.
pub fn are_apart<T, D>(list: &[EntityData<SimpleMarker<T>, D>]) -> bool
    ensures { IsTrue result → AreApart list.now }
{
    match list.split_first() {
        Some((first, rest)) => lacks(rest, first.marker.id()) && are_apart(rest),
        None => true,
    }
}

/// Saves a world, loads what was saved into new storages and a new world, and saves that: the two lists are equal.
/// None where two living entities bear one marker.
///
/// Errors: those of the three calls.
pub fn saved_and_loaded_again<T, S: DeserializeComponents<SimpleMarker<T>>>(
    alloc: Global,
    storages: &S,
    entities: &EntitiesRes,
    markers: &MaskedStorage<SimpleMarker<T>>,
    new_storages: &mut S,
) -> Result<Option<Loaded<T, S::Data>>, Error>
    ensures equal { IfOk result (λ found. IfSome found (λ loaded. loaded.list.items ≡ loaded.again.items)) }
    ensures first { IfOk result (λ found. IfSome found (λ loaded. saved S.plain (S.parts_at storages.now) entities.now
        (dense_part markers.now.inner) ≡ Some loaded.list.items)) }
    ensures second { IfOk result (λ found. IfSome found (λ loaded. saved S.plain (S.parts_at new_storages.new)
        loaded.entities (dense_part loaded.markers.inner) ≡ Some loaded.again.items)) }
{
    let list = storages.serialize(alloc, entities, markers)?;
    let copy = a_saved_list_names_its_own(storages, alloc, entities, markers)?;
    if !are_apart(copy.as_slice()) {
        return Ok(None);
    }
    let mut new_entities = EntitiesRes::new(alloc);
    let mut new_markers = MaskedStorage::new(alloc, DenseVecStorage::unwrap_default(alloc));
    let mut allocator = SimpleMarkerAllocator::new(alloc);
    match a_loaded_list_is_saved_again(
        new_storages,
        alloc,
        copy,
        &mut new_entities,
        &mut new_markers,
        &mut allocator,
    ) {
        Ok(()) => {}
        Err(refused) => return Err(refused.error),
    }
    let again = new_storages.serialize(alloc, &new_entities, &new_markers)?;
    Ok(Some(Loaded {
        list,
        entities: new_entities,
        markers: new_markers,
        again,
    }))
}

/// Marks an entity that is made in a world, and tells the id of its marker. None where that isn't new.
///
/// Errors: those of the two calls.
fn mark_one<T>(
    entities: &mut EntitiesRes,
    markers: &mut MaskedStorage<SimpleMarker<T>>,
    allocator: &mut SimpleMarkerAllocator<T>,
) -> Result<Option<u64>, Error>
    requires { IsBelowNext allocator.old }
    ensures { IfOk result (λ found. IfSome found (λ id. noted_under allocator.old id ≡ None)) }
{
    a_new_id_is_above_all_that_are_noted();
    let entity = entities.create()?;
    let Some((id, new)) = allocator.mark(entity, markers, entities)? else {
        return Ok(None);
    };
    if !new {
        return Ok(None);
    }
    Ok(Some(id))
}

/// Loads a list into a new world, and marks an entity that is made there then: no entry has its marker. None where its
/// marker isn't new.
///
/// Errors: those of the three calls.
pub fn marked_after_a_load<T, S: DeserializeComponents<SimpleMarker<T>>>(
    alloc: Global,
    storages: &mut S,
    list: Vec<EntityData<SimpleMarker<T>, S::Data>>,
) -> Result<Option<u64>, Error>
    requires apart { AreApart list.items }
    requires own { NamesOwn S.markers_of list.items }
    ensures { IfOk result (λ found. IfSome found (λ id. (entry : EntityData ℕ S.Data) → IsAmong entry list.items
        → entry.marker ≢ id)) }
{
    let mut entities = EntitiesRes::new(alloc);
    let mut markers = MaskedStorage::new(alloc, DenseVecStorage::unwrap_default(alloc));
    let mut allocator = SimpleMarkerAllocator::new(alloc);
    match a_loaded_list_is_saved_again(
        storages,
        alloc,
        list,
        &mut entities,
        &mut markers,
        &mut allocator,
    ) {
        Ok(()) => {}
        Err(refused) => return Err(refused.error),
    }
    a_new_id_is_above_all_that_are_noted();
    mark_one(&mut entities, &mut markers, &mut allocator)
}

/// Saves a world, loads what was saved into a new one, and marks an entity that is made there then: the id of its marker.
/// None where two living entities bear one marker, or that marker isn't new.
///
/// Errors: those of the calls.
pub fn marked_after_a_round<T, S: DeserializeComponents<SimpleMarker<T>>>(
    alloc: Global,
    storages: &S,
    entities: &EntitiesRes,
    markers: &MaskedStorage<SimpleMarker<T>>,
    new_storages: &mut S,
) -> Result<Option<u64>, Error> {
    let list = a_saved_list_names_its_own(storages, alloc, entities, markers)?;
    if !are_apart(list.as_slice()) {
        return Ok(None);
    }
    marked_after_a_load(alloc, new_storages, list)
}
