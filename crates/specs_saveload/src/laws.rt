//! Laws on which callers rely. Each contract is the law.
ghost use Rattle.std.specs.Prelude.{◌≡◌, ◌≢◌, IfOk, IsErrOf, [], List, Some, None, IfSome, OnOk};
ghost use Rattle.serde_json.specs.Data.{null};
ghost use Rattle.serde_json.specs.View.{view};
ghost use Rattle.specs_saveload.specs.Places.{IfShape};
ghost use Rattle.specs_entity.specs.Births.{IsAlive};
ghost use Rattle.specs_entity.specs.declared.ids.Entity.{Entity};
ghost use Rattle.specs_saveload.specs.Images.{IsImage, MarkersDiffer, NamesOwn, NamesUnmarked};
ghost use Rattle.specs_saveload.specs.Asked.{SavesReached, marking_of};
ghost use Rattle.specs_saveload.specs.Bearing.{IsAmong};
ghost use Rattle.specs_saveload.specs.Saved.{name_of, saved};
ghost use Rattle.specs_entity.specs.declared.errors.Error.TheVariants as error;
ghost use Rattle.specs_saveload.specs.declared.entity_data.EntityData.{EntityData};
ghost use Rattle.specs_saveload.specs.Known.{bearer_in};
ghost use Rattle.specs_saveload.specs.Loading.{AreApart};
ghost use Rattle.specs_saveload.specs.Retrieved.{AreGiven};

use crate::EntityData;
use crate::deserialize::{DeserializeComponents, LoadError};
use crate::form::{FormError, JsonForm};
use crate::names::SavedMarker;
use crate::serialize::SerializeComponents;
use serde_json::Value;
use specs_entity::laws::the_living_are_below_the_limit;
use specs_entity::{EntitiesRes, Entity, Error};
use specs_layouts::{Component, MaskedStorage, UnprotectedStorage};
use specs_markers::{Marker, MarkerAllocator};
use std::alloc::{AllocError, Global};

/// What was written is read back as it was: only memory can be wanting, and what is read is the same.
pub fn what_was_written_is_read_back<T: JsonForm>(alloc: Global, value: &T) -> Result<T, FormError>
    ensures back { IfOk result (T.same value.now) }
    ensures read { IfShape result (λ _. ⊥) }
{
    let json = value.to_value(alloc)?;
    T::from_value(alloc, &json)
}

/// No value is written as `null`.
pub fn none_is_written_as_null<T: JsonForm>(alloc: Global, value: &T) -> Result<Value, AllocError>
    ensures { IfOk result (λ json. view json ≢ null) }
{
    value.to_value(alloc)
}

/// A list whose markers differ, and whose data names its own markers alone, is loaded where nobody lives and nothing
/// is noted: then there is one entity for each entry and no other. Each bears its entry's marker and has just the
/// parts of its data, in which each marker stands for the entity that bears it. Where no index waits to be used again,
/// as in a new world, it is the same list when it is saved again. What gives markers changed by gifts alone.
pub fn a_loaded_list_is_saved_again<
    M: SavedMarker,
    S: DeserializeComponents<M>,
    A: MarkerAllocator<M>,
>(
    storages: &mut S,
    alloc: Global,
    list: Vec<EntityData<M, S::Data>>,
    entities: &mut EntitiesRes,
    markers: &mut MaskedStorage<M>,
    allocator: &mut A,
) -> Result<(), LoadError>
    requires nobody { (entity : Entity) → ¬ (IsAlive entities.old entity) }
    requires unknown { (id : M.Identifier) → A.noted allocator.old id ≡ None }
    requires apart { AreApart list.items }
    requires own { NamesOwn S.markers_of list.items }
    ensures image { OnOk result (IsImage S.loaded list.items entities.new (M.Storage.part_at markers.new.inner)
        (bearer_in A.noted M.Storage.part_at M.id_of entities.new allocator.new markers.new)
        (S.parts_at storages.old) (S.parts_at storages.new)) }
    ensures back { OnOk result (entities.old.cache ≡ [] → saved S.plain (S.parts_at storages.new) entities.new
        (M.Storage.part_at markers.new.inner) ≡ Some list.items) }
    ensures given { AreGiven A.allocates allocator.old allocator.new }
{
    let result = storages.deserialize(alloc, list, entities, markers, allocator);
    the_living_are_below_the_limit(entities);
    result
}

/// The data of a list that is saved names its own markers alone, and where no two living entities bear one marker it
/// has no marker twice: so it can be loaded as above.
pub fn a_saved_list_names_its_own<M: SavedMarker, S: DeserializeComponents<M>>(
    storages: &S,
    alloc: Global,
    entities: &EntitiesRes,
    markers: &MaskedStorage<M>,
) -> Result<Vec<EntityData<M, S::Data>>, Error>
    ensures ok { IfOk result (λ list. saved S.plain (S.parts_at storages.now) entities.now
        (M.Storage.part_at markers.now.inner) ≡ Some list.items) }
    ensures apart { IfOk result (λ list. MarkersDiffer entities.now (M.Storage.part_at markers.now.inner)
        → AreApart list.items) }
    ensures own { IfOk result (λ list. NamesOwn S.markers_of list.items) }
{
    the_living_are_below_the_limit(entities);
    storages.serialize(alloc, entities, markers)
}

/// A load gives markers, one after the other, and does nothing else to what gives them, also where it is refused. So
/// what each gift keeps true of it is true after a load: of a `SimpleMarkerAllocator`, that no id at which an entity is
/// noted is as great as the one that it gives next.
pub fn a_load_changes_what_gives_markers_by_gifts<
    M: SavedMarker,
    S: DeserializeComponents<M>,
    A: MarkerAllocator<M>,
>(
    storages: &mut S,
    alloc: Global,
    list: Vec<EntityData<M, S::Data>>,
    entities: &mut EntitiesRes,
    markers: &mut MaskedStorage<M>,
    allocator: &mut A,
) -> Result<(), LoadError>
    ensures { AreGiven A.allocates allocator.old allocator.new }
{
    storages.deserialize(alloc, list, entities, markers, allocator)
}

/// The data of a list that is saved with all that it names, too, names its own markers alone, and where no two living
/// entities bear one marker it has no marker twice: so it can be loaded as above.
pub fn a_list_saved_with_all_it_names_names_its_own<
    M: SavedMarker,
    S: DeserializeComponents<M>,
    A: MarkerAllocator<M>,
>(
    storages: &S,
    alloc: Global,
    entities: &EntitiesRes,
    markers: &mut MaskedStorage<M>,
    allocator: &mut A,
) -> Result<Vec<EntityData<M, S::Data>>, Error>
    ensures ok { IfOk result (λ list. SavesReached A.noted A.allocates M.id_of M.Storage.UnprotectedStorage
        entities.now S.plain S.refers_to (S.parts_at storages.now) (marking_of allocator.old markers.old)
        (marking_of allocator.new markers.new) list.items) }
    ensures apart { IfOk result (λ list. MarkersDiffer entities.now (M.Storage.part_at markers.new.inner)
        → AreApart list.items) }
    ensures own { IfOk result (λ list. NamesOwn S.markers_of list.items) }
{
    the_living_are_below_the_limit(entities);
    storages.serialize_recursive(alloc, entities, markers, allocator)
}

/// `Unmarked` tells of a living marked entity whose parts name an entity that isn't alive or has no marker.
pub fn an_unmarked_refusal_names_one<M: SavedMarker, S: SerializeComponents<M>>(
    storages: &S,
    alloc: Global,
    entities: &EntitiesRes,
    markers: &MaskedStorage<M>,
) -> Result<Vec<EntityData<M, S::Data>>, Error>
    ensures { IsErrOf result error.Unmarked → NamesUnmarked S.refers_to (S.parts_at storages.now) entities.now
        (M.Storage.part_at markers.now.inner) }
{
    storages.serialize(alloc, entities, markers)
}

/// What is saved of one entity, with its marker, is the entry that the whole list has for it.
pub fn one_entity_is_saved_as_in_the_whole<M: SavedMarker, S: DeserializeComponents<M>>(
    storages: &S,
    alloc: Global,
    entity: Entity,
    entities: &EntitiesRes,
    markers: &MaskedStorage<M>,
) -> Result<Option<EntityData<M, S::Data>>, Error>
    ensures own { IfOk result (λ found. IfSome found (λ entry. name_of entities.now
        (M.Storage.part_at markers.now.inner) entity ≡ Some entry.marker)) }
    ensures whole { IfOk result (λ found. IfSome found (λ entry. (list : List (EntityData M S.Data))
        → saved S.plain (S.parts_at storages.now) entities.now (M.Storage.part_at markers.now.inner) ≡ Some list
        → IsAmong entry list)) }
{
    the_living_are_below_the_limit(entities);
    storages.serialize_marked(alloc, entity, entities, markers)
}
