//! Laws on which callers rely. Each contract is the law.
ghost use Rattle.std.specs.Prelude.{◌≡◌, ◌≢◌, ℕ, Option, Some, None, IfOk, OnOk, IsSomeAnd};
ghost use Rattle.specs_entity.specs.Births.{IsAlive};
ghost use Rattle.specs_entity.specs.declared.ids.Entity.{Entity};
ghost use Rattle.specs_layouts.specs.Dense.{dense_part};
ghost use Rattle.specs_markers.specs.Marks.{IsMarked};
ghost use Rattle.specs_markers.specs.Simple.{Gives, IsBelowNext, Noting, none_noted, noted_under};

use crate::allocator::MarkerAllocator;
use crate::marker::Marker;
use crate::simple::{SimpleMarker, SimpleMarkerAllocator};
use specs_entity::{EntitiesRes, Entity, Error};
use specs_layouts::{Component, MaskedStorage, UnprotectedStorage};

/// An entity that is given a new marker is the one that is found under its id.
pub fn a_marked_entity_is_found<M: Marker, A: MarkerAllocator<M>>(
    allocator: &mut A,
    entity: Entity,
    storage: &mut MaskedStorage<M>,
    entities: &EntitiesRes,
) -> Result<Option<Entity>, Error>
    requires alive { IsAlive entities.now entity }
    requires unmarked { M.Storage.part_at storage.old.inner entity.id ≡ None }
    ensures { IfOk result (λ found. found ≡ Some entity) }
{
    match allocator.mark(entity, storage, entities)? {
        Some((id, _)) => Ok(allocator.retrieve_entity_internal(id)),
        None => Ok(None),
    }
}

/// Two entities that are given new markers have markers with different ids.
pub fn new_markers_differ<T>(
    allocator: &mut SimpleMarkerAllocator<T>,
    one: Entity,
    other: Entity,
    storage: &mut MaskedStorage<SimpleMarker<T>>,
    entities: &EntitiesRes,
) -> Result<Option<(u64, u64)>, Error>
    requires one { IsAlive entities.now one × (dense_part storage.old.inner one.id ≡ None) }
    requires other { IsAlive entities.now other × (dense_part storage.old.inner other.id ≡ None) }
    requires apart { other.id ≢ one.id }
    ensures { IfOk result (λ found. IsSomeAnd found (λ ids. ids.1 ≢ ids.0)) }
{
    let Some((first, _)) = allocator.mark(one, storage, entities)? else {
        return Ok(None);
    };
    let Some((second, _)) = allocator.mark(other, storage, entities)? else {
        return Ok(None);
    };
    Ok(Some((first, second)))
}

/// An entity that was found by a marker, or made for it, is alive, bears a marker with that id, and is found under
/// it again.
pub fn a_retrieved_entity_bears_the_marker<M: Marker, A: MarkerAllocator<M>>(
    allocator: &mut A,
    marker: M,
    storage: &mut MaskedStorage<M>,
    entities: &mut EntitiesRes,
) -> Result<Entity, (Error, M)>
    ensures marked { IfOk result (IsMarked M.id_of entities.new (M.Storage.part_at storage.new.inner)
        (M.id_of marker)) }
    ensures found { IfOk result (λ entity. A.noted allocator.new (M.id_of marker) ≡ Some entity) }
{
    allocator.retrieve_entity(marker, storage, entities)
}

/// After `maintain` a living entity is found under its marker's id, if no other living one bears a marker with that id.
pub fn a_maintained_entity_is_found<M: Marker, A: MarkerAllocator<M>>(
    allocator: &mut A,
    entities: &EntitiesRes,
    storage: &MaskedStorage<M>,
) -> Result<(), Error>
    ensures { OnOk result ((id : M.Identifier) (entity : Entity)
        → IsMarked M.id_of entities.now (M.Storage.part_at storage.now.inner) id entity
        → ((other : Entity) → IsMarked M.id_of entities.now (M.Storage.part_at storage.now.inner) id other
        → other ≡ entity) → A.noted allocator.new id ≡ Some entity) }
{
    allocator.maintain(entities, storage)
}

/// Of an allocator under which each noted id is below the next, as one is in which nothing is noted: so it is after each
/// marker that is given, and what is given without asking has an id under which nothing was noted.
pub fn a_new_id_is_above_all_that_are_noted()
    ensures none { IsBelowNext none_noted }
    ensures gift { (before after : Noting) (entity : Entity) (asked : Option ℕ) (marker : ℕ)
        → Gives before entity asked marker after → IsBelowNext before → IsBelowNext after }
    ensures new { (before after : Noting) (entity : Entity) (marker : ℕ)
        → Gives before entity None marker after → IsBelowNext before → noted_under before marker ≡ None }
{}
