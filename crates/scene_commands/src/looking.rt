//! Entities of a world by the ids of its scene.
ghost use Rattle.std.specs.Prelude.{◌≡◌, ◌<◌, true, IfSome, IfOk, option_map};
ghost use Rattle.specs_entity.specs.Births.{living};
ghost use Rattle.specs_markers.specs.Simple.{noted_under};
ghost use Rattle.scene_world.specs.Standing.{roll_of};
ghost use Rattle.scene_world.specs.Rolls.{is_life, is_id};
ghost use Rattle.scene_world.specs.Members.{kinds_by};
ghost use Rattle.scene_commands.specs.Acts.{seen_of, entity_under, AreUnder};

use scene_world::{Rules, SceneValue};
use shred_world::World;
use specs_entity::Entity;
use specs_markers::{Marker, MarkerAllocator};
use std::alloc::{AllocError, Global};

/// The entity that is noted under an id, if one is.
fn noted_entity<R: Rules>(world: &World<R::Value>, id: u64) -> Option<Entity>
    ensures { result ≡ noted_under (roll_of (kinds_by R.Rules R.Value.SceneValue) (seen_of world.now)).noting
        id }
{
    let value = world.get_raw(<R::Value as SceneValue<R::Data>>::allocator_id())?;
    let allocator = <R::Value as SceneValue<R::Data>>::allocator(value)?;
    allocator.retrieve_entity_internal(id)
}

/// Whether an entity is alive in a world.
pub(crate) fn is_living<R: Rules>(world: &World<R::Value>, entity: Entity) -> bool
    ensures value { result ≡ is_life entity.generation
        (living (roll_of (kinds_by R.Rules R.Value.SceneValue) (seen_of world.now)).births entity.id) }
    ensures range { result ≡ true → entity.id < 16777216 }
{
    let Some(value) = world.get_raw(<R::Value as SceneValue<R::Data>>::entities_id()) else {
        return false;
    };
    match <R::Value as SceneValue<R::Data>>::entities(value) {
        Some(entities) => entities.is_alive(entity),
        None => false,
    }
}

/// Whether an index is marked with an id.
fn is_marked<R: Rules>(world: &World<R::Value>, index: u32, id: u64) -> bool
    ensures { result ≡ is_id id
        ((roll_of (kinds_by R.Rules R.Value.SceneValue) (seen_of world.now)).marker index) }
{
    let Some(value) = world.get_raw(<R::Value as SceneValue<R::Data>>::markers_id()) else {
        return false;
    };
    match <R::Value as SceneValue<R::Data>>::markers(value) {
        Some(markers) => markers.contains(index) && markers.get(index).id() == id,
        None => false,
    }
}

/// The entity that is known under an id of the scene: the one noted under it, where that is alive and marked with it.
pub fn entity_under<R: Rules>(world: &World<R::Value>, id: u64) -> Option<Entity>
    ensures value { result ≡ entity_under (roll_of (kinds_by R.Rules R.Value.SceneValue) (seen_of world.now))
        id }
    ensures range { IfSome result (λ entity. entity.id < 16777216) }
{
    let entity = noted_entity::<R>(world, id)?;
    if is_living::<R>(world, entity) && is_marked::<R>(world, entity.id(), id) {
        Some(entity)
    } else {
        None
    }
}

/// The entities that are known under ids, in the order of these, if there is one under each.
///
/// Errors: want of memory.
pub fn entities_under<R: Rules>(
    world: &World<R::Value>,
    ids: &[u64],
    alloc: Global,
) -> Result<Option<Vec<Entity>>, AllocError>
    ensures { IfOk result (λ found. AreUnder (roll_of (kinds_by R.Rules R.Value.SceneValue) (seen_of world.now))
        ids.now (option_map (λ entities. entities.items) found)) }
{
    let mut entities = Vec::new(alloc);
    for id in ids {
        let Some(entity) = entity_under::<R>(world, *id) else {
            return Ok(None);
        };
        entities.push(entity)?;
    }
    Ok(Some(entities))
}
