//! A small world: two entities, of which both have a position and the first a velocity.
use scene_cases::turns::{Position, Value, Velocity};
use scene_model::Queue;
use scene_world::{QueueValue, SceneMarker, SceneMarkerAllocator, Store, scene_storage};
use shred_world::{ResourceId, World};
use specs_entity::{EntitiesRes, Error};
use specs_layouts::{FlaggedStorage, MaskedStorage, TryDefault};
use std::alloc::{AllocError, AllocFailed, Global};

/// Why a world wasn't made, or a frame of it not run.
#[derive(Clone, Copy, Debug, PartialEq, Eq)]
pub(crate) enum Failure {
    Memory,
    Entities,
    Refused,
}

impl From<AllocError> for Failure {
    fn from(_error: AllocError) -> Failure {
        Failure::Memory
    }
}

impl<T: Drop> From<AllocFailed<T>> for Failure {
    fn from(_error: AllocFailed<T>) -> Failure {
        Failure::Memory
    }
}

impl From<Error> for Failure {
    fn from(_error: Error) -> Failure {
        Failure::Entities
    }
}

/// Two entities, at the indices 0 and 1.
fn two_entities(alloc: Global) -> Result<EntitiesRes, Failure> {
    let mut entities = EntitiesRes::new(alloc);
    entities.allocate()?;
    entities.allocate()?;
    Ok(entities)
}

/// The markers of both.
fn two_markers(alloc: Global) -> Result<MaskedStorage<SceneMarker>, Failure> {
    let mut markers = MaskedStorage::new(alloc, FlaggedStorage::unwrap_default(alloc));
    markers.insert(0, SceneMarker::new(0))?;
    markers.insert(1, SceneMarker::new(1))?;
    Ok(markers)
}

/// Their positions.
fn two_positions(alloc: Global) -> Result<MaskedStorage<Position>, Failure> {
    let mut positions = MaskedStorage::new(alloc, scene_storage(alloc, Store::Vec));
    positions.insert(0, Position(5))?;
    positions.insert(1, Position(1))?;
    Ok(positions)
}

/// The velocity of the first.
fn one_velocity(alloc: Global) -> Result<MaskedStorage<Velocity>, Failure> {
    let mut velocities = MaskedStorage::new(alloc, scene_storage(alloc, Store::Vec));
    velocities.insert(0, Velocity(2))?;
    Ok(velocities)
}

/// Puts an empty queue at a position of a world.
fn put_queue(world: &mut World<Value>, alloc: Global, position: u64) -> Result<(), Failure> {
    let id = ResourceId::from_type_id_and_dynamic_id(<Value as QueueValue<u64>>::kind(), position);
    world.insert_raw(
        id,
        <Value as QueueValue<u64>>::wrap_queue(Queue::new(alloc)),
    )?;
    Ok(())
}

/// Puts what a scene has of its own into a world.
fn put_scene(world: &mut World<Value>, alloc: Global) -> Result<(), Failure> {
    world.insert(two_entities(alloc)?)?;
    world.insert(two_markers(alloc)?)?;
    world.insert(SceneMarkerAllocator::new(alloc, 2))?;
    Ok(())
}

/// The world, with queues for systems at the positions 1 and 2.
pub(crate) fn small_world(alloc: Global) -> Result<World<Value>, Failure> {
    let mut world = World::empty(alloc);
    put_scene(&mut world, alloc)?;
    put_queue(&mut world, alloc, 1)?;
    put_queue(&mut world, alloc, 2)?;
    world.insert(two_positions(alloc)?)?;
    world.insert(one_velocity(alloc)?)?;
    Ok(world)
}

/// The position at an index of a world.
pub(crate) fn position_at(world: &World<Value>, index: u32) -> Option<u64> {
    let positions = world.try_fetch::<MaskedStorage<Position>>()?;
    if positions.mask().contains(index) {
        Some(positions.get(index).0)
    } else {
        None
    }
}
