//! Drift in a small world, whatever the store.
use scene_cases::turns::{Drift, Drifting, Position, Value, Velocity};
use scene_model::Queue;
use scene_world::{
    Placed, QueueValue, Rules, SceneMarker, SceneMarkerAllocator, Store, scene_storage,
};
use shred_stages::{Stop, System};
use shred_world::{ResourceId, World};
use specs_entity::{EntitiesRes, Error};
use specs_layouts::{FlaggedStorage, MaskedStorage, TryDefault};
use std::alloc::{AllocError, AllocFailed, Global};

/// Why a row didn't come to its end.
#[derive(Clone, Copy, Debug, PartialEq, Eq)]
enum Failure {
    Memory,
    Entities,
    Stopped,
}

impl From<AllocError> for Failure {
    fn from(_error: AllocError) -> Failure {
        Failure::Memory
    }
}

impl<T: Drop> From<AllocFailed<T>> for Failure {
    fn from(_error: AllocFailed<T>) -> Failure {
        Failure::Memory
    }
}

impl From<Error> for Failure {
    fn from(_error: Error) -> Failure {
        Failure::Entities
    }
}

impl From<Stop> for Failure {
    fn from(_stop: Stop) -> Failure {
        Failure::Stopped
    }
}

/// Two entities, at the indices 0 and 1.
fn two_entities(alloc: Global) -> Result<EntitiesRes, Failure> {
    let mut entities = EntitiesRes::new(alloc);
    entities.allocate()?;
    entities.allocate()?;
    Ok(entities)
}

/// The markers of both.
fn two_markers(alloc: Global) -> Result<MaskedStorage<SceneMarker>, Failure> {
    let mut markers = MaskedStorage::new(alloc, FlaggedStorage::unwrap_default(alloc));
    markers.insert(0, SceneMarker::new(0))?;
    markers.insert(1, SceneMarker::new(1))?;
    Ok(markers)
}

/// Their positions.
fn two_positions(alloc: Global, store: Store) -> Result<MaskedStorage<Position>, Failure> {
    let mut positions = MaskedStorage::new(alloc, scene_storage(alloc, store));
    positions.insert(0, Position(5))?;
    positions.insert(1, Position(1))?;
    Ok(positions)
}

/// The velocity of the first.
fn one_velocity(alloc: Global, store: Store) -> Result<MaskedStorage<Velocity>, Failure> {
    let mut velocities = MaskedStorage::new(alloc, scene_storage(alloc, store));
    velocities.insert(0, Velocity(2))?;
    Ok(velocities)
}

/// Puts what a scene has of its own into a world, with a queue for a system at position 1.
fn put_scene(world: &mut World<Value>, alloc: Global) -> Result<(), Failure> {
    world.insert(two_entities(alloc)?)?;
    world.insert(two_markers(alloc)?)?;
    world.insert(SceneMarkerAllocator::new(alloc, 2))?;
    let queue_id = ResourceId::from_type_id_and_dynamic_id(<Value as QueueValue<u64>>::kind(), 1);
    world.insert_raw(
        queue_id,
        <Value as QueueValue<u64>>::wrap_queue(Queue::new(alloc)),
    )?;
    Ok(())
}

/// A world with two entities, of which both have a position and the first a velocity.
fn small_world(alloc: Global, store: Store) -> Result<World<Value>, Failure> {
    let mut world = World::empty(alloc);
    put_scene(&mut world, alloc)?;
    world.insert(two_positions(alloc, store)?)?;
    world.insert(one_velocity(alloc, store)?)?;
    Ok(world)
}

/// The position at an index of a world.
fn position_at(world: &World<Value>, index: u32) -> Option<u64> {
    let positions = world.try_fetch::<MaskedStorage<Position>>()?;
    if positions.mask().contains(index) {
        Some(positions.get(index).0)
    } else {
        None
    }
}

/// A turn of a system at a position.
fn take_turn<R: Rules, H: AllocGlobal>(
    rt: &H,
    position: u32,
    system: R::System,
    world: &mut World<R::Value>,
) -> Result<(), Stop> {
    let mut placed: Placed<R> = Placed { position, system };
    System::run(&mut placed, rt, world)
}

/// The positions of both entities after three turns of drift: the first went on by 2 each time.
fn drifted<H: AllocGlobal>(
    rt: &H,
    alloc: Global,
    store: Store,
) -> Result<(Option<u64>, Option<u64>), Failure> {
    let mut world = small_world(alloc, store)?;
    take_turn::<Drifting, H>(rt, 1, Drift, &mut world)?;
    take_turn::<Drifting, H>(rt, 1, Drift, &mut world)?;
    take_turn::<Drifting, H>(rt, 1, Drift, &mut world)?;
    Ok((position_at(&world, 0), position_at(&world, 1)))
}

/// What comes of a turn at a position under which the world has no queue.
fn without_queue<H: AllocGlobal>(rt: &H, alloc: Global) -> Result<(), Failure> {
    let mut world = small_world(alloc, Store::Vec)?;
    take_turn::<Drifting, H>(rt, 2, Drift, &mut world)?;
    Ok(())
}

#[test]
fn drift_moves_positions_in_slots(rt: HostRuntime) {
    assert_eq!(rt;
        drifted(&rt, rt.alloc(), Store::Vec),
        Ok((Some(11), Some(1)))
    );
}

#[test]
fn drift_moves_positions_without_gaps(rt: HostRuntime) {
    assert_eq!(rt;
        drifted(&rt, rt.alloc(), Store::Dense),
        Ok((Some(11), Some(1)))
    );
}

#[test]
fn drift_moves_positions_in_a_table(rt: HostRuntime) {
    assert_eq!(rt;
        drifted(&rt, rt.alloc(), Store::Hash),
        Ok((Some(11), Some(1)))
    );
}

#[test]
fn drift_moves_positions_in_a_tree(rt: HostRuntime) {
    assert_eq!(rt;
        drifted(&rt, rt.alloc(), Store::BTree),
        Ok((Some(11), Some(1)))
    );
}

#[test]
fn a_turn_wants_its_queue(rt: HostRuntime) {
    assert_eq!(rt; without_queue(&rt, rt.alloc()), Err(Failure::Stopped));
}
