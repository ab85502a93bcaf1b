//! Markers with UUIDs: which are given, and which entities are found by them.
use rand_core::SeedableRng;
use rand_pcg::Pcg32;
use specs_entity::{EntitiesRes, Entity, Error};
use specs_layouts::{MaskedStorage, TryDefault, VecStorage};
use specs_markers::{Marker, MarkerAllocator, UuidMarker, UuidMarkerAllocator};
use std::alloc::Global;
use uuid::Uuid;

/// Entities, their markers, and what gives these.
#[derive(Drop)]
struct World {
    entities: EntitiesRes,
    markers: MaskedStorage<UuidMarker<Pcg32>>,
    allocator: UuidMarkerAllocator<Pcg32>,
}

/// Marks an entity that is born now.
fn marked(world: &mut World) -> Result<(Entity, Uuid, bool), Error> {
    let entity = world.entities.create()?;
    match world
        .allocator
        .mark(entity, &mut world.markers, &world.entities)?
    {
        Some((id, new)) => Ok((entity, id, new)),
        None => Err(Error::Unmarked),
    }
}

/// A world without entities, whose random markers begin with this seed.
fn empty(alloc: Global, seed: u64) -> World {
    World {
        entities: EntitiesRes::new(alloc),
        markers: MaskedStorage::new(alloc, VecStorage::unwrap_default(alloc)),
        allocator: UuidMarkerAllocator::new(alloc, Pcg32::seed_from_u64(seed)),
    }
}

/// Whether the random markers of two entities, and markers that are asked for, are found as they should be, in a world whose
/// seed is 7.
fn are_found_in(world: &mut World) -> Result<[bool; 8], Error> {
    let (one, first, is_new) = marked(world)?;
    let (other, second, _) = marked(world)?;
    let again = world
        .allocator
        .mark(one, &mut world.markers, &world.entities)?;
    let asked = world.allocator.allocate(one, Some(Uuid::NAMESPACE_DNS))?;
    let noted = world
        .allocator
        .retrieve_entity_internal(Uuid::NAMESPACE_DNS);
    let drawn: UuidMarker<Pcg32> = UuidMarker::new_random(&mut Pcg32::seed_from_u64(7));
    let drawn_is_first = drawn.uuid() == first;
    world.entities.kill(&[other])?;
    world.allocator.maintain(&world.entities, &world.markers)?;
    Ok([
        is_new,
        first != second,
        again == Some((first, false)),
        asked.id() == Uuid::NAMESPACE_DNS,
        noted == Some(one),
        drawn_is_first,
        world.allocator.retrieve_entity_internal(first) == Some(one),
        world.allocator.retrieve_entity_internal(second) == None,
    ])
}

/// Whether they are so found in a new world.
fn are_found(alloc: Global) -> Result<[bool; 8], Error> {
    let mut world = empty(alloc, 7);
    are_found_in(&mut world)
}

#[test]
fn random_markers_are_found(rt: HostRuntime) {
    assert_eq!(rt; are_found(rt.alloc()).ok(), Some([true; 8]));
}
