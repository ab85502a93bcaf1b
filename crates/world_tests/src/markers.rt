//! Markers with whole numbers: which are given, which entities are found by them, and what a maintained allocator notes.
use specs_entity::{EntitiesRes, Entity, Error};
use specs_layouts::{DenseVecStorage, MaskedStorage, TryDefault};
use specs_markers::laws::{
    a_maintained_entity_is_found, a_marked_entity_is_found, a_retrieved_entity_bears_the_marker,
    new_markers_differ,
};
use specs_markers::{Marker, MarkerAllocator, SimpleMarker, SimpleMarkerAllocator};
use std::alloc::Global;
use world_cases::saving::loading::two_markers_are_two_entities;

/// The kind of the markers.
struct Net;

/// What a call answers. Entities are told by their indices.
#[derive(Clone, Copy, PartialEq, Eq)]
enum Answer {
    Given(u64),
    Marked(u64, bool),
    Found(u32),
    Both(u64, u64),
    Nothing,
    Spent,
    Done,
}

/// A call on markers. Entities are told by the order in which they were born or retrieved.
enum Call {
    /// An entity is born.
    Create,
    /// An entity dies at once.
    Kill(usize),
    /// A marker is given for an entity, and put nowhere.
    Allocate(usize, Option<u64>),
    /// A marker is given for an entity, and put at its index.
    Put(usize, u64),
    /// An entity is marked.
    Mark(usize),
    /// An entity is marked that has no marker, and looked for.
    MarkNew(usize),
    /// Two entities are marked that have no marker.
    MarkBoth(usize, usize),
    /// The entity noted under an id.
    Look(u64),
    /// The entity of a marker, which is made where there is none.
    Retrieve(u64),
    /// The living marked entities are noted.
    Maintain,
    /// The allocator gives way to a clone of it.
    Clone,
}

use Answer::{Both, Done, Found, Given, Marked, Nothing, Spent};
use Call::{Allocate, Clone, Create, Kill, Look, Maintain, Mark, MarkBoth, MarkNew, Put, Retrieve};

/// Calls on a world without entities, one after the other, each with its answer.
struct Row {
    name: &'static str,
    calls: &'static [(Call, Answer)],
}

/// Entities, their markers, and what gives these.
#[derive(Drop)]
struct World {
    entities: EntitiesRes,
    markers: MaskedStorage<SimpleMarker<Net>>,
    allocator: SimpleMarkerAllocator<Net>,
    born: Vec<Entity>,
}

const ROWS: [Row; 5] = [
    Row {
        name: "ids from the counter and ids asked for",
        calls: &[
            (Create, Found(0)),
            (Allocate(0, None), Given(0)),
            (Allocate(0, Some(5)), Given(5)),
            (Allocate(0, None), Given(6)),
            (Allocate(0, Some(3)), Given(3)),
            (Allocate(0, None), Given(7)),
        ],
    },
    Row {
        name: "the greatest number is no id, and leaves the counter",
        calls: &[
            (Create, Found(0)),
            (Allocate(0, Some(18446744073709551615)), Spent),
            (Look(18446744073709551615), Nothing),
            (Allocate(0, None), Given(0)),
            (
                Allocate(0, Some(18446744073709551614)),
                Given(18446744073709551614),
            ),
            (Allocate(0, None), Spent),
            (Allocate(0, Some(4)), Given(4)),
        ],
    },
    Row {
        name: "marks, and entities that are found by them",
        calls: &[
            (Create, Found(0)),
            (Create, Found(1)),
            (Mark(1), Marked(0, true)),
            (Mark(1), Marked(0, false)),
            (MarkNew(0), Found(0)),
            (Look(1), Found(0)),
            (Retrieve(0), Found(1)),
            (Retrieve(9), Found(2)),
            (Mark(3), Marked(9, false)),
            (Create, Found(3)),
            (Create, Found(4)),
            (MarkBoth(4, 5), Both(10, 11)),
            (Look(12), Nothing),
        ],
    },
    Row {
        name: "the dead are found until the allocator is maintained, and are never marked",
        calls: &[
            (Create, Found(0)),
            (Create, Found(1)),
            (Mark(0), Marked(0, true)),
            (Mark(1), Marked(1, true)),
            (Kill(0), Done),
            (Mark(0), Nothing),
            (Look(0), Found(0)),
            (Maintain, Done),
            (Look(0), Nothing),
            (Look(1), Found(1)),
            (Retrieve(0), Found(0)),
            (Mark(2), Marked(0, false)),
        ],
    },
    Row {
        name: "of two with one id the greater index is noted, and the counter stays",
        calls: &[
            (Create, Found(0)),
            (Create, Found(1)),
            (Put(1, 9), Given(9)),
            (Put(0, 9), Given(9)),
            (Look(9), Found(0)),
            (Maintain, Done),
            (Look(9), Found(1)),
            (Clone, Done),
            (Look(9), Found(1)),
            (Create, Found(2)),
            (Mark(2), Marked(10, true)),
        ],
    },
];

/// The entity at a place among those that were born or retrieved.
fn entity_at(world: &World, place: usize) -> Option<Entity> {
    world.born.get(place).copied()
}

/// What an entity that was asked for answers.
fn found(entity: Option<Entity>) -> Answer {
    match entity {
        Some(entity) => Found(entity.id()),
        None => Nothing,
    }
}

/// What a marker that was asked for answers.
fn given(outcome: Result<SimpleMarker<Net>, Error>) -> Result<Answer, Error> {
    match outcome {
        Ok(marker) => Ok(Given(marker.id())),
        Err(Error::MarkersSpent) => Ok(Spent),
        Err(error) => Err(error),
    }
}

/// Marks an entity that is alive and has no marker, and looks for it.
fn mark_new(world: &mut World, entity: Entity) -> Result<Answer, Error> {
    if !world.entities.is_alive(entity) || world.markers.contains(entity.id()) {
        return Ok(Nothing);
    }
    let answer = a_marked_entity_is_found(
        &mut world.allocator,
        entity,
        &mut world.markers,
        &world.entities,
    )?;
    Ok(found(answer))
}

/// Marks two entities that are alive and have no marker.
fn mark_both(world: &mut World, one: Entity, other: Entity) -> Result<Answer, Error> {
    if !world.entities.is_alive(one) || world.markers.contains(one.id()) {
        return Ok(Nothing);
    }
    if !world.entities.is_alive(other) || world.markers.contains(other.id()) {
        return Ok(Nothing);
    }
    if other.id() == one.id() {
        return Ok(Nothing);
    }
    let answer = new_markers_differ(
        &mut world.allocator,
        one,
        other,
        &mut world.markers,
        &world.entities,
    )?;
    match answer {
        Some((first, second)) => Ok(Both(first, second)),
        None => Ok(Nothing),
    }
}

/// Puts an entity down as the one that was born last.
fn born(world: &mut World, entity: Entity) -> Result<Answer, Error> {
    match world.born.push(entity) {
        Ok(()) => Ok(Found(entity.id())),
        Err(_) => Err(Error::Memory),
    }
}

/// The entity of a marker.
fn retrieve(world: &mut World, id: u64) -> Result<Answer, Error> {
    let outcome = a_retrieved_entity_bears_the_marker(
        &mut world.allocator,
        SimpleMarker::new(id),
        &mut world.markers,
        &mut world.entities,
    );
    match outcome {
        Ok(entity) => born(world, entity),
        Err((error, _)) => Err(error),
    }
}

/// Gives a marker for an entity, and puts it at its index.
fn put(world: &mut World, entity: Entity, id: u64) -> Result<Answer, Error> {
    if !world.entities.is_alive(entity) {
        return Ok(Nothing);
    }
    let marker = world.allocator.allocate(entity, Some(id))?;
    match world.markers.insert(entity.id(), marker) {
        Ok(_) => Ok(Given(marker.id())),
        Err(_) => Err(Error::Memory),
    }
}

/// What a call on an entity replies.
fn reply_of(world: &mut World, call: &Call, entity: Entity) -> Result<Answer, Error> {
    match call {
        Kill(_) => {
            world.entities.kill(&[entity])?;
            Ok(Done)
        }
        Allocate(_, id) => given(world.allocator.allocate(entity, *id)),
        Put(_, id) => put(world, entity, *id),
        Mark(_) => match world
            .allocator
            .mark(entity, &mut world.markers, &world.entities)?
        {
            Some((id, new)) => Ok(Marked(id, new)),
            None => Ok(Nothing),
        },
        MarkNew(_) => mark_new(world, entity),
        _ => Ok(Nothing),
    }
}

/// What a call replies.
fn reply(world: &mut World, call: &Call) -> Result<Answer, Error> {
    match call {
        Create => {
            let entity = world.entities.create()?;
            born(world, entity)
        }
        Look(id) => Ok(found(world.allocator.retrieve_entity_internal(*id))),
        Retrieve(id) => retrieve(world, *id),
        Maintain => {
            a_maintained_entity_is_found(&mut world.allocator, &world.entities, &world.markers)?;
            Ok(Done)
        }
        Clone => {
            world.allocator = world.allocator.clone()?;
            Ok(Done)
        }
        MarkBoth(one, other) => match (entity_at(world, *one), entity_at(world, *other)) {
            (Some(one), Some(other)) => mark_both(world, one, other),
            _ => Ok(Nothing),
        },
        Kill(place) | Put(place, _) | Mark(place) | MarkNew(place) | Allocate(place, _) => {
            match entity_at(world, *place) {
                Some(entity) => reply_of(world, call, entity),
                None => Ok(Nothing),
            }
        }
    }
}

/// Whether each call of a row answers what the row says.
fn holds(alloc: Global, row: &Row) -> Result<bool, Error> {
    let mut world = World {
        entities: EntitiesRes::new(alloc),
        markers: MaskedStorage::new(alloc, DenseVecStorage::unwrap_default(alloc)),
        allocator: SimpleMarkerAllocator::new(alloc),
        born: Vec::new(alloc),
    };
    let mut right = true;
    for (call, wanted) in row.calls {
        right = right && reply(&mut world, call)? == *wanted;
    }
    Ok(right)
}

#[test]
fn markers_answer_by_rows(rt: HostRuntime) {
    let mut wrong = None;
    for row in &ROWS {
        if !matches!(holds(rt.alloc(), row), Ok(true)) {
            wrong = Some(row.name);
        }
    }
    assert_eq!(rt; wrong, None);
}

/// Whether two markers are loaded as the two entities with the first indices.
fn loads_two(alloc: Global) -> Result<bool, Error> {
    let mut entities = EntitiesRes::new(alloc);
    let mut markers = MaskedStorage::new(alloc, DenseVecStorage::unwrap_default(alloc));
    let mut allocator: SimpleMarkerAllocator<Net> = SimpleMarkerAllocator::new(alloc);
    let loaded = two_markers_are_two_entities(
        &mut allocator,
        SimpleMarker::new(7),
        SimpleMarker::new(3),
        &mut markers,
        &mut entities,
    );
    match loaded {
        Ok((one, other)) => Ok(one.id() == 0 && other.id() == 1),
        Err((error, _)) => Err(error),
    }
}

#[test]
fn two_markers_are_loaded_as_two_entities(rt: HostRuntime) {
    assert!(rt; matches!(loads_two(rt.alloc()), Ok(true)));
}
