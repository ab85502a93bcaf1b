//! Saves a world as JSON text, loads that text into an empty one, and saves that again: two lines, which are the same.
//!
//! Entity 0 owns entity 1, which owns entity 0; a third has health alone; a fourth has no marker, and isn't saved.
#![tactic(auto)]

use serde_json::Value;
use specs::saveload::{
    DeserializeComponents, EntityData, FormError, JsonForm, MarkerAllocator, PartForms,
    SerializeComponents, SimpleMarker, SimpleMarkerAllocator, list_from_value,
};
use specs::{DenseVecStorage, EntitiesRes, Entity, Error, MaskedStorage, TryDefault, VecStorage};
use std::alloc::{AllocError, Global};
use std::io;
use world_cases::saving::kinds::{Health, Owner};

/// What the markers are for.
struct Net;

/// Owners and healths.
type Parts = (MaskedStorage<Owner>, MaskedStorage<Health>);

/// What is saved of an entity: its marker, and of its parts.
type Saved = EntityData<SimpleMarker<Net>, (Option<SimpleMarker<Net>>, Option<i64>)>;

/// Entities with their markers and parts.
#[derive(Drop)]
struct World {
    entities: EntitiesRes,
    markers: MaskedStorage<SimpleMarker<Net>>,
    allocator: SimpleMarkerAllocator<Net>,
    parts: Parts,
}

/// A world without entities.
fn empty(alloc: Global) -> World {
    World {
        entities: EntitiesRes::new(alloc),
        markers: MaskedStorage::new(alloc, DenseVecStorage::unwrap_default(alloc)),
        allocator: SimpleMarkerAllocator::new(alloc),
        parts: (
            MaskedStorage::new(alloc, DenseVecStorage::unwrap_default(alloc)),
            MaskedStorage::new(alloc, VecStorage::unwrap_default(alloc)),
        ),
    }
}

/// Gives an entity health, and marks it.
fn heal(world: &mut World, entity: Entity, health: i64) -> Result<(), Error> {
    if world.entities.is_alive(entity)
        && world.parts.1.insert(entity.id(), Health(health)).is_err()
    {
        return Err(Error::Memory);
    }
    let _ = world
        .allocator
        .mark(entity, &mut world.markers, &world.entities)?;
    Ok(())
}

/// Gives an entity an owner.
fn own(world: &mut World, entity: Entity, owner: Entity) -> Result<(), Error> {
    if world.entities.is_alive(entity) && world.parts.0.insert(entity.id(), Owner(owner)).is_err() {
        return Err(Error::Memory);
    }
    Ok(())
}

/// Fills the world that is saved.
fn fill(world: &mut World) -> Result<(), Error> {
    let first = world.entities.create()?;
    let second = world.entities.create()?;
    let third = world.entities.create()?;
    let _unmarked = world.entities.create()?;
    heal(world, first, 7)?;
    heal(world, second, -5)?;
    heal(world, third, 3)?;
    own(world, first, second)?;
    own(world, second, first)
}

/// The JSON text of a list.
fn text_of<D: PartForms>(
    alloc: Global,
    list: &[EntityData<SimpleMarker<Net>, D>],
) -> Result<String, AllocError> {
    let mut values = Vec::new(alloc);
    for entry in list {
        let value = entry.to_value(alloc)?;
        values.push(value)?;
    }
    Value::Array(values).to_string(alloc)
}

/// The text that a world is saved as.
fn saved_text(alloc: Global, world: &World) -> Result<String, Error> {
    let list = world
        .parts
        .serialize(alloc, &world.entities, &world.markers)?;
    Ok(text_of(alloc, list.as_slice())?)
}

/// The list of a text.
fn list_of(alloc: Global, text: &str) -> Result<Vec<Saved>, FormError> {
    let Ok(json) = Value::from_str(alloc, text) else {
        return Err(FormError::whole());
    };
    list_from_value(alloc, &json)
}

/// Loads a list into a world.
fn load(alloc: Global, list: Vec<Saved>, world: &mut World) -> Result<(), Error> {
    match world.parts.deserialize(
        alloc,
        list,
        &mut world.entities,
        &mut world.markers,
        &mut world.allocator,
    ) {
        Ok(()) => Ok(()),
        Err(refused) => Err(refused.error),
    }
}

/// What is saved of an empty world into which a text was loaded: nothing, where the text is no list of entities.
fn text_again(alloc: Global, text: &str) -> Result<String, Error> {
    let list = match list_of(alloc, text) {
        Ok(list) => list,
        Err(FormError::Shape(_)) => return Ok(String::new(alloc)),
        Err(FormError::Memory) => return Err(Error::Memory),
    };
    let mut world = empty(alloc);
    load(alloc, list, &mut world)?;
    saved_text(alloc, &world)
}

/// The text of the world that is saved.
fn first_text(alloc: Global) -> Result<String, Error> {
    let mut world = empty(alloc);
    fill(&mut world)?;
    saved_text(alloc, &world)
}

/// Both lines; the second is empty where the first is no list of entities.
fn both(alloc: Global) -> Result<(String, String), Error> {
    let first = first_text(alloc)?;
    let second = text_again(alloc, &first)?;
    Ok((first, second))
}

fn main(rt: HostRuntime) -> io::Result<()> {
    match both(rt.alloc()) {
        Ok((first, second)) => {
            println!(rt; "{first}")?;
            println!(rt; "{second}")
        }
        Err(error) => println!(rt; "refused: {error}"),
    }
}
