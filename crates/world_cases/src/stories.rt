//! What callers of a world of entities come to: each story makes its calls, and answers whether all was as it should be.
use crate::building::build_bare;
use crate::lending::create_fresh;
use crate::values::{Health, Speed, Value};
use shred_world::{SystemData, World};
use specs_entity::{EntitiesRes, Entity, Error};
use specs_layouts::MaskedStorage;
use specs_storage::Storage;
use specs_world::{WorldExt, WriteStorage};
use std::alloc::Global;

/// A story, by what it shows.
#[derive(Clone, Copy, Debug, PartialEq, Eq)]
pub enum Story {
    /// An entity is built with a part, and has it.
    BuiltWithParts,
    /// A kind that is registered after entities were made has no part of one that was deleted.
    RegisteredLate,
    /// An entity whose index lives again is refused, and the new one's part stays.
    StaleEntity,
    /// A builder that is dropped has its entity deleted at the next merge.
    DroppedBuilder,
    /// A bundle's setup holds and registers the storage of a new kind.
    SetUpByBundle,
    /// A part of a kind that isn't registered is refused.
    Unregistered,
    /// All entities die, and no part is left.
    AllDeleted,
    /// Parts are dropped by index, and the entity lives on.
    PartsDropped,
    /// A kind that is registered again keeps its parts.
    RegisteredTwice,
    /// Entities in a row are alive at once, each with its own index, also at one that was used before.
    MadeInARow,
    /// A storage that is taken out for writing is wanting until it is given back, and then has what was written.
    TakenOut,
    /// Through the entities that are lent for writing one comes to life, which is persistent after a merge; a resource
    /// that is wanting is refused.
    LentForWriting,
    /// An entity that is built without parts lives, and has none.
    BuiltBare,
    /// Those that hold on to a root fall with it, in a ring too; a pair with a dead end counts for nothing.
    FallenWithOthers,
    /// A root that is dead is refused, and nobody falls.
    DeadRoot,
}

/// Every story.
pub const STORIES: [Story; 15] = [
    Story::BuiltWithParts,
    Story::RegisteredLate,
    Story::StaleEntity,
    Story::DroppedBuilder,
    Story::SetUpByBundle,
    Story::Unregistered,
    Story::AllDeleted,
    Story::PartsDropped,
    Story::RegisteredTwice,
    Story::MadeInARow,
    Story::TakenOut,
    Story::LentForWriting,
    Story::BuiltBare,
    Story::FallenWithOthers,
    Story::DeadRoot,
];

/// Whether a story is as it should be.
pub fn holds(alloc: Global, story: Story) -> Result<bool, Error> {
    let mut made = world_with_healths(alloc)?;
    let world = &mut made;
    match story {
        Story::BuiltWithParts => built_with_parts(world),
        Story::RegisteredLate => registered_late(world),
        Story::StaleEntity => stale_entity(world),
        Story::DroppedBuilder => dropped_builder(world),
        Story::SetUpByBundle => set_up_by_bundle(world),
        Story::Unregistered => unregistered(world),
        Story::AllDeleted => all_deleted(world),
        Story::PartsDropped => parts_dropped(world),
        Story::RegisteredTwice => registered_twice(world),
        Story::MadeInARow => made_in_a_row(alloc, world),
        Story::TakenOut => taken_out(world),
        Story::LentForWriting => lent_for_writing(world),
        Story::BuiltBare => built_bare(world),
        Story::FallenWithOthers => fallen_with_others(world),
        Story::DeadRoot => dead_root(world),
    }
}

/// A world in which the kind of healths is registered.
fn world_with_healths(alloc: Global) -> Result<World<Value>, Error> {
    let mut world: World<Value> = WorldExt::new(alloc)?;
    world.register::<Health>()?;
    Ok(world)
}

/// Makes an entity with a health.
fn with_health(world: &mut World<Value>, health: u32) -> Result<Entity, Error> {
    match world.create_entity()?.with(Health(health)) {
        Ok(builder) => Ok(builder.build()),
        Err((error, _, _)) => Err(error),
    }
}

/// Puts a speed at an entity.
fn put_speed(world: &mut World<Value>, entity: Entity, speed: u32) -> Result<(), Error> {
    match world.insert_part(entity, Speed(speed)) {
        Ok(_) => Ok(()),
        Err((error, _)) => Err(error),
    }
}

/// The health at an entity's index.
fn health_at(world: &World<Value>, entity: Entity) -> Option<Health> {
    let storage = world.try_fetch::<MaskedStorage<Health>>()?;
    if storage.contains(entity.id()) {
        Some(*storage.get(entity.id()))
    } else {
        None
    }
}

/// Whether an entity's index has a speed, or none where speeds have no storage.
fn has_speed(world: &World<Value>, entity: Entity) -> Option<bool> {
    let storage = world.try_fetch::<MaskedStorage<Speed>>()?;
    Some(storage.contains(entity.id()))
}

/// Whether a refusal is that the entity isn't alive, and its index has that generation.
fn is_wrong_generation<T>(refused: &Result<T, Error>, entity: Entity, generation: i32) -> bool {
    match refused {
        Err(Error::WrongGeneration(wrong)) => {
            wrong.entity == entity && wrong.actual_gen.id() == generation
        }
        _ => false,
    }
}

fn built_with_parts(world: &mut World<Value>) -> Result<bool, Error> {
    let entity = with_health(world, 7)?;
    Ok(world.is_alive(entity) && health_at(world, entity) == Some(Health(7)))
}

fn registered_late(world: &mut World<Value>) -> Result<bool, Error> {
    let entity = with_health(world, 7)?;
    world.register::<Speed>()?;
    put_speed(world, entity, 3)?;
    let had = has_speed(world, entity);
    world.delete_entity(entity)?;
    Ok(
        had == Some(true)
            && has_speed(world, entity) == Some(false)
            && health_at(world, entity).is_none()
            && !world.is_alive(entity),
    )
}

fn stale_entity(world: &mut World<Value>) -> Result<bool, Error> {
    let stale = with_health(world, 7)?;
    world.delete_entity(stale)?;
    let entity = with_health(world, 9)?;
    let refused = world.delete_entity(stale);
    Ok(
        entity.id() == stale.id()
            && is_wrong_generation(&refused, stale, 2)
            && world.is_alive(entity)
            && health_at(world, entity) == Some(Health(9)),
    )
}

fn dropped_builder(world: &mut World<Value>) -> Result<bool, Error> {
    let dropped = world.create_entity()?.entity;
    let lived = world.is_alive(dropped);
    let deleted = world.merge()?;
    Ok(lived && deleted.as_slice() == [dropped].as_slice() && !world.is_alive(dropped))
}

fn set_up_by_bundle(world: &mut World<Value>) -> Result<bool, Error> {
    let entity = with_health(world, 7)?;
    world.setup::<WriteStorage<Speed>>()?;
    put_speed(world, entity, 3)?;
    world.delete_entity(entity)?;
    Ok(has_speed(world, entity) == Some(false))
}

fn unregistered(world: &mut World<Value>) -> Result<bool, Error> {
    let entity = with_health(world, 7)?;
    match put_speed(world, entity, 3) {
        Err(Error::NotRegistered) => Ok(has_speed(world, entity).is_none()),
        _ => Ok(false),
    }
}

fn all_deleted(world: &mut World<Value>) -> Result<bool, Error> {
    let first = with_health(world, 1)?;
    let second = with_health(world, 2)?;
    world.delete_all()?;
    Ok(
        !world.is_alive(first)
            && !world.is_alive(second)
            && health_at(world, first).is_none()
            && health_at(world, second).is_none(),
    )
}

fn parts_dropped(world: &mut World<Value>) -> Result<bool, Error> {
    let first = with_health(world, 1)?;
    let second = with_health(world, 2)?;
    world.delete_components(&[first])?;
    Ok(
        world.is_alive(first)
            && health_at(world, first).is_none()
            && health_at(world, second) == Some(Health(2)),
    )
}

fn registered_twice(world: &mut World<Value>) -> Result<bool, Error> {
    let entity = with_health(world, 10)?;
    world.register::<Health>()?;
    Ok(health_at(world, entity) == Some(Health(10)))
}

fn made_in_a_row(alloc: Global, world: &mut World<Value>) -> Result<bool, Error> {
    let stale = with_health(world, 1)?;
    world.delete_entity(stale)?;
    let mut ids = Vec::new(alloc);
    let mut lives = true;
    for entity in world.create_iter(3)? {
        lives = lives && world.is_alive(entity);
        if ids.push(entity.id()).is_err() {
            return Err(Error::Memory);
        }
    }
    Ok(lives && ids.as_slice() == [0, 1, 2].as_slice() && !world.is_alive(stale))
}

/// Puts a health into a storage that was taken out.
fn put_outside(
    entities: &EntitiesRes,
    bundle: &mut WriteStorage<Health>,
    entity: Entity,
) -> Result<(), Error> {
    match Storage::new(entities, &mut bundle.parts.value).insert(entity, Health(9)) {
        Ok(_) => Ok(()),
        Err((error, _)) => Err(error),
    }
}

fn taken_out(world: &mut World<Value>) -> Result<bool, Error> {
    let entity = with_health(world, 7)?;
    let mut bundle = world.write_storage::<Health>()?;
    let wanting = matches!(world.read_component::<Health>(), Err(Error::NotRegistered));
    let put = match world.read_resource::<EntitiesRes>() {
        Ok(entities) => put_outside(entities, &mut bundle, entity),
        Err(error) => Err(error),
    };
    SystemData::give_back(bundle, world);
    put?;
    let again = world.write_component::<Health>()?;
    SystemData::give_back(again, world);
    Ok(wanting && health_at(world, entity) == Some(Health(9)))
}

fn lent_for_writing(world: &mut World<Value>) -> Result<bool, Error> {
    let entity = create_fresh(world)?;
    let persistent = world.is_alive(entity);
    world.merge()?;
    let wanting = matches!(
        world.write_resource::<MaskedStorage<Speed>>(),
        Err(Error::NotRegistered)
    );
    Ok(!persistent && world.is_alive(entity) && wanting)
}

fn built_bare(world: &mut World<Value>) -> Result<bool, Error> {
    let entity = build_bare(world)?;
    Ok(world.is_alive(entity) && health_at(world, entity).is_none())
}

fn fallen_with_others(world: &mut World<Value>) -> Result<bool, Error> {
    let stale = with_health(world, 0)?;
    world.delete_entity(stale)?;
    let root = with_health(world, 1)?;
    let holder = with_health(world, 2)?;
    let further = with_health(world, 3)?;
    let other = with_health(world, 4)?;
    let pairs = [
        (further, holder),
        (holder, root),
        (root, further),
        (other, stale),
        (stale, other),
    ];
    let fallen = world.delete_closure(&[further, further], &pairs)?;
    Ok(
        stale.id() == root.id()
            && fallen.as_slice() == [root, holder, further].as_slice()
            && health_at(world, root).is_none()
            && health_at(world, holder).is_none()
            && health_at(world, further).is_none()
            && health_at(world, other) == Some(Health(4)),
    )
}

fn dead_root(world: &mut World<Value>) -> Result<bool, Error> {
    let stale = with_health(world, 0)?;
    world.delete_entity(stale)?;
    let root = with_health(world, 7)?;
    let refused = world.delete_closure(&[root, stale], &[(root, root)]);
    Ok(is_wrong_generation(&refused, stale, 2) && health_at(world, root) == Some(Health(7)))
}
