//! What callers of worlds with queues come to: each story makes its calls, and answers whether all was as it should be.
use crate::lazy::giving::{give, is_ready};
use crate::lazy::tasks::{Health, Notes, Task, queue};
use crate::lazy::values::Value;
use shred_world::{ResourceId, World};
use specs_entity::{EntitiesRes, Entity, Error};
use specs_join::Join;
use specs_layouts::MaskedStorage;
use specs_world::{Insert, LazyUpdate, LazyWorld, Maintained, SharedLazy, WorldExt};
use std::alloc::AllocGlobal;
use std::sync::Wait;

/// A story, by what it shows.
#[derive(Clone, Copy, Debug, PartialEq, Eq)]
pub enum Story {
    /// The oldest job of the least number runs first, also one that a job queued; the shared queue's run last.
    InOrder,
    /// So many jobs run as the limit says, and the others stay queued.
    Limited,
    /// As many jobs as the limit are no more than it.
    WithinLimit,
    /// Parts that were queued one by one and as a list are there after the world was maintained.
    LazyInsertion,
    /// A part whose removal was queued is gone, and one of an entity that isn't alive is none.
    LazyRemoval,
    /// A job that is queued as it is puts a part at an entity whose birth is fresh.
    LazyExecution,
    /// A job that a job queued runs in the same call.
    SuperLazyExecution,
    /// Jobs of one queue run in the order in which they were queued.
    LazyExecutionOrder,
    /// An entity that a job made outlives the call, and all die at once.
    DeleteAndLazy,
    /// A list of parts is put but for those whose entity isn't alive, and counts as failed.
    DeadAmongThem,
    /// A part at an entity that isn't alive counts as failed, and the next job runs.
    FailedAndOn,
    /// A job that finds no memory ends the call, and the others stay queued.
    NoMemory,
    /// An entity that is built lazily has its parts once the world is maintained.
    BuiltLazily,
    /// In a world without a shared queue jobs under numbers run, and in one without any queue none.
    WithoutShared,
    /// The entity that a caller queues a health for has it.
    Given,
}

/// Every story.
pub const STORIES: [Story; 15] = [
    Story::InOrder,
    Story::Limited,
    Story::WithinLimit,
    Story::LazyInsertion,
    Story::LazyRemoval,
    Story::LazyExecution,
    Story::SuperLazyExecution,
    Story::LazyExecutionOrder,
    Story::DeleteAndLazy,
    Story::DeadAmongThem,
    Story::FailedAndOn,
    Story::NoMemory,
    Story::BuiltLazily,
    Story::WithoutShared,
    Story::Given,
];

/// Whether a story is as it should be.
pub fn holds<R: AllocGlobal + Wait>(rt: &R, story: Story) -> Result<bool, Error> {
    let mut made = make_world(rt)?;
    let world = &mut made;
    match story {
        Story::InOrder => in_order(rt, world),
        Story::Limited => limited(rt, world),
        Story::WithinLimit => within_limit(rt, world),
        Story::LazyInsertion => lazy_insertion(rt, world),
        Story::LazyRemoval => lazy_removal(rt, world),
        Story::LazyExecution => lazy_execution(rt, world),
        Story::SuperLazyExecution => super_lazy_execution(rt, world),
        Story::LazyExecutionOrder => lazy_execution_order(rt, world),
        Story::DeleteAndLazy => delete_and_lazy(rt, world),
        Story::DeadAmongThem => dead_among_them(rt, world),
        Story::FailedAndOn => failed_and_on(rt, world),
        Story::NoMemory => no_memory(rt, world),
        Story::BuiltLazily => built_lazily(rt, world),
        Story::WithoutShared => without_shared(rt, world),
        Story::Given => given(rt),
    }
}

/// A world with queues under the numbers 0 and 1, a shared one, notes, and healths that are registered.
fn make_world<R: AllocGlobal>(rt: &R) -> Result<World<Value>, Error> {
    let mut world: World<Value> = LazyWorld::<Value, Task>::with_queues(rt.alloc())?;
    world.register::<Health>()?;
    let id = ResourceId::new_with_dynamic_id::<Value, LazyUpdate<Task>>(1);
    let alloc = rt.alloc();
    let queue = LazyUpdate::<Task>::new(alloc);
    let notes = Notes {
        numbers: Vec::new(alloc),
    };
    if world.insert_by_id(id, queue).is_err() || world.insert(notes).is_err() {
        return Err(Error::Memory);
    }
    Ok(world)
}

/// Queues a task in the shared queue.
fn queue_shared<R: Wait>(rt: &R, world: &World<Value>, task: Task) -> Result<(), Error> {
    match world.try_fetch::<SharedLazy<Task>>() {
        Some(shared) => match shared.exec(rt, task) {
            Ok(()) => Ok(()),
            Err(_) => Err(Error::Memory),
        },
        None => Err(Error::NotRegistered),
    }
}

/// Whether these numbers were noted, in this order.
fn are_noted(world: &World<Value>, numbers: &[u32]) -> bool {
    match world.try_fetch::<Notes>() {
        Some(notes) => notes.numbers.as_slice() == numbers,
        None => false,
    }
}

/// Whether so many jobs ran, and so many failed.
fn is_maintained(outcome: &Result<Maintained, Error>, jobs: u64, failed: u64) -> bool {
    match outcome {
        Ok(counts) => *counts == Maintained { jobs, failed },
        Err(_) => false,
    }
}

/// Whether the limit was reached.
fn is_limit(outcome: &Result<Maintained, Error>) -> bool {
    matches!(outcome, Err(Error::Limit))
}

/// The health at an entity's index.
fn health_at(world: &World<Value>, entity: Entity) -> Option<Health> {
    let storage = world.try_fetch::<MaskedStorage<Health>>()?;
    if storage.contains(entity.id()) {
        Some(*storage.get(entity.id()))
    } else {
        None
    }
}

/// Makes an entity without parts.
fn make_entity(world: &mut World<Value>) -> Result<Entity, Error> {
    Ok(world.create_entity()?.build())
}

/// Queues the jobs of the first rows: under the number 1 one that notes 1 and queues the note of 3 under the number 0, and one that
/// notes 2; in the shared queue one that notes 4.
fn queue_four<R: Wait>(rt: &R, world: &mut World<Value>) -> Result<(), Error> {
    queue(world, 1, Task::NoteAndQueue(1, 0, 3))?;
    queue(world, 1, Task::Note(2))?;
    queue_shared(rt, world, Task::Note(4))
}

fn in_order<R: AllocGlobal + Wait>(rt: &R, world: &mut World<Value>) -> Result<bool, Error> {
    queue_four(rt, world)?;
    let outcome = world.maintain(rt, 10);
    Ok(is_maintained(&outcome, 4, 0) && are_noted(world, &[1, 3, 2, 4]))
}

fn limited<R: AllocGlobal + Wait>(rt: &R, world: &mut World<Value>) -> Result<bool, Error> {
    queue_four(rt, world)?;
    let refused = world.maintain(rt, 2);
    let noted = are_noted(world, &[1, 3]);
    let none = world.maintain(rt, 0);
    let rest = world.maintain(rt, 10);
    Ok(
        is_limit(&refused)
            && noted
            && is_limit(&none)
            && is_maintained(&rest, 2, 0)
            && are_noted(world, &[1, 3, 2, 4]),
    )
}

fn within_limit<R: AllocGlobal + Wait>(rt: &R, world: &mut World<Value>) -> Result<bool, Error> {
    queue_four(rt, world)?;
    let outcome = world.maintain(rt, 4);
    let none = world.maintain(rt, 0);
    Ok(is_maintained(&outcome, 4, 0) && is_maintained(&none, 0, 0))
}

fn lazy_insertion<R: AllocGlobal + Wait>(rt: &R, world: &mut World<Value>) -> Result<bool, Error> {
    let first = make_entity(world)?;
    let second = make_entity(world)?;
    let third = make_entity(world)?;
    let mut pairs = Vec::new(rt.alloc());
    if pairs.push((second, Health(2))).is_err() || pairs.push((third, Health(3))).is_err() {
        return Err(Error::Memory);
    }
    match world.get_mut::<LazyUpdate<Task>>() {
        Some(lazy) => {
            if lazy.insert(first, Health(1)).is_err() || lazy.insert_all(pairs).is_err() {
                return Err(Error::Memory);
            }
        }
        None => return Ok(false),
    }
    let before = health_at(world, first);
    let outcome = world.maintain(rt, 10);
    Ok(
        is_maintained(&outcome, 2, 0)
            && before.is_none()
            && health_at(world, first) == Some(Health(1))
            && health_at(world, second) == Some(Health(2))
            && health_at(world, third) == Some(Health(3)),
    )
}

fn lazy_removal<R: AllocGlobal + Wait>(rt: &R, world: &mut World<Value>) -> Result<bool, Error> {
    let entity = make_entity(world)?;
    let stale = make_entity(world)?;
    world.delete_entity(stale)?;
    if let Err((error, _)) = world.insert_part(entity, Health(1)) {
        return Err(error);
    }
    match world.get_mut::<LazyUpdate<Task>>() {
        Some(lazy) => {
            if lazy.remove::<Health>(entity).is_err() || lazy.remove::<Health>(stale).is_err() {
                return Err(Error::Memory);
            }
        }
        None => return Ok(false),
    }
    let before = health_at(world, entity);
    let outcome = world.maintain(rt, 10);
    Ok(
        before == Some(Health(1))
            && is_maintained(&outcome, 2, 0)
            && health_at(world, entity).is_none(),
    )
}

fn lazy_execution<R: AllocGlobal + Wait>(rt: &R, world: &mut World<Value>) -> Result<bool, Error> {
    let entity = world.write_resource::<EntitiesRes>()?.create()?;
    let part = Health(7);
    queue(world, 0, Task::PutHealth(Insert { entity, part }))?;
    let before = health_at(world, entity);
    let outcome = world.maintain(rt, 10);
    Ok(
        is_maintained(&outcome, 1, 0)
            && before.is_none()
            && health_at(world, entity) == Some(Health(7)),
    )
}

fn super_lazy_execution<R: AllocGlobal + Wait>(
    rt: &R,
    world: &mut World<Value>,
) -> Result<bool, Error> {
    queue(world, 0, Task::NoteAndQueue(1, 0, 2))?;
    let outcome = world.maintain(rt, 10);
    Ok(is_maintained(&outcome, 2, 0) && are_noted(world, &[1, 2]))
}

fn lazy_execution_order<R: AllocGlobal + Wait>(
    rt: &R,
    world: &mut World<Value>,
) -> Result<bool, Error> {
    queue(world, 0, Task::Note(1))?;
    queue(world, 0, Task::Note(2))?;
    let outcome = world.maintain(rt, 10);
    Ok(is_maintained(&outcome, 2, 0) && are_noted(world, &[1, 2]))
}

fn delete_and_lazy<R: AllocGlobal + Wait>(rt: &R, world: &mut World<Value>) -> Result<bool, Error> {
    queue(world, 0, Task::MakeEntity)?;
    let first = world.maintain(rt, 10);
    let living = count_living(world);
    queue(world, 0, Task::MakeEntity)?;
    world.delete_all()?;
    let none = count_living(world);
    let second = world.maintain(rt, 10);
    Ok(
        is_maintained(&first, 1, 0)
            && living == 1
            && none == 0
            && is_maintained(&second, 1, 0)
            && count_living(world) == 1,
    )
}

/// How many entities are alive.
fn count_living(world: &World<Value>) -> usize {
    let mut count: usize = 0;
    if let Some(entities) = world.try_fetch::<EntitiesRes>() {
        for _ in entities.join() {
            count = count.saturating_add(1);
        }
    }
    count
}

fn dead_among_them<R: AllocGlobal + Wait>(rt: &R, world: &mut World<Value>) -> Result<bool, Error> {
    let first = make_entity(world)?;
    let stale = make_entity(world)?;
    let last = make_entity(world)?;
    world.delete_entity(stale)?;
    let mut pairs = Vec::new(rt.alloc());
    if pairs.push((first, Health(1))).is_err()
        || pairs.push((stale, Health(2))).is_err()
        || pairs.push((last, Health(3))).is_err()
    {
        return Err(Error::Memory);
    }
    match world.get_mut::<LazyUpdate<Task>>() {
        Some(lazy) => {
            if lazy.insert_all(pairs).is_err() {
                return Err(Error::Memory);
            }
        }
        None => return Ok(false),
    }
    let outcome = world.maintain(rt, 10);
    Ok(
        is_maintained(&outcome, 1, 1)
            && health_at(world, first) == Some(Health(1))
            && health_at(world, stale).is_none()
            && health_at(world, last) == Some(Health(3)),
    )
}

fn failed_and_on<R: AllocGlobal + Wait>(rt: &R, world: &mut World<Value>) -> Result<bool, Error> {
    let stale = make_entity(world)?;
    world.delete_entity(stale)?;
    match world.get_mut::<LazyUpdate<Task>>() {
        Some(lazy) => {
            if lazy.insert(stale, Health(1)).is_err() {
                return Err(Error::Memory);
            }
        }
        None => return Ok(false),
    }
    queue(world, 1, Task::Note(2))?;
    let outcome = world.maintain(rt, 10);
    Ok(is_maintained(&outcome, 2, 1) && health_at(world, stale).is_none() && are_noted(world, &[2]))
}

fn no_memory<R: AllocGlobal + Wait>(rt: &R, world: &mut World<Value>) -> Result<bool, Error> {
    queue(world, 0, Task::Note(1))?;
    queue(world, 0, Task::FindNoMemory)?;
    queue(world, 0, Task::Note(2))?;
    let refused = world.maintain(rt, 10);
    let noted = are_noted(world, &[1]);
    let rest = world.maintain(rt, 10);
    Ok(
        matches!(refused, Err(Error::Memory))
            && noted
            && is_maintained(&rest, 1, 0)
            && are_noted(world, &[1, 2]),
    )
}

fn built_lazily<R: AllocGlobal + Wait>(rt: &R, world: &mut World<Value>) -> Result<bool, Error> {
    let mut entities = EntitiesRes::new(rt.alloc());
    let mut lazy = LazyUpdate::<Task>::new(rt.alloc());
    let built = match lazy.create_entity(&mut entities)?.with(Health(5)) {
        Ok(builder) => builder.build(),
        Err((error, _, _)) => return Err(error),
    };
    if world.insert(entities).is_err() || world.insert(lazy).is_err() {
        return Err(Error::Memory);
    }
    let before = health_at(world, built);
    let outcome = world.maintain(rt, 10);
    Ok(
        before.is_none()
            && is_maintained(&outcome, 1, 0)
            && world.is_alive(built)
            && health_at(world, built) == Some(Health(5)),
    )
}

fn without_shared<R: AllocGlobal + Wait>(rt: &R, world: &mut World<Value>) -> Result<bool, Error> {
    queue_four(rt, world)?;
    let shared = world.remove::<SharedLazy<Task>>().is_some();
    let outcome = world.maintain(rt, 3);
    let mut bare: World<Value> = WorldExt::new(rt.alloc())?;
    let none = bare.maintain(rt, 10);
    Ok(
        shared
            && is_maintained(&outcome, 3, 0)
            && are_noted(world, &[1, 3, 2])
            && is_maintained(&none, 0, 0),
    )
}

fn given<R: AllocGlobal + Wait>(rt: &R) -> Result<bool, Error> {
    let mut world: World<Value> = LazyWorld::<Value, Task>::with_queues(rt.alloc())?;
    world.register::<Health>()?;
    let entity = make_entity(&mut world)?;
    if !is_ready(&world) {
        return Ok(false);
    }
    let outcome = give(&mut world, rt, entity, 9);
    Ok(is_maintained(&outcome, 1, 0) && health_at(&world, entity) == Some(Health(9)))
}
