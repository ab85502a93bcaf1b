//! The tasks of the tests, which wait in queues of a world.
ghost use Rattle.std.specs.Prelude.{◌≡◌};
ghost use Rattle.world_cases.specs.declared.lazy.tasks.Task.TheVariants.{PutHealth, PutHealths, DropHealth};

use crate::lazy::values::Value;
use shred_world::{Resource, ResourceId, World};
use specs_entity::{EntitiesRes, Error};
use specs_layouts::{Component, VecStorage};
use specs_world::{Insert, InsertAll, Job, LazyUpdate, Remove};

/// How much an entity can bear.
#[derive(Clone, Copy, Debug, PartialEq, Eq)]
pub struct Health(pub u32);

impl Component for Health {
    type Storage = VecStorage<Health>;
}

/// Numbers that tasks noted, in their order.
#[derive(Drop)]
pub struct Notes {
    /// The numbers.
    pub numbers: Vec<u32>,
}

/// What waits in the queues of the tests.
#[derive(Drop)]
pub enum Task {
    /// Puts a health at an entity.
    PutHealth(Insert<Health>),
    /// Puts healths at entities.
    PutHealths(InsertAll<Health>),
    /// Drops the health of an entity.
    DropHealth(Remove<Health>),
    /// Notes a number.
    Note(u32),
    /// Notes a number, and queues the note of another under a dynamic number.
    NoteAndQueue(u32, u64, u32),
    /// Makes an entity.
    MakeEntity,
    /// Finds no memory.
    FindNoMemory,
}

impl From<Insert<Health>> for Task {
    ghost from_gives = { λ job task. task ≡ PutHealth job };

    fn from(job: Insert<Health>) -> Task {
        Task::PutHealth(job)
    }
}

impl From<InsertAll<Health>> for Task {
    ghost from_gives = { λ job task. task ≡ PutHealths job };

    fn from(job: InsertAll<Health>) -> Task {
        Task::PutHealths(job)
    }
}

impl From<Remove<Health>> for Task {
    ghost from_gives = { λ job task. task ≡ DropHealth job };

    fn from(job: Remove<Health>) -> Task {
        Task::DropHealth(job)
    }
}

impl Job<Value> for Task {
    ghost use Rattle.world_cases.specs.Tasks.{task_runs};

    ghost runs = { task_runs
        ⟦<Insert<Health> as Job<Value>>⟧.runs ⟦<InsertAll<Health> as Job<Value>>⟧.runs
        ⟦<Remove<Health> as Job<Value>>⟧.runs };

    fn run(self, world: &mut World<Value>) -> Result<(), Error> {
        match self {
            Task::PutHealth(job) => job.run(world),
            Task::PutHealths(job) => job.run(world),
            Task::DropHealth(job) => job.run(world),
            Task::Note(number) => note(world, number),
            Task::NoteAndQueue(number, under, later) => {
                note(world, number)?;
                queue(world, under, Task::Note(later))
            }
            Task::MakeEntity => make_entity(world),
            Task::FindNoMemory => Err(Error::Memory),
        }
    }
}

/// Notes a number. Errors: `NotRegistered`, where the world has no notes; `Memory`.
fn note(world: &mut World<Value>, number: u32) -> Result<(), Error> {
    match world.get_mut::<Notes>() {
        Some(notes) => match notes.numbers.push(number) {
            Ok(()) => Ok(()),
            Err(_) => Err(Error::Memory),
        },
        None => Err(Error::NotRegistered),
    }
}

/// Queues a task under a dynamic number. Errors: `NotRegistered`, where the world has no queue there; `Memory`.
pub fn queue(world: &mut World<Value>, under: u64, task: Task) -> Result<(), Error> {
    let id = ResourceId::new_with_dynamic_id::<Value, LazyUpdate<Task>>(under);
    match world.try_fetch_mut_by_id::<LazyUpdate<Task>>(id) {
        Some(queue) => match queue.exec(task) {
            Ok(()) => Ok(()),
            Err(_) => Err(Error::Memory),
        },
        None => Err(Error::NotRegistered),
    }
}

/// Makes an entity. Errors: those of `EntitiesRes::create`; `NotRegistered`, where the world has no entities.
fn make_entity(world: &mut World<Value>) -> Result<(), Error> {
    match world.get_mut::<EntitiesRes>() {
        Some(entities) => match entities.create() {
            Ok(_) => Ok(()),
            Err(error) => Err(error),
        },
        None => Err(Error::NotRegistered),
    }
}
