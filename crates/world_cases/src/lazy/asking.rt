//! Systems that ask while they are dispatched, each in a queue under its own number: what they ask for is done when the
//! world is maintained.
ghost use Rattle.std.specs.Prelude.{◌≡◌, [], ◌∷◌};
ghost use Rattle.specs.specs.Asking.{queue_id};
ghost use Rattle.world_cases.specs.AskerMeets.{AskerMeets, AskerSetsUp};

use crate::lazy::tasks::{Health, Task};
use crate::lazy::values::Value;
use shred::{
    AddError, Batch, BatchAccessor, Dispatcher, DispatcherBuilder, Holder, NoBatch, NoLocal,
    RunningTime, Stop, System, Work, World,
};
use specs::asking::{add_queue_under, add_queues_for, ask, own_queue};
use specs_entity::{Entity, Error};
use specs_layouts::MaskedStorage;
use specs_world::{Held, Insert, LazyUpdate, LazyWorld, WorldExt};
use std::alloc::{AllocError, AllocGlobal, Global};
use std::sync::Wait;
use std::thread::Threads;

/// A system that asks for the health of an entity, under a number that no other system has.
#[derive(Clone, Copy, Debug, PartialEq, Eq)]
pub struct Asker {
    /// Its own number, from 1 on.
    pub number: u64,
    /// The entity.
    pub entity: Entity,
    /// The health that it is to have.
    pub health: Health,
}

impl System<Value> for Asker {
    ghost meets = { AskerMeets ⟦<LazyUpdate<Task> as Held<Value>>⟧.stands_at };

    ghost read_list = { λ _. [] };

    ghost write_list = { λ asker. queue_id ⟦<LazyUpdate<Task> as Held<Value>>⟧.stands_at asker.number ∷ [] };

    ghost said_time = { λ _. 3 };

    ghost sets_up = { AskerSetsUp ⟦<LazyUpdate<Task> as Held<Value>>⟧.stands_at };

    ghost disposes = { λ _ _ before after. after ≡ before };

    fn run<H: AllocGlobal, W: Holder<Value>>(&mut self, _rt: &H, view: &mut W) -> Result<(), Stop> {
        let job = Task::PutHealth(Insert {
            entity: self.entity,
            part: self.health,
        });
        match ask::<Value, Task, W>(view, self.number, job) {
            Ok(()) => Ok(()),
            Err(_) => Err(Stop::Full),
        }
    }

    fn running_time(&self) -> RunningTime {
        RunningTime::Average
    }

    fn accessor(&self, alloc: Global) -> Result<BatchAccessor, AllocError> {
        let mut writes = Vec::new(alloc);
        writes.push(own_queue::<Value, Task>(self.number).id)?;
        Ok(BatchAccessor::new(Vec::new(alloc), writes))
    }

    fn setup(&mut self, world: &mut World<Value>) -> Result<(), AllocError> {
        add_queue_under::<Value, Task>(world, self.number)
    }

    fn dispose(self, _world: &mut World<Value>) -> Result<(), Stop> {
        Ok(())
    }
}

/// Why a run didn't come to its end.
#[derive(Clone, Copy, Debug, PartialEq, Eq)]
pub enum Failure {
    /// A call of the world was refused.
    World,
    /// A dispatch, or the making of a dispatcher.
    Dispatch,
}

impl From<Error> for Failure {
    fn from(_error: Error) -> Failure {
        Failure::World
    }
}

/// A dispatcher of two systems.
fn dispatcher_of(
    alloc: Global,
    one: Asker,
    other: Asker,
) -> Result<Dispatcher<Value, Work<Asker, Batch<Value, Asker, NoBatch>>, NoLocal>, AddError> {
    let mut builder: DispatcherBuilder<Value, Asker, NoBatch, NoLocal> = DispatcherBuilder::new(
        alloc,
    );
    builder.add_pool(2);
    let (Ok(_), Ok(_)) = (builder.add(one, "", &[]), builder.add(other, "", &[])) else {
        return Err(AddError::Memory);
    };
    Ok(builder.build())
}

/// The health at an entity's index.
fn health_of(world: &World<Value>, entity: Entity) -> Option<Health> {
    let healths = world.try_fetch::<MaskedStorage<Health>>()?;
    if healths.contains(entity.id()) {
        Some(*healths.get(entity.id()))
    } else {
        None
    }
}

/// Whether two systems that are dispatched at once ask for a health each, which both entities have once the world is
/// maintained, and not before.
pub fn are_given<R: AllocGlobal + Threads + Wait + Sync>(rt: &R) -> Result<bool, Failure> {
    let mut world: World<Value> = LazyWorld::<Value, Task>::with_queues(rt.alloc())?;
    world.register::<Health>()?;
    if add_queues_for::<Value, Task>(&mut world, 2).is_err() {
        return Err(Failure::World);
    }
    let one = world.allocate()?;
    let other = world.allocate()?;
    let asker = Asker {
        number: 1,
        entity: one,
        health: Health(5),
    };
    let second = Asker {
        number: 2,
        entity: other,
        health: Health(8),
    };
    let Ok(mut both) = dispatcher_of(rt.alloc(), asker, second) else {
        return Err(Failure::Dispatch);
    };
    if both.dispatch(rt, &mut world).is_err() {
        return Err(Failure::Dispatch);
    }
    let before = health_of(&world, one).is_none() && health_of(&world, other).is_none();
    let _ = LazyWorld::<Value, Task>::maintain(&mut world, rt, 8)?;
    Ok(
        before
            && health_of(&world, one) == Some(Health(5))
            && health_of(&world, other) == Some(Health(8)),
    )
}
