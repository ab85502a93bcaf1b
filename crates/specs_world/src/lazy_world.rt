//! Worlds of entities in which jobs wait.
ghost use Rattle.std.specs.Prelude.{◌≡◌, ◌≤◌, IfOk, IfErr};
ghost use Rattle.specs_entity.specs.declared.errors.Error.TheVariants as refusal;
ghost use Rattle.specs_world.specs.Maintaining.{Maintains, HasQueues, without_entities};

use crate::adding::add_queues;
use crate::job::Job;
use crate::lazy::LazyUpdate;
use crate::maintained::Maintained;
use crate::running::run_jobs;
use crate::shared::SharedLazy;
use crate::{Held, WorldExt};
use shred_world::{MetaTable, Resource, World};
use specs_entity::{EntitiesRes, Error};
use specs_layouts::AnyStorage;
use std::alloc::Global;
use std::sync::Wait;

/// The calls of a world of entities that has queues of jobs: one under each dynamic number, and a shared one.
pub trait LazyWorld<V: AnyStorage + Drop, J: Job<V>>: WorldExt<V>
where
    EntitiesRes: Resource<V>,
    MetaTable: Resource<V>,
    LazyUpdate<J>: Resource<V>,
    SharedLazy<J>: Resource<V>,
{
    /// A world as `WorldExt::new` makes it, that also holds the queue of the number 0, without jobs, and a shared queue.
    ///
    /// Errors: `Memory`.
    fn with_queues(alloc: Global) -> Result<Self, Error>
        ensures ok { IfOk result (λ world. HasQueues ⟦<LazyUpdate<J> as Held<V>>⟧.stands_at
            ⟦<SharedLazy<J> as Held<V>>⟧.stands_at
            (without_entities Self.entities_at Self.table_at) (Self.slots world)) }
        ensures memory { IfErr result (λ error. error ≡ refusal.Memory) };

    /// Makes fresh births persistent, lets the entities die whose deletion was accepted, as `merge` does, and then runs the jobs that
    /// wait: each time the oldest one under the least dynamic number that has one, and one of the shared queue only where none waits
    /// under a number. A job may queue others, in any queue, for the same call. One that is refused for another cause than memory
    /// has failed, and the next one runs.
    ///
    /// Errors: those of `merge`, and no job ran; `Limit`, where `limit` jobs have run and one is left, which stays queued as do all
    /// behind it; `Memory`, where a job found none: that job is gone, and the others stay queued.
    fn maintain<R: Wait>(&mut self, rt: &R, limit: u64) -> Result<Maintained, Error>
        ensures maintains { Maintains Self.entities_at Self.table_at V.drops J.runs
            ⟦<LazyUpdate<J> as Held<V>>⟧.stands_at ⟦<SharedLazy<J> as Held<V>>⟧.stands_at
            limit (Self.slots self.old) result (Self.slots self.new) }
        ensures within { IfOk result (λ counts. (counts.jobs ≤ limit) × (counts.failed ≤ counts.jobs)) };
}

impl<V: AnyStorage + Drop, J: Job<V>> LazyWorld<V, J> for World<V>
where
    EntitiesRes: Resource<V>,
    MetaTable: Resource<V>,
    LazyUpdate<J>: Resource<V>,
    SharedLazy<J>: Resource<V>,
{
    fn with_queues(alloc: Global) -> Result<World<V>, Error> {
        let mut world: World<V> = WorldExt::new(alloc)?;
        match add_queues::<V, J>(&mut world) {
            Ok(()) => Ok(world),
            Err(_) => Err(Error::Memory),
        }
    }

    fn maintain<R: Wait>(&mut self, rt: &R, limit: u64) -> Result<Maintained, Error> {
        match self.merge() {
            Ok(_) => run_jobs::<V, J, R>(self, rt, limit),
            Err(error) => Err(error),
        }
    }
}
