//! A queue of jobs that is shared.
ghost use Rattle.std.specs.Prelude.{◌≡◌, IfErr};
ghost use Rattle.specs_world.specs.Queues.{IsMadeOf};

use crate::job::{Insert, InsertAll, Remove};
use crossbeam_queue::SegQueue;
use specs_entity::Entity;
use specs_layouts::Component;
use std::alloc::{AllocError, Global};
use std::sync::Wait;

/// A queue of jobs that many may add to at once. No contract tells which jobs are in it.
#[derive(Drop)]
pub struct SharedLazy<J: Drop> {
    jobs: SegQueue<J>,
}

impl<J: Drop> SharedLazy<J> {
    /// A queue without jobs.
    ///
    /// Errors: want of memory.
    pub fn new(alloc: Global) -> Result<SharedLazy<J>, AllocError> {
        let jobs = SegQueue::new(alloc)?;
        Ok(SharedLazy { jobs })
    }

    /// Queues a job.
    ///
    /// Errors: want of memory, which hands `job` back.
    pub fn exec<R: Wait>(&self, rt: &R, job: J) -> Result<(), J>
        ensures handed_back { IfErr result (λ refused. refused ≡ job) }
    {
        self.jobs.push(rt, job)
    }
    /// Queues the job that puts `part` at `entity`, in the place of the one that it has then.
    ///
    /// Errors: those of `exec`.
    pub fn insert<C: Component, R: Wait>(&self, rt: &R, entity: Entity, part: C) -> Result<(), J>
    where
        J: From<Insert<C>>,
        ensures handed_back { IfErr result (J.from_gives (record { entity = entity; part = part })) }
    {
        self.exec(rt, J::from(Insert { entity, part }))
    }

    /// Queues the job that puts parts at entities, pair after pair.
    ///
    /// Errors: those of `exec`.
    pub fn insert_all<C: Component, R: Wait>(
        &self,
        rt: &R,
        pairs: Vec<(Entity, C)>,
    ) -> Result<(), J>
    where
        J: From<InsertAll<C>>,
        ensures handed_back { IfErr result (J.from_gives (record { pairs = pairs })) }
    {
        self.exec(rt, J::from(InsertAll { pairs }))
    }

    /// Queues the job that drops the part of `entity`.
    ///
    /// Errors: those of `exec`.
    pub fn remove<C: Component, R: Wait>(&self, rt: &R, entity: Entity) -> Result<(), J>
    where
        J: From<Remove<C>>,
        ensures handed_back { IfErr result (IsMadeOf J.from_gives (λ removal. removal.entity ≡ entity)) }
    {
        self.exec(rt, J::from(Remove::new(entity)))
    }

    /// Whether no job waits, as it was at some moment of the call.
    pub fn is_empty(&self) -> bool {
        self.jobs.is_empty()
    }

    /// Takes the oldest job out, if there is one.
    pub(crate) fn take_first<R: Wait>(&self, rt: &R) -> Option<J> {
        self.jobs.pop(rt)
    }
}
