//! Queues of jobs that wait until their world is maintained.
ghost use Rattle.std.specs.Prelude.{◌≡◌, [], ◌∷◌, ◌++◌, IsTrue, ◌↔◌, MatchOption, OnOk, OnErr, IfErr, IfOk};
ghost use Rattle.specs_world.specs.Queues.{Adds, IsMadeOf};

use crate::job::{Insert, InsertAll, Remove};
use specs_entity::Entity;
use specs_layouts::{Component, TryDefault};
use std::alloc::{AllocError, AllocFailed, Global};
use std::collections::VecDeque;
use std::marker::Model;

/// The jobs that wait under one dynamic number of a world, oldest first.
///
/// A system writes the one under its own number. The jobs run when the world is maintained.
#[derive(Drop)]
pub struct LazyUpdate<J> {
    jobs: VecDeque<J, Global>,
}

impl<J> Model for LazyUpdate<J> {
    ghost use Rattle.std.specs.Prelude.{List};

    ghost Value = { List J };

    ghost view = { λ lazy. lazy.jobs.items };
}

/// The default is a queue without jobs.
impl<J> TryDefault for LazyUpdate<J> {
    ghost use Rattle.std.specs.Prelude.{◌≡◌, [], true};

    ghost is_default = { λ lazy. lazy ≡ [] };

    ghost always = { true };

    fn try_default(alloc: Global) -> Result<Self, &'static str> {
        Ok(LazyUpdate::new(alloc))
    }
}

impl<J> LazyUpdate<J> {
    /// A queue without jobs. Takes no memory.
    pub fn new(alloc: Global) -> LazyUpdate<J>
        ensures { result ≡ [] }
    {
        LazyUpdate {
            jobs: VecDeque::new(alloc),
        }
    }

    /// Whether no job waits.
    pub fn is_empty(&self) -> bool
        ensures { IsTrue result ↔ (self.now ≡ []) }
    {
        self.jobs.is_empty()
    }

    /// Queues a job, behind those that wait.
    ///
    /// Errors: want of memory, which hands `job` back and leaves the queue as it was.
    pub fn exec(&mut self, job: J) -> Result<(), AllocFailed<J>>
        ensures ok { OnOk result (self.new ≡ self.old ++ job ∷ []) }
        ensures err { OnErr result (self.new ≡ self.old) }
        ensures handed_back { IfErr result (λ refused. refused.value ≡ job) }
    {
        self.jobs.push_back(job)
    }

    /// Queues a job, as `exec` does: each job may change the world.
    ///
    /// Errors: those of `exec`.
    pub fn exec_mut(&mut self, job: J) -> Result<(), AllocFailed<J>>
        ensures ok { OnOk result (self.new ≡ self.old ++ job ∷ []) }
        ensures err { OnErr result (self.new ≡ self.old) }
        ensures handed_back { IfErr result (λ refused. refused.value ≡ job) }
    {
        self.exec(job)
    }

    /// Queues the job that puts `part` at `entity`, in the place of the one that it has then.
    ///
    /// Errors: want of memory, which hands `part` back and leaves the queue as it was.
    pub fn insert<C: Component>(&mut self, entity: Entity, part: C) -> Result<(), AllocFailed<C>>
    where
        J: From<Insert<C>>,
        ensures ok { OnOk result (Adds (J.from_gives (record { entity = entity; part = part })) self.old self.new) }
        ensures err { OnErr result (self.new ≡ self.old) }
        ensures handed_back { IfErr result (λ refused. refused.value ≡ part) }
    {
        if self.jobs.reserve(1).is_err() {
            return Err(AllocFailed { value: part });
        }
        self.jobs
            .push_back_reserved(J::from(Insert { entity, part }));
        Ok(())
    }

    /// Queues the job that puts parts at entities, pair after pair.
    ///
    /// Errors: want of memory, which hands `pairs` back and leaves the queue as it was.
    pub fn insert_all<C: Component>(
        &mut self,
        pairs: Vec<(Entity, C)>,
    ) -> Result<(), AllocFailed<Vec<(Entity, C)>>>
    where
        J: From<InsertAll<C>>,
        ensures ok { OnOk result (Adds (J.from_gives (record { pairs = pairs })) self.old self.new) }
        ensures err { OnErr result (self.new ≡ self.old) }
        ensures handed_back { IfErr result (λ refused. refused.value ≡ pairs) }
    {
        if self.jobs.reserve(1).is_err() {
            return Err(AllocFailed { value: pairs });
        }
        self.jobs.push_back_reserved(J::from(InsertAll { pairs }));
        Ok(())
    }

    /// Queues the job that drops the part of `entity`.
    ///
    /// Errors: want of memory, which leaves the queue as it was.
    pub fn remove<C: Component>(&mut self, entity: Entity) -> Result<(), AllocError>
    where
        J: From<Remove<C>>,
        ensures ok { OnOk result (Adds (IsMadeOf J.from_gives (λ removal. removal.entity ≡ entity)) self.old self.new) }
        ensures err { OnErr result (self.new ≡ self.old) }
    {
        self.jobs.reserve(1)?;
        self.jobs.push_back_reserved(J::from(Remove::new(entity)));
        Ok(())
    }

    /// Takes the oldest job out.
    pub(crate) fn take_first(&mut self) -> Option<J>
        ensures { MatchOption result ((self.old ≡ []) × (self.new ≡ [])) (λ job. self.old ≡ job ∷ self.new) }
    {
        self.jobs.pop_front()
    }
}
