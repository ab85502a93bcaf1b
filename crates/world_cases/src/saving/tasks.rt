//! The tasks of the tests, which wait in queues of a world.
ghost use Rattle.std.specs.Prelude.{◌≡◌};
ghost use Rattle.world_cases.specs.declared.saving.tasks.Task.TheVariants.{MarkPlain, MarkRandom};

use crate::saving::values::{Plain, Random, Value};
use shred_world::World;
use specs::saveload::Mark;
use specs_entity::Error;
use specs_world::Job;

/// What waits in the queues of the tests.
#[derive(Drop)]
pub enum Task {
    /// Marks an entity with a whole number.
    MarkPlain(Mark<Plain>),
    /// Marks an entity with a random UUID.
    MarkRandom(Mark<Random>),
}

impl From<Mark<Plain>> for Task {
    ghost from_gives = { λ job task. task ≡ MarkPlain job };

    fn from(job: Mark<Plain>) -> Task {
        Task::MarkPlain(job)
    }
}

impl From<Mark<Random>> for Task {
    ghost from_gives = { λ job task. task ≡ MarkRandom job };

    fn from(job: Mark<Random>) -> Task {
        Task::MarkRandom(job)
    }
}

impl Job<Value> for Task {
    ghost runs = { elim [
      | MarkPlain job ↦ ⟦<Mark<Plain> as Job<Value>>⟧.runs job
      | MarkRandom job ↦ ⟦<Mark<Random> as Job<Value>>⟧.runs job
    ] };

    fn run(self, world: &mut World<Value>) -> Result<(), Error> {
        match self {
            Task::MarkPlain(job) => job.run(world),
            Task::MarkRandom(job) => job.run(world),
        }
    }
}
