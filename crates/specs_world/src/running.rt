//! Jobs that are run, at most so many.
ghost use Rattle.std.specs.Prelude.{◌≤◌, IfOk};
ghost use Rattle.specs_world.specs.Queues.{JobsRun, none_ran};

use crate::Held;
use crate::counting::count;
use crate::job::Job;
use crate::lazy::LazyUpdate;
use crate::maintained::Maintained;
use crate::queues::{may_be_left, run_next};
use crate::shared::SharedLazy;
use shred_world::{Resource, World};
use specs_entity::Error;
use std::sync::Wait;

/// Runs the jobs that wait, and those that they queue, until none is left.
///
/// Errors: `Limit`, where `limit` have run and one is left, which stays queued as all behind it; `Memory`, where a job found none.
pub(crate) fn run_jobs<V, J: Job<V>, R: Wait>(
    world: &mut World<V>,
    rt: &R,
    limit: u64,
) -> Result<Maintained, Error>
where
    LazyUpdate<J>: Resource<V>,
    SharedLazy<J>: Resource<V>,
    ensures runs { JobsRun J.runs ⟦<LazyUpdate<J> as Held<V>>⟧.stands_at ⟦<SharedLazy<J> as Held<V>>⟧.stands_at
        limit none_ran world.old result world.new }
    ensures within { IfOk result (λ counts. (counts.jobs ≤ limit) × (counts.failed ≤ counts.jobs)) }
{
    let mut counts = Maintained { jobs: 0, failed: 0 };
    for _ran in 0..limit {
        let Some(outcome) = run_next::<V, J, R>(world, rt) else {
            return Ok(counts);
        };
        match count(counts, outcome) {
            Ok(more) => counts = more,
            Err(error) => return Err(error),
        }
    }
    if may_be_left::<V, J>(world) {
        return Err(Error::Limit);
    }
    Ok(counts)
}
