//! Queues that a world holds: which of their jobs is next.
ghost use Rattle.std.specs.Prelude.{◌≡◌, ◌≢◌, ◌<◌, ◌^◌, [], Some, IfNone, IfSome, IsSome, IsTrue, ◌↔◌, false};
ghost use Rattle.std.specs.Result.{result_err};
ghost use Rattle.specs_world.specs.Resources.{held};
ghost use Rattle.specs_world.specs.Queues.{waiting, NoneWaits, NoneBelow, TakesUnder, TakesFirst, TakesNext, RunsNext};
ghost use Rattle.specs_world.specs.Queues.{MayBeLeft};

use crate::Held;
use crate::job::Job;
use crate::lazy::LazyUpdate;
use crate::shared::SharedLazy;
use shred_world::{Resource, ResourceId, World};
use specs_entity::Error;
use std::sync::Wait;

/// Whether a job waits under a dynamic number.
fn has_job<V, J>(world: &World<V>, number: u64) -> bool
where
    LazyUpdate<J>: Resource<V>,
    ensures { IsTrue result ↔ (waiting ⟦<LazyUpdate<J> as Held<V>>⟧.stands_at world.now number ≢ []) }
{
    let id = ResourceId::new_with_dynamic_id::<V, LazyUpdate<J>>(number);
    match world.try_fetch_by_id::<LazyUpdate<J>>(id) {
        Some(queue) => !queue.is_empty(),
        None => false,
    }
}

/// The least dynamic number under which a job waits, where none waits under one below `from`.
pub(crate) fn first_number<V, J>(world: &World<V>, from: u64) -> Option<u64>
where
    LazyUpdate<J>: Resource<V>,
    requires none_below { NoneBelow ⟦<LazyUpdate<J> as Held<V>>⟧.stands_at world.now from }
    ensures waits { IfSome result (λ number. waiting ⟦<LazyUpdate<J> as Held<V>>⟧.stands_at world.now number ≢ []) }
    ensures least { IfSome result (NoneBelow ⟦<LazyUpdate<J> as Held<V>>⟧.stands_at world.now) }
    ensures none { IfNone result (NoneWaits ⟦<LazyUpdate<J> as Held<V>>⟧.stands_at world.now) }
{
    let kind = <LazyUpdate<J> as Resource<V>>::kind();
    let mut next = from;
    while let Some(number) = world.least_id(kind, next) {
        if has_job::<V, J>(world, number) {
            return Some(number);
        }
        if number == u64::MAX {
            return None;
        }
        next = number + 1;
    }
    None
}

/// Takes the oldest job out of the queue under a dynamic number, where one waits.
fn take_under<V, J>(world: &mut World<V>, number: u64) -> Option<J>
where
    LazyUpdate<J>: Resource<V>,
    ensures taken { IfSome result (λ job. TakesUnder ⟦<LazyUpdate<J> as Held<V>>⟧.stands_at
        number job world.old world.new) }
    ensures none { IfNone result (waiting ⟦<LazyUpdate<J> as Held<V>>⟧.stands_at world.old number ≡ []) }
    ensures same { IfNone result (world.new ≡ world.old) }
{
    let id = ResourceId::new_with_dynamic_id::<V, LazyUpdate<J>>(number);
    match world.try_fetch_mut_by_id::<LazyUpdate<J>>(id) {
        Some(queue) => queue.take_first(),
        None => None,
    }
}

/// Takes the oldest job out of the queue with the least dynamic number that has one. The number 0 is looked at first.
pub(crate) fn take_first<V, J>(world: &mut World<V>) -> Option<J>
where
    LazyUpdate<J>: Resource<V>,
    ensures some { IfSome result (λ job. TakesFirst ⟦<LazyUpdate<J> as Held<V>>⟧.stands_at job world.old world.new) }
    ensures waits { IfNone result (NoneWaits ⟦<LazyUpdate<J> as Held<V>>⟧.stands_at world.old) }
    ensures none { IfNone result (world.new ≡ world.old) }
{
    if let Some(job) = take_under::<V, J>(world, 0) {
        return Some(job);
    }
    let number = first_number::<V, J>(world, 1)?;
    match take_under::<V, J>(world, number) {
        Some(job) => Some(job),
        None => unreachable!(),
    }
}

/// Takes the job out that is to be run next: the shared queue's last.
fn take_next<V, J: Drop, R: Wait>(world: &mut World<V>, rt: &R) -> Option<J>
where
    LazyUpdate<J>: Resource<V>,
    SharedLazy<J>: Resource<V>,
    ensures some { IfSome result (λ job. TakesNext ⟦<LazyUpdate<J> as Held<V>>⟧.stands_at
        ⟦<SharedLazy<J> as Held<V>>⟧.stands_at job world.old world.new) }
    ensures waits { IfNone result (NoneWaits ⟦<LazyUpdate<J> as Held<V>>⟧.stands_at world.old) }
    ensures none { IfNone result (world.new ≡ world.old) }
{
    if let Some(job) = take_first::<V, J>(world) {
        return Some(job);
    }
    world.try_fetch::<SharedLazy<J>>()?.take_first(rt)
}

/// Runs the job that is next, and answers what it came to; none, where there is no job.
pub(crate) fn run_next<V, J: Job<V>, R: Wait>(
    world: &mut World<V>,
    rt: &R,
) -> Option<Result<(), Error>>
where
    LazyUpdate<J>: Resource<V>,
    SharedLazy<J>: Resource<V>,
    ensures some { IfSome result (λ outcome. RunsNext J.runs ⟦<LazyUpdate<J> as Held<V>>⟧.stands_at
        ⟦<SharedLazy<J> as Held<V>>⟧.stands_at (result_err outcome) world.old world.new) }
    ensures waits { IfNone result (NoneWaits ⟦<LazyUpdate<J> as Held<V>>⟧.stands_at world.old) }
    ensures none { IfNone result (world.new ≡ world.old) }
{
    let job = take_next::<V, J, R>(world, rt)?;
    Some(job.run(world))
}

/// Whether a job may be left: one under a number, or one in a shared queue.
pub(crate) fn may_be_left<V, J: Drop>(world: &World<V>) -> bool
where
    LazyUpdate<J>: Resource<V>,
    SharedLazy<J>: Resource<V>,
    ensures left { IsTrue result → MayBeLeft ⟦<LazyUpdate<J> as Held<V>>⟧.stands_at
        ⟦<SharedLazy<J> as Held<V>>⟧.stands_at world.now }
    ensures waits { result ≡ false → NoneWaits ⟦<LazyUpdate<J> as Held<V>>⟧.stands_at world.now }
{
    if first_number::<V, J>(world, 0).is_some() {
        return true;
    }
    match world.try_fetch::<SharedLazy<J>>() {
        Some(shared) => !shared.is_empty(),
        None => false,
    }
}
