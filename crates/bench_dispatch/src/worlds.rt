//! Worlds of entities, each way beside the same over bare entities and storages.
//!
//! The small runs are of 1000 entities and print sums. The timed ones are of 1,000,000 of them and 100,000 jobs, and print the time of
//! one.
mod bare;
mod built;
mod jobs;

use bare::Bare;
use built::Built;
use jobs::{put_sum, queued, queued_sum, time_put, time_queued};
use shred::World;
use std::alloc::{AllocError, Global};
use std::io;
use std::sync::Wait;
use std::time::{Clock, Instant};
use world_cases::lazy::values::Value;

/// How many entities are timed.
const ENTITIES: u32 = 1_000_000;

/// How many jobs are timed.
const JOBS: u32 = 100_000;

/// Entities with two parts each, in a world or without one.
pub trait Way: Drop {
    /// So many entities, each further by 1 than the one before.
    ///
    /// Errors: `AllocError`, for each refusal, as of the others.
    fn made(alloc: Global, count: u32) -> Result<Self, AllocError>;

    /// A frame of movement.
    fn move_all(&mut self) -> Result<(), AllocError>;

    /// Deletes every second entity, with its parts.
    fn delete_half(&mut self, alloc: Global) -> Result<(), AllocError>;

    /// The sum of the positions, which goes round at 2 ^ 64.
    fn sum(&self) -> u64;
}

/// The nanoseconds of one of so many, which began at `start`.
fn each<R: Clock>(rt: &R, start: Instant, count: u32) -> io::Result<u128> {
    let nanos = start.elapsed(rt)?.as_nanos();
    Ok(if count != 0 { nanos / count as u128 } else { 0 })
}

/// The sums of 1000 entities that have moved, and of those that are left of them.
fn sums<T: Way>(alloc: Global) -> Result<(u64, u64), AllocError> {
    let mut way = T::made(alloc, 1000)?;
    way.move_all()?;
    let moved = way.sum();
    way.delete_half(alloc)?;
    Ok((moved, way.sum()))
}

/// The line of sums of a way.
fn check<T: Way, R: Print>(rt: &R, alloc: Global, name: &str) -> io::Result<()> {
    let (moved, left) = sums::<T>(alloc)?;
    println!(rt; "{name}: moved {moved}, left {left}")
}

/// The line of sums of jobs, and of the same parts put at once.
fn check_jobs<R: Print + Wait>(rt: &R, alloc: Global) -> io::Result<()> {
    let ran = queued_sum(rt, alloc, 1000)?;
    let bare = put_sum(alloc, 1000)?;
    println!(rt; "jobs: {ran}, bare {bare}")
}

/// The nanoseconds of an entity that moves.
fn time_moves<T: Way, R: Clock>(rt: &R, way: &mut T) -> io::Result<u128> {
    let start = Instant::now(rt)?;
    way.move_all()?;
    each(rt, start, ENTITIES)
}

/// The nanoseconds of an entity that is deleted.
fn time_deletions<T: Way, R: Clock>(rt: &R, alloc: Global, way: &mut T) -> io::Result<u128> {
    let start = Instant::now(rt)?;
    way.delete_half(alloc)?;
    each(rt, start, ENTITIES / 2)
}

/// The nanoseconds of an entity that is made, that moves and that is deleted.
fn nanos<T: Way, R: Clock>(rt: &R, alloc: Global) -> io::Result<(u128, u128, u128)> {
    let start = Instant::now(rt)?;
    let mut way = T::made(alloc, ENTITIES)?;
    let making = each(rt, start, ENTITIES)?;
    let moving = time_moves(rt, &mut way)?;
    let deleting = time_deletions(rt, alloc, &mut way)?;
    Ok((making, moving, deleting))
}

/// The line of times of a way.
fn time<T: Way, R: Clock + Print>(rt: &R, alloc: Global, name: &str) -> io::Result<()> {
    let (making, moving, deleting) = nanos::<T, R>(rt, alloc)?;
    println!(rt; "{name}: built {making} ns, moved {moving} ns, deleted {deleting} ns each")
}

/// The line of times of jobs, and of the same parts put at once.
fn time_jobs<R: Clock + Print + Wait>(rt: &R, alloc: Global) -> io::Result<()> {
    let mut world = queued(alloc, JOBS)?;
    time_both(rt, alloc, &mut world)
}

/// The line of times of the jobs of a world, and of the same parts put at once.
fn time_both<R: Clock + Print + Wait>(
    rt: &R,
    alloc: Global,
    world: &mut World<Value>,
) -> io::Result<()> {
    let running = time_queued(rt, world, JOBS)?;
    let (sum, putting) = time_put(rt, alloc, JOBS)?;
    println!(rt;
        "jobs: run {running} ns each, entities made with their parts {putting} ns each (sum {sum})"
    )
}

/// The lines of sums.
///
/// Errors: those of printing, and want of memory.
pub fn checksums<R: Print + Wait>(rt: &R, alloc: Global) -> io::Result<()> {
    check::<Built, R>(rt, alloc, "world")?;
    check::<Bare, R>(rt, alloc, "bare")?;
    check_jobs(rt, alloc)
}

/// The lines of times.
///
/// Errors: those of printing and of the clock, and want of memory.
pub fn times<R: Clock + Print + Wait>(rt: &R, alloc: Global) -> io::Result<()> {
    time::<Built, R>(rt, alloc, "world")?;
    time::<Bare, R>(rt, alloc, "bare")?;
    time_jobs(rt, alloc)
}
