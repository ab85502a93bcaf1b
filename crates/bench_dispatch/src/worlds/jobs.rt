//! Parts that are put by jobs, and at once.
use crate::worlds::each;
use hibitset::BitSetLike;
use shred::World;
use specs_entity::{EntitiesRes, Error};
use specs_layouts::{Component, MaskedStorage, TryDefault};
use specs_world::{LazyUpdate, LazyWorld, WorldExt};
use std::alloc::{AllocError, Global};
use std::io;
use std::sync::Wait;
use std::time::{Clock, Instant};
use world_cases::lazy::tasks::{Health, Task};
use world_cases::lazy::values::Value;

/// Makes so many entities, with a job for each that puts its health.
fn queue(world: &mut World<Value>, count: u32) -> Result<(), Error> {
    let entities = world.create_iter(count as usize)?;
    let Some(queue) = world.get_mut::<LazyUpdate<Task>>() else {
        return Err(Error::NotRegistered);
    };
    for (entity, health) in entities.zip(0u32..) {
        if queue.insert(entity, Health(health)).is_err() {
            return Err(Error::Memory);
        }
    }
    Ok(())
}

/// A world of so many entities, with a job for each that puts its health.
fn queued_in(alloc: Global, count: u32) -> Result<World<Value>, Error> {
    let mut world: World<Value> = LazyWorld::<Value, Task>::with_queues(alloc)?;
    world.register::<Health>()?;
    queue(&mut world, count)?;
    Ok(world)
}

/// A world of so many entities, with a job for each that puts its health.
///
/// Errors: `AllocError`, for each refusal, as of the others.
pub fn queued(alloc: Global, count: u32) -> Result<World<Value>, AllocError> {
    match queued_in(alloc, count) {
        Ok(world) => Ok(world),
        Err(_) => Err(AllocError),
    }
}

/// Runs the jobs, so many at most.
fn maintain<R: Wait>(rt: &R, world: &mut World<Value>, limit: u64) -> Result<(), AllocError> {
    match world.maintain(rt, limit) {
        Ok(_) => Ok(()),
        Err(_) => Err(AllocError),
    }
}

/// The sum of the healths that so many jobs put, which goes round at 2 ^ 64.
pub fn queued_sum<R: Wait>(rt: &R, alloc: Global, count: u32) -> Result<u64, AllocError> {
    let mut world = queued(alloc, count)?;
    maintain(rt, &mut world, count as u64)?;
    match world.try_fetch::<MaskedStorage<Health>>() {
        Some(healths) => Ok(sum_of(healths)),
        None => Ok(0),
    }
}

/// The sum of healths, which goes round at 2 ^ 64.
fn sum_of(healths: &MaskedStorage<Health>) -> u64 {
    let mut sum = 0u64;
    for id in healths.mask().iter() {
        if healths.contains(id) {
            sum = sum.wrapping_add(healths.get(id).0 as u64);
        }
    }
    sum
}

/// A storage of healths without one.
fn empty(alloc: Global) -> Result<MaskedStorage<Health>, AllocError> {
    match <Health as Component>::Storage::try_default(alloc) {
        Ok(inner) => Ok(MaskedStorage::<Health>::new(alloc, inner)),
        Err(_) => Err(AllocError),
    }
}

/// Makes an entity with its health.
fn make(
    births: &mut EntitiesRes,
    healths: &mut MaskedStorage<Health>,
    health: u32,
) -> Result<(), AllocError> {
    let Ok(entity) = births.allocate() else {
        return Err(AllocError);
    };
    if healths.insert(entity.id(), Health(health)).is_err() {
        return Err(AllocError);
    }
    Ok(())
}

/// The healths of so many entities, put without a world.
fn put(alloc: Global, count: u32) -> Result<MaskedStorage<Health>, AllocError> {
    let mut births = EntitiesRes::new(alloc);
    let mut healths = empty(alloc)?;
    for health in 0..count {
        make(&mut births, &mut healths, health)?;
    }
    Ok(healths)
}

/// The sum of the healths of so many entities, put without a world.
///
/// Errors: `AllocError`.
pub fn put_sum(alloc: Global, count: u32) -> Result<u64, AllocError> {
    let healths = put(alloc, count)?;
    Ok(sum_of(&healths))
}

/// The nanoseconds of each of so many jobs.
///
/// Errors: those of the clock, and `AllocError`.
pub fn time_queued<R: Clock + Wait>(
    rt: &R,
    world: &mut World<Value>,
    count: u32,
) -> io::Result<u128> {
    let start = Instant::now(rt)?;
    maintain(rt, world, count as u64)?;
    each(rt, start, count)
}

/// The sum of the healths of so many entities, put without a world, and the nanoseconds of one.
///
/// Errors: those of the clock, and `AllocError`.
pub fn time_put<R: Clock>(rt: &R, alloc: Global, count: u32) -> io::Result<(u64, u128)> {
    let start = Instant::now(rt)?;
    let healths = put(alloc, count)?;
    let putting = each(rt, start, count)?;
    Ok((sum_of(&healths), putting))
}
