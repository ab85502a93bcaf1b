//! Entities that are created and deleted.
use crate::timed::each;
use specs_entity::{EntitiesRes, Entity};
use std::alloc::{AllocError, Global};
use std::io;
use std::time::{Clock, Instant};

/// A sum over the indices and generations of entities in their order, which goes round at 2 ^ 64.
fn sum_of(entities: &[Entity]) -> u64 {
    let mut sum = 0u64;
    for entity in entities {
        let generation = u64::from(entity.generation().id().unsigned_abs());
        sum = sum
            .wrapping_mul(31)
            .wrapping_add(entity.id() as u64)
            .wrapping_add(generation);
    }
    sum
}

/// Creates so many entities.
///
/// Errors: `AllocError`, for each refusal.
fn create(alloc: Global, world: &mut EntitiesRes, count: usize) -> Result<Vec<Entity>, AllocError> {
    let Ok(born) = world.create_iter(count) else {
        return Err(AllocError);
    };
    let mut made = Vec::new(alloc);
    for entity in born {
        made.push(entity)?;
    }
    Ok(made)
}

/// Deletes the entities, one by one, and answers how many were alive.
fn delete(world: &mut EntitiesRes, entities: &[Entity]) -> u32 {
    let mut deleted = 0u32;
    for entity in entities {
        if world.delete(*entity).is_ok() {
            deleted = deleted.wrapping_add(1);
        }
    }
    deleted
}

/// The sum over a thousand entities that are created, deleted and merged, with how many of them were.
///
/// Errors: `AllocError`, for each refusal.
fn round(alloc: Global, world: &mut EntitiesRes) -> Result<(u64, u32, usize), AllocError> {
    let made = create(alloc, world, 1000)?;
    let deleted = delete(world, &made);
    let sum = sum_of(&made);
    Ok((sum, deleted, merged(world)?))
}

/// How many entities a merge ends.
fn merged(world: &mut EntitiesRes) -> Result<usize, AllocError> {
    let buried = world.merge()?;
    Ok(buried.len())
}

/// What two such rounds give, the second at the indices of the first.
///
/// Errors: `AllocError`, for each refusal.
fn rounds(alloc: Global) -> Result<((u64, u32, usize), u64), AllocError> {
    let mut world = EntitiesRes::new(alloc);
    let first = round(alloc, &mut world)?;
    let (again, _, _) = round(alloc, &mut world)?;
    Ok((first, again))
}

/// The line of checksums: entities born, deleted, buried, and born again at their indices.
///
/// Errors: those of printing, and want of memory.
pub fn checksums<R: Print>(rt: &R, alloc: Global) -> io::Result<()> {
    let ((born, deleted, buried), again) = rounds(alloc)?;
    println!(rt;
        "entities: sum {born}, {deleted} deleted, {buried} buried, born again: sum {again}"
    )
}

/// How many entities are timed.
const TIMED: usize = 1_000_000;

/// Creates the timed entities, and answers them with the nanoseconds of one.
fn time_births<R: Clock>(
    rt: &R,
    alloc: Global,
    world: &mut EntitiesRes,
) -> io::Result<(Vec<Entity>, u128)> {
    let start = Instant::now(rt)?;
    let made = create(alloc, world, TIMED)?;
    Ok((made, each(rt, start, TIMED as u64)?))
}

/// Deletes entities and merges, and answers how many were buried, with the nanoseconds of one.
fn time_deaths<R: Clock>(
    rt: &R,
    world: &mut EntitiesRes,
    entities: &[Entity],
) -> io::Result<(usize, u128)> {
    let start = Instant::now(rt)?;
    let _ = delete(world, entities);
    let buried = merged(world)?;
    Ok((buried, each(rt, start, TIMED as u64)?))
}

/// The nanoseconds of a birth and of a death, and how many died.
#[derive(Clone, Copy)]
struct Figures {
    created: u128,
    buried: usize,
    ended: u128,
}

/// Creates the timed entities and ends them.
fn time_round<R: Clock>(rt: &R, alloc: Global, world: &mut EntitiesRes) -> io::Result<Figures> {
    let (made, created) = time_births(rt, alloc, world)?;
    let (buried, ended) = time_deaths(rt, world, &made)?;
    Ok(Figures {
        created,
        buried,
        ended,
    })
}

/// The figures of two rounds, the second at the indices of the first.
fn time_rounds<R: Clock>(rt: &R, alloc: Global) -> io::Result<(Figures, Figures)> {
    let mut world = EntitiesRes::new(alloc);
    let first = time_round(rt, alloc, &mut world)?;
    let again = time_round(rt, alloc, &mut world)?;
    Ok((first, again))
}

/// The lines of times: of a million entities, created, deleted and created again.
///
/// Errors: those of printing and of the clock, and want of memory.
pub fn times<R: Clock + Print>(rt: &R, alloc: Global) -> io::Result<()> {
    let (first, again) = time_rounds(rt, alloc)?;
    println!(rt; "entities created: {} ns each", first.created)?;
    println!(rt;
        "{} entities deleted and merged: {} ns each",
        first.buried, first.ended
    )?;
    println!(rt; "entities created again: {} ns each", again.created)
}
