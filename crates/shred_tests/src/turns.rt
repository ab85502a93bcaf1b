//! What three systems with relations leave, and one of them, with any number of workers.
use crate::apart::systems_under_two_numbers_commute;
use crate::chores::Chore;
use crate::ones::{one, turn_one};
use crate::threes::{move_alone, three, turn, turn_here, turn_in_either_order};
use crate::values::{Kinds, Value, kinds_in, put_kinds};
use shred::{Stop, World};
use std::alloc::{AllocError, Global};
use std::sync::Wait;
use std::thread::Threads;

/// A world of a number, a speed and a score.
fn world_of_three(alloc: Global) -> Result<World<Value>, AllocError> {
    let mut world = World::empty(alloc);
    put_kinds(&mut world, (Some(5), Some(3), Some(1)))?;
    Ok(world)
}

/// What a dispatch of the three systems leaves, what one on threads alone, and what one on the caller's thread.
fn left_by_three<R: AllocGlobal + Threads + Wait + Sync>(
    rt: &R,
    workers: usize,
) -> Result<(Kinds, Kinds, Kinds), AllocError> {
    let mut world = world_of_three(rt.alloc())?;
    let mut other = world_of_three(rt.alloc())?;
    let mut third = world_of_three(rt.alloc())?;
    let (Ok(mut first), Ok(mut second), Ok(mut here)) = (
        three(rt.alloc(), workers),
        three(rt.alloc(), workers),
        three(rt.alloc(), workers),
    ) else {
        return Err(AllocError);
    };
    let (Ok(()), Ok(()), Ok(())) = (
        turn(rt, &mut first, &mut world),
        turn_in_either_order(rt, &mut second, &mut other),
        turn_here(rt, &mut here, &mut third),
    ) else {
        return Err(AllocError);
    };
    Ok((kinds_in(&world), kinds_in(&other), kinds_in(&third)))
}

#[test]
fn three_systems_leave_the_same_with_any_number_of_workers(rt: HostRuntime) {
    let left = (Some(8), Some(11), Some(2));
    for workers in [0, 1, 2, 8] {
        assert_eq!(rt;
            left_by_three(&rt, workers),
            Ok((left, left, left)),
            "{workers} workers"
        );
    }
}

/// What a dispatch of one system leaves.
fn left_by_one<R: AllocGlobal + Threads + Wait + Sync>(
    rt: &R,
    workers: usize,
) -> Result<Kinds, AllocError> {
    let mut world = world_of_three(rt.alloc())?;
    let Ok(mut dispatcher) = one(rt.alloc(), workers) else {
        return Err(AllocError);
    };
    match turn_one(rt, &mut dispatcher, &mut world) {
        Ok(()) => Ok(kinds_in(&world)),
        Err(_) => Err(AllocError),
    }
}

#[test]
fn one_system_leaves_the_same_with_any_number_of_workers(rt: HostRuntime) {
    systems_under_two_numbers_commute::<Value, Chore>();
    for workers in [0, 2] {
        let left = left_by_one(&rt, workers);
        assert_eq!(rt; left, Ok((Some(8), Some(3), Some(1))), "{workers} workers");
    }
}

/// How a system alone ends over a world of a number and, it may be, a speed, and what it leaves.
fn left_alone<H: AllocGlobal>(
    rt: &H,
    speed: Option<u64>,
) -> Result<(Result<(), Stop>, Kinds), AllocError> {
    let mut world = World::empty(rt.alloc());
    put_kinds(&mut world, (Some(5), speed, None))?;
    let outcome = move_alone(rt, &mut world)?;
    Ok((outcome, kinds_in(&world)))
}

#[test]
fn a_system_runs_alone(rt: HostRuntime) {
    let moved = left_alone(&rt, Some(3));
    assert_eq!(rt; moved, Ok((Ok(()), (Some(8), Some(3), None))));
    let stopped = left_alone(&rt, None);
    assert_eq!(rt; stopped, Ok((Err(Stop::Full), (Some(5), None, None))));
}
