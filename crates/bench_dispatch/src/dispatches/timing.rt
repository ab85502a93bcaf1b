//! The times of dispatches and of plans.
use crate::dispatches::load::Value;
use crate::dispatches::stages::{
    LAYERS, LOADS, PLANNED, Stages, WAITING, WORKERS, chain_of, stages_of, waiting_of, world_of,
};
use crate::dispatches::{draws, standing};
use shred::World;
use std::io;
use std::sync::Wait;
use std::thread::Threads;
use std::time::{Clock, Instant};

/// How many dispatches of a stage are timed.
const DISPATCHES: u32 = 100;

/// How many rounds a system of small work has.
const SMALL: u32 = 1;

/// How many rounds a system of middling work has.
const MIDDLE: u32 = 10_000;

/// How many rounds a system of large work has.
const LARGE: u32 = 1_000_000;

/// The chains of stages that are timed: how many stages, of how many groups each, and how many rounds a system has.
const CHAINS: [(u32, u32, u32); 12] = [
    (1, 2, SMALL),
    (1, 2, LARGE),
    (1, 4, SMALL),
    (1, 4, LARGE),
    (1, 8, SMALL),
    (1, 8, LARGE),
    (LAYERS, 2, SMALL),
    (LAYERS, 2, MIDDLE),
    (LAYERS, 2, LARGE / 10),
    (LAYERS, 4, SMALL),
    (LAYERS, 4, MIDDLE),
    (LAYERS, 4, LARGE / 10),
];

/// How many nanoseconds a dispatch on the caller's thread takes, of so many.
fn time_dispatches<R: AllocGlobal + Clock>(
    rt: &R,
    stages: &mut Stages,
    world: &mut World<Value>,
    rounds: u32,
) -> io::Result<u128> {
    let start = Instant::now(rt)?;
    for _ in 0..rounds {
        let _ = stages.execute_seq(rt, world);
    }
    Ok(start.elapsed(rt)?.as_nanos() / u128::from(rounds.max(1)))
}

/// How many nanoseconds a dispatch of so many systems takes, each of which writes one of so many ids.
fn time_of_dispatch<R: AllocGlobal + Clock>(rt: &R, systems: u32, ids: u32) -> io::Result<u128> {
    let mut stages = stages_of(rt.alloc(), systems, ids, 1)?;
    let mut world = world_of(rt.alloc(), ids)?;
    time_dispatches(rt, &mut stages, &mut world, 100_000 / systems.max(1))
}

/// Prints the time of a dispatch of so many systems, each of which writes one of so many ids.
fn print_dispatch_times<R: Print + AllocGlobal + Clock>(rt: &R) -> io::Result<()> {
    for (systems, ids) in LOADS {
        let taken = time_of_dispatch(rt, systems, ids)?;
        println!(rt; "dispatch of {systems} systems over {ids} ids: {taken} ns")?;
    }
    Ok(())
}

/// How many nanoseconds a dispatch with so many workers takes.
fn time_dispatches_by<R: AllocGlobal + Threads + Wait + Sync + Clock>(
    rt: &R,
    workers: usize,
    stages: &mut Stages,
    world: &mut World<Value>,
) -> io::Result<u128> {
    let start = Instant::now(rt)?;
    for _ in 0..DISPATCHES {
        let _ = stages.execute(rt, workers, world);
    }
    Ok(start.elapsed(rt)?.as_nanos() / u128::from(DISPATCHES))
}

/// How many nanoseconds a dispatch of a chain of stages takes, of so many groups each, with so many workers.
fn time_of_chain<R: AllocGlobal + Threads + Wait + Sync + Clock>(
    rt: &R,
    (layers, groups, rounds): (u32, u32, u32),
    workers: usize,
) -> io::Result<u128> {
    let mut stages = chain_of(rt.alloc(), layers, groups, rounds)?;
    let mut world = world_of(rt.alloc(), groups)?;
    time_dispatches_by(rt, workers, &mut stages, &mut world)
}

/// Prints the times of a dispatch of a chain of stages with each number of workers, in hundredths of that on the caller's thread.
fn print_chain_times<R: Print + AllocGlobal + Threads + Wait + Sync + Clock>(
    rt: &R,
    chain: (u32, u32, u32),
) -> io::Result<()> {
    let alone = time_of_chain(rt, chain, 0)?;
    for workers in WORKERS {
        let taken = time_of_chain(rt, chain, workers)?;
        print_chain_time(
            rt,
            chain,
            workers,
            taken,
            taken.saturating_mul(100) / alone.max(1),
        )?;
    }
    Ok(())
}

/// The line of a dispatch of a chain of stages.
fn print_chain_time<R: Print>(
    rt: &R,
    (layers, groups, rounds): (u32, u32, u32),
    workers: usize,
    taken: u128,
    ratio: u128,
) -> io::Result<()> {
    println!(rt;
        "{layers} stages of {groups} groups of {rounds} rounds, {workers} workers: {taken} ns, {ratio} % of the caller's thread"
    )
}

/// How many microseconds the plan of the systems over so many ids takes, and how many groups a stage has at most.
fn time_of_plan<R: AllocGlobal + Clock>(rt: &R, ids: u32) -> io::Result<(u128, usize)> {
    let start = Instant::now(rt)?;
    let stages = stages_of(rt.alloc(), PLANNED, ids, 1)?;
    let taken = start.elapsed(rt)?.as_micros();
    Ok((taken, stages.max_threads()))
}

/// Prints how long plans over so many ids take.
fn print_plan_times<R: Print + AllocGlobal + Clock>(rt: &R) -> io::Result<()> {
    for ids in [1, 64, 4096] {
        let (taken, groups) = time_of_plan(rt, ids)?;
        println!(rt;
            "plan of {PLANNED} systems over {ids} ids: {taken} us, {groups} groups at most"
        )?;
    }
    Ok(())
}

/// How many microseconds the plan of a list takes whose systems come after others, and how many groups a stage has at most.
fn time_of_waiting<R: AllocGlobal + Clock>(
    rt: &R,
    back: u32,
    count: u32,
) -> io::Result<(u128, usize)> {
    let start = Instant::now(rt)?;
    let stages = waiting_of(rt.alloc(), back, count)?;
    let taken = start.elapsed(rt)?.as_micros();
    Ok((taken, stages.max_threads()))
}

/// Prints how long the plans of the lists take whose systems come after others.
fn print_waiting_times<R: Print + AllocGlobal + Clock>(rt: &R) -> io::Result<()> {
    for (back, count, name) in WAITING.iter() {
        let (taken, groups) = time_of_waiting(rt, *back, *count)?;
        println!(rt; "plan of {PLANNED} systems, {name}: {taken} us, {groups} groups at most")?;
    }
    Ok(())
}

/// The times.
///
/// Errors: those of printing and of the clock, and want of memory.
pub fn times<R: Print + AllocGlobal + Threads + Wait + Sync + Clock>(rt: &R) -> io::Result<()> {
    for chain in CHAINS {
        print_chain_times(rt, chain)?;
    }
    print_dispatch_times(rt)?;
    print_plan_times(rt)?;
    standing::times(rt)?;
    print_waiting_times(rt)?;
    draws::print_time(rt)
}
