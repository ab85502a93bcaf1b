//! What dispatches and plans give.
use crate::dispatches::draws;
use crate::dispatches::load::{Value, mixed};
use crate::dispatches::stages::{
    LAYERS, LOADS, PLANNED, Stages, WAITING, WORKERS, chain_of, checksum_of, stages_of, waiting_of,
    world_of,
};
use shred::World;
use std::alloc::{AllocError, Global};
use std::io;
use std::sync::Wait;
use std::thread::Threads;

/// The checksum of a text.
fn checksum_of_text(text: &str) -> u64 {
    let mut checksum = 0;
    for byte in text.as_bytes() {
        checksum = mixed(checksum, u64::from(*byte));
    }
    checksum
}

/// How many of three dispatches were accepted, how many groups a stage has at most, and the checksum of what they leave.
#[derive(Clone, Copy)]
struct Outcome {
    accepted: u32,
    groups: usize,
    checksum: u64,
}

/// How many of three dispatches on the caller's thread are accepted.
fn dispatch_thrice<R: AllocGlobal>(rt: &R, stages: &mut Stages, world: &mut World<Value>) -> u32 {
    let mut accepted = 0u32;
    for _ in 0..3 {
        if stages.execute_seq(rt, world).is_ok() {
            accepted = accepted.saturating_add(1);
        }
    }
    accepted
}

/// How many of three dispatches with so many workers are accepted.
fn dispatch_thrice_by<R: AllocGlobal + Threads + Wait + Sync>(
    rt: &R,
    workers: usize,
    stages: &mut Stages,
    world: &mut World<Value>,
) -> u32 {
    let mut accepted = 0u32;
    for _ in 0..3 {
        if stages.execute(rt, workers, world).is_ok() {
            accepted = accepted.saturating_add(1);
        }
    }
    accepted
}

/// What dispatches of so many systems leave, each of which writes one of so many ids.
fn outcome_of<R: AllocGlobal>(rt: &R, systems: u32, ids: u32) -> Result<Outcome, AllocError> {
    let mut stages = stages_of(rt.alloc(), systems, ids, 1)?;
    let mut world = world_of(rt.alloc(), ids)?;
    let accepted = dispatch_thrice(rt, &mut stages, &mut world);
    Ok(Outcome {
        accepted,
        groups: stages.max_threads(),
        checksum: checksum_of(&world, ids),
    })
}

/// What dispatches of stages with so many workers leave under so many ids.
fn outcome_by<R: AllocGlobal + Threads + Wait + Sync>(
    rt: &R,
    stages: &mut Stages,
    ids: u32,
    workers: usize,
) -> Result<Outcome, AllocError> {
    let mut world = world_of(rt.alloc(), ids)?;
    let accepted = dispatch_thrice_by(rt, workers, stages, &mut world);
    Ok(Outcome {
        accepted,
        groups: stages.max_threads(),
        checksum: checksum_of(&world, ids),
    })
}

/// Prints what dispatches leave, of so many systems, each of which writes one of so many ids.
fn print_dispatches<R: Print + AllocGlobal>(rt: &R) -> io::Result<()> {
    for (systems, ids) in LOADS {
        let outcome = outcome_of(rt, systems, ids)?;
        print_dispatch(rt, systems, ids, outcome)?;
    }
    Ok(())
}

/// The line of a dispatch.
fn print_dispatch<R: Print>(rt: &R, systems: u32, ids: u32, outcome: Outcome) -> io::Result<()> {
    let Outcome {
        accepted,
        groups,
        checksum,
    } = outcome;
    println!(rt;
        "dispatch of {systems} systems over {ids} ids: {accepted} of 3, {groups} groups at most, sum {checksum}"
    )
}

/// How many groups a stage of a plan has at most, and the checksum of the plan's text.
fn plan_of(alloc: Global, stages: &Stages) -> Result<(usize, u64), AllocError> {
    let text = stages.write_par_seq(alloc)?;
    Ok((stages.max_threads(), checksum_of_text(text.as_str())))
}

/// The plan of the systems over 64 ids.
fn plan_over_ids(alloc: Global) -> Result<(usize, u64), AllocError> {
    let stages = stages_of(alloc, PLANNED, 64, 1)?;
    plan_of(alloc, &stages)
}

/// Prints the plan of the systems over 64 ids.
fn print_plan<R: Print + AllocGlobal>(rt: &R) -> io::Result<()> {
    let (groups, checksum) = plan_over_ids(rt.alloc())?;
    println!(rt; "plan of {PLANNED} systems over 64 ids: {groups} groups at most, text {checksum}")
}

/// The plan of a list whose systems come after others.
fn plan_waiting(alloc: Global, back: u32, count: u32) -> Result<(usize, u64), AllocError> {
    let stages = waiting_of(alloc, back, count)?;
    plan_of(alloc, &stages)
}

/// Prints the plans of the lists whose systems come after others.
fn print_waiting<R: Print + AllocGlobal>(rt: &R) -> io::Result<()> {
    for (back, count, name) in WAITING.iter() {
        let (groups, checksum) = plan_waiting(rt.alloc(), *back, *count)?;
        println!(rt;
            "plan of {PLANNED} systems, {name}: {groups} groups at most, text {checksum}"
        )?;
    }
    Ok(())
}

/// What dispatches of a stage of so many groups leave, with so many workers.
fn stage_outcome<R: AllocGlobal + Threads + Wait + Sync>(
    rt: &R,
    groups: u32,
    workers: usize,
    rounds: u32,
) -> Result<Outcome, AllocError> {
    let mut stages = stages_of(rt.alloc(), groups, groups, rounds)?;
    outcome_by(rt, &mut stages, groups, workers)
}

/// Prints what dispatches of a stage of so many groups leave, with so many workers.
fn print_stage<R: Print + AllocGlobal + Threads + Wait + Sync>(
    rt: &R,
    groups: u32,
    workers: usize,
    rounds: u32,
) -> io::Result<()> {
    let Outcome {
        accepted,
        checksum,
        ..
    } = stage_outcome(rt, groups, workers, rounds)?;
    println!(rt;
        "stage of {groups} groups of {rounds} rounds, {workers} workers: {accepted} of 3, sum {checksum}"
    )
}

/// Prints what dispatches of a stage leave, for each number of groups and of workers, and of little work and of more.
fn print_stages<R: Print + AllocGlobal + Threads + Wait + Sync>(
    rt: &R,
    groups: u32,
) -> io::Result<()> {
    for workers in WORKERS {
        print_stage(rt, groups, workers, 1)?;
        print_stage(rt, groups, workers, 1000)?;
    }
    Ok(())
}

/// What dispatches of a chain of stages leave, with so many workers.
fn chain_outcome<R: AllocGlobal + Threads + Wait + Sync>(
    rt: &R,
    groups: u32,
    workers: usize,
) -> Result<Outcome, AllocError> {
    let mut stages = chain_of(rt.alloc(), LAYERS, groups, 1)?;
    outcome_by(rt, &mut stages, groups, workers)
}

/// Prints what dispatches of a chain of stages leave, with so many workers.
fn print_chain<R: Print + AllocGlobal + Threads + Wait + Sync>(
    rt: &R,
    groups: u32,
    workers: usize,
) -> io::Result<()> {
    let Outcome {
        accepted,
        checksum,
        ..
    } = chain_outcome(rt, groups, workers)?;
    println!(rt;
        "chain of {LAYERS} stages of {groups} groups, {workers} workers: {accepted} of 3, sum {checksum}"
    )
}

/// Prints what dispatches of chains of stages leave, for each number of workers.
fn print_chains<R: Print + AllocGlobal + Threads + Wait + Sync>(
    rt: &R,
    groups: u32,
) -> io::Result<()> {
    for workers in WORKERS {
        print_chain(rt, groups, workers)?;
    }
    Ok(())
}

/// Prints what dispatches leave that threads share.
fn print_shared<R: Print + AllocGlobal + Threads + Wait + Sync>(rt: &R) -> io::Result<()> {
    for groups in [2, 4, 8] {
        print_stages(rt, groups)?;
    }
    for groups in [2, 4] {
        print_chains(rt, groups)?;
    }
    Ok(())
}

/// The checksums.
///
/// Errors: those of printing, and want of memory.
pub fn checksums<R: Print + AllocGlobal + Threads + Wait + Sync>(rt: &R) -> io::Result<()> {
    print_dispatches(rt)?;
    print_plan(rt)?;
    draws::print_plan(rt)?;
    print_waiting(rt)?;
    print_shared(rt)
}
