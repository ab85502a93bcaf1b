//! Measures of the parallel driver.
use crate::sets::shape::every;
use hibitset::{BitSet, BitSetLike, Index, ParBitSetLike};
use std::alloc::{AllocError, Global};
use std::io;
use std::thread::Threads;
use std::time::{Clock, Instant};

/// The sum of the members, by a fold, which goes round at 2 ^ 64.
fn sum_of<R: Threads + Sync>(
    rt: &R,
    alloc: Global,
    set: &BitSet,
    workers: usize,
) -> Result<u64, AllocError> {
    set.par_iter().fold(
        rt,
        alloc,
        workers,
        || 0u64,
        |sum: u64, i: Index| sum.wrapping_add(i as u64),
        |one: u64, other: u64| one.wrapping_add(other),
    )
}

/// The sum of the list that is collected, which goes round at 2 ^ 64.
fn sum_of_list<R: Threads + Sync>(
    rt: &R,
    alloc: Global,
    set: &BitSet,
    workers: usize,
) -> Result<u64, AllocError> {
    let list = set.par_iter().collect(rt, alloc, workers)?;
    let mut sum = list.len() as u64;
    for i in list.as_slice() {
        sum = sum.wrapping_mul(31).wrapping_add(*i as u64);
    }
    Ok(sum)
}

/// The numbers of workers.
const WORKERS: [usize; 3] = [1, 2, 4];

/// One line of checksums for each number of workers.
///
/// Errors: those of printing, and want of memory.
pub fn checksums<R: Threads + Sync + Print>(rt: &R, alloc: Global) -> io::Result<()> {
    for step in [1u32, 997] {
        let set = every(alloc, 100_000, step)?;
        check_set(rt, alloc, step, &set)?;
    }
    Ok(())
}

/// The lines of checksums of one set.
fn check_set<R: Threads + Sync + Print>(
    rt: &R,
    alloc: Global,
    step: u32,
    set: &BitSet,
) -> io::Result<()> {
    for workers in WORKERS {
        check(rt, alloc, step, set, workers)?;
    }
    Ok(())
}

/// The line of checksums of one set by so many workers.
fn check<R: Threads + Sync + Print>(
    rt: &R,
    alloc: Global,
    step: u32,
    set: &BitSet,
    workers: usize,
) -> io::Result<()> {
    let count = set.par_iter().count(rt, alloc, workers)?;
    let sum = sum_of(rt, alloc, set, workers)?;
    let list = sum_of_list(rt, alloc, set, workers)?;
    println!(rt;
        "every {step} of 100000, workers {workers}: count {count}, fold {sum}, collect {list}"
    )
}

/// Which call is timed.
#[derive(Clone, Copy)]
enum Call {
    Fold,
    Collect,
}

impl Call {
    /// The word for it in the printed lines.
    fn name(self) -> &'static str {
        match self {
            Call::Fold => "fold",
            Call::Collect => "collect",
        }
    }
}

/// Collects the members, and lets the list go.
fn collect<R: Threads + Sync>(
    rt: &R,
    alloc: Global,
    set: &BitSet,
    workers: usize,
) -> Result<(), AllocError> {
    let _ = set.par_iter().collect(rt, alloc, workers)?;
    Ok(())
}

/// Makes a call.
fn make<R: Threads + Sync>(
    rt: &R,
    alloc: Global,
    set: &BitSet,
    workers: usize,
    call: Call,
) -> Result<(), AllocError> {
    match call {
        Call::Fold => {
            let _ = sum_of(rt, alloc, set, workers)?;
            Ok(())
        }
        Call::Collect => collect(rt, alloc, set, workers),
    }
}

/// The nanoseconds of a call, by that many workers.
fn nanos<R: Threads + Sync + Clock>(
    rt: &R,
    alloc: Global,
    set: &BitSet,
    workers: usize,
    call: Call,
) -> io::Result<u128> {
    let start = Instant::now(rt)?;
    make(rt, alloc, set, workers, call)?;
    Ok(start.elapsed(rt)?.as_nanos())
}

/// One line for each kind of set, call and number of workers.
///
/// Errors: those of printing and of the clock, and want of memory.
pub fn times<R: Threads + Sync + Clock + Print>(rt: &R, alloc: Global) -> io::Result<()> {
    for step in [1u32, 997] {
        let set = every(alloc, 10_000_000, step)?;
        time_set(rt, alloc, step, &set)?;
    }
    Ok(())
}

/// The lines of one set.
fn time_set<R: Threads + Sync + Clock + Print>(
    rt: &R,
    alloc: Global,
    step: u32,
    set: &BitSet,
) -> io::Result<()> {
    let members = set.par_iter().count(rt, alloc, 1)? as u128;
    time_call(rt, alloc, (step, set, members), Call::Fold)?;
    time_call(rt, alloc, (step, set, members), Call::Collect)
}

/// The lines of one set of so many members and one call.
fn time_call<R: Threads + Sync + Clock + Print>(
    rt: &R,
    alloc: Global,
    (step, set, members): (u32, &BitSet, u128),
    call: Call,
) -> io::Result<()> {
    let alone = nanos(rt, alloc, set, 1, call)?;
    for workers in WORKERS {
        let taken = nanos(rt, alloc, set, workers, call)?;
        let percent = share(alone.wrapping_mul(100), taken);
        print_time(
            rt,
            call.name(),
            step,
            workers,
            share(taken, members),
            percent,
        )?;
    }
    Ok(())
}

/// A part of a whole, 0 of nothing.
fn share(part: u128, whole: u128) -> u128 {
    if whole != 0 { part / whole } else { 0 }
}

/// The line of one set, call and number of workers.
fn print_time<R: Print>(
    rt: &R,
    name: &str,
    step: u32,
    workers: usize,
    each: u128,
    percent: u128,
) -> io::Result<()> {
    println!(rt;
        "{name} of every {step} of 10000000, workers {workers}: {each} ns a member, {percent} percent of the speed of one"
    )
}
