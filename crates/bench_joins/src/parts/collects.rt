//! Joins of two storages that several threads collect.
use crate::parts::joins::{Joined, Pair, make_pair};
use crate::parts::kinds::{Mass, Numbered, Speed};
use crate::timed::each;
use specs_join::ParJoin;
use std::alloc::{AllocError, Global};
use std::io;
use std::thread::Threads;
use std::time::{Clock, Instant};

/// The numbers of workers that are measured.
const WORKERS: [usize; 3] = [1, 2, 4];

/// What both storages have, collected by so many workers.
///
/// Errors: `AllocError`.
fn collect<R: Threads + Sync>(
    rt: &R,
    alloc: Global,
    pair: &Pair,
    workers: usize,
) -> Result<Vec<u64>, AllocError> {
    (&pair.masses, &pair.speeds).par_join().collect(
        rt,
        alloc,
        workers,
        |(mass, speed): (&Mass, &Speed)| u64::from(mass.number()) + u64::from(speed.number()),
    )
}

/// The count and the sum of a list.
fn joined(list: &[u64]) -> Joined {
    let mut joined = Joined { count: 0, sum: 0 };
    for number in list {
        joined.add(*number);
    }
    joined
}

/// The count and the sum of what so many workers collect.
fn collected<R: Threads + Sync>(
    rt: &R,
    alloc: Global,
    pair: &Pair,
    workers: usize,
) -> Result<Joined, AllocError> {
    let list = collect(rt, alloc, pair, workers)?;
    Ok(joined(list.as_slice()))
}

/// The line of checksums of one pair and so many workers.
fn check<R: Threads + Sync + Print>(
    rt: &R,
    alloc: Global,
    pair: &Pair,
    step: u32,
    workers: usize,
) -> io::Result<()> {
    let Joined { count, sum } = collected(rt, alloc, pair, workers)?;
    println!(rt;
        "collect of two, workers {workers}, every {step} of 1000: {count} items, sum {sum}"
    )
}

/// Lines of checksums, with all, a tenth and a hundredth of 1000 entities in both storages, for each
/// number of workers.
///
/// Errors: those of printing, and want of memory.
pub fn checksums<R: Threads + Sync + Print>(rt: &R, alloc: Global) -> io::Result<()> {
    for step in [1u32, 10, 100] {
        let pair = make_pair(alloc, 1000, step)?;
        check_pair(rt, alloc, &pair, step)?;
    }
    Ok(())
}

/// The lines of checksums of one pair, for each number of workers.
fn check_pair<R: Threads + Sync + Print>(
    rt: &R,
    alloc: Global,
    pair: &Pair,
    step: u32,
) -> io::Result<()> {
    for workers in WORKERS {
        check(rt, alloc, pair, step, workers)?;
    }
    Ok(())
}

/// What was timed.
#[derive(Clone, Copy)]
struct Timed {
    /// How many items came.
    items: u64,
    /// The nanoseconds of one.
    nanos: u128,
}

/// Collects what a pair has, by so many workers.
///
/// Errors: those of the clock, and want of memory.
fn time<R: Threads + Sync + Clock>(
    rt: &R,
    alloc: Global,
    pair: &Pair,
    workers: usize,
) -> io::Result<Timed> {
    let start = Instant::now(rt)?;
    let items = collected(rt, alloc, pair, workers)?.count;
    let nanos = each(rt, start, items)?;
    Ok(Timed { items, nanos })
}

/// The lines of times of so many entities, of which a share is in both storages.
fn time_pair<R: Threads + Sync + Clock + Print>(
    rt: &R,
    alloc: Global,
    end: u32,
    step: u32,
) -> io::Result<()> {
    let pair = make_pair(alloc, end, step)?;
    time_workers(rt, alloc, &pair, end, step)
}

/// The lines of times of one pair, for each number of workers.
fn time_workers<R: Threads + Sync + Clock + Print>(
    rt: &R,
    alloc: Global,
    pair: &Pair,
    end: u32,
    step: u32,
) -> io::Result<()> {
    for workers in WORKERS {
        let timed = time(rt, alloc, pair, workers)?;
        print_time(rt, workers, end, step, timed)?;
    }
    Ok(())
}

/// The line of times of one pair and so many workers.
fn print_time<R: Print>(
    rt: &R,
    workers: usize,
    end: u32,
    step: u32,
    timed: Timed,
) -> io::Result<()> {
    let Timed { items, nanos } = timed;
    println!(rt;
        "collect of two, workers {workers}, every {step} of {end}: {items} items, {nanos} ns each"
    )
}

/// Lines of times at 1,000 to 1,000,000 entities with all, a tenth and a hundredth of them in both
/// storages, for each number of workers.
///
/// Errors: those of printing and of the clock, and want of memory.
pub fn times<R: Threads + Sync + Clock + Print>(rt: &R, alloc: Global) -> io::Result<()> {
    for end in [1000u32, 10_000, 100_000, 1_000_000] {
        for step in [1u32, 10, 100] {
            time_pair(rt, alloc, end, step)?;
        }
    }
    Ok(())
}
