//! Walks in several threads: what they gather, and that two of them run at the same time.
ghost use Rattle.std.specs.Prelude.{◌<◌, ◌≤◌};

use hibitset::flat::map_indices;
use hibitset::parallel::ParBitSetLike;
use hibitset_sets::{BitSet, Index};
use std::alloc::{AllocError, Global};
use std::sync::atomic::{AtomicU64, Ordering};
use std::test::Fail;
use std::thread::Threads;

/// The layers that may be split and the numbers of workers that are tried.
const CUTS: [u8; 3] = [1, 2, 3];

const WORKERS: [usize; 4] = [0, 1, 2, 8];

/// The first `members` multiples of `step`, from 0 on.
pub(crate) fn multiples(
    alloc: Global,
    members: Index,
    step: Index,
) -> Result<Vec<Index>, AllocError> {
    let mut list = Vec::new(alloc);
    for k in 0..members {
        list.push(k.wrapping_mul(step))?;
    }
    Ok(list)
}

/// Whether the walk of a set, gathered by the workers, is the list, and its length is counted.
fn gathers<R: Threads + Sync>(
    rt: &R,
    alloc: Global,
    set: &BitSet,
    list: &[Index],
    layers: u8,
    workers: usize,
) -> Result<bool, AllocError>
    requires some { 0 < layers }
    requires limit { layers ≤ 3 }
{
    let walk = set.par_iter().layers_split(layers);
    let all = walk.collect(rt, alloc, workers)?;
    Ok(all.as_slice() == list && walk.count(rt, alloc, workers)? == list.len())
}

/// The last item that the workers' folds come to, and the sum of all.
fn folded<R: Threads + Sync>(
    rt: &R,
    alloc: Global,
    set: &BitSet,
    layers: u8,
    workers: usize,
) -> Result<(Index, u64), AllocError>
    requires some { 0 < layers }
    requires limit { layers ≤ 3 }
{
    let walk = set.par_iter().layers_split(layers);
    let last = walk.fold(
        rt,
        alloc,
        workers,
        || 0u32,
        |_last, i| i,
        |_one, other| other,
    )?;
    let sum = walk.fold(
        rt,
        alloc,
        workers,
        || 0u64,
        |sum: u64, i: Index| sum.wrapping_add(i as u64),
        |one: u64, other: u64| one.wrapping_add(other),
    )?;
    Ok((last, sum))
}

/// The first number of workers and of layers at which a set of 100,000 multiples is gathered or
/// folded to something else than the list, its last item and its sum.
fn first_wrong<R: Threads + Sync>(
    rt: &R,
    alloc: Global,
    step: Index,
    last: Index,
    sum: u64,
) -> Result<Option<(u8, usize)>, AllocError> {
    let list = multiples(alloc, 100_000, step)?;
    let set = crate::walked::set_of(alloc, list.as_slice())?;
    for layers in [1u8, 2, 3] {
        for workers in [0usize, 1, 2, 8] {
            if !gathers(rt, alloc, &set, list.as_slice(), layers, workers)?
                || folded(rt, alloc, &set, layers, workers)? != (last, sum)
            {
                return Ok(Some((layers, workers)));
            }
        }
    }
    Ok(None)
}

#[test]
fn workers_gather_the_walk(rt: HostRuntime) -> Result<(), Fail> {
    assert_eq!(rt;
        first_wrong(&rt, rt.alloc(), 1, 99_999, 4_999_950_000)?,
        None
    );
    assert_eq!(rt;
        first_wrong(&rt, rt.alloc(), 167, 16_699_833, 834_991_650_000)?,
        None
    );
    Ok(())
}

/// Whether the squares of 5,000 indices, worked out by threads, are those of a plain map.
fn squares_agree<R: Threads + Sync>(rt: &R, alloc: Global) -> Result<bool, AllocError> {
    let list = multiples(alloc, 5_000, 167)?;
    let squares = map_indices(
        rt,
        alloc,
        list.as_slice(),
        |i| (i as u64).wrapping_mul(i as u64),
    )?;
    let mut plain = Vec::new(alloc);
    for i in list.as_slice() {
        plain.push((*i as u64).wrapping_mul(*i as u64))?;
    }
    Ok(squares.len() == 5_000 && squares.as_slice() == plain.as_slice())
}

#[test]
fn indices_are_mapped_in_order(rt: HostRuntime) -> Result<(), Fail> {
    assert!(rt; squares_agree(&rt, rt.alloc())?);
    Ok(())
}

/// Sets the flag of one's own and looks for the other's, at most that many times.
fn meet(own: &AtomicU64, other: &AtomicU64, met: &AtomicU64, most: u32) {
    own.store(1, Ordering::SeqCst);
    for _ in 0..most {
        if other.load(Ordering::SeqCst) == 1 {
            met.fetch_add(1, Ordering::SeqCst);
            return;
        }
    }
}

/// How many of the calls for 0 and 64 see the other's flag.
fn calls_that_meet<R: Threads + Sync>(
    rt: &R,
    alloc: Global,
    workers: usize,
    most: u32,
) -> Result<u64, AllocError> {
    let set = crate::walked::set_of(alloc, &[0, 64])?;
    let low = AtomicU64::new(0);
    let high = AtomicU64::new(0);
    let met = AtomicU64::new(0);
    set.par_iter().for_each(rt, alloc, workers, |i: Index| {
        if i == 0 {
            meet(&low, &high, &met, most)
        } else {
            meet(&high, &low, &met, most)
        }
    })?;
    Ok(met.load(Ordering::SeqCst))
}

#[test]
fn gate_walk(rt: HostRuntime) -> Result<(), Fail> {
    assert_eq!(rt; calls_that_meet(&rt, rt.alloc(), 2, 1_000_000_000)?, 2);
    Ok(())
}

#[test]
fn one_thread_does_not_pass_the_gate(rt: HostRuntime) -> Result<(), Fail> {
    assert_eq!(rt; calls_that_meet(&rt, rt.alloc(), 0, 1_000)?, 1);
    assert_eq!(rt; calls_that_meet(&rt, rt.alloc(), 1, 1_000)?, 1);
    Ok(())
}
