//! Walks whose parts wait for one another, and calls that are counted.
use crate::threads::multiples;
use crate::walked::set_of;
use hibitset::parallel::ParBitSetLike;
use hibitset_sets::{BitSet, Index};
use std::alloc::{AllocError, Global};
use std::sync::atomic::{AtomicU64, Ordering};
use std::test::Fail;
use std::thread::Threads;

/// How often a part looks for the others at most.
const LOOKS: u32 = 1_000_000_000;

/// The first `members` multiples of a step, as a set.
fn set_of_multiples(alloc: Global, members: Index, step: Index) -> Result<BitSet, AllocError> {
    let list = multiples(alloc, members, step)?;
    set_of(alloc, list.as_slice())
}

/// Comes to a meeting, and tells whether it sees that so many came.
fn sees_all(came: &AtomicU64, expected: u64) -> bool {
    came.fetch_add(1, Ordering::SeqCst);
    for _look in 0..LOOKS {
        if came.load(Ordering::SeqCst) >= expected {
            return true;
        }
    }
    false
}

/// How many members of a set of so many see all others, where each is folded in a part of its own.
fn folds_that_meet<R: Threads + Sync>(
    rt: &R,
    alloc: Global,
    members: Index,
) -> Result<u64, AllocError> {
    let set = set_of_multiples(alloc, members, 64)?;
    let came = AtomicU64::new(0);
    set.par_iter().fold(
        rt,
        alloc,
        members as usize,
        || 0u64,
        |met: u64, _i: Index| {
            if sees_all(&came, members as u64) {
                met.wrapping_add(1)
            } else {
                met
            }
        },
        |one: u64, other: u64| one.wrapping_add(other),
    )
}

/// The same of calls.
fn calls_that_meet<R: Threads + Sync>(
    rt: &R,
    alloc: Global,
    members: Index,
) -> Result<u64, AllocError> {
    let set = set_of_multiples(alloc, members, 64)?;
    let came = AtomicU64::new(0);
    let met = AtomicU64::new(0);
    set.par_iter()
        .for_each(rt, alloc, members as usize, |_i: Index| {
            if sees_all(&came, members as u64) {
                met.fetch_add(1, Ordering::SeqCst);
            }
        })?;
    Ok(met.load(Ordering::SeqCst))
}

// A walk that is cut into fewer parts than there are workers is caught here: a member then waits for one that comes after it in
// its own part.
#[test]
fn gate_parts(rt: HostRuntime) -> Result<(), Fail> {
    for members in [2, 4, 8] {
        assert_eq!(rt;
            folds_that_meet(&rt, rt.alloc(), members)?,
            members as u64,
            "{members} folds"
        );
        assert_eq!(rt;
            calls_that_meet(&rt, rt.alloc(), members)?,
            members as u64,
            "{members} calls"
        );
    }
    Ok(())
}

/// How many calls a walk over 1,000 indices makes, and the sum of their indices.
fn counted<R: Threads + Sync>(
    rt: &R,
    alloc: Global,
    step: Index,
    workers: usize,
) -> Result<(u64, u64), AllocError> {
    let set = set_of_multiples(alloc, 1_000, step)?;
    let calls = AtomicU64::new(0);
    let sum = AtomicU64::new(0);
    set.par_iter().for_each(rt, alloc, workers, |i: Index| {
        calls.fetch_add(1, Ordering::SeqCst);
        sum.fetch_add(i as u64, Ordering::SeqCst);
    })?;
    Ok((calls.load(Ordering::SeqCst), sum.load(Ordering::SeqCst)))
}

#[test]
fn each_member_is_visited_once(rt: HostRuntime) -> Result<(), Fail> {
    for workers in [0, 1, 2, 3, 4, 8] {
        assert_eq!(rt;
            counted(&rt, rt.alloc(), 1, workers)?,
            (1_000, 499_500),
            "side by side, {workers} workers"
        );
        assert_eq!(rt;
            counted(&rt, rt.alloc(), 1_000, workers)?,
            (1_000, 499_500_000),
            "apart, {workers} workers"
        );
    }
    Ok(())
}
