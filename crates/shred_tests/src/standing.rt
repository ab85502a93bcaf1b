//! Many dispatches while the workers stand by: what they leave, what refuses, and a gate.
use crate::builders::{Added, Local, Often, builder_of, builder_of_three, built, with_workers};
use crate::dispatches::end_of;
use crate::values::Value;
use crate::workers::{Does, End, FIRST, FOURTH, Gate, SECOND, THIRD, gates, numbers_of, world_of};
use RunningTime::Average;
use shred::{
    BatchController, Dispatcher, DispatcherBuilder, Dispatches, MultiDispatcher, RunNow,
    RunningTime, System, Unmanned, Want, World, dispatch_times,
};
use std::alloc::AllocError;
use std::sync::Wait;
use std::thread::Threads;

/// How many dispatches of some systems are asked for, how many of them are accepted, how the last one ends, and what they leave
/// of four numbers that are 0.
struct Row {
    name: &'static str,
    adds: &'static [Added],
    times: u32,
    accepted: u32,
    end: End,
    after: [u64; 4],
}

/// Four systems of one stage, each of which adds to a number of its own.
const FOUR_APART: [Added; 4] = [
    Added::System("", &[], Average, (None, FIRST, Does::Add(1))),
    Added::System("", &[], Average, (None, SECOND, Does::Add(2))),
    Added::System("", &[], Average, (None, THIRD, Does::Add(3))),
    Added::System("", &[], Average, (None, FOURTH, Does::Add(4))),
];

static ROWS: [Row; 4] = [
    Row {
        name: "none",
        adds: &FOUR_APART,
        times: 0,
        accepted: 0,
        end: End::Fine,
        after: [0, 0, 0, 0],
    },
    Row {
        name: "ten thousand",
        adds: &FOUR_APART,
        times: 10_000,
        accepted: 10_000,
        end: End::Fine,
        after: [10_000, 20_000, 30_000, 40_000],
    },
    Row {
        name: "two stages",
        adds: &[
            Added::System("", &[], Average, (None, FIRST, Does::Add(1))),
            Added::System("", &[], Average, (None, SECOND, Does::Add(1))),
            Added::System("", &[], Average, (FIRST, THIRD, Does::AddRead)),
        ],
        times: 3,
        accepted: 3,
        end: End::Fine,
        after: [3, 3, 6, 0],
    },
    Row {
        name: "the second is refused",
        adds: &[
            Added::System("", &[], Average, (None, FIRST, Does::Add(1))),
            Added::System("", &[], Average, (None, SECOND, Does::AddAt(0, 5))),
        ],
        times: 4,
        accepted: 1,
        end: End::System(1),
        after: [2, 5, 0, 0],
    },
];

/// How so many dispatches of a dispatcher end, how many are accepted, and the world after them.
fn made<
    R: AllocGlobal + Threads + Wait + Sync,
    S: System<Value> + Send + Drop,
    L: RunNow<Value> + Drop,
>(
    rt: &R,
    dispatcher: Dispatcher<Value, S, L>,
    world: World<Value>,
    times: u32,
) -> (End, u32, World<Value>) {
    match dispatch_times(rt, Dispatches::of(dispatcher, world, times)) {
        Ok(after) => (end_of(after.outcome), after.accepted, after.world),
        Err(Unmanned { want, shift }) => match want {
            Want::Memory => (End::Memory, 0, shift.world),
            Want::Threads => (End::Threads, 0, shift.world),
        },
    }
}

/// The same of the dispatcher of a builder, with this number of workers.
fn built_makes<
    R: AllocGlobal + Threads + Wait + Sync,
    S: System<Value> + Send + Drop,
    C: BatchController<Value, S> + Send + Drop,
    L: RunNow<Value> + Drop,
>(
    rt: &R,
    builder: DispatcherBuilder<Value, S, C, L>,
    workers: usize,
    world: World<Value>,
    times: u32,
) -> (End, u32, World<Value>) {
    made(rt, built(with_workers(builder, workers)), world, times)
}

/// Whether the dispatches of a row end as it says with this number of workers, and leave its numbers.
fn holds<R: AllocGlobal + Threads + Wait + Sync>(rt: &R, workers: usize, row: &Row) -> bool {
    let Ok(world) = world_of(rt.alloc(), [0, 0, 0, 0]) else {
        return false;
    };
    let (builder, is_whole) = builder_of(rt.alloc(), row.adds);
    let (end, accepted, world) = built_makes(rt, builder, workers, world, row.times);
    is_whole && end == row.end && accepted == row.accepted && numbers_of(&world) == row.after
}

/// The first row that doesn't hold with this number of workers.
fn first_wrong<R: AllocGlobal + Threads + Wait + Sync>(
    rt: &R,
    workers: usize,
) -> Option<&'static str> {
    for row in ROWS.as_slice() {
        if !holds(rt, workers, row) {
            return Some(row.name);
        }
    }
    None
}

#[test]
fn standing_workers_leave_what_one_leaves(rt: HostRuntime) {
    for workers in [0, 1, 2, 4, 8] {
        assert_eq!(rt; first_wrong(&rt, workers), None, "{workers} workers");
    }
}

/// Whether the four add their amounts as often as they are dispatched, which may be fewer times than asked for.
fn add_or_leave<R: AllocGlobal + Threads + Wait + Sync>(
    rt: &R,
    workers: usize,
) -> Result<bool, AllocError> {
    let world = world_of(rt.alloc(), [0, 0, 0, 0])?;
    let (builder, is_whole) = builder_of(rt.alloc(), &FOUR_APART);
    let (end, accepted, world) = built_makes(rt, builder, workers, world, 3);
    let is_told = match end {
        End::Fine => accepted == 3,
        End::Memory => accepted < 3,
        End::Threads => accepted == 0,
        _ => false,
    };
    let count = accepted as u64;
    let after = [
        count,
        count.wrapping_mul(2),
        count.wrapping_mul(3),
        count.wrapping_mul(4),
    ];
    Ok(is_whole && is_told && numbers_of(&world) == after)
}

// Run with a start of a thread or an allocation refused, fewer dispatches are made; without that all are.
#[test]
fn a_refused_start_of_standing_workers_leaves_all_as_it_was(rt: HostRuntime) {
    let mut wrong = None;
    for workers in [0, 2, 3, 4, 8] {
        if add_or_leave(&rt, workers) == Ok(false) {
            wrong = Some(workers);
        }
    }
    assert_eq!(rt; wrong, None);
}

/// Whether one dispatch of three systems is accepted.
fn three_run<
    R: AllocGlobal + Threads + Wait + Sync,
    S: System<Value> + Send + Drop,
    C: BatchController<Value, S> + Send + Drop,
    L: RunNow<Value> + Drop,
>(rt: &R, workers: usize, systems: [S; 3]) -> bool {
    let (builder, is_whole): (DispatcherBuilder<Value, S, C, L>, bool) = builder_of_three(
        rt.alloc(),
        workers,
        systems,
    );
    let (end, accepted, _world) = made(rt, built(builder), World::empty(rt.alloc()), 1);
    is_whole && end == End::Fine && accepted == 1
}

/// Whether three gates meet, none of which is open.
fn standing_meet<R: AllocGlobal + Threads + Wait + Sync>(
    rt: &R,
    workers: usize,
) -> Result<bool, AllocError> {
    let gates = gates(rt.alloc(), [0, 0, 0])?;
    Ok(three_run::<R, Gate, MultiDispatcher<Often>, Local>(rt, workers, gates))
}

// Workers that don't stand by, or do nothing, are caught here: each of the three waits for both others.
#[test]
fn gate_standing(rt: HostRuntime) {
    assert_eq!(rt; standing_meet(&rt, 3), Ok(true));
}
