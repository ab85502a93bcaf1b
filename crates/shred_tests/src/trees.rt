//! Trees at work: what they leave in their order or side by side, what refuses, and halves that wait for one another.
use crate::values::Value;
use crate::workers::{
    Does, End, FIRST, FOURTH, IDLE, Plain, SECOND, THIRD, average, gates, numbers_of, world_of,
};
use shred::laws::trees::{par_means_seq, par_runs_either_way};
use shred::{Leaf, Nil, Par, ParError, ParSeq, RunWithPool, Seq};
use shred_stages::{Stop, System};
use shred_world::{ResourceId, World};
use std::alloc::{AllocError, Global};
use std::thread::Threads;

/// Three systems, one after another.
type InTurn<S> = Seq<Seq<Seq<Nil, Leaf<Value, S>>, Leaf<Value, S>>, Leaf<Value, S>>;

/// Three systems, side by side, the last of them in a half of its own.
type SideBySide<S> = Par<
    Value,
    Par<Value, Par<Value, Nil, Leaf<Value, S>>, Leaf<Value, S>>,
    Leaf<Value, S>,
>;

/// A call on a tree with its number of workers.
enum Call {
    SetUp,
    Dispatch,
    DispatchHere,
}

/// Three leaves, what their tree declares, the calls on it with their ends, and the numbers of the world before and after.
///
/// The digits tell which of the four numbers it reads, from the first as 1 on, and then which it writes.
struct Row {
    name: &'static str,
    leaves: [Plain; 3],
    declares: u64,
    calls: &'static [(Call, End)],
    before: [u64; 4],
    after: [u64; 4],
}

/// Leaves one after another.
static IN_TURN: [Row; 3] = [
    Row {
        name: "each reads what the one before wrote",
        leaves: [
            (None, FIRST, Does::Add(2)),
            (FIRST, SECOND, Does::AddRead),
            (SECOND, FIRST, Does::AddRead),
        ],
        declares: 12121,
        calls: &[(Call::Dispatch, End::Fine), (Call::DispatchHere, End::Fine)],
        before: [0, 0, 0, 5],
        after: [14, 8, 0, 5],
    },
    Row {
        name: "a refusal stops it",
        leaves: [
            (None, FIRST, Does::Add(2)),
            (None, SECOND, Does::Refuse),
            (None, THIRD, Does::Add(3)),
        ],
        declares: 123,
        calls: &[(Call::Dispatch, End::Full)],
        before: [0, 0, 0, 0],
        after: [2, 0, 0, 0],
    },
    Row {
        name: "want of memory stops the setup",
        leaves: [
            (None, FIRST, Does::Add(2)),
            (None, SECOND, Does::WantMemory),
            (None, THIRD, Does::Add(3)),
        ],
        declares: 123,
        calls: &[(Call::SetUp, End::Memory)],
        before: [0, 0, 0, 0],
        after: [2, 0, 0, 0],
    },
];

/// Leaves side by side, the last of them in a half of its own.
static SIDE_BY_SIDE: [Row; 5] = [
    Row {
        name: "each adds to a number of its own",
        leaves: [
            (FIRST, FIRST, Does::Add(2)),
            (FOURTH, SECOND, Does::AddRead),
            (FOURTH, THIRD, Does::AddRead),
        ],
        declares: 144123,
        calls: &[(Call::Dispatch, End::Fine), (Call::Dispatch, End::Fine)],
        before: [0, 0, 0, 5],
        after: [4, 10, 10, 5],
    },
    Row {
        name: "the tail runs where the head refuses",
        leaves: [
            (None, FIRST, Does::Refuse),
            IDLE,
            (None, SECOND, Does::Add(1)),
        ],
        declares: 12,
        calls: &[(Call::Dispatch, End::Full)],
        before: [0, 0, 0, 0],
        after: [0, 1, 0, 0],
    },
    Row {
        name: "the tail's refusal is told",
        leaves: [
            (None, FIRST, Does::Add(1)),
            IDLE,
            (None, SECOND, Does::WantMemory),
        ],
        declares: 12,
        calls: &[(Call::Dispatch, End::Memory)],
        before: [0, 0, 0, 0],
        after: [1, 0, 0, 0],
    },
    Row {
        name: "of two refusals the head's is told",
        leaves: [
            (None, FIRST, Does::Refuse),
            IDLE,
            (None, SECOND, Does::WantMemory),
        ],
        declares: 12,
        calls: &[(Call::Dispatch, End::Full)],
        before: [0, 0, 0, 0],
        after: [0, 0, 0, 0],
    },
    Row {
        name: "want of memory stops the setup",
        leaves: [
            (None, FIRST, Does::Add(2)),
            (None, SECOND, Does::WantMemory),
            (None, THIRD, Does::Add(3)),
        ],
        declares: 123,
        calls: &[(Call::SetUp, End::Memory)],
        before: [0, 0, 0, 0],
        after: [2, 0, 0, 0],
    },
];

/// The tree of a system.
pub(crate) fn leaf<S: System<Value> + Drop>(
    alloc: Global,
    system: S,
) -> Result<Leaf<Value, S>, AllocError> {
    match Leaf::new(alloc, system) {
        Ok(leaf) => Ok(leaf),
        Err(_) => Err(AllocError),
    }
}

/// Three systems, one after another.
fn in_turn<S: System<Value> + Drop>(
    alloc: Global,
    first: S,
    second: S,
    third: S,
) -> Result<InTurn<S>, AllocError> {
    let Ok(first) = leaf(alloc, first) else {
        return Err(AllocError);
    };
    let Ok(second) = leaf(alloc, second) else {
        return Err(AllocError);
    };
    let Ok(third) = leaf(alloc, third) else {
        return Err(AllocError);
    };
    Ok(shred::seq![first, second, third])
}

/// Three systems, side by side.
fn side_by_side<S: System<Value> + Drop>(
    alloc: Global,
    first: S,
    second: S,
    third: S,
) -> Result<SideBySide<S>, ParError> {
    let Ok(first) = leaf(alloc, first) else {
        return Err(ParError::Memory);
    };
    let Ok(second) = leaf(alloc, second) else {
        return Err(ParError::Memory);
    };
    let Ok(third) = leaf(alloc, third) else {
        return Err(ParError::Memory);
    };
    shred::par![in alloc; first, second, third]
}

/// How a run ends.
pub(crate) fn end_of_run(outcome: Result<(), Stop>) -> End {
    match outcome {
        Ok(()) => End::Fine,
        Err(Stop::Full) => End::Full,
        Err(Stop::Memory) => End::Memory,
        Err(Stop::Refused(_)) => End::Refused,
    }
}

/// How a setup ends.
pub(crate) fn end_of_setup(outcome: Result<(), AllocError>) -> End {
    match outcome {
        Ok(()) => End::Fine,
        Err(_) => End::Memory,
    }
}

/// The ids of the four numbers, from the first as 1 on, as the digits of a number.
fn digits_of(ids: &Vec<ResourceId>) -> u64 {
    let mut digits = 0u64;
    for id in ids {
        digits = digits
            .wrapping_mul(10)
            .wrapping_add(id.dynamic.wrapping_add(1));
    }
    digits
}

/// The ids that a tree reads and then those that it writes, as the digits of a number; 0 for want of memory.
fn declared<T: RunWithPool<Value>>(alloc: Global, tree: &T) -> u64 {
    let mut ids = Vec::new(alloc);
    if tree.reads(&mut ids).is_ok() && tree.writes(&mut ids).is_ok() {
        digits_of(&ids)
    } else {
        0
    }
}

/// How a call on a tree ends that runs on the caller's thread.
fn call_here<R: AllocGlobal, T: RunWithPool<Value>>(
    rt: &R,
    tree: &mut ParSeq<T>,
    world: &mut World<Value>,
    call: &Call,
) -> End {
    match call {
        Call::SetUp => end_of_setup(tree.setup(world)),
        _ => end_of_run(tree.dispatch_here(rt, world)),
    }
}

/// Whether trees one after another declare what is said, and calls on them end as said.
fn end_in_turn<R: AllocGlobal, H: RunWithPool<Value> + Drop, T: RunWithPool<Value> + Drop>(
    rt: &R,
    tree: Seq<H, T>,
    world: &mut World<Value>,
    row: &Row,
) -> bool {
    let mut as_said = declared(rt.alloc(), &tree) == row.declares;
    let mut tree = ParSeq::new(tree, 2);
    for (call, end) in row.calls {
        let ended = match call {
            Call::Dispatch => end_of_run(tree.dispatch(rt, world)),
            _ => call_here(rt, &mut tree, world, call),
        };
        as_said = ended == *end && as_said;
    }
    as_said
}

/// Whether trees side by side declare what is said, and calls on them end as said with this number of workers.
fn end_side_by_side<
    R: AllocGlobal + Threads + Sync,
    H: RunWithPool<Value> + Drop,
    T: RunWithPool<Value> + Send + Drop,
>(rt: &R, workers: usize, tree: Par<Value, H, T>, world: &mut World<Value>, row: &Row) -> bool {
    let mut as_said = declared(rt.alloc(), &tree) == row.declares;
    let mut tree = ParSeq::new(tree, workers);
    for (call, end) in row.calls {
        let ended = match call {
            Call::Dispatch => end_of_run(tree.dispatch(rt, world)),
            _ => call_here(rt, &mut tree, world, call),
        };
        as_said = ended == *end && as_said;
    }
    as_said
}

/// The same of three systems one after another.
fn systems_end_in_turn<R: AllocGlobal, S: System<Value> + Drop>(
    rt: &R,
    systems: [S; 3],
    world: &mut World<Value>,
    row: &Row,
) -> bool {
    let [first, second, third] = systems;
    match in_turn(rt.alloc(), first, second, third) {
        Ok(tree) => end_in_turn(rt, tree, world, row),
        Err(_) => false,
    }
}

/// The same of three systems side by side.
fn systems_end_side_by_side<R: AllocGlobal + Threads + Sync, S: System<Value> + Send + Drop>(
    rt: &R,
    workers: usize,
    systems: [S; 3],
    world: &mut World<Value>,
    row: &Row,
) -> bool {
    let [first, second, third] = systems;
    match side_by_side(rt.alloc(), first, second, third) {
        Ok(tree) => end_side_by_side(rt, workers, tree, world, row),
        Err(_) => false,
    }
}

/// Whether the calls on leaves in turn end as the row says, and leave its numbers.
fn holds_in_turn<R: AllocGlobal>(rt: &R, row: &Row) -> Result<bool, AllocError> {
    let mut world = world_of(rt.alloc(), row.before)?;
    let [first, second, third] = row.leaves;
    let systems = [average(first), average(second), average(third)];
    let as_said = systems_end_in_turn(rt, systems, &mut world, row);
    Ok(as_said && numbers_of(&world) == row.after)
}

/// Whether the calls on leaves side by side end as the row says with this number of workers, and leave its numbers.
fn holds_side_by_side<R: AllocGlobal + Threads + Sync>(
    rt: &R,
    workers: usize,
    row: &Row,
) -> Result<bool, AllocError> {
    let mut world = world_of(rt.alloc(), row.before)?;
    let [first, second, third] = row.leaves;
    let systems = [average(first), average(second), average(third)];
    let as_said = systems_end_side_by_side(rt, workers, systems, &mut world, row);
    Ok(as_said && numbers_of(&world) == row.after)
}

#[test]
fn leaves_run_in_their_order(rt: HostRuntime) {
    let mut wrong = None;
    for row in IN_TURN.as_slice() {
        if holds_in_turn(&rt, row) != Ok(true) {
            wrong = Some(row.name);
        }
    }
    assert_eq!(rt; wrong, None);
}

/// The first row that doesn't hold with this number of workers.
fn first_wrong<R: AllocGlobal + Threads + Sync>(rt: &R, workers: usize) -> Option<&'static str> {
    for row in SIDE_BY_SIDE.as_slice() {
        if holds_side_by_side(rt, workers, row) != Ok(true) {
            return Some(row.name);
        }
    }
    None
}

#[test]
fn halves_leave_the_same_with_any_number_of_workers(rt: HostRuntime) {
    for workers in [0, 1, 2, 8] {
        assert_eq!(rt; first_wrong(&rt, workers), None, "{workers} workers");
    }
}

/// Leaves, and why they don't stand side by side.
struct Joined {
    name: &'static str,
    leaves: [Plain; 3],
    refusal: Option<ParError>,
}

static JOINED: [Joined; 6] = [
    Joined {
        name: "two that share nothing",
        leaves: [
            (None, FIRST, Does::AddRead),
            (None, SECOND, Does::AddRead),
            IDLE,
        ],
        refusal: None,
    },
    Joined {
        name: "two that read the same",
        leaves: [
            (THIRD, FIRST, Does::AddRead),
            (THIRD, SECOND, Does::AddRead),
            IDLE,
        ],
        refusal: None,
    },
    Joined {
        name: "two that write the same",
        leaves: [
            (None, FIRST, Does::AddRead),
            (None, FIRST, Does::AddRead),
            IDLE,
        ],
        refusal: Some(ParError::Conflict),
    },
    Joined {
        name: "one that reads what the second writes",
        leaves: [
            (SECOND, FIRST, Does::AddRead),
            (None, SECOND, Does::AddRead),
            IDLE,
        ],
        refusal: Some(ParError::Conflict),
    },
    Joined {
        name: "one that reads what the first writes",
        leaves: [
            (None, FIRST, Does::AddRead),
            (FIRST, SECOND, Does::AddRead),
            IDLE,
        ],
        refusal: Some(ParError::Conflict),
    },
    Joined {
        name: "one that reads what the first of the other half writes",
        leaves: [
            (None, FIRST, Does::AddRead),
            IDLE,
            (FIRST, SECOND, Does::AddRead),
        ],
        refusal: Some(ParError::Conflict),
    },
];

/// Why leaves don't stand side by side.
fn refusal_of(alloc: Global, leaves: [Plain; 3]) -> Option<ParError> {
    let [first, second, third] = leaves;
    match side_by_side(alloc, average(first), average(second), average(third)) {
        Ok(_) => None,
        Err(refusal) => Some(refusal),
    }
}

#[test]
fn a_conflict_is_refused(rt: HostRuntime) {
    let mut wrong = None;
    for joined in JOINED.as_slice() {
        if refusal_of(rt.alloc(), joined.leaves) != joined.refusal {
            wrong = Some(joined.name);
        }
    }
    assert_eq!(rt; wrong, None);
}

/// Whether nothing runs as a tree, and leaves the world.
fn nothing_runs<R: AllocGlobal>(rt: &R) -> Result<bool, AllocError> {
    let mut world = world_of(rt.alloc(), [1, 2, 3, 4])?;
    let end = end_of_run(ParSeq::new(Nil, 0).dispatch_here(rt, &mut world));
    Ok(end == End::Fine && numbers_of(&world) == [1, 2, 3, 4])
}

#[test]
fn nothing_is_a_tree(rt: HostRuntime) {
    assert_eq!(rt; nothing_runs(&rt), Ok(true));
}

#[test]
fn laws_hold_of_trees() {
    par_means_seq::<Value, Nil, Nil>();
    par_runs_either_way::<Value, Nil, Nil>();
}

/// A dispatch of leaves that declare nothing.
static DISPATCH: Row = Row {
    name: "gates",
    leaves: [IDLE, IDLE, IDLE],
    declares: 0,
    calls: &[(Call::Dispatch, End::Fine)],
    before: [0, 0, 0, 0],
    after: [0, 0, 0, 0],
};

/// Whether gates meet as the halves of a tree: the first of the head and the one of the tail wait for each other.
fn halves_meet<R: AllocGlobal + Threads + Sync>(
    rt: &R,
    workers: usize,
) -> Result<bool, AllocError> {
    let mut world = World::empty(rt.alloc());
    let gates = gates(rt.alloc(), [0, 1, 0])?;
    Ok(systems_end_side_by_side(rt, workers, gates, &mut world, &DISPATCH))
}

/// The two halves of a `Par` in two threads: each raises its own flag and looks for the other's. On one thread the head runs to
/// its end before the tail begins, so it never sees the tail's flag, refuses, and the test fails.
#[test]
fn gate_par(rt: HostRuntime) {
    assert_eq!(rt; halves_meet(&rt, 2), Ok(true));
}
