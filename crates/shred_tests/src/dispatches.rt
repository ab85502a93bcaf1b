//! Dispatchers on the caller's thread and on several: what runs leave, what refuses, and gates.
use crate::builders::{
    Added, Local, Often, TWO_LOCALS, builder_of, builder_of_three, built, chain, with_workers,
};
use crate::trees::{end_of_run, end_of_setup, leaf};
use crate::values::Value;
use crate::workers::{
    Does, End, FIRST, FOURTH, Gate, Plain, SECOND, THIRD, average, gates, numbers_of,
    two_gates_of_four, world_of,
};
use RunningTime::{Average, Long, Short, VeryLong, VeryShort};
use shred::{
    BatchController, DispatchError, Dispatcher, DispatcherBuilder, MultiDispatcher, ParSeq, RunNow,
    RunningTime, StagesBuilder, Stop, System, World,
};
use smallvec::SmallVec;
use std::alloc::{AllocError, Global};
use std::sync::Wait;
use std::thread::Threads;

/// A call on a dispatcher.
enum Call {
    Dispatch,
    DispatchPar,
    DispatchSeq,
    DispatchLocal,
    SetUp,
}

/// What is done with a dispatcher.
enum Used {
    /// Calls, with their ends.
    Calls(&'static [(Call, End)]),
    /// It is set up, run and let go as a local system, and each of that ends so.
    AsLocal([End; 3]),
    /// It is let go, and that ends so.
    LetGo(End),
}

/// What a builder is asked, what is done with its dispatcher, and the numbers of the world before and after.
struct Row {
    name: &'static str,
    adds: &'static [Added],
    used: Used,
    before: [u64; 4],
    after: [u64; 4],
}

/// Six systems that write one number, each one that it adds; the last two want what the earlier ones have made of it.
const SIX_WRITERS: [Added; 7] = [
    Added::System("0", &[], Average, (None, FIRST, Does::Add(0))),
    Added::System("1", &[], Average, (None, FIRST, Does::Add(1))),
    Added::System("2", &[], Average, (None, FIRST, Does::Add(2))),
    Added::System("3", &["1"], Average, (None, FIRST, Does::Add(3))),
    Added::Barrier,
    Added::System("4", &[], Average, (None, FIRST, Does::AddAt(6, 4))),
    Added::System("5", &["4"], Average, (None, FIRST, Does::AddAt(10, 5))),
];

/// Two systems of one stage that refuse, a stage behind it, and a local system.
const TWO_THAT_REFUSE: [Added; 8] = [
    Added::System("", &[], VeryLong, (None, FIRST, Does::Add(1))),
    Added::System("", &[], VeryShort, (None, SECOND, Does::Refuse)),
    Added::System("", &[], VeryShort, (None, SECOND, Does::Add(1))),
    Added::System("", &[], VeryShort, (None, FOURTH, Does::Add(2))),
    Added::System("", &[], VeryShort, (None, THIRD, Does::Refuse)),
    Added::Barrier,
    Added::System("", &[], Average, (None, FIRST, Does::Add(100))),
    Added::Local((None, FIRST, Does::Add(1000))),
];

static ROWS: [Row; 14] = [
    Row {
        name: "a barrier parts the writers",
        adds: &SIX_WRITERS,
        used: Used::Calls(&[(Call::DispatchSeq, End::Fine)]),
        before: [0, 0, 0, 0],
        after: [15, 0, 0, 0],
    },
    Row {
        name: "the fifth writer finds another number",
        adds: &SIX_WRITERS,
        used: Used::Calls(&[
            (Call::DispatchSeq, End::Fine),
            (Call::DispatchSeq, End::System(4)),
        ]),
        before: [0, 0, 0, 0],
        after: [21, 0, 0, 0],
    },
    Row {
        name: "a barrier parts the writers on threads",
        adds: &SIX_WRITERS,
        used: Used::Calls(&[(Call::DispatchPar, End::Fine)]),
        before: [0, 0, 0, 0],
        after: [15, 0, 0, 0],
    },
    Row {
        name: "the fifth writer finds another number on threads",
        adds: &SIX_WRITERS,
        used: Used::Calls(&[
            (Call::DispatchPar, End::Fine),
            (Call::DispatchPar, End::System(4)),
        ]),
        before: [0, 0, 0, 0],
        after: [21, 0, 0, 0],
    },
    Row {
        name: "the first refusal is told, and its stage is finished",
        adds: &TWO_THAT_REFUSE,
        used: Used::Calls(&[(Call::Dispatch, End::System(1))]),
        before: [0, 0, 0, 0],
        after: [1, 0, 0, 2],
    },
    Row {
        name: "four groups are finished where two refuse",
        adds: &[
            Added::System("", &[], Average, (SECOND, FIRST, Does::AddRead)),
            Added::System("", &[], Average, (None, THIRD, Does::Refuse)),
            Added::System("", &[], Average, (SECOND, FOURTH, Does::AddRead)),
            Added::System("", &[], Average, (SECOND, None, Does::Refuse)),
            Added::Barrier,
            Added::System("", &[], Average, (None, FIRST, Does::Add(100))),
        ],
        used: Used::Calls(&[(Call::Dispatch, End::System(1))]),
        before: [0, 5, 0, 0],
        after: [5, 5, 0, 5],
    },
    Row {
        name: "local systems run last, in the order of adding",
        adds: &TWO_LOCALS,
        used: Used::Calls(&[(Call::Dispatch, End::Fine)]),
        before: [0, 0, 0, 0],
        after: [35, 0, 0, 0],
    },
    Row {
        name: "a local refusal has its place",
        adds: &TWO_LOCALS,
        used: Used::Calls(&[
            (Call::DispatchLocal, End::Fine),
            (Call::DispatchLocal, End::Local(0)),
        ]),
        before: [5, 0, 0, 0],
        after: [35, 0, 0, 0],
    },
    Row {
        name: "a local refusal comes after the local systems before it",
        adds: &[
            Added::Local((None, FIRST, Does::Add(10))),
            Added::Local((None, FIRST, Does::Refuse)),
            Added::Local((None, FIRST, Does::Add(20))),
        ],
        used: Used::Calls(&[(Call::Dispatch, End::Local(1))]),
        before: [5, 0, 0, 0],
        after: [15, 0, 0, 0],
    },
    Row {
        name: "a batch runs as often as its controller plans",
        adds: &[
            Added::Batch(&[
                (SECOND, FIRST, Does::AddRead),
                (FIRST, FOURTH, Does::AddRead),
            ]),
            Added::System("", &[], Average, (None, SECOND, Does::Add(1))),
            Added::System("", &[], Average, (THIRD, None, Does::Nothing)),
        ],
        used: Used::Calls(&[(Call::Dispatch, End::Fine)]),
        before: [0, 1, 3, 0],
        after: [3, 2, 3, 6],
    },
    Row {
        name: "a refusal in a batch is the batch's",
        adds: &[
            Added::System("", &[], Average, (None, SECOND, Does::Add(1))),
            Added::Batch(&[(None, FIRST, Does::AddAt(0, 1))]),
        ],
        used: Used::Calls(&[(Call::Dispatch, End::System(1))]),
        before: [0, 0, 5, 0],
        after: [1, 1, 5, 0],
    },
    Row {
        name: "systems are set up in the order of adding, local ones last, up to the first refusal",
        adds: &TWO_LOCALS,
        used: Used::Calls(&[(Call::SetUp, End::Fine), (Call::SetUp, End::Memory)]),
        before: [0, 0, 0, 0],
        after: [40, 0, 0, 0],
    },
    Row {
        name: "a dispatcher runs as a local system",
        adds: &TWO_LOCALS,
        used: Used::AsLocal([End::Fine, End::Full, End::Full]),
        before: [0, 0, 0, 0],
        after: [45, 0, 0, 0],
    },
    Row {
        name: "each system is let go, and the first refusal is told",
        adds: &[
            Added::System("", &[], Average, (None, FIRST, Does::AddAt(100, 1))),
            Added::System("", &[], Average, (None, FIRST, Does::Refuse)),
            Added::System("", &[], Average, (None, FIRST, Does::AddAt(101, 2))),
            Added::Local((None, FIRST, Does::Refuse)),
            Added::Local((None, FIRST, Does::AddAt(103, 4))),
        ],
        used: Used::LetGo(End::System(1)),
        before: [100, 0, 0, 0],
        after: [107, 0, 0, 0],
    },
];

/// Why a dispatch ended early.
pub(crate) fn end_by(error: &DispatchError) -> End {
    match error {
        DispatchError::System(id, Stop::Full) => End::System(id.0),
        DispatchError::Local(place, Stop::Full) => End::Local(*place),
        DispatchError::Memory => End::Memory,
        DispatchError::Threads => End::Threads,
        _ => End::Refused,
    }
}

/// How a dispatch ends.
pub(crate) fn end_of(outcome: Result<(), DispatchError>) -> End {
    match outcome {
        Ok(()) => End::Fine,
        Err(error) => end_by(&error),
    }
}

/// How a call on a dispatcher ends.
fn call_on<
    R: AllocGlobal + Threads + Wait + Sync,
    S: System<Value> + Send + Drop,
    L: RunNow<Value> + Drop,
>(rt: &R, dispatcher: &mut Dispatcher<Value, S, L>, world: &mut World<Value>, call: &Call) -> End {
    match call {
        Call::Dispatch => end_of(dispatcher.dispatch(rt, world)),
        Call::DispatchPar => end_of(dispatcher.dispatch_par(rt, world)),
        Call::DispatchSeq => end_of(dispatcher.dispatch_seq(rt, world)),
        Call::DispatchLocal => end_of(dispatcher.dispatch_thread_local(rt, world)),
        Call::SetUp => end_of_setup(dispatcher.setup(world)),
    }
}

/// Whether calls on a dispatcher end as said.
fn end_as_said<
    R: AllocGlobal + Threads + Wait + Sync,
    S: System<Value> + Send + Drop,
    L: RunNow<Value> + Drop,
>(
    rt: &R,
    dispatcher: Dispatcher<Value, S, L>,
    world: &mut World<Value>,
    calls: &[(Call, End)],
) -> bool {
    let mut dispatcher = dispatcher;
    let mut as_said = true;
    for (call, end) in calls {
        as_said = call_on(rt, &mut dispatcher, world, call) == *end && as_said;
    }
    as_said
}

/// How the setup of what runs locally ends, then its run, and then its letting go.
fn served<R: AllocGlobal, L: RunNow<Value>>(
    rt: &R,
    local: L,
    world: &mut World<Value>,
) -> [End; 3] {
    let mut local = local;
    let set_up = end_of_setup(local.setup(world));
    let run = end_of_run(local.run_now(rt, world));
    [set_up, run, end_of_run(local.dispose(world))]
}

/// How letting go of a dispatcher ends.
fn let_go<S: System<Value> + Drop, L: RunNow<Value> + Drop>(
    dispatcher: Dispatcher<Value, S, L>,
    world: &mut World<Value>,
) -> End {
    end_of(dispatcher.dispose(world))
}

/// Whether a dispatcher ends as said.
fn ends<
    R: AllocGlobal + Threads + Wait + Sync,
    S: System<Value> + Send + Drop,
    L: RunNow<Value> + Drop,
>(rt: &R, dispatcher: Dispatcher<Value, S, L>, world: &mut World<Value>, used: &Used) -> bool {
    match used {
        Used::Calls(calls) => end_as_said(rt, dispatcher, world, calls),
        Used::AsLocal(ends) => served(rt, dispatcher, world) == *ends,
        Used::LetGo(end) => let_go(dispatcher, world) == *end,
    }
}

/// Whether the dispatcher of a builder, with this number of workers, ends as said.
fn built_ends<
    R: AllocGlobal + Threads + Wait + Sync,
    S: System<Value> + Send + Drop,
    C: BatchController<Value, S> + Send + Drop,
    L: RunNow<Value> + Drop,
>(
    rt: &R,
    builder: DispatcherBuilder<Value, S, C, L>,
    workers: usize,
    world: &mut World<Value>,
    used: &Used,
) -> bool {
    ends(rt, built(with_workers(builder, workers)), world, used)
}

/// Whether the dispatcher of a row ends as it says with this number of workers, and leaves its numbers.
fn holds<R: AllocGlobal + Threads + Wait + Sync>(
    rt: &R,
    workers: usize,
    row: &Row,
) -> Result<bool, AllocError> {
    let mut world = world_of(rt.alloc(), row.before)?;
    let (builder, is_whole) = builder_of(rt.alloc(), row.adds);
    let as_said = built_ends(rt, builder, workers, &mut world, &row.used);
    Ok(is_whole && as_said && numbers_of(&world) == row.after)
}

/// The first row that doesn't hold with this number of workers.
fn first_wrong<R: AllocGlobal + Threads + Wait + Sync>(
    rt: &R,
    workers: usize,
) -> Option<&'static str> {
    for row in ROWS.as_slice() {
        if holds(rt, workers, row) != Ok(true) {
            return Some(row.name);
        }
    }
    None
}

#[test]
fn dispatches_leave_the_same_with_any_number_of_workers(rt: HostRuntime) {
    for workers in [0, 1, 2, 8] {
        assert_eq!(rt; first_wrong(&rt, workers), None, "{workers} workers");
    }
}

/// One dispatch, which ends well.
static DISPATCHED: Used = Used::Calls(&[(Call::Dispatch, End::Fine)]);

/// What a dispatch of the chained builder leaves.
fn left_by_chain<R: AllocGlobal + Threads + Wait + Sync>(rt: &R) -> Result<[u64; 4], AllocError> {
    let mut world = world_of(rt.alloc(), [0, 1, 3, 0])?;
    let Some(builder) = chain(rt.alloc()) else {
        return Err(AllocError);
    };
    if built_ends(rt, builder, 2, &mut world, &DISPATCHED) {
        Ok(numbers_of(&world))
    } else {
        Ok([0, 0, 0, 0])
    }
}

#[test]
fn a_builder_is_given_back_with_what_was_added(rt: HostRuntime) {
    assert_eq!(rt; left_by_chain(&rt), Ok([6, 2, 3, 6]));
}

/// What the one leaf of a tree does, how the tree ends as a local system over a world whose first number is 1, and what that becomes.
struct Leafed {
    name: &'static str,
    plain: Plain,
    ends: [End; 3],
    number: u64,
}

static LEAVES: [Leafed; 2] = [
    Leafed {
        name: "set up and run",
        plain: (FIRST, FIRST, Does::AddRead),
        ends: [End::Fine, End::Fine, End::Fine],
        number: 4,
    },
    Leafed {
        name: "set up, and refused",
        plain: (None, FIRST, Does::AddAt(1, 100)),
        ends: [End::Fine, End::Full, End::Fine],
        number: 101,
    },
];

/// How a tree of one leaf ends as a local system, and what it leaves.
fn served_tree<R: AllocGlobal>(rt: &R, plain: Plain) -> Result<([End; 3], [u64; 4]), AllocError> {
    let mut world = world_of(rt.alloc(), [1, 0, 0, 0])?;
    let tree = leaf(rt.alloc(), average(plain))?;
    let ends = served(rt, ParSeq::new(tree, 2), &mut world);
    Ok((ends, numbers_of(&world)))
}

#[test]
fn a_tree_runs_as_a_local_system(rt: HostRuntime) {
    let mut wrong = None;
    for leafed in LEAVES.as_slice() {
        if served_tree(&rt, leafed.plain) != Ok((leafed.ends, [leafed.number, 0, 0, 0])) {
            wrong = Some(leafed.name);
        }
    }
    assert_eq!(rt; wrong, None);
}

/// Four systems of one stage, each of which adds to a number of its own.
static FOUR_APART: [Added; 4] = [
    Added::System("", &[], Average, (None, FIRST, Does::Add(1))),
    Added::System("", &[], Average, (None, SECOND, Does::Add(2))),
    Added::System("", &[], Average, (None, THIRD, Does::Add(3))),
    Added::System("", &[], Average, (None, FOURTH, Does::Add(4))),
];

/// How many of three dispatches are accepted, where the others find no thread or no memory; else none.
fn accepted_of_three<
    R: AllocGlobal + Threads + Wait + Sync,
    S: System<Value> + Send + Drop,
    L: RunNow<Value> + Drop,
>(rt: &R, dispatcher: Dispatcher<Value, S, L>, world: &mut World<Value>) -> Option<u64> {
    let mut dispatcher = dispatcher;
    let mut accepted = 0u64;
    let mut is_told = true;
    for _ in 0..3 {
        match call_on(rt, &mut dispatcher, world, &Call::Dispatch) {
            End::Fine => accepted = accepted.wrapping_add(1),
            End::Threads | End::Memory => {}
            _ => is_told = false,
        }
    }
    if is_told { Some(accepted) } else { None }
}

/// The same of the dispatcher of a builder, with this number of workers.
fn built_accepts<
    R: AllocGlobal + Threads + Wait + Sync,
    S: System<Value> + Send + Drop,
    C: BatchController<Value, S> + Send + Drop,
    L: RunNow<Value> + Drop,
>(
    rt: &R,
    builder: DispatcherBuilder<Value, S, C, L>,
    workers: usize,
    world: &mut World<Value>,
) -> Option<u64> {
    accepted_of_three(rt, built(with_workers(builder, workers)), world)
}

/// Dispatches the four three times: each time either all of them add their amounts, or a thread or memory was refused and none does.
fn add_or_leave<R: AllocGlobal + Threads + Wait + Sync>(
    rt: &R,
    workers: usize,
) -> Result<bool, AllocError> {
    let mut world = world_of(rt.alloc(), [0, 0, 0, 0])?;
    let (builder, is_whole) = builder_of(rt.alloc(), &FOUR_APART);
    let accepted = built_accepts(rt, builder, workers, &mut world);
    let [first, second, third, fourth] = numbers_of(&world);
    Ok(
        is_whole
            && accepted == Some(first)
            && second == first.wrapping_mul(2)
            && third == first.wrapping_mul(3)
            && fourth == first.wrapping_mul(4),
    )
}

// Run with a start of a thread or an allocation refused, a dispatch is; without that none is.
#[test]
fn a_refused_start_leaves_all_as_it_was(rt: HostRuntime) {
    let mut wrong = None;
    for workers in [0, 2, 3, 4, 8] {
        if add_or_leave(&rt, workers) != Ok(true) {
            wrong = Some(workers);
        }
    }
    assert_eq!(rt; wrong, None);
}

/// Adds a system to stages, and tells whether it was taken.
fn insert<S: System<Value> + Drop>(
    alloc: Global,
    stages: &mut StagesBuilder<Value, S>,
    system: S,
) -> bool {
    if stages.len() >= 65_536 {
        return false;
    }
    match stages.insert(system, SmallVec::new(alloc)) {
        Ok(_) => true,
        Err(_) => false,
    }
}

/// Stages of three systems, and whether all were taken.
fn stages_of_three<S: System<Value> + Drop>(
    alloc: Global,
    systems: [S; 3],
) -> (StagesBuilder<Value, S>, bool) {
    let [first, second, third] = systems;
    let mut stages = StagesBuilder::new(alloc);
    let has_first = insert(alloc, &mut stages, first);
    let has_second = insert(alloc, &mut stages, second);
    let has_third = insert(alloc, &mut stages, third);
    (stages, has_first && has_second && has_third)
}

/// How a run of stages ends over an empty world.
fn end_of_stages<R: AllocGlobal + Threads + Wait + Sync, S: System<Value> + Send + Drop>(
    rt: &R,
    workers: usize,
    stages: StagesBuilder<Value, S>,
) -> End {
    let mut stages = stages;
    let mut world = World::empty(rt.alloc());
    let outcome = stages.execute(rt, workers, &mut world);
    end_of(outcome)
}

/// Whether a run of three systems of one stage ends well.
fn three_run<R: AllocGlobal + Threads + Wait + Sync, S: System<Value> + Send + Drop>(
    rt: &R,
    workers: usize,
    systems: [S; 3],
) -> bool {
    let (stages, is_whole) = stages_of_three(rt.alloc(), systems);
    let end = end_of_stages(rt, workers, stages);
    is_whole && end == End::Fine
}

/// Whether gates meet as the systems of one stage.
fn systems_meet<R: AllocGlobal + Threads + Wait + Sync>(
    rt: &R,
    workers: usize,
) -> Result<bool, AllocError> {
    let gates = gates(rt.alloc(), [0, 0, 1])?;
    Ok(three_run(rt, workers, gates))
}

// A body that runs all groups on the caller's thread is caught here: its first system looks for a flag that nobody raises
// while it looks, refuses after the last look, and `execute` answers that refusal.
#[test]
fn gate_stage(rt: HostRuntime) {
    assert_eq!(rt; systems_meet(&rt, 2), Ok(true));
}

/// Stages of four systems, and whether all were taken.
fn stages_of_four<S: System<Value> + Drop>(
    alloc: Global,
    systems: [S; 4],
) -> (StagesBuilder<Value, S>, bool) {
    let [first, second, third, fourth] = systems;
    let (mut stages, has_three) = stages_of_three(alloc, [first, second, third]);
    let has_fourth = insert(alloc, &mut stages, fourth);
    (stages, has_three && has_fourth)
}

/// Whether the second and the fourth system of one stage meet, of which the first and the third are the long ones.
fn short_ones_meet<R: AllocGlobal + Threads + Wait + Sync>(
    rt: &R,
    workers: usize,
) -> Result<bool, AllocError> {
    let systems = two_gates_of_four(rt.alloc(), [VeryLong, VeryShort, Long, Short])?;
    let (stages, is_whole) = stages_of_four(rt.alloc(), systems);
    Ok(is_whole && end_of_stages(rt, workers, stages) == End::Fine)
}

// Two workers have six units of time each: 0 and 1, and 2 and 3. A body that deals the groups in turn, whatever their times, is
// caught here: 1 and 3 then run on one thread, so that 1 looks for a flag that nobody raises while it looks.
#[test]
fn gate_cut(rt: HostRuntime) {
    assert_eq!(rt; short_ones_meet(&rt, 2), Ok(true));
}

/// Calls on a dispatcher of three gates: which of them are open, how many workers there are, and the calls.
static GATES: [([u64; 3], usize, Used); 4] = [
    ([0, 0, 1], 2, Used::Calls(&[(Call::Dispatch, End::Fine)])),
    ([0, 0, 1], 2, Used::Calls(&[(Call::DispatchPar, End::Fine)])),
    ([0, 0, 0], 3, Used::Calls(&[(Call::Dispatch, End::Fine)])),
    ([0, 0, 0], 3, Used::Calls(&[(Call::DispatchPar, End::Fine)])),
];

/// Whether the dispatcher of three systems ends as said.
fn three_end<
    R: AllocGlobal + Threads + Wait + Sync,
    S: System<Value> + Send + Drop,
    C: BatchController<Value, S> + Send + Drop,
    L: RunNow<Value> + Drop,
>(rt: &R, workers: usize, systems: [S; 3], used: &Used) -> bool {
    let mut world = World::empty(rt.alloc());
    let (builder, is_whole): (DispatcherBuilder<Value, S, C, L>, bool) = builder_of_three(
        rt.alloc(),
        workers,
        systems,
    );
    let as_said = ends(rt, built(builder), &mut world, used);
    is_whole && as_said
}

/// Whether gates meet in the dispatcher of a builder.
fn dispatched_meet<R: AllocGlobal + Threads + Wait + Sync>(
    rt: &R,
    workers: usize,
    open: [u64; 3],
    used: &Used,
) -> Result<bool, AllocError> {
    let gates = gates(rt.alloc(), open)?;
    Ok(three_end::<R, Gate, MultiDispatcher<Often>, Local>(rt, workers, gates, used))
}

// A dispatcher that runs its stages with fewer workers than it was given is caught here: the third gate that asks for three at
// once runs after the first one on two threads, so that the first one never sees its flag.
#[test]
fn gate_dispatch(rt: HostRuntime) {
    let mut wrong = None;
    for (at, (open, workers, used)) in GATES.iter().enumerate() {
        if dispatched_meet(&rt, *workers, *open, used) != Ok(true) {
            wrong = Some(at);
        }
    }
    assert_eq!(rt; wrong, None);
}
