//! Dispatches in a thread of their own: what they leave, whom they refuse, and a system that meets the caller.
use crate::builders::{
    Added, Local, Often, TWO_LOCALS, add_system, builder_of, builder_of_three, new_builder,
    with_workers,
};
use crate::dispatches::end_by;
use crate::values::{Value, put_number};
use crate::workers::{Does, End, FIRST, Gate, SECOND, gates, numbers_of, passes, world_of};
use RunningTime::Average;
use shred::{
    AsyncDispatcher, AsyncError, Batch, BatchController, DispatcherBuilder, MultiDispatcher,
    RunNow, RunningTime, System, Work, World,
};
use std::alloc::{AllocError, Global};
use std::sync::Wait;
use std::thread::Threads;

/// A call on an asynchronous dispatcher.
#[derive(Clone, Copy)]
enum Call {
    Dispatch,
    Wait,
    WaitWithoutLocals,
    SetUp,
    /// Whether a dispatch is under way; it ends well where none is.
    Running,
    /// The world is lent, and has these numbers.
    World([u64; 4]),
    /// The same by the other name.
    Res([u64; 4]),
    /// The world is lent for writing, and this becomes its first number.
    WorldMut(u64),
    /// The same by the other name.
    MutRes(u64),
}

/// What a builder is asked, and the calls on its dispatcher over a world of zeros, with their ends.
struct Row {
    name: &'static str,
    adds: &'static [Added],
    calls: &'static [(Call, End)],
}

static ROWS: [Row; 2] = [
    Row {
        name: "six writers",
        adds: &[
            Added::System("0", &[], Average, (None, FIRST, Does::Add(0))),
            Added::System("1", &[], Average, (None, FIRST, Does::Add(1))),
            Added::System("2", &[], Average, (None, FIRST, Does::Add(2))),
            Added::System("3", &["1"], Average, (None, FIRST, Does::Add(3))),
            Added::Barrier,
            Added::System("4", &[], Average, (None, FIRST, Does::AddAt(6, 4))),
            Added::System("5", &["4"], Average, (None, FIRST, Does::AddAt(10, 5))),
            Added::Local((FIRST, SECOND, Does::AddRead)),
        ],
        calls: &[
            // The local system runs where it is waited for, not before.
            (Call::Dispatch, End::Fine),
            (Call::WaitWithoutLocals, End::Fine),
            (Call::Running, End::Fine),
            (Call::World([15, 0, 0, 0]), End::Fine),
            (Call::Wait, End::Fine),
            (Call::Res([15, 15, 0, 0]), End::Fine),
            // After a refusal it doesn't run.
            (Call::Dispatch, End::Fine),
            (Call::Wait, End::System(4)),
            (Call::World([21, 15, 0, 0]), End::Fine),
            // What is written to the world that is lent is there; a dispatch waits for the one before, and tells its refusal.
            (Call::WorldMut(0), End::Fine),
            (Call::Dispatch, End::Fine),
            (Call::Dispatch, End::Fine),
            (Call::Dispatch, End::System(4)),
            (Call::Running, End::Fine),
            (Call::World([21, 15, 0, 0]), End::Fine),
            // The world is lent once the refusal was told.
            (Call::Dispatch, End::Fine),
            (Call::Res([27, 15, 0, 0]), End::System(4)),
            (Call::Res([27, 15, 0, 0]), End::Fine),
            (Call::Dispatch, End::Fine),
            (Call::WorldMut(0), End::System(4)),
            (Call::MutRes(0), End::Fine),
            (Call::Dispatch, End::Fine),
            (Call::MutRes(2), End::Fine),
            (Call::World([2, 15, 0, 0]), End::Fine),
        ],
    },
    Row {
        name: "two local systems",
        adds: &TWO_LOCALS,
        calls: &[
            // They run each time, and the first refuses the second time.
            (Call::Dispatch, End::Fine),
            (Call::Wait, End::Fine),
            (Call::Wait, End::Local(0)),
            (Call::World([35, 0, 0, 0]), End::Fine),
            // All are set up in the world that is owned, up to the first refusal.
            (Call::SetUp, End::Memory),
            (Call::World([40, 0, 0, 0]), End::Fine),
            (Call::MutRes(0), End::Fine),
            (Call::SetUp, End::Fine),
            (Call::World([35, 0, 0, 0]), End::Fine),
        ],
    },
];

/// What an error says.
fn end_of_error(error: &AsyncError) -> End {
    match error {
        AsyncError::Refused(error) => end_by(error),
        AsyncError::Memory => End::Memory,
        AsyncError::Failed => End::Failed,
    }
}

/// How a call ends.
fn end_of(outcome: Result<(), AsyncError>) -> End {
    match outcome {
        Ok(()) => End::Fine,
        Err(error) => end_of_error(&error),
    }
}

/// Whether a world that is lent has these numbers.
fn has(lent: Result<&World<Value>, &AsyncError>, numbers: [u64; 4]) -> End {
    match lent {
        Ok(world) => {
            if numbers_of(world) == numbers {
                End::Fine
            } else {
                End::Refused
            }
        }
        Err(error) => end_of_error(error),
    }
}

/// Makes this the first number of a world.
fn put(world: &mut World<Value>, number: u64) -> End {
    if put_number(world, 0, number) {
        End::Fine
    } else {
        End::Memory
    }
}

/// Puts a number into the world that is lent for writing.
fn put_by_world_mut<
    R: Threads + Wait,
    S: System<Value> + Send + Drop + 'static,
    L: RunNow<Value> + Drop,
>(rt: &R, dispatcher: &mut AsyncDispatcher<Value, S, L>, number: u64) -> End {
    match dispatcher.world_mut(rt) {
        Ok(world) => put(world, number),
        Err(error) => end_of_error(&error),
    }
}

/// Puts a number into the world that is lent by the other name.
fn put_by_mut_res<
    R: Threads + Wait,
    S: System<Value> + Send + Drop + 'static,
    L: RunNow<Value> + Drop,
>(rt: &R, dispatcher: &mut AsyncDispatcher<Value, S, L>, number: u64) -> End {
    match dispatcher.mut_res(rt) {
        Ok(world) => put(world, number),
        Err(error) => end_of_error(&error),
    }
}

/// Whether no dispatch is under way.
fn end_of_running(is_running: bool) -> End {
    if is_running { End::Refused } else { End::Fine }
}

/// How a call on an asynchronous dispatcher ends.
fn call_on<
    R: AllocGlobal + Threads + Wait + Sync + Send + Copy + 'static,
    S: System<Value> + Send + Drop + 'static,
    L: RunNow<Value> + Drop,
>(rt: R, dispatcher: &mut AsyncDispatcher<Value, S, L>, call: &Call) -> End {
    match call {
        Call::Dispatch => end_of(dispatcher.dispatch(rt)),
        Call::Wait => end_of(dispatcher.wait(&rt)),
        Call::WaitWithoutLocals => end_of(dispatcher.wait_without_tl(&rt)),
        Call::SetUp => end_of(dispatcher.setup(&rt)),
        Call::Running => end_of_running(dispatcher.running()),
        Call::World(numbers) => has(dispatcher.world(&rt), *numbers),
        Call::Res(numbers) => has(dispatcher.res(&rt), *numbers),
        Call::WorldMut(number) => put_by_world_mut(&rt, dispatcher, *number),
        Call::MutRes(number) => put_by_mut_res(&rt, dispatcher, *number),
    }
}

/// Whether calls on an asynchronous dispatcher end as said.
fn end_as_said<
    R: AllocGlobal + Threads + Wait + Sync + Send + Copy + 'static,
    S: System<Value> + Send + Drop + 'static,
    L: RunNow<Value> + Drop,
>(rt: R, dispatcher: AsyncDispatcher<Value, S, L>, calls: &[(Call, End)]) -> bool {
    let mut dispatcher = dispatcher;
    let mut as_said = true;
    for (call, end) in calls {
        as_said = call_on(rt, &mut dispatcher, call) == *end && as_said;
    }
    as_said
}

/// The asynchronous dispatcher of a builder, which owns a world.
fn owning<S: System<Value> + Drop, C: BatchController<Value, S> + Drop, L: RunNow<Value> + Drop>(
    builder: DispatcherBuilder<Value, S, C, L>,
    world: World<Value>,
) -> AsyncDispatcher<Value, Work<S, Batch<Value, S, C>>, L> {
    builder.build_async(world)
}

/// Whether calls on the asynchronous dispatcher of a builder, with this number of workers, end as said.
fn ends<
    R: AllocGlobal + Threads + Wait + Sync + Send + Copy + 'static,
    S: System<Value> + Send + Drop + 'static,
    C: BatchController<Value, S> + Send + Drop + 'static,
    L: RunNow<Value> + Drop,
>(
    rt: R,
    builder: DispatcherBuilder<Value, S, C, L>,
    workers: usize,
    world: World<Value>,
    calls: &[(Call, End)],
) -> bool {
    end_as_said(rt, owning(with_workers(builder, workers), world), calls)
}

/// Whether the calls of a row end as it says with this number of workers.
fn holds<R: AllocGlobal + Threads + Wait + Sync + Send + Copy + 'static>(
    rt: R,
    workers: usize,
    row: &Row,
) -> Result<bool, AllocError> {
    let world = world_of(rt.alloc(), [0, 0, 0, 0])?;
    let (builder, is_whole) = builder_of(rt.alloc(), row.adds);
    let as_said = ends(rt, builder, workers, world, row.calls);
    Ok(is_whole && as_said)
}

/// The first row that doesn't hold with this number of workers.
fn first_wrong<R: AllocGlobal + Threads + Wait + Sync + Send + Copy + 'static>(
    rt: R,
    workers: usize,
) -> Option<&'static str> {
    for row in ROWS.as_slice() {
        if holds(rt, workers, row) != Ok(true) {
            return Some(row.name);
        }
    }
    None
}

#[test]
fn dispatches_go_on_while_the_caller_does(rt: HostRuntime) {
    for workers in [0, 2] {
        assert_eq!(rt; first_wrong(rt, workers), None, "{workers} workers");
    }
}

/// Each call where a thread couldn't be started before: none answers.
static FAILED: [(Call, End); 9] = [
    (Call::Running, End::Fine),
    (Call::World([0, 0, 0, 0]), End::Failed),
    (Call::Res([0, 0, 0, 0]), End::Failed),
    (Call::WorldMut(1), End::Failed),
    (Call::MutRes(1), End::Failed),
    (Call::Wait, End::Failed),
    (Call::WaitWithoutLocals, End::Failed),
    (Call::SetUp, End::Failed),
    (Call::Dispatch, End::Failed),
];

/// A system that adds 15.
static ONE: [Added; 1] = [Added::System("", &[], Average, (None, FIRST, Does::Add(15)))];

/// Dispatches once: what is left has these numbers, or a thread couldn't be started, and no call answers.
fn runs_or_fails<
    R: AllocGlobal + Threads + Wait + Sync + Send + Copy + 'static,
    S: System<Value> + Send + Drop + 'static,
    C: BatchController<Value, S> + Send + Drop + 'static,
    L: RunNow<Value> + Drop,
>(
    rt: R,
    builder: DispatcherBuilder<Value, S, C, L>,
    world: World<Value>,
    numbers: [u64; 4],
) -> bool {
    let mut dispatcher = owning(builder, world);
    match call_on(rt, &mut dispatcher, &Call::Dispatch) {
        End::Fine => call_on(rt, &mut dispatcher, &Call::World(numbers)) == End::Fine,
        End::Failed => end_as_said(rt, dispatcher, &FAILED),
        _ => false,
    }
}

/// Whether a system that adds 15 runs, or fails for good.
fn one_runs_or_fails<R: AllocGlobal + Threads + Wait + Sync + Send + Copy + 'static>(
    rt: R,
) -> Result<bool, AllocError> {
    let world = world_of(rt.alloc(), [0, 0, 0, 0])?;
    let (builder, is_whole) = builder_of(rt.alloc(), &ONE);
    let runs = runs_or_fails(rt, builder, world, [15, 0, 0, 0]);
    Ok(is_whole && runs)
}

// Run under a limit on the threads of a process, the start is refused; without one it is not.
#[test]
fn a_start_that_was_refused_fails_for_good(rt: HostRuntime) {
    assert_eq!(rt; one_runs_or_fails(rt), Ok(true));
}

/// Whether a dispatch is seen to be over, before it was asked 1,000,000,000 times.
fn turns_over<S: System<Value> + Send + Drop + 'static, L: RunNow<Value> + Drop>(
    dispatcher: &AsyncDispatcher<Value, S, L>,
) -> bool {
    for _ in 0..1_000_000_000u64 {
        if !dispatcher.running() {
            return true;
        }
    }
    false
}

/// Between `dispatch` and `wait` the caller raises its flag and looks for that of a system; then it sees that the dispatch is over.
fn meets<
    R: AllocGlobal + Threads + Wait + Sync + Send + Copy + 'static,
    S: System<Value> + Send + Drop + 'static,
    L: RunNow<Value> + Drop,
>(rt: R, dispatcher: AsyncDispatcher<Value, S, L>, caller: &Gate) -> bool {
    let mut dispatcher = dispatcher;
    let started = call_on(rt, &mut dispatcher, &Call::Dispatch) == End::Fine;
    let is_running = call_on(rt, &mut dispatcher, &Call::Running) == End::Refused;
    let is_met = passes(caller);
    let is_over = turns_over(&dispatcher);
    let waited = call_on(rt, &mut dispatcher, &Call::Wait) == End::Fine;
    started && is_running && is_met && is_over && waited
}

/// A builder of one system, and whether it was taken.
fn builder_of_one<
    S: System<Value> + Drop,
    C: BatchController<Value, S> + Drop,
    L: RunNow<Value> + Drop,
>(alloc: Global, system: S) -> (DispatcherBuilder<Value, S, C, L>, bool) {
    let mut builder = new_builder(alloc);
    let is_taken = add_system(&mut builder, system, "", &[]).is_ok();
    (builder, is_taken)
}

/// The same of the dispatcher of one system.
fn guest_meets<
    R: AllocGlobal + Threads + Wait + Sync + Send + Copy + 'static,
    S: System<Value> + Send + Drop + 'static,
    C: BatchController<Value, S> + Send + Drop + 'static,
    L: RunNow<Value> + Drop,
>(rt: R, guest: S, caller: &Gate) -> bool {
    let (builder, has_guest): (DispatcherBuilder<Value, S, C, L>, bool) = builder_of_one(
        rt.alloc(),
        guest,
    );
    let is_met = meets(rt, owning(builder, World::empty(rt.alloc())), caller);
    has_guest && is_met
}

/// Whether a gate meets the caller.
fn one_meets_the_caller<R: AllocGlobal + Threads + Wait + Sync + Send + Copy + 'static>(
    rt: R,
) -> Result<bool, AllocError> {
    let [guest, caller, _open] = gates(rt.alloc(), [0, 0, 1])?;
    Ok(guest_meets::<R, Gate, MultiDispatcher<Often>, Local>(rt, guest, &caller))
}

// A body that runs the systems on the caller's thread is caught here: in `dispatch` the system looks for the caller's flag, which
// the caller raises after `dispatch` alone, so it refuses after its last look, and `wait` answers that refusal; a body that runs
// them in `wait` alone is caught too, since the caller never sees the system's flag. Shown once by such a body.
#[test]
fn gate_async(rt: HostRuntime) {
    assert_eq!(rt; one_meets_the_caller(rt), Ok(true));
}

/// A dispatch, which is waited for and ends well.
static DISPATCHED: [(Call, End); 2] = [(Call::Dispatch, End::Fine), (Call::Wait, End::Fine)];

/// Whether a dispatch of three systems in a thread of its own ends well, with this number of workers there.
fn three_end<
    R: AllocGlobal + Threads + Wait + Sync + Send + Copy + 'static,
    S: System<Value> + Send + Drop + 'static,
    C: BatchController<Value, S> + Send + Drop + 'static,
    L: RunNow<Value> + Drop,
>(rt: R, workers: usize, systems: [S; 3]) -> bool {
    let (builder, is_whole): (DispatcherBuilder<Value, S, C, L>, bool) = builder_of_three(
        rt.alloc(),
        workers,
        systems,
    );
    let as_said = end_as_said(rt, owning(builder, World::empty(rt.alloc())), &DISPATCHED);
    is_whole && as_said
}

/// Whether gates meet in a dispatch in a thread of its own.
fn systems_meet<R: AllocGlobal + Threads + Wait + Sync + Send + Copy + 'static>(
    rt: R,
    workers: usize,
    open: [u64; 3],
) -> Result<bool, AllocError> {
    let gates = gates(rt.alloc(), open)?;
    Ok(three_end::<R, Gate, MultiDispatcher<Often>, Local>(rt, workers, gates))
}

// A dispatch that ignores its workers is caught here, as by the gate of dispatchers.
#[test]
fn gate_async_workers(rt: HostRuntime) {
    assert_eq!(rt; systems_meet(rt, 2, [0, 0, 1]), Ok(true));
    assert_eq!(rt; systems_meet(rt, 3, [0, 0, 0]), Ok(true));
}
