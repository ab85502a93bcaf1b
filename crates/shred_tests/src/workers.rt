//! The systems of the tests: workers, which add to numbers or refuse, and gates, which wait for one another.
ghost use Rattle.std.specs.Prelude.{◌≡◌, IfOk, [], ◌∷◌};
ghost use Rattle.std.specs.Option.{option_to_list};
ghost use Rattle.shred_plan.specs.Plan.{units_of};
ghost use Rattle.shred_stages.specs.Views.{Leaves};

use crate::values::{Value, count_in, put_number, raised};
use shred_plan::RunningTime;
use shred_stages::{BatchAccessor, Stop, System};
use shred_world::{Holder, ResourceId, World};
use std::alloc::{AllocError, Global};
use std::sync::Arc;
use std::sync::atomic::{AtomicU64, Ordering};

/// The ids of four numbers, told apart by their dynamic numbers.
pub(crate) const FIRST: Option<ResourceId> = Some(ResourceId {
    kind: 1,
    dynamic: 0,
});

pub(crate) const SECOND: Option<ResourceId> = Some(ResourceId {
    kind: 1,
    dynamic: 1,
});

pub(crate) const THIRD: Option<ResourceId> = Some(ResourceId {
    kind: 1,
    dynamic: 2,
});

pub(crate) const FOURTH: Option<ResourceId> = Some(ResourceId {
    kind: 1,
    dynamic: 3,
});

/// What a worker does to the number that it writes.
#[derive(Clone, Copy)]
pub(crate) enum Does {
    Nothing,
    Add(u64),
    /// Where the number is the first one, it adds the second one; else it refuses.
    AddAt(u64, u64),
    /// It adds the number that it reads.
    AddRead,
    Refuse,
    WantMemory,
}

/// A system that reads at most one number and writes at most one.
#[derive(Clone, Copy)]
pub(crate) struct Worker {
    pub(crate) reads: Option<ResourceId>,
    pub(crate) writes: Option<ResourceId>,
    pub(crate) time: RunningTime,
    pub(crate) does: Does,
}

/// What a worker reads, what it writes and what it does.
pub(crate) type Plain = (Option<ResourceId>, Option<ResourceId>, Does);

/// A worker that reads and writes nothing.
pub(crate) const IDLE: Plain = (None, None, Does::Nothing);

/// A worker that is said to run so long.
pub(crate) fn timed(time: RunningTime, plain: Plain) -> Worker {
    let (reads, writes, does) = plain;
    Worker {
        reads,
        writes,
        time,
        does,
    }
}

/// A worker of average time.
pub(crate) fn average(plain: Plain) -> Worker {
    timed(RunningTime::Average, plain)
}

/// The id, where there is one, as a list.
fn listed(alloc: Global, id: Option<ResourceId>) -> Result<Vec<ResourceId>, AllocError>
    ensures { IfOk result (λ ids. ids.items ≡ option_to_list id) }
{
    match id {
        Some(id) => Vec::from_slice(alloc, &[id]),
        None => Ok(Vec::new(alloc)),
    }
}

/// Adds an amount to the number under an id.
fn add_to<W: Holder<Value>>(view: &mut W, id: ResourceId, amount: u64) -> Result<(), Stop>
    ensures leaves { Leaves (W.slots view.old) (W.slots view.new) }
{
    match view.take(id) {
        Some(value) => {
            view.put(id, raised(value, amount));
            Ok(())
        }
        None => Err(Stop::Full),
    }
}

/// The number under an id, 0 where there is none.
pub(crate) fn number_at<W: Holder<Value>>(view: &W, id: Option<ResourceId>) -> u64 {
    let Some(id) = id else {
        return 0;
    };
    match view.value(id) {
        Some(value) => count_in(value),
        None => 0,
    }
}

/// The amount that a worker adds, none where it refuses.
fn amount_of<W: Holder<Value>>(worker: &Worker, view: &W) -> Option<u64> {
    match worker.does {
        Does::Nothing => Some(0),
        Does::Add(amount) => Some(amount),
        Does::AddAt(at, amount) => {
            if number_at(view, worker.writes) == at {
                Some(amount)
            } else {
                None
            }
        }
        Does::AddRead => Some(number_at(view, worker.reads)),
        Does::Refuse => None,
        Does::WantMemory => None,
    }
}

/// Why a worker refuses.
fn refusal_of(worker: &Worker) -> Stop {
    match worker.does {
        Does::WantMemory => Stop::Memory,
        _ => Stop::Full,
    }
}

/// What a worker does.
pub(crate) fn work<W: Holder<Value>>(worker: &Worker, view: &mut W) -> Result<(), Stop>
    ensures leaves { Leaves (W.slots view.old) (W.slots view.new) }
{
    let Some(amount) = amount_of(worker, view) else {
        return Err(refusal_of(worker));
    };
    match worker.writes {
        Some(id) => add_to(view, id, amount),
        None => Ok(()),
    }
}

/// What a worker does as it is set up: the same.
pub(crate) fn set_up(worker: &Worker, world: &mut World<Value>) -> Result<(), AllocError> {
    match work(worker, world) {
        Ok(()) => Ok(()),
        Err(_) => Err(AllocError),
    }
}

impl System<Value> for Worker {
    ghost meets = { λ _ _ _ _ _. Unit {0} };

    ghost read_list = { λ worker. option_to_list worker.reads };

    ghost write_list = { λ worker. option_to_list worker.writes };

    ghost said_time = { λ worker. units_of worker.time };

    ghost sets_up = { λ _ _ _ _ _. Unit {0} };

    ghost disposes = { λ _ _ _ _. Unit {0} };

    fn run<H: AllocGlobal, W: Holder<Value>>(&mut self, _rt: &H, view: &mut W) -> Result<(), Stop> {
        work(self, view)
    }

    fn running_time(&self) -> RunningTime {
        self.time
    }

    fn accessor(&self, alloc: Global) -> Result<BatchAccessor, AllocError> {
        let reads = listed(alloc, self.reads)?;
        let writes = listed(alloc, self.writes)?;
        Ok(BatchAccessor::new(reads, writes))
    }

    fn setup(&mut self, world: &mut World<Value>) -> Result<(), AllocError> {
        set_up(self, world)
    }

    fn dispose(self, world: &mut World<Value>) -> Result<(), Stop> {
        work(&self, world)
    }
}

/// How a call on systems ends: well, or as it is refused.
#[derive(Clone, Copy, PartialEq, Eq)]
pub(crate) enum End {
    Fine,
    /// By the staged system of this number.
    System(u32),
    /// By the local system at this place.
    Local(usize),
    /// By a system that isn't told.
    Full,
    Memory,
    Threads,
    /// For a thread that couldn't be started, now or before.
    Failed,
    /// Otherwise.
    Refused,
}

/// The flags of three gates.
type Flags = (AtomicU64, AtomicU64, AtomicU64);

/// Which of three gates it is, or one that waits for nobody.
#[derive(Clone, Copy)]
enum Place {
    First,
    Second,
    Third,
    Aside,
}

/// A system that raises its own flag of three, and refuses where it never sees both others.
#[derive(Drop)]
pub(crate) struct Gate {
    flags: Arc<Flags>,
    place: Place,
    time: RunningTime,
}

/// Three gates over flags of these numbers: one of 1 is raised from the beginning, so that nobody waits for that gate.
pub(crate) fn gates(alloc: Global, raised: [u64; 3]) -> Result<[Gate; 3], AllocError> {
    let [first, second, third] = raised;
    let flags = (
        AtomicU64::new(first),
        AtomicU64::new(second),
        AtomicU64::new(third),
    );
    gates_of(Arc::new(alloc, flags)?)
}

/// Four systems that are said to run so long: the second and the fourth wait for one another, the others for nobody.
pub(crate) fn two_gates_of_four(
    alloc: Global,
    times: [RunningTime; 4],
) -> Result<[Gate; 4], AllocError> {
    let flags = (AtomicU64::new(0), AtomicU64::new(0), AtomicU64::new(1));
    four_over(&Arc::new(alloc, flags)?, times)
}

/// Those four over some flags.
fn four_over(flags: &Arc<Flags>, times: [RunningTime; 4]) -> Result<[Gate; 4], AllocError> {
    let [first, second, third, fourth] = times;
    match (
        gate_over(flags, Place::Aside, first),
        gate_over(flags, Place::First, second),
        gate_over(flags, Place::Aside, third),
        gate_over(flags, Place::Second, fourth),
    ) {
        (Ok(first), Ok(second), Ok(third), Ok(fourth)) => Ok([first, second, third, fourth]),
        _ => Err(AllocError),
    }
}

/// A gate over flags that others have too, which is said to run so long.
fn gate_over(flags: &Arc<Flags>, place: Place, time: RunningTime) -> Result<Gate, AllocError> {
    match Arc::try_clone(flags) {
        Ok(flags) => Ok(Gate { flags, place, time }),
        Err(error) => Err(error),
    }
}

/// The three gates over some flags.
fn gates_of(flags: Arc<Flags>) -> Result<[Gate; 3], AllocError> {
    match (
        gate_over(&flags, Place::First, RunningTime::Average),
        gate_over(&flags, Place::Second, RunningTime::Average),
    ) {
        (Ok(first), Ok(second)) => Ok([
            first,
            second,
            Gate {
                flags,
                place: Place::Third,
                time: RunningTime::Average,
            },
        ]),
        _ => Err(AllocError),
    }
}

/// Whether a flag is seen raised in 1,000,000,000 looks.
fn is_seen(flag: &AtomicU64) -> bool {
    for _look in 0..1_000_000_000u64 {
        if flag.load(Ordering::SeqCst) == 1 {
            return true;
        }
    }
    false
}

/// Raises the first flag, and tells whether both others are seen.
fn sees(own: &AtomicU64, one: &AtomicU64, other: &AtomicU64) -> bool {
    own.store(1, Ordering::SeqCst);
    is_seen(one) && is_seen(other)
}

/// Raises the gate's own flag, and tells whether both others are seen.
pub(crate) fn passes(gate: &Gate) -> bool {
    let flags = &*gate.flags;
    match gate.place {
        Place::First => sees(&flags.0, &flags.1, &flags.2),
        Place::Second => sees(&flags.1, &flags.0, &flags.2),
        Place::Third => sees(&flags.2, &flags.0, &flags.1),
        Place::Aside => true,
    }
}

impl System<Value> for Gate {
    ghost meets = { λ _ _ _ _ _. Unit {0} };

    ghost read_list = { λ _. [] };

    ghost write_list = { λ _. [] };

    ghost said_time = { λ gate. units_of gate.time };

    ghost sets_up = { λ _ _ _ _ _. Unit {0} };

    ghost disposes = { λ _ _ _ _. Unit {0} };

    fn run<H: AllocGlobal, W: Holder<Value>>(
        &mut self,
        _rt: &H,
        _view: &mut W,
    ) -> Result<(), Stop> {
        if passes(self) {
            Ok(())
        } else {
            Err(Stop::Full)
        }
    }

    fn running_time(&self) -> RunningTime {
        self.time
    }

    fn accessor(&self, alloc: Global) -> Result<BatchAccessor, AllocError> {
        Ok(BatchAccessor::new(Vec::new(alloc), Vec::new(alloc)))
    }

    fn setup(&mut self, _world: &mut World<Value>) -> Result<(), AllocError> {
        Ok(())
    }

    fn dispose(self, _world: &mut World<Value>) -> Result<(), Stop> {
        Ok(())
    }
}

/// A world with four numbers.
pub(crate) fn world_of(alloc: Global, numbers: [u64; 4]) -> Result<World<Value>, AllocError> {
    let mut world = World::empty(alloc);
    let is_whole = put_number(&mut world, 0, numbers[0])
        && put_number(&mut world, 1, numbers[1])
        && put_number(&mut world, 2, numbers[2])
        && put_number(&mut world, 3, numbers[3]);
    if is_whole { Ok(world) } else { Err(AllocError) }
}

/// The four numbers of a world.
pub(crate) fn numbers_of(world: &World<Value>) -> [u64; 4] {
    [
        number_at(world, FIRST),
        number_at(world, SECOND),
        number_at(world, THIRD),
        number_at(world, FOURTH),
    ]
}
