//! Eight systems that meet, each in a thread of its own, also where fewer workers ran them before, and while workers stand by.
ghost use Rattle.std.specs.Prelude.{◌≡◌, IfOk, []};
ghost use Rattle.shred_plan.specs.Plan.{units_of};
ghost use Rattle.shred_plan.specs.declared.running_time.RunningTime.TheVariants as time;
ghost use Rattle.shred_stages.specs.Views.{Leaves};

use crate::values::Value;
use shred_crew::{Crew, Shift, with_crew};
use shred_plan::RunningTime;
use shred_stages::{BatchAccessor, Pack, StagesBuilder, Stop, System};
use shred_world::{Holder, World};
use smallvec::SmallVec;
use std::alloc::{AllocError, Global};
use std::sync::atomic::{AtomicU64, Ordering};
use std::sync::{Arc, Wait};
use std::thread::Threads;

/// How many systems meet.
const GUESTS: u64 = 8;

/// How many are expected, and how many came.
type Table = (AtomicU64, AtomicU64);

/// A system that comes to a table, and refuses where it never sees that as many came as are expected.
#[derive(Drop)]
struct Guest {
    table: Arc<Table>,
}

/// Whether so many are seen at a table in 1,000,000,000 looks.
fn sees_all(table: &Table) -> bool {
    for _look in 0..1_000_000_000u64 {
        if table.1.load(Ordering::SeqCst) >= table.0.load(Ordering::SeqCst) {
            return true;
        }
    }
    false
}

impl System<Value> for Guest {
    ghost meets = { λ _ _ _ _ _. Unit {0} };

    ghost read_list = { λ _. [] };

    ghost write_list = { λ _. [] };

    ghost said_time = { λ _. units_of time.Average };

    ghost sets_up = { λ _ _ _ _ _. Unit {0} };

    ghost disposes = { λ _ _ _ _. Unit {0} };

    fn run<H: AllocGlobal, W: Holder<Value>>(
        &mut self,
        _rt: &H,
        _view: &mut W,
    ) -> Result<(), Stop> {
        self.table.1.fetch_add(1, Ordering::SeqCst);
        if sees_all(&self.table) {
            Ok(())
        } else {
            Err(Stop::Full)
        }
    }

    fn running_time(&self) -> RunningTime {
        RunningTime::Average
    }

    fn accessor(&self, alloc: Global) -> Result<BatchAccessor, AllocError> {
        Ok(BatchAccessor::new(Vec::new(alloc), Vec::new(alloc)))
    }

    fn setup(&mut self, _world: &mut World<Value>) -> Result<(), AllocError> {
        Ok(())
    }

    fn dispose(self, _world: &mut World<Value>) -> Result<(), Stop> {
        Ok(())
    }
}

/// Puts a guest of a table into stages.
fn invite(
    alloc: Global,
    stages: &mut StagesBuilder<Value, Guest>,
    table: &Arc<Table>,
) -> Result<(), AllocError> {
    let guest = Guest {
        table: Arc::try_clone(table)?,
    };
    if stages.len() >= 65_536 {
        return Err(AllocError);
    }
    match stages.insert(guest, SmallVec::new(alloc)) {
        Ok(_) => Ok(()),
        Err(_) => Err(AllocError),
    }
}

/// One stage of eight guests of a table.
fn stages_of_guests(
    alloc: Global,
    table: &Arc<Table>,
) -> Result<StagesBuilder<Value, Guest>, AllocError> {
    let mut stages = StagesBuilder::new(alloc);
    for _guest in 0..GUESTS {
        invite(alloc, &mut stages, table)?;
    }
    Ok(stages)
}

/// Whether the guests meet by eight workers, once fewer have run them while nobody else was expected.
fn meet_after<R: AllocGlobal + Threads + Wait + Sync>(
    rt: &R,
    fewer: usize,
) -> Result<bool, AllocError> {
    let table = Arc::new(rt.alloc(), (AtomicU64::new(0), AtomicU64::new(0)))?;
    let mut stages = stages_of_guests(rt.alloc(), &table)?;
    let mut world = World::empty(rt.alloc());
    let before = stages.execute(rt, fewer, &mut world);
    let came = table.1.load(Ordering::SeqCst);
    table.0.store(came.wrapping_add(GUESTS), Ordering::SeqCst);
    let after = stages.execute(rt, 8, &mut world);
    Ok(before.is_ok() && came == GUESTS && after.is_ok())
}

// Stages that stay cut for the workers of an earlier run, or are never run by more than three, are caught here: some guest then
// waits for one that comes after it on the same thread.
#[test]
fn gate_eight(rt: HostRuntime) {
    for fewer in [0, 2, 3] {
        assert_eq!(rt; meet_after(&rt, fewer), Ok(true), "after {fewer} workers");
    }
}

/// Guests who meet again and again while workers stand by, and how often they did.
#[derive(Drop)]
struct Party {
    stages: StagesBuilder<Value, Guest>,
    world: World<Value>,
    table: Arc<Table>,
    met: u32,
}

/// How often the guests of a party are to meet.
const MEETINGS: u32 = 50;

impl Shift<World<Value>, Pack<Value, Guest>> for Party {
    ghost may = { λ _. Unit {0} };

    ghost does = { λ _ _. Unit {0} };

    fn run<R: AllocGlobal + Wait>(
        &mut self,
        rt: &R,
        crew: &mut Crew<World<Value>, Pack<Value, Guest>>,
    ) {
        for _meeting in 0..MEETINGS {
            // Nobody waits in these, so that workers are still on their way as the guests are to meet.
            for _passing in 0..20 {
                let _ = self.stages.execute_with(rt, 8, crew, &mut self.world);
            }
            let came = self.table.1.load(Ordering::SeqCst);
            self.table
                .0
                .store(came.wrapping_add(GUESTS), Ordering::SeqCst);
            if self
                .stages
                .execute_with(rt, 8, crew, &mut self.world)
                .is_ok()
            {
                self.met = self.met.saturating_add(1);
            }
        }
    }
}

/// How often the guests of a party meet; none where no thread can be started.
fn meet_standing<R: AllocGlobal + Threads + Wait + Sync>(
    rt: &R,
) -> Result<Option<u32>, AllocError> {
    let table = Arc::new(rt.alloc(), (AtomicU64::new(0), AtomicU64::new(0)))?;
    let party = Party {
        stages: stages_of_guests(rt.alloc(), &table)?,
        world: World::empty(rt.alloc()),
        table,
        met: 0,
    };
    match with_crew(rt, 8, party) {
        Ok(after) => Ok(Some(after.met)),
        Err(_) => Ok(None),
    }
}

// A worker that isn't called, or is called before what it is asked for lies on its line and not again, is caught here.
#[test]
fn gate_again(rt: HostRuntime) {
    assert_eq!(rt; meet_standing(&rt), Ok(Some(MEETINGS)));
}
