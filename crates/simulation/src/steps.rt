//! The two systems of the simulation, as a dispatcher runs them.
ghost use Rattle.std.specs.Prelude.{◌≡◌, IfOk};

use crate::movement::{Movable, move_all};
use crate::reaping::{Reapable, reap_all};
use crate::values::Value;
use specs::{BatchAccessor, Holder, RunningTime, Stop, System, SystemData, World};
use std::alloc::{AllocError, Global};

/// What a system of the simulation does.
#[derive(Clone, Copy)]
pub enum Step {
    /// Positions gain velocities.
    Movement,
    /// Entities that have come far are to die.
    Reaping,
}

/// What a bundle reads and writes.
fn access_of<D: SystemData<Value>>(alloc: Global) -> Result<BatchAccessor, AllocError>
    ensures reads { IfOk result (λ access. access.reads ≡ D.read_ids) }
    ensures writes { IfOk result (λ access. access.writes ≡ D.write_ids) }
{
    let reads = D::reads(alloc)?;
    let writes = D::writes(alloc)?;
    Ok(BatchAccessor::new(reads, writes))
}

impl System<Value> for Step {
    ghost use Rattle.simulation.specs.Steps.{StepMeets, step_reads, step_writes};

    ghost meets = { StepMeets };

    ghost read_list = { step_reads };

    ghost write_list = { step_writes };

    ghost said_time = { λ _. 3 };

    ghost sets_up = { λ _ _ _ _ _. Unit {0} };

    ghost disposes = { λ _ _ _ _. Unit {0} };

    fn run<H: AllocGlobal, W: Holder<Value>>(&mut self, _rt: &H, view: &mut W) -> Result<(), Stop> {
        match self {
            Step::Movement => move_all(view),
            Step::Reaping => reap_all(view),
        }
    }

    fn running_time(&self) -> RunningTime {
        RunningTime::Average
    }

    fn accessor(&self, alloc: Global) -> Result<BatchAccessor, AllocError> {
        match self {
            Step::Movement => access_of::<Movable>(alloc),
            Step::Reaping => access_of::<Reapable>(alloc),
        }
    }

    fn setup(&mut self, world: &mut World<Value>) -> Result<(), AllocError> {
        match self {
            Step::Movement => <Movable as SystemData<Value>>::setup(world),
            Step::Reaping => <Reapable as SystemData<Value>>::setup(world),
        }
    }

    fn dispose(self, _world: &mut World<Value>) -> Result<(), Stop> {
        Ok(())
    }
}
