//! Three systems whose relations say what they do: a number gains a speed, a score gains one, the speed gains the number.
ghost use Rattle.std.specs.Prelude.{◌≡◌, IfOk};
ghost use Rattle.shred_stages.specs.Views.{Leaves, error_of};
ghost use Rattle.shred_tests.specs.Chores.{Unless, Moves, Scores, Hastens};

use crate::values::{Number, Score, Speed, Value};
use shred::{BatchAccessor, Holder, Read, RunningTime, Stop, System, SystemData, World, Write};
use std::alloc::{AllocError, Global};

/// What a system does.
#[derive(Clone, Copy)]
pub enum Chore {
    /// The number gains the speed.
    Moving,
    /// The score gains one.
    Scoring,
    /// The speed gains the number.
    Hastening,
}

type Movable = (Read<Speed>, Write<Number>);

type Scorable = (Write<Score>,);

type Hastenable = (Read<Number>, Write<Speed>);

/// Adds the speed to the number.
fn move_on<W: Holder<Value>>(view: &mut W) -> Result<(), Stop>
    ensures meets { Unless Moves (W.slots view.old) (error_of result) (W.slots view.new) }
    ensures leaves { Leaves (W.slots view.old) (W.slots view.new) }
{
    let Ok((speed, mut number)) = <Movable as SystemData<Value>>::fetch(view) else {
        return Err(Stop::Full);
    };
    let gain = speed.get(view).0;
    number.value.0 = number.value.0.wrapping_add(gain);
    <Movable as SystemData<Value>>::give_back((speed, number), view);
    Ok(())
}

/// Adds one to the score.
fn score<W: Holder<Value>>(view: &mut W) -> Result<(), Stop>
    ensures meets { Unless Scores (W.slots view.old) (error_of result) (W.slots view.new) }
    ensures leaves { Leaves (W.slots view.old) (W.slots view.new) }
{
    let Ok((mut score,)) = <Scorable as SystemData<Value>>::fetch(view) else {
        return Err(Stop::Full);
    };
    score.value.0 = score.value.0.wrapping_add(1);
    <Scorable as SystemData<Value>>::give_back((score,), view);
    Ok(())
}

/// Adds the number to the speed.
fn hasten<W: Holder<Value>>(view: &mut W) -> Result<(), Stop>
    ensures meets { Unless Hastens (W.slots view.old) (error_of result) (W.slots view.new) }
    ensures leaves { Leaves (W.slots view.old) (W.slots view.new) }
{
    let Ok((number, mut speed)) = <Hastenable as SystemData<Value>>::fetch(view) else {
        return Err(Stop::Full);
    };
    let gain = number.get(view).0;
    speed.value.0 = speed.value.0.wrapping_add(gain);
    <Hastenable as SystemData<Value>>::give_back((number, speed), view);
    Ok(())
}

/// What a bundle reads and writes.
fn access_of<D: SystemData<Value>>(alloc: Global) -> Result<BatchAccessor, AllocError>
    ensures reads { IfOk result (λ access. access.reads ≡ D.read_ids) }
    ensures writes { IfOk result (λ access. access.writes ≡ D.write_ids) }
{
    let reads = D::reads(alloc)?;
    let writes = D::writes(alloc)?;
    Ok(BatchAccessor::new(reads, writes))
}

impl System<Value> for Chore {
    ghost use Rattle.shred_tests.specs.Chores.{ChoreMeets, chore_reads, chore_writes};

    ghost meets = { ChoreMeets };

    ghost read_list = { chore_reads };

    ghost write_list = { chore_writes };

    ghost said_time = { λ _. 3 };

    ghost sets_up = { λ _ _ _ _ _. Unit {0} };

    ghost disposes = { λ _ _ _ _. Unit {0} };

    fn run<H: AllocGlobal, W: Holder<Value>>(&mut self, _rt: &H, view: &mut W) -> Result<(), Stop> {
        match self {
            Chore::Moving => move_on(view),
            Chore::Scoring => score(view),
            Chore::Hastening => hasten(view),
        }
    }

    fn running_time(&self) -> RunningTime {
        RunningTime::Average
    }

    fn accessor(&self, alloc: Global) -> Result<BatchAccessor, AllocError> {
        match self {
            Chore::Moving => access_of::<Movable>(alloc),
            Chore::Scoring => access_of::<Scorable>(alloc),
            Chore::Hastening => access_of::<Hastenable>(alloc),
        }
    }

    fn setup(&mut self, _world: &mut World<Value>) -> Result<(), AllocError> {
        Ok(())
    }

    fn dispose(self, _world: &mut World<Value>) -> Result<(), Stop> {
        Ok(())
    }
}
