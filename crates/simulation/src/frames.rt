//! Frames of the simulation: both systems are dispatched, and then the entities die whose deletion was accepted.
ghost use Rattle.std.specs.Prelude.{◌≡◌, ℕ, IfOk, OnOk};
ghost use Rattle.simulation.specs.Frames.{IsTwo, Stands, framed, frames, parts_in};

use crate::steps::Step;
use crate::values::Value;
use specs::{
    AddError, Batch, Dispatcher, DispatcherBuilder, NoBatch, NoLocal, Work, World, WorldExt,
};
use std::alloc::Global;
use std::sync::Wait;
use std::thread::Threads;

/// What the two systems stand in.
pub type Staged = Work<Step, Batch<Value, Step, NoBatch>>;

/// A dispatch or a merge was refused.
#[derive(Clone, Copy, Debug, PartialEq, Eq)]
pub struct Stopped;

/// A dispatcher of both systems, for a number of workers.
///
/// Errors: want of memory.
pub fn dispatcher(
    alloc: Global,
    workers: usize,
) -> Result<Dispatcher<Value, Staged, NoLocal>, AddError>
    ensures { IfOk result (λ dispatcher. IsTwo dispatcher) }
{
    let mut builder: DispatcherBuilder<Value, Step, NoBatch, NoLocal> = DispatcherBuilder::new(
        alloc,
    );
    builder.add_pool(workers);
    let (Ok(_), Ok(_)) = (
        builder.add(Step::Movement, "", &[]),
        builder.add(Step::Reaping, "", &[]),
    ) else {
        return Err(AddError::Memory);
    };
    Ok(builder.build())
}

/// Runs a frame: each entity moves, and those that have come far die with their parts.
///
/// Errors: `Stopped`, where a system, a thread or memory was wanting.
pub fn run_frame<R: AllocGlobal + Threads + Wait + Sync>(
    rt: &R,
    dispatcher: &mut Dispatcher<Value, Staged, NoLocal>,
    world: &mut World<Value>,
) -> Result<(), Stopped>
    requires two { IsTwo dispatcher.old }
    requires stands { Stands world.old }
    ensures parts { OnOk result ((index : ℕ) → parts_in world.new index ≡ framed (parts_in world.old index)) }
    ensures again { OnOk result (IsTwo dispatcher.new) }
    ensures stays { OnOk result (Stands world.new) }
{
    match dispatcher.dispatch(rt, world) {
        Ok(()) => match world.merge() {
            Ok(_) => Ok(()),
            Err(_) => Err(Stopped),
        },
        Err(_) => Err(Stopped),
    }
}

/// Runs three frames.
///
/// Errors: those of a frame.
pub fn run_three<R: AllocGlobal + Threads + Wait + Sync>(
    rt: &R,
    dispatcher: &mut Dispatcher<Value, Staged, NoLocal>,
    world: &mut World<Value>,
) -> Result<(), Stopped>
    requires two { IsTwo dispatcher.old }
    requires stands { Stands world.old }
    ensures { OnOk result ((index : ℕ) → parts_in world.new index ≡ frames 3 (parts_in world.old index)) }
{
    run_frame(rt, dispatcher, world)?;
    run_frame(rt, dispatcher, world)?;
    run_frame(rt, dispatcher, world)
}
