//! A phase in which two colonies grow, from its opening to its end.
ghost use Rattle.std.specs.Prelude.{◌≡◌, IfOk, OnOk};
ghost use Rattle.specs.specs.ForSeats.{StaysIn};
ghost use Rattle.simulation.specs.Colonies.{IsPair, Sits, Opens, GrowsBoth, Gathers, GrowsApart};

use crate::colonies::growing::{Growth, seat_of};
use crate::colonies::values::Held;
use crate::frames::Stopped;
use specs::{
    AddError, Batch, Dispatcher, DispatcherBuilder, NoBatch, NoLocal, PhaseSeat, Work, World,
    WorldExt,
};
use std::alloc::Global;
use std::sync::Wait;
use std::thread::Threads;

/// What the two systems stand in.
pub type Staged = Work<Growth, Batch<Held, Growth, NoBatch>>;

/// A dispatcher of two colonies, for a number of workers.
///
/// Errors: want of memory.
pub fn dispatcher(
    alloc: Global,
    workers: usize,
) -> Result<Dispatcher<Held, Staged, NoLocal>, AddError>
    ensures { IfOk result (λ dispatcher. IsPair dispatcher) }
{
    let mut builder: DispatcherBuilder<Held, Growth, NoBatch, NoLocal> = DispatcherBuilder::new(
        alloc,
    );
    builder.add_pool(workers);
    let (Ok(_), Ok(_)) = (
        builder.add(Growth { colony: 1 }, "", &[]),
        builder.add(Growth { colony: 2 }, "", &[]),
    ) else {
        return Err(AddError::Memory);
    };
    Ok(builder.build())
}

/// Opens a phase in which four entities may be created, and gives each colony a half of it.
///
/// Errors: `Stopped`, where the world has no entities, or for want of numbers or memory.
pub fn open(world: &mut World<Held>) -> Result<(), Stopped>
    ensures { OnOk result (Opens world.old world.new) }
{
    let Ok(seat) = world.open_phase(4) else {
        return Err(Stopped);
    };
    let Ok((one, other)) = seat.split(32_768, 2) else {
        return Err(Stopped);
    };
    let (Ok(()), Ok(())) = (
        world.insert_by_id(seat_of(1), one),
        world.insert_by_id(seat_of(2), other),
    ) else {
        return Err(Stopped);
    };
    Ok(())
}

/// Takes both seats out of the world, and ends the phase.
///
/// Errors: `Stopped`, for want of memory, or where a seat doesn't stand there.
pub fn gather(world: &mut World<Held>) -> Result<(), Stopped>
    requires { (one other : PhaseSeat) × Sits one other world.old × StaysIn one other }
    ensures { OnOk result ((one other : PhaseSeat) → Sits one other world.old → Gathers one other world.new) }
{
    let (Some(one), Some(other)) = (
        world.remove_by_id::<PhaseSeat>(seat_of(1)),
        world.remove_by_id::<PhaseSeat>(seat_of(2)),
    ) else {
        return Err(Stopped);
    };
    match one.join(other) {
        Ok(seat) => match world.close_phase(seat) {
            Ok(()) => Ok(()),
            Err(_) => Err(Stopped),
        },
        Err(_) => Err(Stopped),
    }
}

/// Both colonies grow, each once, in a stage of both.
///
/// Errors: `Stopped`, where a system was refused.
#[tactic(auto, using(crate::proofs::CrossingLemmas::held_sync))]
pub fn grow_both<R: AllocGlobal + Threads + Wait + Sync>(
    rt: &R,
    dispatcher: &mut Dispatcher<Held, Staged, NoLocal>,
    world: &mut World<Held>,
) -> Result<(), Stopped>
    requires { IsPair dispatcher.old }
    ensures { OnOk result (GrowsBoth world.old world.new) }
{
    match dispatcher.dispatch(rt, world) {
        Ok(()) => Ok(()),
        Err(_) => Err(Stopped),
    }
}

/// A phase is opened, both colonies grow in it, and it ends: the world's entities are those of before, with the births
/// and the deletions that both list.
///
/// Errors: `Stopped`, where a system or memory was wanting; the phase may be open then.
pub fn grow_apart<R: AllocGlobal + Threads + Wait + Sync>(
    rt: &R,
    dispatcher: &mut Dispatcher<Held, Staged, NoLocal>,
    world: &mut World<Held>,
) -> Result<(), Stopped>
    requires { IsPair dispatcher.old }
    ensures { OnOk result (GrowsApart world.old world.new) }
{
    open(world)?;
    grow_both(rt, dispatcher, world)?;
    gather(world)
}
