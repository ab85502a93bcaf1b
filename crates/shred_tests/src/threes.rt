//! What callers of a dispatcher know of what three systems did, whatever the number of workers, and in either order of
//! two.
ghost use Rattle.std.specs.Prelude.{◌≡◌, [], ◌∷◌, IfOk, OnOk};
ghost use Rattle.shred_world.specs.Bundles.{holding_of};
ghost use Rattle.shred_tests.specs.Chores.{Moves};
ghost use Rattle.shred_tests.specs.Threes.{IsThree, TurnsAlong, Turned, moving, scoring, hastening};

use crate::chores::Chore;
use crate::values::Value;
use shred::{
    AddError, Batch, DispatchError, Dispatcher, DispatcherBuilder, NoBatch, NoLocal, Stop, System,
    Work, World, run_alone,
};
use std::alloc::{AllocError, Global};
use std::sync::Wait;
use std::thread::Threads;

/// What the three systems stand in.
pub type Staged = Work<Chore, Batch<Value, Chore, NoBatch>>;

/// A dispatcher of the three systems, for a number of workers.
pub fn three(alloc: Global, workers: usize) -> Result<Dispatcher<Value, Staged, NoLocal>, AddError>
    ensures { IfOk result (λ dispatcher. IsThree dispatcher) }
{
    let mut builder: DispatcherBuilder<Value, Chore, NoBatch, NoLocal> = DispatcherBuilder::new(
        alloc,
    );
    builder.add_pool(workers);
    let (Ok(_), Ok(_), Ok(_)) = (
        builder.add(Chore::Moving, "", &[]),
        builder.add(Chore::Scoring, "", &[]),
        builder.add(Chore::Hastening, "", &[]),
    ) else {
        return Err(AddError::Memory);
    };
    Ok(builder.build())
}

/// Dispatches the three systems: accepted, it made of the world what they make of it one after the other, for every
/// number of workers.
///
/// Errors: those of `dispatch`.
pub fn turn<R: AllocGlobal + Threads + Wait + Sync>(
    rt: &R,
    dispatcher: &mut Dispatcher<Value, Staged, NoLocal>,
    world: &mut World<Value>,
) -> Result<(), DispatchError>
    requires three { IsThree dispatcher.old }
    ensures turned { OnOk result (Turned (holding_of world.old) (holding_of world.new)) }
{
    dispatcher.dispatch(rt, world)
}

/// Dispatches the three systems on the caller's thread: accepted, it made of the world what they make of it one after the
/// other.
///
/// Errors: those of `dispatch_seq`.
pub fn turn_here<H: AllocGlobal>(
    rt: &H,
    dispatcher: &mut Dispatcher<Value, Staged, NoLocal>,
    world: &mut World<Value>,
) -> Result<(), DispatchError>
    requires three { IsThree dispatcher.old }
    ensures turned { OnOk result (Turned (holding_of world.old) (holding_of world.new)) }
{
    dispatcher.dispatch_seq(rt, world)
}

/// Dispatches the three systems: accepted, two of them may as well have run the other way round, and the world would be
/// this one.
///
/// Errors: those of `dispatch_par`.
pub fn turn_in_either_order<R: AllocGlobal + Threads + Wait + Sync>(
    rt: &R,
    dispatcher: &mut Dispatcher<Value, Staged, NoLocal>,
    world: &mut World<Value>,
) -> Result<(), DispatchError>
    requires three { IsThree dispatcher.old }
    ensures one { OnOk result (TurnsAlong ⟦<Staged as System<Value>>⟧.meets (moving ∷ scoring ∷ hastening ∷ [])
        dispatcher.old (holding_of world.old) dispatcher.new (holding_of world.new)) }
    ensures other { OnOk result (TurnsAlong ⟦<Staged as System<Value>>⟧.meets (scoring ∷ moving ∷ hastening ∷ [])
        dispatcher.old (holding_of world.old) dispatcher.new (holding_of world.new)) }
{
    dispatcher.dispatch_par(rt, world)
}

/// Runs the first of the three over a world, without a dispatcher.
///
/// Errors: want of memory.
pub fn move_alone<H: AllocGlobal>(
    rt: &H,
    world: &mut World<Value>,
) -> Result<Result<(), Stop>, AllocError>
    ensures { IfOk result (λ outcome. OnOk outcome (Moves (holding_of world.old) (holding_of world.new))) }
{
    let mut chore = Chore::Moving;
    run_alone(rt, &mut chore, world)
}
