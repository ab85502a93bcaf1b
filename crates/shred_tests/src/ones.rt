//! What callers of a dispatcher of one system know of what it did, whatever the number of workers.
ghost use Rattle.std.specs.Prelude.{IfOk, OnOk};
ghost use Rattle.shred_world.specs.Bundles.{holding_of};
ghost use Rattle.shred_tests.specs.Chores.{Moves};
ghost use Rattle.shred_tests.specs.Ones.{IsOne};

use crate::chores::Chore;
use crate::threes::Staged;
use crate::values::Value;
use shred::{AddError, DispatchError, Dispatcher, DispatcherBuilder, NoBatch, NoLocal, World};
use std::alloc::Global;
use std::sync::Wait;
use std::thread::Threads;

/// A dispatcher of the system that moves, for a number of workers.
///
/// Errors: `Memory`.
pub fn one(alloc: Global, workers: usize) -> Result<Dispatcher<Value, Staged, NoLocal>, AddError>
    ensures { IfOk result (λ dispatcher. IsOne dispatcher) }
{
    let mut builder: DispatcherBuilder<Value, Chore, NoBatch, NoLocal> = DispatcherBuilder::new(
        alloc,
    );
    builder.add_pool(workers);
    let Ok(_) = builder.add(Chore::Moving, "", &[]) else {
        return Err(AddError::Memory);
    };
    Ok(builder.build())
}

/// Dispatches the system: accepted, the number gained the speed.
///
/// Errors: those of `dispatch`.
pub fn turn_one<R: AllocGlobal + Threads + Wait + Sync>(
    rt: &R,
    dispatcher: &mut Dispatcher<Value, Staged, NoLocal>,
    world: &mut World<Value>,
) -> Result<(), DispatchError>
    requires one { IsOne dispatcher.old }
    ensures moved { OnOk result (Moves (holding_of world.old) (holding_of world.new)) }
{
    dispatcher.dispatch(rt, world)
}
