//! Two systems of two types in one dispatcher, and a local one of the first of these types: no enum says which is which.
ghost use Rattle.std.specs.Prelude.{◌≡◌, ◌∷◌, [], None, IfOk, OnOk};
ghost use Rattle.shred_world.specs.Bundles.{holding_of};
ghost use Rattle.shred_tests.specs.Sides.{AreSides, GoesRound};

use crate::bundled::{Advance, Advanced};
use crate::values::{Score, Value};
use shred::{
    AddError, Batch, BundleChange, Bundled, DispatchError, Dispatcher, DispatcherBuilder, Either,
    Holder, NoBatch, Stop, Work, World, Write,
};
use std::alloc::Global;
use std::sync::Wait;
use std::thread::Threads;

/// Adds one to the score.
#[derive(Drop)]
pub struct Win;

/// What a win changes.
pub type Won = (Write<Score>,);

impl BundleChange<Value, Won> for Win {
    ghost use Rattle.shred_tests.specs.Sides.{score_with_one};

    ghost becomes = { λ _ bundle _ refused _ changed. (refused ≡ None)
        × (changed.0.value ≡ score_with_one bundle.0.value) };

    fn change<W: Holder<Value>>(&mut self, bundle: &mut Won, _view: &W) -> Result<(), Stop> {
        bundle.0.value.0 = bundle.0.value.0.wrapping_add(1);
        Ok(())
    }
}

/// Adds the speed to the number, as a system.
pub type Advancing = Bundled<Advanced, Advance>;

/// Adds one to the score, as a system.
pub type Winning = Bundled<Won, Win>;

/// Either of the two.
pub type Side = Either<Advancing, Winning>;

/// What the two stand in.
pub type Sided = Work<Side, Batch<Value, Side, NoBatch>>;

/// A dispatcher of both, and of a local system that advances once more, for a number of workers.
///
/// Errors: `Memory`.
pub fn sides(alloc: Global, workers: usize) -> Result<Dispatcher<Value, Sided, Advancing>, AddError>
    ensures { IfOk result (λ dispatcher. AreSides dispatcher) }
{
    let mut builder: DispatcherBuilder<Value, Side, NoBatch, Advancing> = DispatcherBuilder::new(
        alloc,
    );
    builder.add_pool(workers);
    let (Ok(_), Ok(_), Ok(())) = (
        builder.add(Either::Left(Bundled::new(Advance)), "", &[]),
        builder.add(Either::Right(Bundled::new(Win)), "", &[]),
        builder.add_thread_local(Bundled::new(Advance)),
    ) else {
        return Err(AddError::Memory);
    };
    Ok(builder.build())
}

/// Dispatches them: accepted, the number gained the speed, the score one, and the number the speed again, for every
/// number of workers.
///
/// Errors: those of `dispatch`.
pub fn go_round<R: AllocGlobal + Threads + Wait + Sync>(
    rt: &R,
    dispatcher: &mut Dispatcher<Value, Sided, Advancing>,
    world: &mut World<Value>,
) -> Result<(), DispatchError>
    requires sides { AreSides dispatcher.old }
    ensures round { OnOk result (GoesRound (holding_of world.old) (holding_of world.new)) }
{
    dispatcher.dispatch(rt, world)
}
