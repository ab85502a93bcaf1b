//! Systems of two types side by side.
ghost use Rattle.shred.specs.Eithers.{said_of, EitherDoes, EitherDisposes};

use crate::{BatchAccessor, RunNow, RunningTime, Stop, System};
use shred_world::{Holder, World};
use std::alloc::{AllocError, Global};

/// A system of one type, or of another: a dispatcher whose systems have several types holds
/// `Either<Mover, Either<Scorer, Hastener>>`, and needs no enum of its own.
///
/// It is a local system, too, where both are.
#[derive(Clone, Copy, Debug, PartialEq, Eq, Drop)]
pub enum Either<L, R> {
    /// The one.
    Left(L),
    /// The other, which may again be either of two.
    Right(R),
}

impl<V, L: System<V>, R: System<V>> System<V> for Either<L, R> {
    ghost meets = { EitherDoes L.meets R.meets };

    ghost read_list = { said_of L.read_list R.read_list };

    ghost write_list = { said_of L.write_list R.write_list };

    ghost said_time = { said_of L.said_time R.said_time };

    ghost sets_up = { EitherDoes L.sets_up R.sets_up };

    ghost disposes = { EitherDisposes L.disposes R.disposes };

    fn run<H: AllocGlobal, W: Holder<V>>(&mut self, rt: &H, view: &mut W) -> Result<(), Stop> {
        match self {
            Either::Left(system) => system.run(rt, view),
            Either::Right(system) => system.run(rt, view),
        }
    }

    fn running_time(&self) -> RunningTime {
        match self {
            Either::Left(system) => system.running_time(),
            Either::Right(system) => system.running_time(),
        }
    }

    fn accessor(&self, alloc: Global) -> Result<BatchAccessor, AllocError> {
        match self {
            Either::Left(system) => system.accessor(alloc),
            Either::Right(system) => system.accessor(alloc),
        }
    }

    fn setup(&mut self, world: &mut World<V>) -> Result<(), AllocError> {
        match self {
            Either::Left(system) => system.setup(world),
            Either::Right(system) => system.setup(world),
        }
    }

    fn dispose(self, world: &mut World<V>) -> Result<(), Stop> {
        match self {
            Either::Left(system) => system.dispose(world),
            Either::Right(system) => system.dispose(world),
        }
    }
}

impl<V, L: RunNow<V>, R: RunNow<V>> RunNow<V> for Either<L, R> {
    ghost meets = { EitherDoes L.meets R.meets };

    ghost sets_up = { EitherDoes L.sets_up R.sets_up };

    ghost disposes = { EitherDisposes L.disposes R.disposes };

    fn run_now<H: AllocGlobal, W: Holder<V>>(&mut self, rt: &H, world: &mut W) -> Result<(), Stop> {
        match self {
            Either::Left(local) => local.run_now(rt, world),
            Either::Right(local) => local.run_now(rt, world),
        }
    }

    fn setup(&mut self, world: &mut World<V>) -> Result<(), AllocError> {
        match self {
            Either::Left(local) => local.setup(world),
            Either::Right(local) => local.setup(world),
        }
    }

    fn dispose(self, world: &mut World<V>) -> Result<(), Stop> {
        match self {
            Either::Left(local) => local.dispose(world),
            Either::Right(local) => local.dispose(world),
        }
    }
}
