//! Types for builders that have no batches or no local systems.
ghost use Rattle.std.specs.Prelude.{◌≡◌, [], None};
ghost use Rattle.shred.specs.Nothing.{ChangesNothing, SetsUpNothing};

use crate::{BatchAccessor, BatchController, RunNow, RunningTime, StagesBuilder, Stop, System};
use shred_world::{Holder, World};
use std::alloc::{AllocError, Global};

/// The controllers of a builder without batches: `DispatcherBuilder<V, S, NoBatch, L>`.
///
/// One that is added all the same runs none of its stages.
#[derive(Clone, Copy, Debug, Default, PartialEq, Eq)]
pub struct NoBatch;

impl<V, S> BatchController<V, S> for NoBatch {
    ghost meets = { λ _ _ staging w refused _ staging_after w_after. ChangesNothing w refused w_after
        × (staging_after ≡ staging) };

    ghost read_list = { λ _. [] };

    ghost write_list = { λ _. [] };

    ghost said_time = { λ _. 1 };

    ghost sets_up = { λ _ accepted w _ w_after. SetsUpNothing accepted w w_after };

    fn run<H: AllocGlobal, W: Holder<V>>(
        &mut self,
        _rt: &H,
        _view: &mut W,
        _stages: &mut StagesBuilder<V, S>,
    ) -> Result<(), Stop>
    where
        V: Drop,
        S: System<V> + Drop,
    {
        Ok(())
    }

    fn running_time(&self) -> RunningTime {
        RunningTime::VeryShort
    }

    fn accessor(&self, alloc: Global) -> Result<BatchAccessor, AllocError> {
        Ok(BatchAccessor::new(Vec::new(alloc), Vec::new(alloc)))
    }

    fn setup(&mut self, _world: &mut World<V>) -> Result<(), AllocError> {
        Ok(())
    }
}

/// The local systems of a builder without any: `DispatcherBuilder<V, S, C, NoLocal>`.
///
/// One that is added all the same does nothing.
#[derive(Clone, Copy, Debug, Default, PartialEq, Eq)]
pub struct NoLocal;

impl<V> RunNow<V> for NoLocal {
    ghost meets = { λ _ w refused _ w_after. ChangesNothing w refused w_after };

    ghost sets_up = { λ _ accepted w _ w_after. SetsUpNothing accepted w w_after };

    ghost disposes = { λ _ refused w w_after. (refused ≡ None) × (w_after ≡ w) };

    fn run_now<H: AllocGlobal, W: Holder<V>>(
        &mut self,
        _rt: &H,
        _world: &mut W,
    ) -> Result<(), Stop> {
        Ok(())
    }

    fn setup(&mut self, _world: &mut World<V>) -> Result<(), AllocError> {
        Ok(())
    }

    fn dispose(self, _world: &mut World<V>) -> Result<(), Stop> {
        Ok(())
    }
}
