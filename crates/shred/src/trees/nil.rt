//! The system that does nothing.
ghost use Rattle.std.specs.Prelude.{◌≡◌, [], None, true};
ghost use Rattle.shred.specs.TreeLaws.{idle-within, idle-sees};

use crate::trees::RunWithPool;
use shred_plan::RunningTime;
use shred_stages::{BatchAccessor, Stop, System};
use shred_world::{Holder, ResourceId, World};
use std::alloc::{AllocError, Global};

/// The system that does nothing: the tail of a `Par` or a `Seq` that has one half alone.
#[derive(Clone, Copy, Debug, PartialEq, Eq)]
pub struct Nil;

impl<V> System<V> for Nil {
    ghost meets = { λ _ w refused _ w_after. (refused ≡ None) × (w_after ≡ w) };

    ghost read_list = { λ _. [] };

    ghost write_list = { λ _. [] };

    ghost said_time = { λ _. 3 };

    ghost sets_up = { λ _ accepted w _ w_after. (accepted ≡ true) × (w_after ≡ w) };

    ghost disposes = { λ _ refused w w_after. (refused ≡ None) × (w_after ≡ w) };

    fn run<H: AllocGlobal, W: Holder<V>>(&mut self, _rt: &H, _view: &mut W) -> Result<(), Stop> {
        Ok(())
    }

    fn running_time(&self) -> RunningTime {
        RunningTime::Average
    }

    fn accessor(&self, alloc: Global) -> Result<BatchAccessor, AllocError> {
        Ok(BatchAccessor::new(Vec::new(alloc), Vec::new(alloc)))
    }

    fn setup(&mut self, _world: &mut World<V>) -> Result<(), AllocError> {
        Ok(())
    }

    fn dispose(self, _world: &mut World<V>) -> Result<(), Stop> {
        Ok(())
    }
}

impl<V> RunWithPool<V> for Nil {
    ghost meets = { λ _ w refused _ w_after. (refused ≡ None) × (w_after ≡ w) };

    ghost read_list = { λ _. [] };

    ghost write_list = { λ _. [] };

    ghost sets_up = { λ _ accepted w _ w_after. (accepted ≡ true) × (w_after ≡ w) };

    ghost stays_within = { idle-within };

    ghost sees_what_it_declares = { idle-sees };

    fn setup(&mut self, _world: &mut World<V>) -> Result<(), AllocError> {
        Ok(())
    }

    fn run<H: AllocGlobal, W: Holder<V>>(&mut self, _rt: &H, _world: &mut W) -> Result<(), Stop>
    where
        V: Drop,
    {
        Ok(())
    }

    fn reads(&self, _ids: &mut Vec<ResourceId>) -> Result<(), AllocError> {
        Ok(())
    }

    fn writes(&self, _ids: &mut Vec<ResourceId>) -> Result<(), AllocError> {
        Ok(())
    }
}
