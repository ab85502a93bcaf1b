//! Trees as local systems.
ghost use Rattle.std.specs.Prelude.{◌≡◌, None};

use crate::trees::{ParSeq, RunWithPool};
use crate::{RunNow, Stop};
use shred_world::{Holder, World};
use std::alloc::AllocError;

/// A tree runs on the caller's thread where it is a local system; letting it go does nothing.
impl<V: Drop, T: RunWithPool<V> + Drop> RunNow<V> for ParSeq<T> {
    ghost meets = { λ before w refused after w_after. T.meets before.tree w refused after.tree w_after
        × (after.workers ≡ before.workers) };

    ghost sets_up = { λ before accepted w after w_after. T.sets_up before.tree accepted w after.tree w_after
        × (after.workers ≡ before.workers) };

    ghost disposes = { λ _ refused w w_after. (refused ≡ None) × (w_after ≡ w) };

    fn run_now<H: AllocGlobal, W: Holder<V>>(&mut self, rt: &H, world: &mut W) -> Result<(), Stop> {
        self.dispatch_here(rt, world)
    }

    fn setup(&mut self, world: &mut World<V>) -> Result<(), AllocError> {
        ParSeq::setup(self, world)
    }

    fn dispose(self, _world: &mut World<V>) -> Result<(), Stop> {
        Ok(())
    }
}
