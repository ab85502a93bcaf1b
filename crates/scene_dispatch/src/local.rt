//! Systems of rules at their positions, as local ones.
ghost use Rattle.std.specs.Prelude.{◌≡◌, true, None};
ghost use Rattle.shred_stages.specs.Runs.{Step};

use scene_world::{Placed, Rules};
use shred::RunNow;
use shred_stages::{Stop, System, run_alone};
use shred_world::{Holder, World};
use std::alloc::AllocError;

/// A system at its position that runs on the caller's thread: it is lent what it declares of what is held, and what it
/// wrote comes back there.
#[derive(Drop)]
pub struct PlacedLocal<R: Rules> {
    /// The system at its position.
    pub placed: Placed<R>,
}

impl<R: Rules> RunNow<R::Value> for PlacedLocal<R>
where
    R::Value: Drop,
{
    ghost meets = { λ local w refused left w_after. Step ⟦<Placed<R> as System<R::Value>>⟧.meets
        (⟦<Placed<R> as System<R::Value>>⟧.read_list local.placed)
        (⟦<Placed<R> as System<R::Value>>⟧.write_list local.placed) local.placed w refused left.placed w_after };

    ghost sets_up = { λ local accepted world after later. (accepted ≡ true) × (after ≡ local) × (later ≡ world) };

    ghost disposes = { λ local refused world later. (refused ≡ None) × (later ≡ world) };

    fn run_now<H: AllocGlobal, W: Holder<R::Value>>(
        &mut self,
        rt: &H,
        world: &mut W,
    ) -> Result<(), Stop> {
        match run_alone(rt, &mut self.placed, world) {
            Ok(outcome) => outcome,
            Err(_) => Err(Stop::Memory),
        }
    }

    fn setup(&mut self, _world: &mut World<R::Value>) -> Result<(), AllocError> {
        Ok(())
    }

    fn dispose(self, _world: &mut World<R::Value>) -> Result<(), Stop> {
        drop(self);
        Ok(())
    }
}
