//! What runs over all values that are held, on the caller's thread.
ghost use Rattle.std.specs.Prelude.{◌≡◌, is_ok};
ghost use Rattle.shred_stages.specs.Views.{Leaves, error_of};

use crate::Stop;
use shred_world::{Holder, World};
use std::alloc::AllocError;

/// Work that is lent all values that are held: it may read each, and take each out to put it or another back.
///
/// No id comes or goes.
pub trait RunNow<V>: Sized {
    ghost use Rattle.std.specs.Prelude.{Bool, Option};
    ghost use Rattle.shred_world.specs.Worlds.{Slots};
    ghost use Rattle.shred_world.specs.Bundles.{Holding};
    ghost use Rattle.shred_stages.specs.declared.stop.Stop.{Stop as Refusal};

    /// What a run may do: the state before, what is held, why it refuses, the state after, and what is then held.
    ghost meets: { Self → Holding V → Option Refusal → Self → Holding V → Type 0 };

    /// What a setup may do: the state before, whether it is accepted, the world before, the state and the world after.
    ghost sets_up: { Self → Bool → Slots V → Self → Slots V → Type 0 };

    /// What letting it go may do: the state, why it refuses, the world before and after.
    ghost disposes: { Self → Option Refusal → Slots V → Slots V → Type 0 };

    /// Runs it over all that is held.
    ///
    /// Errors: a `Stop`, by its own rules.
    fn run_now<H: AllocGlobal, W: Holder<V>>(&mut self, rt: &H, world: &mut W) -> Result<(), Stop>
        ensures meets { meets self.old (W.slots world.old) (error_of result) self.new (W.slots world.new) }
        ensures leaves { Leaves (W.slots world.old) (W.slots world.new) };

    /// Sets up the resources that it needs. Errors: want of memory, by its own rules.
    fn setup(&mut self, world: &mut World<V>) -> Result<(), AllocError>
        ensures { sets_up self.old (is_ok result) world.old self.new world.new };

    /// Lets it go, with what it has to do in the world before. Errors: a `Stop`, by its own rules.
    fn dispose(self, world: &mut World<V>) -> Result<(), Stop>
        ensures { disposes self (error_of result) world.old world.new };
}
