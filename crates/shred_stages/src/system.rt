//! What a system is.
ghost use Rattle.std.specs.Prelude.{◌≡◌, IfOk, is_ok};
ghost use Rattle.shred_world.specs.declared.resource_id.ResourceId.{ResourceId as Id};
ghost use Rattle.shred_plan.specs.Plan.{units_of};
ghost use Rattle.shred_stages.specs.Views.{Leaves, error_of};

use crate::{BatchAccessor, Stop};
use shred_plan::RunningTime;
use shred_world::{Holder, World};
use std::alloc::{AllocError, Global};

/// Work over the resources that it declares.
pub trait System<V>: Sized {
    ghost use Rattle.std.specs.Prelude.{ℕ, Bool, Option, List};
    ghost use Rattle.shred_world.specs.Worlds.{Slots};
    ghost use Rattle.shred_world.specs.Bundles.{Holding};
    ghost use Rattle.shred_stages.specs.declared.stop.Stop.{Stop as Refusal};

    /// What a run may do: the system before, what it sees, why it refuses, the system after, and what it leaves.
    ghost meets: { Self → Holding V → Option Refusal → Self → Holding V → Type 0 };

    /// The ids that it reads, in order.
    ghost read_list: { Self → List Id };

    /// The ids that it writes, in order.
    ghost write_list: { Self → List Id };

    /// How many units of time it is said to run.
    ghost said_time: { Self → ℕ };

    /// What a setup may do: the system before, whether it is accepted, the world before, the system and the world after.
    ghost sets_up: { Self → Bool → Slots V → Self → Slots V → Type 0 };

    /// What letting it go may do: the system, why it refuses, the world before and after.
    ghost disposes: { Self → Option Refusal → Slots V → Slots V → Type 0 };

    /// Runs it over a view of what it declares.
    ///
    /// Errors: a `Stop`, by the system's own rules.
    fn run<H: AllocGlobal, W: Holder<V>>(&mut self, rt: &H, view: &mut W) -> Result<(), Stop>
        ensures meets { meets self.old (W.slots view.old) (error_of result) self.new (W.slots view.new) }

        // Each value that it took out has come back, or another in its place, and the others are as they were.
        ensures leaves { Leaves (W.slots view.old) (W.slots view.new) }

        // It declares what it declared.
        ensures reads { read_list self.new ≡ read_list self.old }
        ensures writes { write_list self.new ≡ write_list self.old };

    /// How long it is said to run.
    fn running_time(&self) -> RunningTime
        ensures { units_of result ≡ said_time self.now };

    /// The ids that it reads and writes.
    ///
    /// Errors: want of memory.
    fn accessor(&self, alloc: Global) -> Result<BatchAccessor, AllocError>
        ensures reads { IfOk result (λ access. access.reads ≡ read_list self.now) }
        ensures writes { IfOk result (λ access. access.writes ≡ write_list self.now) };

    /// Sets up the resources that it needs. Errors: want of memory, by the system's own rules.
    fn setup(&mut self, world: &mut World<V>) -> Result<(), AllocError>
        ensures meets { sets_up self.old (is_ok result) world.old self.new world.new }

        // It declares what it declared.
        ensures reads { read_list self.new ≡ read_list self.old }
        ensures writes { write_list self.new ≡ write_list self.old };

    /// Lets it go, with what it has to do in the world before. Errors: a `Stop`, by the system's own rules.
    fn dispose(self, world: &mut World<V>) -> Result<(), Stop>
        ensures { disposes self (error_of result) world.old world.new };
}
