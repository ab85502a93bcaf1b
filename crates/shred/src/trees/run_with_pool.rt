//! What runs as a tree of systems.
ghost use Rattle.std.specs.Prelude.{◌≡◌, ◌++◌, is_ok, OnOk};
ghost use Rattle.shred_world.specs.declared.resource_id.ResourceId.{ResourceId as Id};
ghost use Rattle.shred_stages.specs.Views.{error_of};
ghost use Rattle.shred.specs.Trees.{StaysWithin, SeesWhatItDeclares};

use shred_stages::Stop;
use shred_world::{Holder, ResourceId, World};
use std::alloc::AllocError;

/// A tree of systems: a `Leaf` is one, and so are `Par` and `Seq` of two trees.
pub trait RunWithPool<V>: Sized {
    ghost use Rattle.std.specs.Prelude.{Bool, Option, List};
    ghost use Rattle.shred_world.specs.Worlds.{Slots};
    ghost use Rattle.shred_world.specs.Bundles.{Holding};
    ghost use Rattle.shred_stages.specs.declared.stop.Stop.{Stop as Refusal};

    /// What a run may do: the tree before, what is held, why it refuses, the tree after, and what is then held.
    ghost meets: { Self → Holding V → Option Refusal → Self → Holding V → Type 0 };

    /// The ids that it reads, in order.
    ghost read_list: { Self → List Id };

    /// The ids that it writes, in order.
    ghost write_list: { Self → List Id };

    /// What a setup may do: the tree before, whether it is accepted, the world before, the tree and the world after.
    ghost sets_up: { Self → Bool → Slots V → Self → Slots V → Type 0 };

    /// Sets its systems up in their order, up to the first that finds no memory. Errors: that want of memory.
    fn setup(&mut self, world: &mut World<V>) -> Result<(), AllocError>
        ensures meets { sets_up self.old (is_ok result) world.old self.new world.new }

        // It declares what it declared.
        ensures reads { read_list self.new ≡ read_list self.old }
        ensures writes { write_list self.new ≡ write_list self.old };

    /// Runs it on the caller's thread.
    ///
    /// Errors: a `Stop`, by the tree's rules.
    fn run<H: AllocGlobal, W: Holder<V>>(&mut self, rt: &H, world: &mut W) -> Result<(), Stop>
    where
        V: Drop,
        ensures meets { meets self.old (W.slots world.old) (error_of result) self.new (W.slots world.new) }
        ensures reads { read_list self.new ≡ read_list self.old }
        ensures writes { write_list self.new ≡ write_list self.old };

    /// Puts the ids that it reads at the end of a list.
    ///
    /// Errors: want of memory; the list has some of them at its end.
    fn reads(&self, ids: &mut Vec<ResourceId>) -> Result<(), AllocError>
        ensures { OnOk result (ids.new.items ≡ ids.old.items ++ read_list self.now) };

    /// Puts the ids that it writes at the end of a list.
    ///
    /// Errors: want of memory; the list has some of them at its end.
    fn writes(&self, ids: &mut Vec<ResourceId>) -> Result<(), AllocError>
        ensures { OnOk result (ids.new.items ≡ ids.old.items ++ write_list self.now) };

    /// A run leaves the same ids, and writes none but those that it declares.
    ghost stays_within: { StaysWithin meets write_list };

    /// A run goes the same way over any state that has the same values under what it declares.
    ghost sees_what_it_declares: { SeesWhatItDeclares meets read_list write_list };
}
