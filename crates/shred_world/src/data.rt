//! Bundles of resources: what they need, what they take out, and what giving them back leaves.
ghost use Rattle.std.specs.Prelude.{◌≡◌, Bool, Option, Some, None, List, OnOk, OnErr, IfOk, IfErr, is_ok};
ghost use Rattle.shred_world.specs.declared.resource_id.ResourceId.{ResourceId as Id};
ghost use Rattle.shred_world.specs.Worlds.{Slots};
ghost use Rattle.shred_world.specs.Bundles.{Holding};
ghost use Rattle.shred_world.specs.BundleLaws.{IsLawful};

pub(crate) mod optional;
pub(crate) mod read;
pub(crate) mod tuples;
pub(crate) mod write;

use crate::{Holder, ResourceId, World};
use std::alloc::{AllocError, Global};
use thiserror::Error;

/// A bundle's resource isn't there.
#[derive(Clone, Copy, Debug, PartialEq, Eq, Drop, Error)]
#[error("no resource of kind {kind} under number {dynamic}", kind = .id.kind, dynamic = .id.dynamic)]
pub struct Missing {
    /// The id under which it was asked for.
    pub id: ResourceId,
}

/// Why a bundle wasn't handed to a closure.
#[derive(Clone, Copy, Debug, PartialEq, Eq, Error)]
pub enum ExecError {
    /// The setup found no memory.
    #[error("out of memory")]
    Memory,
    /// A resource is wanting.
    #[error(transparent)]
    Missing(Missing),
}

/// A bundle of resources, fetched from a holder, used, and spent by giving it back.
///
/// What a bundle writes is taken out of the holder while the bundle is used, and comes back with `give_back`; what it
/// reads stays in the holder.
pub trait SystemData<V>: Sized {
    /// The ids that the bundle reads, in order.
    ghost read_ids: { List Id };

    /// The ids that it writes, in order.
    ghost write_ids: { List Id };

    /// What `setup` makes of a world, where it is accepted and where memory is wanting.
    ghost sets_up: { Bool → Slots V → Slots V → Type 0 };

    /// The first id whose resource is wanting.
    ghost lack: { Holding V → Option Id };

    /// What an accepted `fetch` leaves in the holder.
    ghost left: { Holding V → Holding V };

    /// What is known of a bundle by the slots from which it was fetched.
    ghost fits: { Self → Holding V → Type 0 };

    /// What giving the bundle back makes of the holder.
    ghost given: { Self → Holding V → Holding V };

    /// Whether what the bundle took out is still out.
    ghost can_give: { Self → Holding V → Type 0 };

    /// Whether the second bundle may be given back in the place of the first: what was there is there.
    ghost alike: { Self → Self → Type 0 };

    /// Sets up each resource in turn. Errors: want of memory; the resources before the refused one are set up.
    fn setup(world: &mut World<V>) -> Result<(), AllocError>
        ensures { sets_up (is_ok result) world.old world.new };

    /// Fetches the bundle. Errors: `Missing`, with the first id whose resource is wanting; the holder is as it was.
    fn fetch<H: Holder<V>>(holder: &mut H) -> Result<Self, Missing>
        ensures found { OnOk result (lack (H.slots holder.old) ≡ None) }
        ensures missing { IfErr result (λ refused. lack (H.slots holder.old) ≡ Some refused.id) }
        ensures ok { OnOk result (H.slots holder.new ≡ left (H.slots holder.old)) }
        ensures err { OnErr result (H.slots holder.new ≡ H.slots holder.old) }

        // The bundle is what stood there: given back at once it leaves all as it was.
        ensures fits { IfOk result (λ bundle. fits bundle (H.slots holder.old)) }
        ensures has { IfOk result (λ bundle. given bundle (H.slots holder.new) ≡ H.slots holder.old) }
        ensures can { IfOk result (λ bundle. can_give bundle (H.slots holder.new)) };

    /// Spends the bundle: the holder then has what it wrote.
    fn give_back<H: Holder<V>>(self, holder: &mut H)
        requires can { can_give self (H.slots holder.old) }
        ensures { H.slots holder.new ≡ given self (H.slots holder.old) };

    /// The ids that the bundle reads.
    fn reads(alloc: Global) -> Result<Vec<ResourceId>, AllocError>
        ensures { IfOk result (λ ids. ids.items ≡ read_ids) };

    /// The ids that it writes.
    fn writes(alloc: Global) -> Result<Vec<ResourceId>, AllocError>
        ensures { IfOk result (λ ids. ids.items ≡ write_ids) };

    /// Fetching and giving back leave each id that the bundle doesn't write. A bundle that was fetched and then changed
    /// may be given back, and each value that was taken out has then come back, or another in its place.
    ghost lawful: { IsLawful write_ids left fits given can_give alike };
}
