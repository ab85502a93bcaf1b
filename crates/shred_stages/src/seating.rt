//! Lending values to what runs over a view: out of a world into a seat, and back.
ghost use Rattle.std.specs.Prelude.{◌≡◌, IfOk};
ghost use Rattle.shred_world.specs.declared.resource_id.ResourceId.{ResourceId as Id};
ghost use Rattle.shred_stages.specs.Views.{FitsSeat};
ghost use Rattle.shred_stages.specs.ViewParts.{world_of, reads_of, writes_of, seat_of};
ghost use Rattle.shred_stages.specs.Moves.{IsSeat, HasSlots, left_of, moved_to};

use crate::seat::seat_for;
use crate::{View, moves};
use shred_world::{Holder, ResourceId, World};
use std::alloc::{AllocError, Global};

/// A seat with an empty slot for each id that is written.
///
/// Errors: want of memory.
pub fn make_seat<V: Drop>(alloc: Global, writes: &[ResourceId]) -> Result<World<V>, AllocError>
    ensures { IfOk result (IsSeat writes.now) }
{
    seat_for(alloc, writes)
}

/// Moves the values of some ids, where they may be taken, into the empty slots of another holder.
pub fn move_values<V, A: Holder<V>, B: Holder<V>>(from: &mut A, to: &mut B, ids: &[ResourceId])
    requires slots { HasSlots ids.now (A.slots from.old) (B.slots to.old) }
    ensures from { (id : Id) → A.slots from.new id ≡ left_of ids.now (A.slots from.old) id }
    ensures to { (id : Id) → B.slots to.new id ≡ moved_to ids.now (A.slots from.old) (B.slots to.old) id }
{
    moves::move_values(from, to, ids);
}

impl<'w, V, W: Holder<V>> View<'w, V, W> {
    /// The view of the values that are read in a world and those in a seat.
    pub fn over(
        world: &'w W,
        reads: &'w [ResourceId],
        writes: &'w [ResourceId],
        seat: World<V>,
    ) -> View<'w, V, W>
        requires seated { FitsSeat writes.now seat }
        ensures world { (world_of result).now ≡ world.entry.now }
        ensures reads { (reads_of result).now ≡ reads.entry.now }
        ensures writes { (writes_of result).now ≡ writes.entry.now }
        ensures seat { seat_of result ≡ seat }
    {
        View {
            world,
            reads,
            writes,
            seat,
        }
    }

    /// The seat of the view, with the values that come back.
    pub fn into_seat(self) -> World<V>
        ensures { result ≡ seat_of self.entry }
    {
        let View {
            world: _,
            reads: _,
            writes: _,
            seat,
        } = self;
        seat
    }
}
