//! Seats for the values that a system or a group writes.
ghost use Rattle.std.specs.Prelude.{IfOk};
ghost use Rattle.shred_stages.specs.Moves.{IsSeat};

use shred_world::{ResourceId, World};
use std::alloc::{AllocError, Global};

/// A seat with an empty slot for each id that is written.
///
/// Errors: want of memory.
pub(crate) fn seat_for<V: Drop>(
    alloc: Global,
    writes: &[ResourceId],
) -> Result<World<V>, AllocError>
    ensures { IfOk result (IsSeat writes.now) }
{
    let mut seat = World::empty(alloc);
    for id in writes {
        seat.make_slot(*id)?;
    }
    Ok(seat)
}
