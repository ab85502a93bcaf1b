//! Slots for more indices.
ghost use Rattle.std.specs.Prelude.{◌≡◌, ◌≤◌, ℕ, length, OnOk, slice_get};
ghost use Rattle.scene_model.specs.Slots.{filled};

use std::alloc::AllocError;

/// Makes slots for so many indices, the new ones empty. What stands in a slot stays.
///
/// Errors: want of memory; there may be more slots than before.
pub(crate) fn lengthen<X: Drop>(slots: &mut Vec<Option<X>>, count: usize) -> Result<(), AllocError>
    ensures same { (index : ℕ) → filled (slice_get slots.new.items index) ≡ filled (slice_get slots.old.items index) }
    ensures longer { length slots.old.items ≤ length slots.new.items }
    ensures ok { OnOk result (count ≤ length slots.new.items) }
{
    let missing = count.saturating_sub(slots.len());
    slots.reserve(missing)?;
    for _ in 0..missing {
        slots.push(None)?;
    }
    Ok(())
}
