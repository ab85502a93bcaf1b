//! Who has a part in a column, as a system sees it.
ghost use Rattle.std.specs.Prelude.{◌≡◌, IfOk};
ghost use Rattle.scene_world.specs.Known.{roll_held};
ghost use Rattle.scene_world.specs.Columns.{column_in, column_held, ids_having};

use super::Column;
use crate::SceneValue;
use crate::known::ids_in_order;
use shred_world::{Holder, Resource, ResourceId};
use std::alloc::{AllocError, Global};

/// The ids of those that have a part in a column, in their order; none where no such column is seen.
///
/// Errors: want of memory.
pub fn ids_with<S: Column + Resource<V>, V: SceneValue<S::Data>, W: Holder<V>>(
    alloc: Global,
    view: &W,
) -> Result<Vec<u64>, AllocError>
    ensures { IfOk result (λ ids. ids.items
        ≡ ids_having (roll_held ⟦<V as SceneValue<S::Data>>⟧.places (W.slots view.now))
        (column_held (column_in S.part S.stored_at) S.kind_number (W.slots view.now))) }
{
    let Some(value) = view.value(ResourceId::new::<V, S>()) else {
        return Ok(Vec::new(alloc));
    };
    let Some(parts) = S::view(value) else {
        return Ok(Vec::new(alloc));
    };
    let indices = parts.indices(alloc)?;
    ids_in_order::<V, S::Data, W>(alloc, view, indices.as_slice())
}
