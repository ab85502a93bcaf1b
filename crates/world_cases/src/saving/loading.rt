//! What a loader has of `retrieve_entity`, from its contract alone.
ghost use Rattle.std.specs.Prelude.{◌≡◌, ◌≢◌, None, Some, IfOk};

use specs_entity::{EntitiesRes, Entity, Error};
use specs_layouts::MaskedStorage;
use specs_markers::{Marker, MarkerAllocator};

/// Loads two markers with different ids, of which the allocator knows nothing: they are two entities, each of them
/// found under its id.
///
/// Errors: those of `retrieve_entity`, which leave what was loaded before.
pub fn two_markers_are_two_entities<M: Marker, A: MarkerAllocator<M>>(
    allocator: &mut A,
    one: M,
    other: M,
    storage: &mut MaskedStorage<M>,
    entities: &mut EntitiesRes,
) -> Result<(Entity, Entity), (Error, M)>
    requires unknown { (id : M.Identifier) → A.noted allocator.old id ≡ None }
    requires apart { M.id_of other ≢ M.id_of one }
    ensures two { IfOk result (λ both. both.1 ≢ both.0) }
    ensures one { IfOk result (λ both. A.noted allocator.new (M.id_of one) ≡ Some both.0) }
    ensures other { IfOk result (λ both. A.noted allocator.new (M.id_of other) ≡ Some both.1) }
{
    let first = allocator.retrieve_entity(one, storage, entities)?;
    let second = allocator.retrieve_entity(other, storage, entities)?;
    Ok((first, second))
}
