//! Entities that begin to live in a world under ids of their own.
ghost use Rattle.std.specs.Prelude.{◌≡◌, [], ◌∷◌, map, OnOk};
ghost use Rattle.scene_commands.specs.Acts.{seen_of, MayAct};
ghost use Rattle.scene_commands.specs.Entries.{with_entities};
ghost use Rattle.scene_commands.specs.Becoming.{Becomes};
ghost use Rattle.scene_commands.specs.Notes.{NotesUnder};
ghost use Rattle.scene_world.specs.Members.{kinds_by};

use crate::lending::allocator_at;
use crate::{bring_to_life, entity_under, mark};
use scene_document::EntityDraft;
use scene_world::{Rules, SceneValue};
use shred_world::World;
use specs_entity::Entity;
use specs_markers::MarkerAllocator;
use std::alloc::AllocError;

/// Notes an entity under an id. Errors: want of memory, and where the id is 18,446,744,073,709,551,615.
fn note_under<R: Rules>(
    world: &mut World<R::Value>,
    entity: Entity,
    given: u64,
) -> Result<(), AllocError>
    ensures { OnOk result (NotesUnder (kinds_by R.Rules R.Value.SceneValue) entity given (seen_of world.old)
        (seen_of world.new)) }
{
    let place = <R::Value as SceneValue<R::Data>>::allocator_id();
    let Some(allocator) = allocator_at::<R>(world, place) else {
        return Err(AllocError);
    };
    match allocator.allocate(entity, Some(given)) {
        Ok(_) => Ok(()),
        Err(error) => {
            drop(error);
            Err(AllocError)
        }
    }
}

/// Lets an entity begin to live under an id, without parts. The next id is raised above it, where it isn't.
///
/// Errors: want of memory; so is told where somebody lives under the id, where the entities of the world are at their
/// limits, and where the id is 18,446,744,073,709,551,615.
pub fn enter_entity<R: Rules>(world: &mut World<R::Value>, id: u64) -> Result<(), AllocError>
    requires may { MayAct (kinds_by R.Rules R.Value.SceneValue) world.old }
    ensures { OnOk result
        (Becomes (kinds_by R.Rules R.Value.SceneValue) (with_entities (id ∷ [])) world.old world.new) }
{
    if entity_under::<R>(world, id).is_some() {
        return Err(AllocError);
    }
    let entity = match bring_to_life::<R>(world) {
        Ok(entity) => entity,
        Err(_) => return Err(AllocError),
    };
    note_under::<R>(world, entity, id)?;
    mark::<R>(world, entity.id(), id)
}

/// Lets entities begin to live under the ids that a document says, without parts.
///
/// Errors: those of each of them.
pub(crate) fn enter_entities<R: Rules>(
    world: &mut World<R::Value>,
    entities: &[EntityDraft<R::Data>],
) -> Result<(), AllocError>
    requires may { MayAct (kinds_by R.Rules R.Value.SceneValue) world.old }
    ensures { OnOk result (Becomes (kinds_by R.Rules R.Value.SceneValue)
        (with_entities (map (λ entity. entity.id) entities.now)) world.old world.new) }
{
    for index in (0..entities.len()).rev() {
        enter_entity::<R>(world, entities[index].id)?;
    }
    Ok(())
}
