//! What is left of a world that was lent to a builder, told from the contracts of its calls alone.
ghost use Rattle.std.specs.Prelude.{◌≡◌, IfOk, OnErr};
ghost use Rattle.specs_world.specs.Resources.{Allocates};

use shred_world::{MetaTable, Resource, World};
use specs_entity::{EntitiesRes, Entity, Error};
use specs_layouts::AnyStorage;
use specs_world::{Held, WorldExt};

/// Builds an entity without parts.
///
/// Errors: those of `WorldExt::create_entity`, and the world is as it was.
pub fn build_bare<V: AnyStorage + Drop>(world: &mut World<V>) -> Result<Entity, Error>
where
    EntitiesRes: Resource<V>,
    MetaTable: Resource<V>,
    ensures ok { IfOk result (λ entity. Allocates
        ⟦<EntitiesRes as Held<V>>⟧.stands_at entity world.old world.new) }
    ensures err { OnErr result (world.new ≡ world.old) }
{
    match world.create_entity() {
        Ok(builder) => Ok(builder.build()),
        Err(error) => Err(error),
    }
}
