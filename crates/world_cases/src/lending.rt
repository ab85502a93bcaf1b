//! What is left of a resource that a world lent for writing, told from the contracts of its calls alone.
ghost use Rattle.std.specs.Prelude.{◌≡◌, OnOk, OnErr, Some, None};
ghost use Rattle.specs_entity.specs.Births.{created};
ghost use Rattle.specs_world.specs.Resources.{held, place, Becomes};

use shred_world::{MetaTable, Resource};
use specs_entity::{EntitiesRes, Entity, Error};
use specs_layouts::AnyStorage;
use specs_world::{Held, WorldExt};

/// Brings the next entity to life, through the entities that a world lends: its birth is persistent after the next
/// merge.
///
/// Errors: those of `EntitiesRes::create`; `NotRegistered`, where the world has no entities. All leave it as it was.
pub fn create_fresh<V: AnyStorage + Drop, W: WorldExt<V>>(world: &mut W) -> Result<Entity, Error>
where
    EntitiesRes: Resource<V>,
    MetaTable: Resource<V>,
    ensures ok { OnOk result (Becomes
        ⟦<EntitiesRes as Held<V>>⟧.stands_at
        (λ was now. now ≡ created was) (W.slots world.old) (W.slots world.new)) }
    ensures err { OnErr result (W.slots world.new ≡ W.slots world.old) }
{
    match world.write_resource::<EntitiesRes>() {
        Ok(entities) => match entities.create() {
            Ok(entity) => Ok(entity),
            Err(error) => Err(error),
        },
        Err(error) => Err(error),
    }
}
