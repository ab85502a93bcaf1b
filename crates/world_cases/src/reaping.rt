//! What a caller learns of a world of entities from the contracts of its calls alone.
ghost use Rattle.std.specs.Prelude.{◌≡◌, OnOk, Some, None, ℕ, ◌==◌, true};
ghost use Rattle.std.specs.Option.{MatchOption};
ghost use Rattle.std.specs.List.{list_any};
ghost use Rattle.shred_world.specs.ResourceIds.{id_of};
ghost use Rattle.shred_world.specs.Worlds.{resource_at};

use crate::values::{Health, Value};
use shred_world::{MetaTable, Resource, World};
use specs_entity::{Entity, Error};
use specs_layouts::{Component, MaskedStorage, UnprotectedStorage};
use specs_world::WorldExt;

/// Deletes an entity of a world in which healths are registered: then no health is at its index.
pub fn reap(world: &mut World<Value>, entity: Entity) -> Result<(), Error>
    requires registered { MatchOption (resource_at ⟦<MetaTable as Resource<Value>>⟧.part world.old (id_of 1 0)) ⊥
        (λ kinds. list_any (λ k. k == 2) kinds ≡ true) }
    ensures gone { OnOk result (MatchOption
        (resource_at ⟦<MaskedStorage<Health> as Resource<Value>>⟧.part world.new (id_of 2 0)) (Unit {0})
        (λ storage. ⟦<<Health as Component>::Storage as UnprotectedStorage<Health>>⟧.part_at
        storage.inner entity.id ≡ None)) }
{
    world.delete_entity(entity)
}
