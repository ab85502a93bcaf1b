//! Three entities that are built with healths, told from the contracts of the calls alone.
ghost use Rattle.std.specs.Prelude.{◌≡◌, IfOk, OnOk, None, [], ◌∷◌};
ghost use Rattle.specs_entity.specs.Births.{none_born};
ghost use Rattle.specs_join.specs.Joins.{join_list};
ghost use Rattle.specs_world.specs.Stocked.{Builds, HasParts, IsStocked, Kills, Settles};
ghost use Rattle.world_cases.specs.LazyValues.{basis, healths_kind};

use crate::lazy::tasks::{Health, Task};
use crate::lazy::values::Value;
use shred_world::World;
use specs_entity::{Entity, Error};
use specs_join::Join;
use specs_layouts::MaskedStorage;
use specs_world::{LazyWorld, WorldExt};
use std::alloc::{AllocError, AllocGlobal, Global};
use std::sync::Wait;

/// A world of healths without entities and queues.
///
/// Errors: `Memory`.
pub fn stock(alloc: Global) -> Result<World<Value>, Error>
    ensures { IfOk result (λ world. IsStocked basis (none_born 16777216 2147483647) (2 ∷ []) world
        × HasParts healths_kind (λ _. None) world) }
{
    let mut world: World<Value> = WorldExt::new(alloc)?;
    world.register::<Health>()?;
    Ok(world)
}

/// Builds an entity with a health.
///
/// Errors: those of `create_entity`; those of `put`, and the deletion of the entity is accepted.
pub fn build(world: &mut World<Value>, health: Health) -> Result<Entity, Error>
    ensures { IfOk result (λ entity. Builds basis healths_kind health entity world.old world.new) }
{
    let mut builder = world.create_entity()?;
    match builder.put(health) {
        Ok(_) => Ok(builder.build()),
        Err((error, _)) => Err(error),
    }
}

/// Lets an entity die.
///
/// Errors: those of `delete_entity`.
pub fn kill(world: &mut World<Value>, entity: Entity) -> Result<(), Error>
    ensures { OnOk result (Kills basis healths_kind entity world.old world.new) }
{
    world.delete_entity(entity)
}

/// Maintains a world.
///
/// Errors: those of `maintain`.
pub fn settle<R: Wait>(rt: &R, world: &mut World<Value>) -> Result<(), Error>
    ensures { OnOk result (Settles basis healths_kind world.old world.new) }
{
    match LazyWorld::<Value, Task>::maintain(world, rt, 8) {
        Ok(_) => Ok(()),
        Err(error) => Err(error),
    }
}

/// The healths of a storage, ascending by index.
///
/// Errors: want of memory.
fn list_of(alloc: Global, healths: &MaskedStorage<Health>) -> Result<Vec<Health>, AllocError>
    ensures { IfOk result (λ list. list.items ≡ join_list (healths_kind.part_at healths.now.inner)) }
{
    let mut list = Vec::new(alloc);
    for health in healths.join() {
        list.push(*health)?;
    }
    Ok(list)
}

/// Builds three entities with the healths 1, 2 and 3, deletes the second, maintains the world, and lists the healths
/// that a join has: 1 and 3.
///
/// Errors: those of the calls.
pub fn three_built<R: AllocGlobal + Wait>(rt: &R) -> Result<Vec<Health>, Error>
    ensures { IfOk result (λ list. list.items ≡ record { 0 = 1 } ∷ record { 0 = 3 } ∷ []) }
{
    let mut world = stock(rt.alloc())?;
    let _ = build(&mut world, Health(1))?;
    let second = build(&mut world, Health(2))?;
    let _ = build(&mut world, Health(3))?;
    kill(&mut world, second)?;
    settle(rt, &mut world)?;
    match world.try_fetch::<MaskedStorage<Health>>() {
        Some(healths) => Ok(list_of(rt.alloc(), healths)?),
        None => Err(Error::NotRegistered),
    }
}
