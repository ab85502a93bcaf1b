//! Worlds of the simulation, and entities that are put into them.
ghost use Rattle.std.specs.Prelude.{◌≡◌, ℕ, ◌==◌, IfOk, OnOk, Some, if◌then◌else◌};
ghost use Rattle.simulation.specs.Frames.{Stands, parts_in};

use crate::parts::{Position, Velocity};
use crate::values::Value;
use specs::{Entity, Error, World, WorldExt};
use std::alloc::Global;

/// A world of the simulation without entities.
///
/// Errors: `Memory`.
pub fn empty_world(alloc: Global) -> Result<World<Value>, Error>
    ensures { IfOk result (λ world. Stands world) }
{
    let mut world: World<Value> = WorldExt::new(alloc)?;
    world.register::<Position>()?;
    world.register::<Velocity>()?;
    Ok(world)
}

/// Creates an entity with both parts.
///
/// Errors: those of `WorldExt::allocate` and `insert_part`; the entity may be there then, without one of its parts.
pub fn spawn(
    world: &mut World<Value>,
    position: Position,
    velocity: Velocity,
) -> Result<Entity, Error>
    requires { Stands world.old }
    ensures stands { OnOk result (Stands world.new) }
    ensures parts { IfOk result (λ entity. (index : ℕ) → parts_in world.new index
        ≡ (if index == entity.id then (Some position, Some velocity) else parts_in world.old index)) }
{
    let entity = world.allocate()?;
    if let Err((error, _)) = world.insert_part(entity, position) {
        return Err(error);
    }
    match world.insert_part(entity, velocity) {
        Ok(_) => Ok(entity),
        Err((error, _)) => Err(error),
    }
}
