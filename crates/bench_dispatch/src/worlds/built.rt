//! Entities with two parts in a world.
use crate::worlds::Way;
use hibitset::BitSetLike;
use shred::World;
use simulation::movement::move_all;
use simulation::parts::{Position, Velocity};
use simulation::setup::empty_world;
use simulation::values::Value;
use specs_entity::{Entity, Error};
use specs_layouts::MaskedStorage;
use specs_world::WorldExt;
use std::alloc::{AllocError, Global};

/// A world, and the entities that were built in it.
#[derive(Drop)]
pub struct Built {
    world: World<Value>,
    entities: Vec<Entity>,
}

/// Builds an entity with both parts.
fn build(world: &mut World<Value>, place: u64) -> Result<Entity, Error> {
    match world.create_entity()?.with(Position(place)) {
        Ok(builder) => match builder.with(Velocity(3)) {
            Ok(builder) => Ok(builder.build()),
            Err((error, _, _)) => Err(error),
        },
        Err((error, _, _)) => Err(error),
    }
}

/// Every second of some entities.
pub fn half_of(alloc: Global, entities: &[Entity]) -> Result<Vec<Entity>, AllocError> {
    let mut half = Vec::new(alloc);
    for entity in entities.iter().step_by(2) {
        half.push(*entity)?;
    }
    Ok(half)
}

/// The sum of positions, which goes round at 2 ^ 64.
pub fn sum_of(positions: &MaskedStorage<Position>) -> u64 {
    let mut sum = 0u64;
    for id in positions.mask().iter() {
        if positions.contains(id) {
            sum = sum.wrapping_add(positions.get(id).0);
        }
    }
    sum
}

impl Built {
    /// Builds so many entities, each further by 1 than the one before.
    fn fill(&mut self, count: u32) -> Result<(), AllocError> {
        for place in 0..count {
            match build(&mut self.world, place as u64) {
                Ok(entity) => self.entities.push(entity)?,
                Err(_) => return Err(AllocError),
            }
        }
        Ok(())
    }
}

impl Way for Built {
    fn made(alloc: Global, count: u32) -> Result<Built, AllocError> {
        let Ok(world) = empty_world(alloc) else {
            return Err(AllocError);
        };
        let mut built = Built {
            world,
            entities: Vec::new(alloc),
        };
        built.fill(count)?;
        Ok(built)
    }

    fn move_all(&mut self) -> Result<(), AllocError> {
        match move_all(&mut self.world) {
            Ok(()) => Ok(()),
            Err(_) => Err(AllocError),
        }
    }

    fn delete_half(&mut self, alloc: Global) -> Result<(), AllocError> {
        let half = half_of(alloc, &self.entities)?;
        match self.world.delete_entities(&half) {
            Ok(()) => Ok(()),
            Err(_) => Err(AllocError),
        }
    }

    fn sum(&self) -> u64 {
        match self.world.try_fetch::<MaskedStorage<Position>>() {
            Some(positions) => sum_of(positions),
            None => 0,
        }
    }
}
