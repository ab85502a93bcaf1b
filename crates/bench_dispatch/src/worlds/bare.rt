//! The same entities and parts, without a world.
use crate::worlds::Way;
use crate::worlds::built::{half_of, sum_of};
use simulation::movement::Moving;
use simulation::parts::{Position, Velocity};
use specs_entity::{EntitiesRes, Entity, Error};
use specs_join::change_each;
use specs_layouts::{AnyStorage, Component, MaskedStorage, TryDefault};
use std::alloc::{AllocError, Global};

/// Entities, and their two storages.
#[derive(Drop)]
pub struct Bare {
    births: EntitiesRes,
    positions: MaskedStorage<Position>,
    velocities: MaskedStorage<Velocity>,
    entities: Vec<Entity>,
}

/// A storage without parts.
fn empty<C: Component>(alloc: Global) -> Result<MaskedStorage<C>, AllocError> {
    match C::Storage::try_default(alloc) {
        Ok(inner) => Ok(MaskedStorage::new(alloc, inner)),
        Err(_) => Err(AllocError),
    }
}

impl Bare {
    /// Makes so many entities, each further by 1 than the one before.
    fn fill(&mut self, count: u32) -> Result<(), AllocError> {
        for place in 0..count {
            self.make(place as u64)?;
        }
        Ok(())
    }

    /// Makes an entity with both parts.
    fn make(&mut self, place: u64) -> Result<(), AllocError> {
        let Ok(entity) = self.births.allocate() else {
            return Err(AllocError);
        };
        let position = self.positions.insert(entity.id(), Position(place));
        let velocity = self.velocities.insert(entity.id(), Velocity(3));
        if position.is_err() || velocity.is_err() || self.entities.push(entity).is_err() {
            return Err(AllocError);
        }
        Ok(())
    }

    /// Deletes some entities, with their parts.
    fn delete(&mut self, entities: &[Entity]) -> Result<(), Error> {
        self.births.kill(entities)?;
        AnyStorage::drop(&mut self.positions, entities)?;
        AnyStorage::drop(&mut self.velocities, entities)?;
        Ok(())
    }
}

impl Way for Bare {
    fn made(alloc: Global, count: u32) -> Result<Bare, AllocError> {
        let positions = empty(alloc)?;
        let velocities = empty(alloc)?;
        let mut bare = Bare {
            births: EntitiesRes::new(alloc),
            positions,
            velocities,
            entities: Vec::new(alloc),
        };
        bare.fill(count)?;
        Ok(bare)
    }

    fn move_all(&mut self) -> Result<(), AllocError> {
        match change_each(&mut self.positions, &self.velocities, &Moving) {
            Ok(()) => Ok(()),
            Err(_) => Err(AllocError),
        }
    }

    fn delete_half(&mut self, alloc: Global) -> Result<(), AllocError> {
        let half = half_of(alloc, &self.entities)?;
        match self.delete(&half) {
            Ok(()) => Ok(()),
            Err(_) => Err(AllocError),
        }
    }

    fn sum(&self) -> u64 {
        sum_of(&self.positions)
    }
}
