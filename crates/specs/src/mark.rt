//! Marking as a job.
ghost use Rattle.std.specs.Prelude.{◌≡◌};

use crate::marking::mark_in;
use shred_world::{Resource, World};
use specs_entity::{EntitiesRes, Entity, Error};
use specs_layouts::{Component, MaskedStorage, UnprotectedStorage};
use specs_markers::{Marker, MarkerAllocator};
use specs_world::{Held, Job};
use std::marker::PhantomData;

/// Marks an entity, if it is alive and has no marker. At one that isn't alive it does nothing, and hasn't failed.
#[derive(Drop)]
pub struct Mark<M> {
    /// The entity.
    pub entity: Entity,
    kind: PhantomData<M>,
}

impl<M> Mark<M> {
    /// The job that marks `entity`.
    pub fn new(entity: Entity) -> Mark<M>
        ensures { result.entity ≡ entity }
    {
        Mark {
            entity,
            kind: PhantomData,
        }
    }
}

impl<V, M: Marker> Job<V> for Mark<M>
where
    EntitiesRes: Resource<V>,
    MaskedStorage<M>: Resource<V>,
    M::Allocator: Resource<V>,
{
    ghost use Rattle.specs.specs.Marking.{MarksOrRefuses};

    ghost runs = { λ job. MarksOrRefuses ⟦<EntitiesRes as Held<V>>⟧.stands_at
        ⟦<MaskedStorage<M> as Held<V>>⟧.stands_at ⟦<M::Allocator as Held<V>>⟧.stands_at
        M.Allocator.MarkerAllocator.noted M.Allocator.MarkerAllocator.allocates M.id_of
        M.Storage.UnprotectedStorage M.Allocator.MarkerAllocator.refuses job.entity };

    /// Marks the entity.
    ///
    /// Errors: those of `mark_in`.
    fn run(self, world: &mut World<V>) -> Result<(), Error> {
        match mark_in::<V, M>(world, self.entity) {
            Ok(_) => Ok(()),
            Err(error) => Err(error),
        }
    }
}
