//! Entities of a world that are marked.
ghost use Rattle.std.specs.Prelude.{◌≡◌, ◌⊎◌, IfOk, IfErr};
ghost use Rattle.specs_entity.specs.declared.errors.Error.TheVariants as refusal;
ghost use Rattle.specs_world.specs.Dropping.{StayOut};
ghost use Rattle.specs.specs.Marking.{IsMarkedBeside, IsMarkedBy, IsMarkedIn};
ghost use Rattle.specs.specs.Marking.{RefusesBeside, RefusesBy, RefusesIn};

use crate::taking::{borrow, give_back};
use shred_world::{Resource, World};
use specs_entity::{EntitiesRes, Entity, Error};
use specs_layouts::{Component, MaskedStorage, UnprotectedStorage};
use specs_markers::{Marker, MarkerAllocator};
use specs_world::Held;

/// Marks an entity whose world's entities and allocator are out of it.
fn mark_beside<V, M: Marker, A: MarkerAllocator<M>>(
    world: &mut World<V>,
    allocator: &mut A,
    entities: &EntitiesRes,
    entity: Entity,
) -> Result<Option<bool>, Error>
where
    MaskedStorage<M>: Resource<V>,
    ensures ok { IfOk result (IsMarkedBeside ⟦<MaskedStorage<M> as Held<V>>⟧.stands_at A.noted A.allocates M.id_of
        M.Storage.UnprotectedStorage entity entities.now allocator.old allocator.new world.old world.new) }
    ensures refused { IfErr result (RefusesBeside ⟦<MaskedStorage<M> as Held<V>>⟧.stands_at A.noted A.allocates
        M.id_of M.Storage.UnprotectedStorage A.refuses entity entities.now
        allocator.old allocator.new world.old world.new) }
    ensures outs { StayOut world.old world.new }
{
    match world.get_mut::<MaskedStorage<M>>() {
        Some(storage) => match allocator.mark(entity, storage, entities) {
            Ok(Some((_, new))) => Ok(Some(new)),
            Ok(None) => Ok(None),
            Err(error) => Err(error),
        },
        None => Err(Error::NotRegistered),
    }
}

/// Marks an entity whose world's allocator is out of it.
fn mark_by<V, M: Marker, A: MarkerAllocator<M>>(
    world: &mut World<V>,
    allocator: &mut A,
    entity: Entity,
) -> Result<Option<bool>, Error>
where
    EntitiesRes: Resource<V>,
    MaskedStorage<M>: Resource<V>,
    ensures ok { IfOk result (IsMarkedBy ⟦<EntitiesRes as Held<V>>⟧.stands_at
        ⟦<MaskedStorage<M> as Held<V>>⟧.stands_at A.noted A.allocates M.id_of
        M.Storage.UnprotectedStorage entity allocator.old allocator.new world.old world.new) }
    ensures refused { IfErr result (RefusesBy ⟦<EntitiesRes as Held<V>>⟧.stands_at
        ⟦<MaskedStorage<M> as Held<V>>⟧.stands_at A.noted A.allocates M.id_of
        M.Storage.UnprotectedStorage A.refuses entity allocator.old allocator.new world.old world.new) }
    ensures outs { StayOut world.old world.new }
{
    let Some(entities) = borrow::<V, EntitiesRes>(world) else {
        return Err(Error::NotRegistered);
    };
    let outcome = mark_beside(world, allocator, &entities, entity);
    give_back(world, entities);
    outcome
}

/// Marks an entity of a world, and answers whether its marker is new, or none where the entity isn't alive. An entity
/// that is marked keeps its marker.
///
/// Errors: `NotRegistered` where the world has no entities, no storage of the markers, or nothing that gives them, and
/// it is as it was; those of `MarkerAllocator::mark`, and each index has the marker that it had.
pub fn mark_in<V, M: Marker>(world: &mut World<V>, entity: Entity) -> Result<Option<bool>, Error>
where
    EntitiesRes: Resource<V>,
    MaskedStorage<M>: Resource<V>,
    M::Allocator: Resource<V>,
    ensures ok { IfOk result (IsMarkedIn ⟦<EntitiesRes as Held<V>>⟧.stands_at
        ⟦<MaskedStorage<M> as Held<V>>⟧.stands_at ⟦<M::Allocator as Held<V>>⟧.stands_at
        M.Allocator.MarkerAllocator.noted M.Allocator.MarkerAllocator.allocates M.id_of
        M.Storage.UnprotectedStorage entity world.old world.new) }
    ensures refused { IfErr result (RefusesIn ⟦<EntitiesRes as Held<V>>⟧.stands_at
        ⟦<MaskedStorage<M> as Held<V>>⟧.stands_at ⟦<M::Allocator as Held<V>>⟧.stands_at
        M.Allocator.MarkerAllocator.noted M.Allocator.MarkerAllocator.allocates M.id_of
        M.Storage.UnprotectedStorage M.Allocator.MarkerAllocator.refuses entity world.old world.new) }
{
    let Some(mut allocator) = borrow::<V, M::Allocator>(world) else {
        return Err(Error::NotRegistered);
    };
    let outcome = mark_by::<V, M, M::Allocator>(world, &mut allocator, entity);
    give_back(world, allocator);
    outcome
}
