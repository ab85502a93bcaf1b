//! Entities of a world that are marked while they are built.
ghost use Rattle.std.specs.Prelude.{◌≡◌, ◌⊎◌, Bool, Option, IfOk, IfErr};
ghost use Rattle.specs_entity.specs.declared.ids.Entity.{Entity};
ghost use Rattle.specs_entity.specs.declared.errors.Error.TheVariants as refusal;
ghost use Rattle.specs_world.specs.Queues.{Adds, IsMadeOf};
ghost use Rattle.specs.specs.Marking.{IsMarkedIn, RefusesIn};

use crate::mark::Mark;
use crate::marking::mark_in;
use shred_world::{MetaTable, Resource, World};
use specs_entity::{EntitiesRes, Entity, Error};
use specs_layouts::{AnyStorage, Component, MaskedStorage, UnprotectedStorage};
use specs_markers::{Marker, MarkerAllocator};
use specs_world::{EntityBuilder, Held, LazyBuilder};

/// Entities of a world in the making that can be marked there.
///
/// The name of the call is that of `specs`.
pub trait MarkedEntity<V>: Sized
where
    EntitiesRes: Resource<V>,
{
    ghost use Rattle.shred_world.specs.Worlds.{Slots};

    /// The entity that is being built.
    ghost built: { Self → Entity };

    /// The world that it is in.
    ghost world: { Self → Slots V };

    /// Marks the entity, and answers the builder. An entity that is marked keeps its marker.
    ///
    /// Errors: those of `mark_in`, which hand the builder back.
    fn marked<M: Marker>(self) -> Result<Self, (Error, Self)>
    where
        MaskedStorage<M>: Resource<V>,
        M::Allocator: Resource<V>,
        ensures entity { IfOk result (λ builder. built builder ≡ built self) }
        ensures ok { IfOk result (λ builder. (new : Option Bool) × IsMarkedIn ⟦<EntitiesRes as Held<V>>⟧.stands_at
            ⟦<MaskedStorage<M> as Held<V>>⟧.stands_at ⟦<M::Allocator as Held<V>>⟧.stands_at
            M.Allocator.MarkerAllocator.noted M.Allocator.MarkerAllocator.allocates M.id_of
            M.Storage.UnprotectedStorage (built self) (world self) (world builder) new) }
        ensures refused { IfErr result (λ refused. RefusesIn ⟦<EntitiesRes as Held<V>>⟧.stands_at
            ⟦<MaskedStorage<M> as Held<V>>⟧.stands_at ⟦<M::Allocator as Held<V>>⟧.stands_at
            M.Allocator.MarkerAllocator.noted M.Allocator.MarkerAllocator.allocates M.id_of
            M.Storage.UnprotectedStorage M.Allocator.MarkerAllocator.refuses (built self) (world self)
            (world refused.1) refused.0) }
        ensures same_entity { IfErr result (λ refused. built refused.1 ≡ built self) };
}

impl<'a, V: AnyStorage + Drop> MarkedEntity<V> for EntityBuilder<'a, V, World<V>>
where
    EntitiesRes: Resource<V>,
    MetaTable: Resource<V>,
{
    ghost built = { λ builder. builder.entity };

    ghost world = { λ builder. builder.world.now };

    fn marked<M: Marker>(
        self,
    ) -> Result<EntityBuilder<'a, V, World<V>>, (Error, EntityBuilder<'a, V, World<V>>)>
    where
        MaskedStorage<M>: Resource<V>,
        M::Allocator: Resource<V>,
    {
        let entity = self.entity;
        match mark_in::<V, M>(self.world, entity) {
            Ok(_) => Ok(self),
            Err(error) => Err((error, self)),
        }
    }
}

/// Entities in the making whose marking waits in a queue.
///
/// The name of the call is that of `specs`.
pub trait MarkedLazily<J: Drop>: Sized {
    ghost use Rattle.std.specs.Prelude.{List};

    /// The entity that is being built.
    ghost built: { Self → Entity };

    /// The jobs that wait.
    ghost queued: { Self → List J };

    /// Queues the job that marks the entity, and answers the builder.
    ///
    /// Errors: `Memory`, which hands the builder back and leaves the queue as it was.
    fn marked<M: Marker>(self) -> Result<Self, (Error, Self)>
    where
        J: From<Mark<M>>,
        ensures entity { IfOk result (λ builder. built builder ≡ built self) }
        ensures ok { IfOk result (λ builder. Adds (IsMadeOf J.from_gives (λ job. job.entity ≡ built self))
            (queued self) (queued builder)) }
        ensures memory { IfErr result (λ refused. refused.0 ≡ refusal.Memory) }
        ensures err { IfErr result (λ refused. queued refused.1 ≡ queued self) }
        ensures same_entity { IfErr result (λ refused. built refused.1 ≡ built self) };
}

impl<'a, J: Drop> MarkedLazily<J> for LazyBuilder<'a, J> {
    ghost built = { λ builder. builder.entity };

    ghost queued = { λ builder. builder.lazy.now };

    fn marked<M: Marker>(self) -> Result<LazyBuilder<'a, J>, (Error, LazyBuilder<'a, J>)>
    where
        J: From<Mark<M>>,
    {
        let job = J::from(Mark::new(self.entity));
        match self.lazy.exec(job) {
            Ok(()) => Ok(self),
            Err(_) => Err((Error::Memory, self)),
        }
    }
}
