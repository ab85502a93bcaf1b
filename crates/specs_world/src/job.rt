//! Jobs: values that change a world when they are run.
ghost use Rattle.std.specs.Prelude.{◌≡◌, ◌≢◌, Option, Some, IfOk, IfErr};
ghost use Rattle.specs_entity.specs.declared.errors.Error.TheVariants as refusal;
ghost use Rattle.std.specs.Result.{result_err};
ghost use Rattle.specs_world.specs.Jobs.{earlier};

use crate::removing::drop_part;
use crate::{Held, WorldExt};
use shred_world::{MetaTable, Resource, World};
use specs_entity::{EntitiesRes, Entity, Error};
use specs_layouts::{AnyStorage, Component, MaskedStorage, UnprotectedStorage};
use std::marker::PhantomData;

/// A change of a world over `V` that can wait in a queue.
///
/// A job is a value, and no closure: what it does is what its type says of it.
pub trait Job<V>: Sized + Drop {
    ghost use Rattle.std.specs.Prelude.{Option};
    ghost use Rattle.shred_world.specs.Worlds.{Slots};
    ghost use Rattle.specs_entity.specs.declared.errors.Error.{Error};

    /// What running the job makes of a world, where it is refused for something and where it isn't.
    ghost runs: { Self → Option Error → Slots V → Slots V → Type 0 };

    /// Runs the job.
    ///
    /// Errors: `Memory`, where there was none; any other is a failure of the job alone. What they leave is the job's to say.
    fn run(self, world: &mut World<V>) -> Result<(), Error>
        ensures { runs self (result_err result) world.old world.new };
}

/// Puts a part at an entity, in the place of the one that it has. Fails where the entity isn't alive.
#[derive(Drop)]
pub struct Insert<C: Component> {
    /// The entity.
    pub entity: Entity,
    /// The part.
    pub part: C,
}

impl<V: AnyStorage + Drop, C: Component> Job<V> for Insert<C>
where
    EntitiesRes: Resource<V>,
    MetaTable: Resource<V>,
    MaskedStorage<C>: Resource<V>,
{
    ghost use Rattle.specs_world.specs.Jobs.{PutsOrRefuses};

    ghost runs = { λ job. PutsOrRefuses
        ⟦<EntitiesRes as Held<V>>⟧.stands_at ⟦<MaskedStorage<C> as Held<V>>⟧.stands_at
        C.Storage.part_at C.Storage.events C.Storage.emits job.entity job.part };

    /// Puts the part.
    ///
    /// Errors: those of `WorldExt::insert_part`. Each index has the part that it had.
    fn run(self, world: &mut World<V>) -> Result<(), Error> {
        let Insert { entity, part } = self;
        match world.insert_part(entity, part) {
            Ok(_) => Ok(()),
            Err((error, _)) => Err(error),
        }
    }
}

/// Puts parts at entities, pair after pair. One whose entity isn't alive is dropped, and the job has failed.
#[derive(Drop)]
pub struct InsertAll<C: Component> {
    /// The entities, each with its part.
    pub pairs: Vec<(Entity, C)>,
}

impl<V: AnyStorage + Drop, C: Component> Job<V> for InsertAll<C>
where
    EntitiesRes: Resource<V>,
    MetaTable: Resource<V>,
    MaskedStorage<C>: Resource<V>,
{
    ghost use Rattle.specs_world.specs.Jobs.{PutsEach};

    ghost runs = { λ job. PutsEach
        ⟦<EntitiesRes as Held<V>>⟧.stands_at ⟦<MaskedStorage<C> as Held<V>>⟧.stands_at
        C.Storage.part_at C.Storage.events C.Storage.emits job.pairs.items };

    /// Tries every pair in order.
    ///
    /// Errors: those of `WorldExt::insert_part`, of the first pair that was refused, and every other was tried; `Memory`, which ends
    /// it at once, with the pairs before put.
    fn run(self, world: &mut World<V>) -> Result<(), Error> {
        let InsertAll { pairs } = self;
        let mut refused = None;
        for (entity, part) in pairs {
            let outcome = (Insert { entity, part }).run(world);
            refused = keep(refused, outcome)?;
        }
        match refused {
            Some(error) => Err(error),
            None => Ok(()),
        }
    }
}

/// Drops the part of an entity, if it is alive and has one. At one that isn't alive it does nothing, and hasn't failed.
#[derive(Drop)]
pub struct Remove<C> {
    /// The entity.
    pub entity: Entity,
    kind: PhantomData<C>,
}

impl<C> Remove<C> {
    /// The job that drops the part of `entity`.
    pub fn new(entity: Entity) -> Remove<C>
        ensures { result.entity ≡ entity }
    {
        Remove {
            entity,
            kind: PhantomData,
        }
    }
}

impl<V, C: Component> Job<V> for Remove<C>
where
    EntitiesRes: Resource<V>,
    MaskedStorage<C>: Resource<V>,
{
    ghost use Rattle.specs_world.specs.Jobs.{DropsOrRefuses};

    ghost runs = { λ job. DropsOrRefuses
        ⟦<EntitiesRes as Held<V>>⟧.stands_at ⟦<MaskedStorage<C> as Held<V>>⟧.stands_at
        C.Storage.part_at C.Storage.events C.Storage.emits job.entity };

    /// Drops the part.
    ///
    /// Errors: `NotRegistered`, where the world has no storage of the kind, or no entities; `Memory`, where the storage emits. Each
    /// index has the part that it had.
    fn run(self, world: &mut World<V>) -> Result<(), Error> {
        if world.try_fetch::<MaskedStorage<C>>().is_none() {
            return Err(Error::NotRegistered);
        }
        match world.try_fetch::<EntitiesRes>() {
            None => return Err(Error::NotRegistered),
            Some(entities) => {
                if !entities.is_alive(self.entity) {
                    return Ok(());
                }
            }
        }
        match drop_part::<V, C>(world, self.entity.id()) {
            Ok(()) => Ok(()),
            Err(_) => Err(Error::Memory),
        }
    }
}

/// Keeps the earliest refusal.
///
/// Errors: `Memory`, where that is the refusal to be kept.
fn keep(refused: Option<Error>, outcome: Result<(), Error>) -> Result<Option<Error>, Error>
    ensures ok { IfOk result (λ kept. (result_err outcome ≢ Some refusal.Memory)
        × (kept ≡ earlier refused (result_err outcome))) }
    ensures err { IfErr result (λ error. (error ≡ refusal.Memory) × (result_err outcome ≡ Some refusal.Memory)) }
{
    match outcome {
        Ok(()) => Ok(refused),
        Err(error) => match error {
            Error::Memory => Err(Error::Memory),
            other => Ok(earlier_of(refused, other)),
        },
    }
}

/// The earlier of two refusals.
fn earlier_of(refused: Option<Error>, error: Error) -> Option<Error>
    ensures { result ≡ earlier refused (Some error) }
{
    match refused {
        Some(first) => Some(first),
        None => Some(error),
    }
}
