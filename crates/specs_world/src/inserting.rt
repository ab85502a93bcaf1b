//! Parts that are put at the entities of a world.
ghost use Rattle.std.specs.Prelude.{◌≡◌, ◌<◌, ◌↔◌, Some, None, OnErr, IfOk, IfErr, IsOk, IsSome, IsTrue, false};
ghost use Rattle.std.specs.Option.{MatchOption};
ghost use Rattle.specs_entity.specs.Births.{IsAlive};
ghost use Rattle.specs_entity.specs.declared.errors.Error.TheVariants as refusal;
ghost use Rattle.specs_world.specs.Resources.{held, place, Becomes};
ghost use Rattle.specs_world.specs.Inserting.{IsPut, KeepsStorage, RefusesPart};

use crate::held::Held;
use hibitset::Index;
use shred_world::{Resource, World};
use specs_entity::{EntitiesRes, Entity, Error, WrongGeneration};
use specs_layouts::{Component, MaskedStorage, UnprotectedStorage};

/// Whether an entity of a world is alive; false where the world has no entities.
pub(crate) fn lives<V>(world: &World<V>, entity: Entity) -> bool
where
    EntitiesRes: Resource<V>,
    ensures value { IsTrue result ↔ MatchOption (held ⟦<EntitiesRes as Held<V>>⟧.stands_at world.now)
        ⊥ (λ births. IsAlive births entity) }
    ensures range { IsTrue result → entity.id < 16777216 }
{
    match world.try_fetch::<EntitiesRes>() {
        Some(entities) => entities.is_alive(entity),
        None => false,
    }
}

/// What the putting of a part at an entity that isn't alive is refused for.
#[cold]
pub(crate) fn refusal_of<V, T: Component>(world: &World<V>, entity: Entity) -> Error
where
    EntitiesRes: Resource<V>,
    MaskedStorage<T>: Resource<V>,
    requires dead { MatchOption (held ⟦<EntitiesRes as Held<V>>⟧.stands_at world.now)
        ⊥ (λ births. IsAlive births entity) → ⊥ }
    ensures { RefusesPart (held ⟦<EntitiesRes as Held<V>>⟧.stands_at world.now)
        (held ⟦<MaskedStorage<T> as Held<V>>⟧.stands_at world.now) entity result }
{
    if world.try_fetch::<MaskedStorage<T>>().is_none() {
        return Error::NotRegistered;
    }
    match world.try_fetch::<EntitiesRes>() {
        Some(entities) => Error::WrongGeneration(WrongGeneration {
            action: "insert a part",
            actual_gen: entities.entity(entity.id()).generation(),
            entity,
        }),
        None => Error::NotRegistered,
    }
}

/// Puts a part at an index of the storage of its kind.
///
/// Errors: `NotRegistered`, exactly where the world has no such storage; `Memory`. Both hand `part` back, and each
/// index has the part that it had.
pub(crate) fn put_part<V, T: Component>(
    world: &mut World<V>,
    id: Index,
    part: T,
) -> Result<Option<T>, (Error, T)>
where
    MaskedStorage<T>: Resource<V>,
    requires range { id < 16777216 }
    ensures ok { IfOk result (λ had. Becomes
        ⟦<MaskedStorage<T> as Held<V>>⟧.stands_at
        (IsPut T.Storage.part_at T.Storage.events T.Storage.emits id part had) world.old world.new) }
    ensures err { OnErr result (KeepsStorage
        ⟦<MaskedStorage<T> as Held<V>>⟧.stands_at
        T.Storage.part_at T.Storage.events T.Storage.emits world.old world.new) }
    ensures handed_back { IfErr result (λ refused. refused.1 ≡ part) }
    ensures refused { IfErr result (λ refused. MatchOption
        (held ⟦<MaskedStorage<T> as Held<V>>⟧.stands_at world.old)
        (refused.0 ≡ refusal.NotRegistered) (λ _. refused.0 ≡ refusal.Memory)) }
    ensures succeeds { MatchOption (held ⟦<MaskedStorage<T> as Held<V>>⟧.stands_at world.old) ⊥
        (λ one. IsSome (T.Storage.part_at one.inner id) × (T.Storage.emits one.inner ≡ false))
        → IsOk result }
{
    match world.get_mut::<MaskedStorage<T>>() {
        Some(storage) => match storage.insert(id, part) {
            Ok(had) => Ok(had),
            Err(refused) => Err((Error::Memory, refused.value)),
        },
        None => Err((Error::NotRegistered, part)),
    }
}
