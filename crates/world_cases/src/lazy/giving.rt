//! What a caller learns of a job that waits from the contracts of queues and worlds alone.
ghost use Rattle.std.specs.Prelude.{◌≡◌, ◌++◌, ◌∷◌, [], Some, OnOk, IfOk, IsTrue};
ghost use Rattle.std.specs.Option.{MatchOption};
ghost use Rattle.specs_world.specs.Resources.{held, Becomes};
ghost use Rattle.world_cases.specs.declared.lazy.tasks.Task.TheVariants.{PutHealth};

use crate::lazy::tasks::{Health, Task};
use crate::lazy::values::Value;
use shred_world::World;
use specs_entity::{Entity, Error};
use specs_layouts::{Component, MaskedStorage, UnprotectedStorage};
use specs_world::{Held, LazyUpdate, LazyWorld, Maintained};
use std::sync::Wait;

/// Queues the job that puts a health at an entity, under the number 0.
///
/// Errors: `NotRegistered`, where the world has no queue there; `Memory`. Both leave the world as it was.
fn queue_health(world: &mut World<Value>, entity: Entity, health: u32) -> Result<(), Error>
    ensures ok { OnOk result (Becomes ⟦<LazyUpdate<Task> as Held<Value>>⟧.stands_at (λ was is.
        is ≡ was ++ PutHealth (record { entity = entity; part = record { 0 = health } }) ∷ []) world.old world.new) }
{
    match world.get_mut::<LazyUpdate<Task>>() {
        Some(queue) => match queue.insert(entity, Health(health)) {
            Ok(()) => Ok(()),
            Err(_) => Err(Error::Memory),
        },
        None => Err(Error::NotRegistered),
    }
}

/// Whether the world has a queue under the number 0, and no job waits there.
pub fn is_ready(world: &World<Value>) -> bool
    ensures { IsTrue result → held ⟦<LazyUpdate<Task> as Held<Value>>⟧.stands_at world.now ≡ Some [] }
{
    match world.try_fetch::<LazyUpdate<Task>>() {
        Some(queue) => queue.is_empty(),
        None => false,
    }
}

/// Queues a health for an entity in a world whose queue of the number 0 has no job, and maintains it for that one job. Where that
/// hasn't failed the entity has the health.
///
/// Errors: those of `maintain`; `NotRegistered`, where the world has no queue under the number 0.
pub fn give<R: Wait>(
    world: &mut World<Value>,
    rt: &R,
    entity: Entity,
    health: u32,
) -> Result<Maintained, Error>
    requires none { held ⟦<LazyUpdate<Task> as Held<Value>>⟧.stands_at world.old ≡ Some [] }
    ensures one { IfOk result (λ counts. counts.jobs ≡ 1) }
    ensures given { IfOk result (λ counts. counts.failed ≡ 0
        → MatchOption (held ⟦<MaskedStorage<Health> as Held<Value>>⟧.stands_at world.new) ⊥
        (λ storage. ⟦<<Health as Component>::Storage as UnprotectedStorage<Health>>⟧.part_at storage.inner entity.id
        ≡ Some (record { 0 = health }))) }
{
    queue_health(world, entity, health)?;
    world.maintain(rt, 1)
}
