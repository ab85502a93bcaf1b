//! Worlds in which nobody lives yet.
ghost use Rattle.std.specs.Prelude.{◌≡◌, min, IfOk};
ghost use Rattle.specs_entity.specs.Births.{none_born};
ghost use Rattle.scene_world.specs.Standing.{roll_of};
ghost use Rattle.scene_world.specs.Members.{kinds_by};
ghost use Rattle.scene_commands.specs.Acts.{MayAct, seen_of};
ghost use Rattle.scene_commands.specs.Openings.{without_entities};
ghost use Rattle.scene_commands.specs.Becoming.{IsQuiet};
ghost use Rattle.scene_commands.specs.Members.{scene_in};

use scene_world::{Rules, SceneMarkerAllocator, SceneValue, Store, no_markers};
use shred_world::World;
use specs_entity::EntitiesRes;
use std::alloc::{AllocError, Global};

/// A world of some rules in which nobody lives, with these limits of its entities, those of `EntitiesRes::with_limits`,
/// and this next id, and without queues.
///
/// Errors: want of memory.
pub fn open_world<R: Rules>(
    store: Store,
    limits: (u32, u32),
    next: u64,
    alloc: Global,
) -> Result<World<R::Value>, AllocError>
where
    R::Value: Drop,
    ensures may { IfOk result (MayAct (kinds_by R.Rules R.Value.SceneValue)) }
    ensures births { IfOk result (λ world. (roll_of (kinds_by R.Rules R.Value.SceneValue)
        (seen_of world)).births ≡ none_born (min limits.0 16777216) (min limits.1 2147483647)) }
    ensures quiet { IfOk result (IsQuiet (kinds_by R.Rules R.Value.SceneValue)) }
    ensures scene { IfOk result (λ world. scene_in R.Rules R.Value.SceneValue world ≡ without_entities next) }
{
    let mut world = World::empty(alloc);
    let entities = EntitiesRes::with_limits(alloc, limits.0, limits.1);
    let Ok(_) = world.insert_raw(
        <R::Value as SceneValue<R::Data>>::entities_id(),
        <R::Value as SceneValue<R::Data>>::wrap_entities(entities),
    ) else {
        return Err(AllocError);
    };
    let Ok(_) = world.insert_raw(
        <R::Value as SceneValue<R::Data>>::markers_id(),
        <R::Value as SceneValue<R::Data>>::wrap_markers(no_markers(alloc)),
    ) else {
        return Err(AllocError);
    };
    let Ok(_) = world.insert_raw(
        <R::Value as SceneValue<R::Data>>::allocator_id(),
        <R::Value as SceneValue<R::Data>>::wrap_allocator(SceneMarkerAllocator::new(alloc, next)),
    ) else {
        return Err(AllocError);
    };
    R::register(&mut world, store, alloc)?;
    Ok(world)
}
