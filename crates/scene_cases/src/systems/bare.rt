//! A world in which a scene without entities stands, and no storage of parts.
ghost use Rattle.std.specs.Prelude.{◌≡◌, IfOk, OnOk, Some};
ghost use Rattle.std.specs.FinMap as map;
ghost use Rattle.shred_world.specs.ResourceIds.{id_of};
ghost use Rattle.shred_world.specs.Bundles.{holding_of};
ghost use Rattle.specs_layouts.specs.Parts.{HasNone};
ghost use Rattle.scene_world.specs.Markers.{marker_at};
ghost use Rattle.scene_world.specs.Standing.{seen_in, IsSceneWorld};
ghost use Rattle.scene_cases.specs.Drifting.{drifting_book};
ghost use Rattle.scene_dispatch.specs.Frames.{AreReady};
ghost use Rattle.scene_cases.specs.declared.turns.values.Value.{Value as Values};
ghost use Rattle.scene_cases.specs.Twice.{drifting_kinds, drift_meaning};

use crate::systems::frames::drift_twice;
use crate::turns::{Drifting, Value};
use scene_dispatch::SceneDispatcher;
use scene_model::Queue;
use scene_world::{SceneMarker, SceneMarkerAllocator, SceneValue};
use shred_world::{Resource, World};
use specs_entity::EntitiesRes;
use specs_layouts::{FlaggedStorage, MaskedStorage, TryDefault};
use std::alloc::{AllocError, Global};

/// Puts a resource into a world. Errors: want of memory.
fn put<R: Resource<Value> + Drop>(world: &mut World<Value>, resource: R) -> Result<(), AllocError>
    ensures { OnOk result (world.new ≡ map.insert world.old (id_of R.kind_number 0) (Some (R.wrapped resource))) }
{
    match world.insert(resource) {
        Ok(()) => Ok(()),
        Err(_) => Err(AllocError),
    }
}

/// Puts an empty queue for the system at a position into a world. Errors: want of memory.
fn put_queue(world: &mut World<Value>, alloc: Global, position: u32) -> Result<(), AllocError>
    ensures { OnOk result ((queue : Values) × (world.new ≡ map.insert world.old (id_of 3 position) (Some queue))) }
{
    let id = <Value as SceneValue<u64>>::queue_id(position);
    let queue = <Value as SceneValue<u64>>::wrap_queue(Queue::new(alloc));
    match world.insert_raw(id, queue) {
        Ok(_) => Ok(()),
        Err(_) => Err(AllocError),
    }
}

/// The markers of no entity.
fn no_markers(alloc: Global) -> MaskedStorage<SceneMarker>
    ensures { HasNone (marker_at result) }
{
    MaskedStorage::new(alloc, FlaggedStorage::unwrap_default(alloc))
}

/// The world, with queues for the systems at the positions 1 and 2.
///
/// Errors: want of memory.
pub fn bare_world(alloc: Global) -> Result<World<Value>, AllocError>
    ensures { IfOk result (λ world. IsSceneWorld drifting_kinds drifting_book (seen_in (holding_of world))) }
{
    let mut world = World::empty(alloc);
    put(&mut world, EntitiesRes::new(alloc))?;
    put(&mut world, no_markers(alloc))?;
    put(&mut world, SceneMarkerAllocator::new(alloc, 0))?;
    put_queue(&mut world, alloc, 1)?;
    put_queue(&mut world, alloc, 2)?;
    Ok(world)
}

/// Drift at two positions over such a world: all stand ready.
///
/// Errors: want of memory.
pub fn bare_frames(
    alloc: Global,
    workers: usize,
) -> Result<(SceneDispatcher<Drifting>, World<Value>), AllocError>
    ensures { IfOk result (λ both. AreReady drifting_kinds (drift_meaning (λ placed. placed.position)) drifting_book
        both.0 (holding_of both.1)) }
{
    let world = bare_world(alloc)?;
    let systems = drift_twice(alloc, workers)?;
    Ok((systems, world))
}
