//! Parts of entities that are dropped from each storage of a list of kinds.
ghost use Rattle.std.specs.Prelude.{[], length, OnOk};
ghost use Rattle.std.specs.FinMap as map;
ghost use Rattle.shred_world.specs.Worlds.{AreDistinct};
ghost use Rattle.specs_layouts.specs.Drops.{ids_of};
ghost use Rattle.specs_world.specs.Dropping.{LeavesOthers, LeavesOtherKinds, SlotDrops, HasRoomAt, HaveRoom, Rests};
ghost use Rattle.specs_world.specs.Dropping.{DropsIn};

use shred_world::{ResourceId, World};
use specs_entity::Entity;
use specs_layouts::AnyStorage;
use std::alloc::AllocError;

/// Makes room for so many drops in what stands at an id.
///
/// Errors: want of memory, and all parts are there.
fn make_room_at<V: AnyStorage>(
    world: &mut World<V>,
    id: ResourceId,
    count: usize,
) -> Result<(), AllocError>
    ensures room { OnOk result (HasRoomAt V.has_room world.new id count) }
    ensures rests { SlotDrops V.drops [] (map.get world.old id) (map.get world.new id) }
    ensures others { LeavesOthers id world.old world.new }
{
    match world.get_mut_raw(id) {
        Some(value) => match value.make_room(count) {
            Ok(()) => Ok(()),
            Err(refused) => Err(refused),
        },
        None => Ok(()),
    }
}

/// Makes room for so many drops in each storage of a list of kinds.
///
/// Errors: want of memory, and all parts are there; some of the storages may have more room.
pub(crate) fn make_room_in<V: AnyStorage>(
    world: &mut World<V>,
    kinds: &[u32],
    count: usize,
) -> Result<(), AllocError>
    ensures room { OnOk result (HaveRoom V.has_room world.new kinds.now count) }
    ensures rests { Rests V.drops world.old world.new }
    ensures others { OnOk result (LeavesOtherKinds kinds.now world.old world.new) }
{
    for kind in kinds {
        make_room_at(world, ResourceId::from_type_id(*kind), count)?;
    }
    Ok(())
}

/// Drops the parts of entities from what stands at an id and has room for it. Takes no memory.
fn drop_at<V: AnyStorage>(world: &mut World<V>, id: ResourceId, entities: &[Entity])
    requires room { HasRoomAt V.has_room world.old id (length entities.now) }
    ensures here { SlotDrops V.drops (ids_of entities.now) (map.get world.old id) (map.get world.new id) }
    ensures others { LeavesOthers id world.old world.new }
{
    match world.get_mut_raw(id) {
        Some(value) => match AnyStorage::drop(value, entities) {
            Ok(()) => {}
            Err(_) => unreachable!(),
        },
        None => {}
    }
}

/// Drops the parts of entities from each storage of a list of kinds, which has room for it. Takes no memory.
pub(crate) fn drop_in<V: AnyStorage>(world: &mut World<V>, kinds: &[u32], entities: &[Entity])
    requires once { AreDistinct kinds.now }
    requires room { HaveRoom V.has_room world.old kinds.now (length entities.now) }
    ensures { DropsIn V.drops kinds.now (ids_of entities.now) world.old world.new }
{
    for kind in kinds {
        drop_at(world, ResourceId::from_type_id(*kind), entities);
    }
}
