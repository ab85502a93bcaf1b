//! The parts of the two kinds in the values of a world.
ghost use Rattle.std.specs.Prelude.{◌≡◌, ◌<◌, [], IfOk, OnOk, OnErr};
ghost use Rattle.specs_layouts.specs.Shows.{Shows};
ghost use Rattle.scene_world.specs.Telling.{GainsReader, CatchesUp, TakesTold, TakesSome};
ghost use Rattle.scene_world.specs.Putting.{PutsIn, TakesOut, SameColumn, Registers};
ghost use Rattle.scene_cases.specs.Drifting.{counting, drifting_columns, position_column, velocity_column, position_number, velocity_number};
ghost use Rattle.scene_cases.specs.Drifting.{position_events, position_emits, velocity_events, velocity_emits};

use crate::turns::values::{Position, Value, Velocity};
use hibitset_sets::BitSet;
use scene_world::{Store, catch_up_reader, gain_reader, scene_storage, told_indices};
use shred_world::World;
use specs_layouts::{MaskedStorage, ReaderId};
use std::alloc::{AllocError, Global};

/// Puts an empty storage of each kind into a world. Errors: want of memory.
pub(crate) fn register_both(
    world: &mut World<Value>,
    store: Store,
    alloc: Global,
) -> Result<(), AllocError>
    ensures { OnOk result (Registers drifting_columns world.old world.new) }
{
    let positions: MaskedStorage<Position> = MaskedStorage::new(alloc, scene_storage(alloc, store));
    let velocities: MaskedStorage<Velocity> = MaskedStorage::new(
        alloc,
        scene_storage(alloc, store),
    );
    let Ok(()) = world.insert(positions) else {
        return Err(AllocError);
    };
    match world.insert(velocities) {
        Ok(()) => Ok(()),
        Err(_) => Err(AllocError),
    }
}

/// Puts a position in. Errors: want of memory, and where the value has no positions.
pub(crate) fn put_position(value: &mut Value, index: u32, number: u64) -> Result<(), AllocError>
    requires { index < 16777216 }
    ensures ok { OnOk result (PutsIn position_column index (counting number) [] value.old value.new) }
    ensures err { OnErr result (SameColumn position_column value.old value.new) }
    ensures shown { Shows position_column position_events position_emits value.old value.new }
{
    let Value::PositionValue(positions) = value else {
        return Err(AllocError);
    };
    match positions.insert(index, Position(number)) {
        Ok(_) => Ok(()),
        Err(_) => Err(AllocError),
    }
}

/// Puts a velocity in. Errors: want of memory, and where the value has no velocities.
pub(crate) fn put_velocity(value: &mut Value, index: u32, number: u64) -> Result<(), AllocError>
    requires { index < 16777216 }
    ensures ok { OnOk result (PutsIn velocity_column index (counting number) [] value.old value.new) }
    ensures err { OnErr result (SameColumn velocity_column value.old value.new) }
    ensures shown { Shows velocity_column velocity_events velocity_emits value.old value.new }
{
    let Value::VelocityValue(velocities) = value else {
        return Err(AllocError);
    };
    match velocities.insert(index, Velocity(number)) {
        Ok(_) => Ok(()),
        Err(_) => Err(AllocError),
    }
}

/// Takes a position out. Errors: want of memory.
pub(crate) fn take_position(value: &mut Value, index: u32) -> Result<(), AllocError>
    ensures ok { OnOk result (TakesOut position_column index value.old value.new) }
    ensures err { OnErr result (SameColumn position_column value.old value.new) }
    ensures shown { Shows position_column position_events position_emits value.old value.new }
{
    let Value::PositionValue(positions) = value else {
        return Ok(());
    };
    match positions.drop(index) {
        Ok(()) => Ok(()),
        Err(_) => Err(AllocError),
    }
}

/// Takes a velocity out. Errors: want of memory.
pub(crate) fn take_velocity(value: &mut Value, index: u32) -> Result<(), AllocError>
    ensures ok { OnOk result (TakesOut velocity_column index value.old value.new) }
    ensures err { OnErr result (SameColumn velocity_column value.old value.new) }
    ensures shown { Shows velocity_column velocity_events velocity_emits value.old value.new }
{
    let Value::VelocityValue(velocities) = value else {
        return Ok(());
    };
    match velocities.drop(index) {
        Ok(()) => Ok(()),
        Err(_) => Err(AllocError),
    }
}

/// The number of the position at an index, if there is one.
pub(crate) fn position_datum(value: &Value, index: u32) -> Option<u64>
    ensures { result ≡ position_number value.now index }
{
    let Value::PositionValue(positions) = value else {
        return None;
    };
    if positions.contains(index) {
        Some(positions.get(index).0)
    } else {
        None
    }
}

/// The number of the velocity at an index, if there is one.
pub(crate) fn velocity_datum(value: &Value, index: u32) -> Option<u64>
    ensures { result ≡ velocity_number value.now index }
{
    let Value::VelocityValue(velocities) = value else {
        return None;
    };
    if velocities.contains(index) {
        Some(velocities.get(index).0)
    } else {
        None
    }
}

/// Registers a reader of the events of positions and turns emission on.
///
/// Errors: want of memory, and where the value has no positions; all is as it was.
pub(crate) fn position_reader(value: &mut Value) -> Result<ReaderId, AllocError>
    ensures ok { IfOk result
        (λ reader. GainsReader position_column position_events position_emits reader value.old value.new) }
    ensures err { OnErr result (value.new ≡ value.old) }
{
    let Value::PositionValue(positions) = value else {
        return Err(AllocError);
    };
    match gain_reader(positions) {
        Ok(reader) => Ok(reader),
        Err(_) => Err(AllocError),
    }
}

/// Puts the indices of which a reader of the events of positions has yet to read events into a set.
///
/// Errors: want of memory; some of the indices are in.
pub(crate) fn told_positions(
    value: &Value,
    reader: &ReaderId,
    into: &mut BitSet,
) -> Result<(), AllocError>
    ensures ok { OnOk result (TakesTold (position_events value.now) reader.now into.old into.new) }
    ensures err { OnErr result (TakesSome (position_events value.now) reader.now into.old into.new) }
{
    let Value::PositionValue(positions) = value else {
        return Ok(());
    };
    match told_indices(positions, reader, into) {
        Ok(()) => Ok(()),
        Err(_) => Err(AllocError),
    }
}

/// A reader of the events of positions has read all of them.
pub(crate) fn catch_up_positions(value: &mut Value, reader: &ReaderId)
    ensures { CatchesUp position_column position_events position_emits reader.now value.old value.new }
{
    let Value::PositionValue(positions) = value else {
        return;
    };
    catch_up_reader(positions, reader);
}

/// Registers a reader of the events of velocities and turns emission on.
///
/// Errors: want of memory, and where the value has no velocities; all is as it was.
pub(crate) fn velocity_reader(value: &mut Value) -> Result<ReaderId, AllocError>
    ensures ok { IfOk result
        (λ reader. GainsReader velocity_column velocity_events velocity_emits reader value.old value.new) }
    ensures err { OnErr result (value.new ≡ value.old) }
{
    let Value::VelocityValue(velocities) = value else {
        return Err(AllocError);
    };
    match gain_reader(velocities) {
        Ok(reader) => Ok(reader),
        Err(_) => Err(AllocError),
    }
}

/// Puts the indices of which a reader of the events of velocities has yet to read events into a set.
///
/// Errors: want of memory; some of the indices are in.
pub(crate) fn told_velocities(
    value: &Value,
    reader: &ReaderId,
    into: &mut BitSet,
) -> Result<(), AllocError>
    ensures ok { OnOk result (TakesTold (velocity_events value.now) reader.now into.old into.new) }
    ensures err { OnErr result (TakesSome (velocity_events value.now) reader.now into.old into.new) }
{
    let Value::VelocityValue(velocities) = value else {
        return Ok(());
    };
    match told_indices(velocities, reader, into) {
        Ok(()) => Ok(()),
        Err(_) => Err(AllocError),
    }
}

/// A reader of the events of velocities has read all of them.
pub(crate) fn catch_up_velocities(value: &mut Value, reader: &ReaderId)
    ensures { CatchesUp velocity_column velocity_events velocity_emits reader.now value.old value.new }
{
    let Value::VelocityValue(velocities) = value else {
        return;
    };
    catch_up_reader(velocities, reader);
}
