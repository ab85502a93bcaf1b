//! Rules with two kinds of parts and one system, which moves positions by velocities.
ghost use Rattle.std.specs.Prelude.{◌≡◌, refl};
ghost use Rattle.scene_world.specs.Turns.{sense_of};
ghost use Rattle.scene_cases.specs.Drifting.{drifting_book, drifting_columns, Drifts, drifting-apart};

use crate::turns::columns::{
    catch_up_positions, catch_up_velocities, position_datum, position_reader, put_position,
    put_velocity, register_both, take_position, take_velocity, told_positions, told_velocities,
    velocity_datum, velocity_reader,
};
use crate::turns::drift::drift_all;
use crate::turns::values::Value;
use hibitset_sets::BitSet;
use scene_model::Queue;
use scene_world::{Rules, Store, WorldRules};
use shred_stages::Stop;
use shred_world::{Holder, ResourceId, World};
use specs_entity::Entity;
use specs_layouts::ReaderId;
use std::alloc::{AllocError, Global};

/// Rules under which entities have a position and a velocity.
#[derive(Clone, Copy, Debug)]
pub struct Drifting;

/// The system: each position gains the velocity of its entity.
#[derive(Drop)]
pub struct Drift;

impl WorldRules for Drifting {
    type Value = Value;

    ghost columns = { drifting_columns };

    ghost named_so = { λ _. record { parts = refl; owning = refl; globals = refl } };

    ghost apart = { drifting-apart };

    fn part_id(kind: &str) -> ResourceId {
        if kind == "pos" {
            ResourceId::from_type_id(4)
        } else {
            ResourceId::from_type_id(5)
        }
    }

    fn owning(_kind: &str) -> bool {
        false
    }

    fn global_id(_name: &str) -> ResourceId {
        ResourceId::from_type_id(6)
    }

    fn register(world: &mut World<Value>, store: Store, alloc: Global) -> Result<(), AllocError> {
        register_both(world, store, alloc)
    }

    fn put(
        value: &mut Value,
        kind: &str,
        index: u32,
        datum: &u64,
        _named: &[Entity],
    ) -> Result<(), AllocError> {
        if kind == "pos" {
            put_position(value, index, *datum)
        } else {
            put_velocity(value, index, *datum)
        }
    }

    fn take(value: &mut Value, kind: &str, index: u32) -> Result<(), AllocError> {
        if kind == "pos" {
            take_position(value, index)
        } else {
            take_velocity(value, index)
        }
    }

    fn reader(value: &mut Value, kind: &str) -> Result<ReaderId, AllocError> {
        if kind == "pos" {
            position_reader(value)
        } else {
            velocity_reader(value)
        }
    }

    fn events(
        value: &Value,
        kind: &str,
        reader: &ReaderId,
        into: &mut BitSet,
    ) -> Result<(), AllocError> {
        if kind == "pos" {
            told_positions(value, reader, into)
        } else {
            told_velocities(value, reader, into)
        }
    }

    fn catch_up(value: &mut Value, kind: &str, reader: &ReaderId) {
        if kind == "pos" {
            catch_up_positions(value, reader);
        } else {
            catch_up_velocities(value, reader);
        }
    }

    fn named_at(
        _value: &Value,
        _kind: &str,
        _index: u32,
        _named: &mut Vec<Entity>,
    ) -> Result<(), AllocError> {
        Ok(())
    }

    fn get(
        value: &Value,
        kind: &str,
        index: u32,
        _ids: &[u64],
        _alloc: Global,
    ) -> Result<Option<u64>, AllocError> {
        if kind == "pos" {
            Ok(position_datum(value, index))
        } else {
            Ok(velocity_datum(value, index))
        }
    }

    fn to_value(_name: &str, _global: u64) -> Option<Value> {
        None
    }

    fn as_global<'a>(_name: &str, _value: &'a Value) -> Option<&'a u64> {
        None
    }
}

impl Rules for Drifting {
    ghost sense = { λ _. sense_of drifting_book };

    ghost does = { λ _. Drifts };

    ghost of_book = { λ rules system made. record { is = tt; sense_so = refl; does_so = λ f o did. did } };

    fn run<H: AllocGlobal, W: Holder<Value>>(
        _rt: &H,
        _system: &mut Drift,
        view: &mut W,
        _queue: &mut Queue<u64>,
    ) -> Result<(), Stop> {
        drift_all(view)
    }
}
