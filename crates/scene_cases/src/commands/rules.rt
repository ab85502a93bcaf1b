//! Rules under which entities belong to others.
ghost use Rattle.std.specs.Prelude.{◌≡◌, refl};
ghost use Rattle.scene_world.specs.Turns.{sense_of};
ghost use Rattle.scene_cases.specs.Owning.{owning_book, owning_columns, Rests};
ghost use Rattle.scene_cases.specs.Apart.{owning-apart};

use crate::commands::columns::{
    catch_up_owners, catch_up_ranks, owner_datum, owner_reader, push_owner, put_owner, put_rank,
    rank_datum, rank_reader, register_both, take_owner, take_rank, told_owners, told_ranks,
};
use crate::commands::datum::Datum;
use crate::commands::values::Value;
use hibitset_sets::BitSet;
use scene_model::Queue;
use scene_world::{Rules, Store, WorldRules};
use shred_stages::Stop;
use shred_world::{Holder, ResourceId, World};
use specs_entity::Entity;
use specs_layouts::ReaderId;
use std::alloc::{AllocError, Global};

/// Rules under which an entity belongs to another and has a rank, and a world has an era.
#[derive(Clone, Copy, Debug)]
pub struct Owning;

/// A system that rests. No document has one: these rules make none.
#[derive(Drop)]
pub struct Idle;

impl WorldRules for Owning {
    type Value = Value;

    ghost columns = { owning_columns };

    ghost named_so = { λ _. record { parts = refl; owning = refl; globals = refl } };

    ghost apart = { owning-apart };

    fn part_id(kind: &str) -> ResourceId {
        if kind == "owner" {
            ResourceId::from_type_id(4)
        } else {
            ResourceId::from_type_id(5)
        }
    }

    fn owning(_kind: &str) -> bool {
        false
    }

    fn global_id(_name: &str) -> ResourceId {
        ResourceId::from_type_id(6)
    }

    fn register(world: &mut World<Value>, store: Store, alloc: Global) -> Result<(), AllocError> {
        register_both(world, store, alloc)
    }

    fn put(
        value: &mut Value,
        kind: &str,
        index: u32,
        datum: &Datum,
        named: &[Entity],
    ) -> Result<(), AllocError> {
        match datum {
            Datum::OwnedBy(id) if kind == "owner" => put_owner(value, index, *id, named),
            Datum::Ranked(number) if kind != "owner" => put_rank(value, index, *number),
            _ => Err(AllocError),
        }
    }

    fn take(value: &mut Value, kind: &str, index: u32) -> Result<(), AllocError> {
        if kind == "owner" {
            take_owner(value, index)
        } else {
            take_rank(value, index)
        }
    }

    fn reader(value: &mut Value, kind: &str) -> Result<ReaderId, AllocError> {
        if kind == "owner" {
            owner_reader(value)
        } else {
            rank_reader(value)
        }
    }

    fn events(
        value: &Value,
        kind: &str,
        reader: &ReaderId,
        into: &mut BitSet,
    ) -> Result<(), AllocError> {
        if kind == "owner" {
            told_owners(value, reader, into)
        } else {
            told_ranks(value, reader, into)
        }
    }

    fn catch_up(value: &mut Value, kind: &str, reader: &ReaderId) {
        if kind == "owner" {
            catch_up_owners(value, reader);
        } else {
            catch_up_ranks(value, reader);
        }
    }

    fn named_at(
        value: &Value,
        kind: &str,
        index: u32,
        named: &mut Vec<Entity>,
    ) -> Result<(), AllocError> {
        if kind == "owner" {
            return push_owner(value, index, named);
        }
        Ok(())
    }

    fn get(
        value: &Value,
        kind: &str,
        index: u32,
        ids: &[u64],
        _alloc: Global,
    ) -> Result<Option<Datum>, AllocError> {
        if kind == "owner" {
            Ok(owner_datum(value, index, ids))
        } else {
            Ok(rank_datum(value, index, ids))
        }
    }

    fn to_value(_name: &str, global: u64) -> Option<Value> {
        Some(Value::EraValue(global))
    }

    fn as_global<'a>(_name: &str, value: &'a Value) -> Option<&'a u64> {
        match value {
            Value::EraValue(era) => Some(era),
            _ => None,
        }
    }
}

impl Rules for Owning {
    ghost sense = { λ _. sense_of owning_book };

    ghost does = { λ _. Rests };

    ghost of_book = { λ rules system made. absurd made };

    fn run<H: AllocGlobal, W: Holder<Value>>(
        _rt: &H,
        _system: &mut Idle,
        _view: &mut W,
        _queue: &mut Queue<Datum>,
    ) -> Result<(), Stop> {
        Ok(())
    }
}
