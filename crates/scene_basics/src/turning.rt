//! The program's rules over a world.
ghost use Rattle.std.specs.Prelude.{Some, refl};
ghost use Rattle.scene_world.specs.Turns.{sense_of};
ghost use Rattle.scene_basics.specs.Systems.{basics, Makes};
ghost use Rattle.scene_basics.specs.Columns.{basic_columns};
ghost use Rattle.scene_basics.specs.Apart.{basic-apart};
ghost use Rattle.scene_basics.specs.WorldLaws.{law-of_book};

use crate::adding::{add_to, global_of};
use crate::asking::ask_all;
use crate::columns::{
    catch_up_numbers, catch_up_owners, number_datum, number_reader, numbers_each, owner_datum,
    owner_reader, part_id, push_owner, put_number, put_owner, register_all, take_number,
    take_owner, told_numbers, told_owners,
};
use crate::data::{Ask, BOND, BasicSystem, Datum, Gain, HP, POS, VEL};
use crate::rules::{Basics, is_reference_kind};
use crate::values::Value;
use hibitset_sets::BitSet;
use scene_model::Queue;
use scene_world::{Rules, Store, WorldRules};
use shred_stages::Stop;
use shred_world::{Holder, ResourceId, World};
use specs_entity::Entity;
use specs_layouts::ReaderId;
use std::alloc::{AllocError, Global};

impl WorldRules for Basics {
    type Value = Value;

    ghost columns = { basic_columns };

    ghost named_so = { λ _. record { parts = refl; owning = refl; globals = refl } };

    ghost apart = { basic-apart };

    fn part_id(kind: &str) -> ResourceId {
        part_id(kind)
    }

    fn owning(kind: &str) -> bool {
        kind == BOND
    }

    fn global_id(_name: &str) -> ResourceId {
        ResourceId::from_type_id(8)
    }

    fn register(world: &mut World<Value>, store: Store, alloc: Global) -> Result<(), AllocError> {
        register_all(world, store, alloc)
    }

    fn put(
        value: &mut Value,
        kind: &str,
        index: u32,
        datum: &Datum,
        named: &[Entity],
    ) -> Result<(), AllocError> {
        match datum {
            Datum::Owner(id) if is_reference_kind(kind) => put_owner(value, index, *id, named),
            Datum::Whole(whole) if !is_reference_kind(kind) => put_number(value, index, *whole),
            _ => Err(AllocError),
        }
    }

    fn take(value: &mut Value, kind: &str, index: u32) -> Result<(), AllocError> {
        if is_reference_kind(kind) {
            take_owner(value, index)
        } else {
            take_number(value, index)
        }
    }

    fn reader(value: &mut Value, kind: &str) -> Result<ReaderId, AllocError> {
        if is_reference_kind(kind) {
            owner_reader(value)
        } else {
            number_reader(value)
        }
    }

    fn events(
        value: &Value,
        kind: &str,
        reader: &ReaderId,
        into: &mut BitSet,
    ) -> Result<(), AllocError> {
        if is_reference_kind(kind) {
            told_owners(value, reader, into)
        } else {
            told_numbers(value, reader, into)
        }
    }

    fn catch_up(value: &mut Value, kind: &str, reader: &ReaderId) {
        if is_reference_kind(kind) {
            catch_up_owners(value, reader);
        } else {
            catch_up_numbers(value, reader);
        }
    }

    fn named_at(
        value: &Value,
        kind: &str,
        index: u32,
        named: &mut Vec<Entity>,
    ) -> Result<(), AllocError> {
        match value {
            Value::OwnersValue(_) if is_reference_kind(kind) => push_owner(value, index, named),
            _ => Ok(()),
        }
    }

    fn get(
        value: &Value,
        kind: &str,
        index: u32,
        ids: &[u64],
        _alloc: Global,
    ) -> Result<Option<Datum>, AllocError> {
        if is_reference_kind(kind) {
            Ok(owner_datum(value, index, ids))
        } else {
            Ok(number_datum(value, index, ids))
        }
    }

    fn names_nobody(value: &Value, kind: &str) -> bool {
        match value {
            Value::OwnersValue(owners) if is_reference_kind(kind) => owners.mask().is_empty(),
            _ => true,
        }
    }

    fn holders<'a>(value: &'a Value, kind: &str) -> Option<&'a BitSet> {
        match value {
            Value::OwnersValue(owners) if is_reference_kind(kind) => Some(owners.mask()),
            _ => None,
        }
    }

    fn get_each(
        value: &Value,
        kind: &str,
        entities: &[(u64, u32)],
        alloc: Global,
    ) -> Result<Option<Vec<(u64, Option<Datum>)>>, AllocError> {
        match value {
            Value::NumbersValue(numbers) if !is_reference_kind(kind) => {
                let data = numbers_each(numbers, entities, alloc)?;
                Ok(Some(data))
            }
            Value::OwnersValue(owners) if is_reference_kind(kind) && owners.mask().is_empty() => {
                Ok(Some(Vec::new(alloc)))
            }
            _ => Ok(None),
        }
    }

    fn to_value(_name: &str, global: i64) -> Option<Value> {
        Some(Value::GlobalValue(global))
    }

    fn as_global<'a>(_name: &str, value: &'a Value) -> Option<&'a i64> {
        match value {
            Value::GlobalValue(global) => Some(global),
            _ => None,
        }
    }
}

impl Rules for Basics {
    ghost sense = { λ _. sense_of basics };

    ghost does = { λ system. Makes (Some system) };

    ghost of_book = { λ rules system made. law-of_book system };

    fn run<H: AllocGlobal, W: Holder<Value>>(
        rt: &H,
        system: &mut BasicSystem,
        view: &mut W,
        queue: &mut Queue<Datum>,
    ) -> Result<(), Stop> {
        match *system {
            BasicSystem::Drift => add_to(rt, view, POS, Gain::Under(VEL)),
            BasicSystem::Pull => {
                let by = global_of(view);
                add_to(rt, view, VEL, Gain::Each(by))
            }
            BasicSystem::Decay => add_to(rt, view, HP, Gain::Each(Some(-1))),
            BasicSystem::Reap => ask_all(rt, view, Ask::Deaths, queue),
            BasicSystem::Bud => ask_all(rt, view, Ask::Births, queue),
        }
    }
}
