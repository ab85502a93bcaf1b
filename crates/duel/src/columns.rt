//! Where the parts and globals of the rules stand in a world: what values.list names, of which tools/values wrote this.
ghost use Rattle.std.specs.Prelude.{Some, refl};
ghost use Rattle.duel.specs.Values.{columns, kinds-apart};

use crate::data::{Attack, Datum, Hp, Target};
use crate::rules::Duel;
use crate::values::Value;
use hibitset_sets::BitSet;
use scene_world::{CountingRules, Store, WorldRules, columns};
use shred_world::{ResourceId, World};
use specs_entity::Entity;
use specs_layouts::{MaskedStorage, ReaderId};
use std::alloc::{AllocError, Global};

/// The storage of a kind.
type Attacks = MaskedStorage<Attack>;

/// The storage of a kind.
type Hps = MaskedStorage<Hp>;

/// The storage of a kind.
type Targets = MaskedStorage<Target>;

impl WorldRules for Duel {
    type Value = Value;

    ghost columns = { columns };

    ghost named_so = { λ _. record { parts = refl; owning = refl; globals = refl } };

    ghost apart = { kinds-apart };

    fn part_id(kind: &str) -> ResourceId {
        if kind == "attack" {
            return ResourceId::from_type_id(4);
        }
        if kind == "hp" {
            return ResourceId::from_type_id(5);
        }
        ResourceId::from_type_id(6)
    }

    fn owning(_kind: &str) -> bool {
        false
    }

    fn global_id(_name: &str) -> ResourceId {
        ResourceId::from_type_id(7)
    }

    fn register(world: &mut World<Value>, store: Store, alloc: Global) -> Result<(), AllocError> {
        columns::register::<Attacks, Value>(world, store, alloc)?;
        columns::register::<Hps, Value>(world, store, alloc)?;
        columns::register::<Targets, Value>(world, store, alloc)
    }

    fn put(
        value: &mut Value,
        kind: &str,
        index: u32,
        datum: &Datum,
        named: &[Entity],
    ) -> Result<(), AllocError> {
        if kind == "attack" {
            return columns::put::<Attacks, Value>(value, index, datum, named);
        }
        if kind == "hp" {
            return columns::put::<Hps, Value>(value, index, datum, named);
        }
        columns::put::<Targets, Value>(value, index, datum, named)
    }

    fn take(value: &mut Value, kind: &str, index: u32) -> Result<(), AllocError> {
        if kind == "attack" {
            return columns::take::<Attacks, Value>(value, index);
        }
        if kind == "hp" {
            return columns::take::<Hps, Value>(value, index);
        }
        columns::take::<Targets, Value>(value, index)
    }

    fn reader(value: &mut Value, kind: &str) -> Result<ReaderId, AllocError> {
        if kind == "attack" {
            return columns::reader::<Attacks, Value>(value);
        }
        if kind == "hp" {
            return columns::reader::<Hps, Value>(value);
        }
        columns::reader::<Targets, Value>(value)
    }

    fn events(
        value: &Value,
        kind: &str,
        reader: &ReaderId,
        into: &mut BitSet,
    ) -> Result<(), AllocError> {
        if kind == "attack" {
            return columns::events::<Attacks, Value>(value, reader, into);
        }
        if kind == "hp" {
            return columns::events::<Hps, Value>(value, reader, into);
        }
        columns::events::<Targets, Value>(value, reader, into)
    }

    fn catch_up(value: &mut Value, kind: &str, reader: &ReaderId) {
        if kind == "attack" {
            return columns::catch_up::<Attacks, Value>(value, reader);
        }
        if kind == "hp" {
            return columns::catch_up::<Hps, Value>(value, reader);
        }
        columns::catch_up::<Targets, Value>(value, reader);
    }

    fn named_at(
        value: &Value,
        kind: &str,
        index: u32,
        named: &mut Vec<Entity>,
    ) -> Result<(), AllocError> {
        if kind == "attack" {
            return columns::named_at::<Attacks, Value>(value, index, named);
        }
        if kind == "hp" {
            return columns::named_at::<Hps, Value>(value, index, named);
        }
        columns::named_at::<Targets, Value>(value, index, named)
    }

    fn get(
        value: &Value,
        kind: &str,
        index: u32,
        ids: &[u64],
        _alloc: Global,
    ) -> Result<Option<Datum>, AllocError> {
        if kind == "attack" {
            return columns::get::<Attacks, Value>(value, index, ids);
        }
        if kind == "hp" {
            return columns::get::<Hps, Value>(value, index, ids);
        }
        columns::get::<Targets, Value>(value, index, ids)
    }

    fn names_nobody(value: &Value, kind: &str) -> bool {
        if kind == "attack" {
            return columns::names_nobody::<Attacks, Value>(value);
        }
        if kind == "hp" {
            return columns::names_nobody::<Hps, Value>(value);
        }
        columns::names_nobody::<Targets, Value>(value)
    }

    fn holders<'a>(value: &'a Value, kind: &str) -> Option<&'a BitSet> {
        if kind == "attack" {
            return columns::holders::<Attacks, Value>(value);
        }
        if kind == "hp" {
            return columns::holders::<Hps, Value>(value);
        }
        columns::holders::<Targets, Value>(value)
    }

    fn get_each(
        value: &Value,
        kind: &str,
        entities: &[(u64, u32)],
        alloc: Global,
    ) -> Result<Option<Vec<(u64, Option<Datum>)>>, AllocError> {
        if kind == "attack" {
            return columns::get_each::<Attacks, Value>(value, entities, alloc);
        }
        if kind == "hp" {
            return columns::get_each::<Hps, Value>(value, entities, alloc);
        }
        columns::get_each::<Targets, Value>(value, entities, alloc)
    }

    fn to_value(_name: &str, global: u64) -> Option<Value> {
        Some(Value::TurnValue(global))
    }

    fn as_global<'a>(_name: &str, value: &'a Value) -> Option<&'a u64> {
        match value {
            Value::TurnValue(global) => Some(global),
            _ => None,
        }
    }
}

impl CountingRules for Duel {
    fn number_of(global: &u64) -> Option<u64> {
        Some(*global)
    }

    fn counted(number: u64) -> u64 {
        number
    }
}
