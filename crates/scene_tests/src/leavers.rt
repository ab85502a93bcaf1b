//! Rules whose one system takes hp out and sets the global. Parts and the global are those of the program.
ghost use Rattle.std.specs.Prelude.{◌≡◌, Some, MatchResult, refl};
ghost use Rattle.std.proofs.Common.{rules};
ghost use Rattle.serde_json.specs.Data.{boolean};
ghost use Rattle.serde_json.specs.Find.{as_bool};
ghost use Rattle.serde_json.specs.View.{view};
ghost use Rattle.scene_model.specs.Laws.{IsMaking};
ghost use Rattle.scene_model.specs.Rulebook.{misshapen};
ghost use Rattle.scene_basics.specs.Apart.{basic-apart};
ghost use Rattle.scene_basics.specs.Columns.{basic_columns};
ghost use Rattle.scene_basics.specs.Numbers.{part_of, json_of};
ghost use Rattle.scene_basics.specs.RuleLaws.{law-reads_admitted, law-reads_back, law-global_reads_back, law-no_float, law-no_global_float, law-kinds_ascend, law-globals_ascend};
ghost use Rattle.scene_world.specs.Turns.{sense_of};
ghost use Rattle.scene_tests.specs.Leavers.{leavers, leave_kind, leaving, configured, Makes};
ghost use Rattle.scene_tests.specs.LeaverLaws.{law-leaving_is_known};

use crate::leaving::turn;
use hibitset_sets::BitSet;
use scene::{
    DocumentRules, Queue, ReadError, Rules, RunningTime, Stop, Store, SystemAccess, WorldRules,
};
use scene_basics::data::{Datum, G, HP};
use scene_basics::{Basics, Value};
use serde_json::Value as Json;
use shred_world::{Holder, ResourceId, World};
use specs_entity::Entity;
use specs_layouts::ReaderId;
use std::alloc::{AllocError, Global};

/// Rules with the parts and the global of the program and one system, `leave`.
#[derive(Clone, Copy, Debug)]
pub struct Leavers;

/// The system `leave`: it gives the global a value, and takes the hp of each entity out if that is to go.
#[derive(Clone, Copy, Debug)]
pub struct Leave {
    /// Whether hp is to go.
    pub hp_goes: bool,
}

/// The system `leave` with a configuration, which says whether hp is to go.
fn with_config(config: &Json) -> Result<Option<Leave>, ReadError>
    ensures { MatchResult result
        (IsMaking (λ _. leave_kind) (λ leave. boolean leave.hp_goes) (λ leave. (leaving leave.hp_goes).access) (λ _. 3)
        (λ _. Unit {0}) leave_kind (view config.now) (configured (as_bool (view config.now))))
        (λ error. error ≡ ReadError.Shape → configured (as_bool (view config.now)) ≡ misshapen) }
{
    match config.as_bool() {
        Some(hp_goes) => Ok(Some(Leave { hp_goes })),
        None => Err(ReadError::Shape),
    }
}

impl DocumentRules for Leavers {
    type Data = Datum;

    type Global = i64;

    type System = Leave;

    ghost book = { λ _. leavers };

    ghost part_of = { part_of };

    ghost global_of = { json_of };

    ghost kind_of = { λ _. leave_kind };

    ghost config_of = { λ leave. boolean leave.hp_goes };

    ghost declared = { λ leave. (leaving leave.hp_goes).access };

    ghost said_time = { λ _. 3 };

    ghost made_by = { λ _ _. Unit {0} };

    fn part_names(&self) -> &[&'static str] {
        Basics.part_names()
    }

    fn global_names(&self) -> &[&'static str] {
        Basics.global_names()
    }

    fn read_data(&self, alloc: Global, kind: &str, value: &Json) -> Result<Datum, ReadError> {
        Basics.read_data(alloc, kind, value)
    }

    fn write_data(&self, alloc: Global, datum: &Datum) -> Result<Json, AllocError> {
        Basics.write_data(alloc, datum)
    }

    fn admits(&self, kind: &str, datum: &Datum) -> bool {
        Basics.admits(kind, datum)
    }

    fn refs(&self, alloc: Global, datum: &Datum) -> Result<Vec<u64>, AllocError> {
        Basics.refs(alloc, datum)
    }

    fn read_global(&self, alloc: Global, name: &str, value: &Json) -> Result<i64, ReadError> {
        Basics.read_global(alloc, name, value)
    }

    fn write_global(&self, alloc: Global, global: &i64) -> Result<Json, AllocError> {
        Basics.write_global(alloc, global)
    }

    fn make_system(
        &self,
        _alloc: Global,
        kind: &str,
        config: &Json,
    ) -> Result<Option<Leave>, ReadError> {
        if kind == "leave" {
            return with_config(config);
        }
        Ok(None)
    }

    fn accessor(system: &Leave, alloc: Global) -> Result<SystemAccess, AllocError> {
        if system.hp_goes {
            Ok(SystemAccess {
                reads: Vec::new(alloc),
                writes: vec![in alloc; HP]?,
                read_globals: Vec::new(alloc),
                written_globals: vec![in alloc; G]?,
                writes_reserved: false,
            })
        } else {
            Ok(SystemAccess {
                reads: Vec::new(alloc),
                writes: Vec::new(alloc),
                read_globals: Vec::new(alloc),
                written_globals: vec![in alloc; G]?,
                writes_reserved: false,
            })
        }
    }

    fn running_time(_system: &Leave) -> RunningTime {
        RunningTime::Average
    }

    ghost kinds_ascend = { λ _. law-kinds_ascend };

    ghost globals_ascend = { λ _. law-globals_ascend };

    ghost clones = { Prim.search rules };

    ghost global_clones = { Prim.search rules };

    ghost reads_admitted = { λ _. law-reads_admitted };

    ghost reads_back = { λ _. law-reads_back };

    ghost global_reads_back = { λ _. law-global_reads_back };

    ghost no_float = { law-no_float };

    ghost no_global_float = { law-no_global_float };

    ghost declares_known = { λ _. law-leaving_is_known };
}

impl WorldRules for Leavers {
    type Value = Value;

    ghost columns = { basic_columns };

    ghost named_so = { λ _. record { parts = refl; owning = refl; globals = refl } };

    ghost apart = { basic-apart };

    fn part_id(kind: &str) -> ResourceId {
        Basics::part_id(kind)
    }

    fn owning(kind: &str) -> bool {
        Basics::owning(kind)
    }

    fn global_id(name: &str) -> ResourceId {
        Basics::global_id(name)
    }

    fn register(world: &mut World<Value>, store: Store, alloc: Global) -> Result<(), AllocError> {
        Basics::register(world, store, alloc)
    }

    fn put(
        value: &mut Value,
        kind: &str,
        index: u32,
        datum: &Datum,
        named: &[Entity],
    ) -> Result<(), AllocError> {
        Basics::put(value, kind, index, datum, named)
    }

    fn take(value: &mut Value, kind: &str, index: u32) -> Result<(), AllocError> {
        Basics::take(value, kind, index)
    }

    fn reader(value: &mut Value, kind: &str) -> Result<ReaderId, AllocError> {
        Basics::reader(value, kind)
    }

    fn events(
        value: &Value,
        kind: &str,
        reader: &ReaderId,
        into: &mut BitSet,
    ) -> Result<(), AllocError> {
        Basics::events(value, kind, reader, into)
    }

    fn catch_up(value: &mut Value, kind: &str, reader: &ReaderId) {
        Basics::catch_up(value, kind, reader);
    }

    fn named_at(
        value: &Value,
        kind: &str,
        index: u32,
        named: &mut Vec<Entity>,
    ) -> Result<(), AllocError> {
        Basics::named_at(value, kind, index, named)
    }

    fn get(
        value: &Value,
        kind: &str,
        index: u32,
        ids: &[u64],
        alloc: Global,
    ) -> Result<Option<Datum>, AllocError> {
        Basics::get(value, kind, index, ids, alloc)
    }

    fn to_value(name: &str, global: i64) -> Option<Value> {
        Basics::to_value(name, global)
    }

    fn as_global<'a>(name: &str, value: &'a Value) -> Option<&'a i64> {
        Basics::as_global(name, value)
    }
}

impl Rules for Leavers {
    ghost sense = { λ _. sense_of leavers };

    ghost does = { λ leave. Makes (Some leave.hp_goes) };

    ghost of_book = { λ rules leave made. record { is = tt; sense_so = refl; does_so = λ f o did. did } };

    fn run<H: AllocGlobal, W: Holder<Value>>(
        rt: &H,
        system: &mut Leave,
        view: &mut W,
        _queue: &mut Queue<Datum>,
    ) -> Result<(), Stop> {
        match turn(view, system.hp_goes, rt.alloc()) {
            Ok(()) => Ok(()),
            Err(_) => Err(Stop::Memory),
        }
    }
}
