//! Rules with four systems over positions and velocities, of which no two conflict.
ghost use Rattle.std.specs.Prelude.{◌≡◌, MatchResult, refl};
ghost use Rattle.std.proofs.Common.{rules};
ghost use Rattle.serde_json.specs.Data.{null};
ghost use Rattle.serde_json.specs.View.{view};
ghost use Rattle.scene_model.specs.Laws.{IsMaking};
ghost use Rattle.scene_model.specs.Rulebook.{misshapen};
ghost use Rattle.scene_world.specs.Turns.{sense_of};
ghost use Rattle.scene_cases.specs.Drifting.{counting, drifting_columns, drifting-apart};
ghost use Rattle.scene_cases.specs.DriftingLaws.{law-kinds_ascend, law-globals_ascend, law-reads_admitted, law-reads_back, law-no_float};
ghost use Rattle.scene_tests.specs.Watched.{configured, mover_access, mover_does, mover_name, watched_book, law-does, IsHalt};
ghost use Rattle.scene_tests.specs.WatchedLaws.{law-declares_known};

use hibitset_sets::BitSet;
use scene_cases::turns::{Drift, Drifting, Value};
use scene_model::{DocumentRules, Queue, ReadError, RunningTime, SystemAccess};
use scene_world::{Rules, Store, WorldRules};
use serde_json::Value as Json;
use shred_stages::Stop;
use shred_world::{Holder, ResourceId, World};
use specs_entity::Entity;
use specs_layouts::ReaderId;
use std::alloc::{AllocError, Global};

/// Rules under which entities drift, are watched, and are halted.
#[derive(Clone, Copy, Debug)]
pub struct Watched;

/// The systems: each position gains the velocity of its entity; one looks at the velocities and does nothing; one refuses each frame;
/// one declares a write to entities, so that no document with it is a scene.
#[derive(Clone, Copy, Debug, PartialEq, Eq)]
pub enum Mover {
    Drift,
    Watch,
    Halt,
    Found,
}

/// The refusal of a system that halts.
fn halted<H: AllocGlobal>(rt: &H) -> Stop
    ensures { IsHalt result }
{
    match String::from_str(rt.alloc(), "halted") {
        Ok(text) => Stop::Refused(text),
        Err(_) => Stop::Memory,
    }
}

/// A system with a configuration, which has to be null.
fn with_config(system: Mover, config: &Json) -> Result<Option<Mover>, ReadError>
    ensures { MatchResult result (IsMaking mover_name (λ _. null) mover_access (λ _. 3) (λ _. Unit {0})
        (mover_name system) (view config.now) (configured (mover_access system) (view config.now)))
        (λ error. error ≡ ReadError.Shape → configured (mover_access system) (view config.now) ≡ misshapen) }
{
    if config.is_null() {
        Ok(Some(system))
    } else {
        Err(ReadError::Shape)
    }
}

impl DocumentRules for Watched {
    type Data = u64;

    type Global = u64;

    type System = Mover;

    ghost book = { λ _. watched_book };

    ghost part_of = { counting };

    ghost global_of = { λ _. null };

    ghost kind_of = { mover_name };

    ghost config_of = { λ _. null };

    ghost declared = { mover_access };

    ghost said_time = { λ _. 3 };

    ghost made_by = { λ _ _. Unit {0} };

    fn part_names(&self) -> &[&'static str] {
        &["pos", "vel"]
    }

    fn global_names(&self) -> &[&'static str] {
        &[]
    }

    fn read_data(&self, _alloc: Global, _kind: &str, value: &Json) -> Result<u64, ReadError> {
        value.as_u64().ok_or(ReadError::Shape)
    }

    fn write_data(&self, _alloc: Global, datum: &u64) -> Result<Json, AllocError> {
        Ok(Json::from(*datum))
    }

    fn admits(&self, _kind: &str, _datum: &u64) -> bool {
        true
    }

    fn refs(&self, alloc: Global, _datum: &u64) -> Result<Vec<u64>, AllocError> {
        Ok(Vec::new(alloc))
    }

    fn read_global(&self, _alloc: Global, _name: &str, _value: &Json) -> Result<u64, ReadError> {
        Err(ReadError::Shape)
    }

    fn write_global(&self, _alloc: Global, _global: &u64) -> Result<Json, AllocError> {
        Ok(Json::Null)
    }

    fn make_system(
        &self,
        _alloc: Global,
        kind: &str,
        config: &Json,
    ) -> Result<Option<Mover>, ReadError> {
        if kind == "drift" {
            return with_config(Mover::Drift, config);
        }
        if kind == "watch" {
            return with_config(Mover::Watch, config);
        }
        if kind == "halt" {
            return with_config(Mover::Halt, config);
        }
        if kind == "found" {
            return with_config(Mover::Found, config);
        }
        Ok(None)
    }

    fn accessor(system: &Mover, alloc: Global) -> Result<SystemAccess, AllocError> {
        let (reads, writes, writes_reserved) = match system {
            Mover::Drift => (vec![in alloc; "vel"]?, vec![in alloc; "pos"]?, false),
            Mover::Watch | Mover::Halt => (vec![in alloc; "vel"]?, Vec::new(alloc), false),
            Mover::Found => (Vec::new(alloc), Vec::new(alloc), true),
        };
        Ok(SystemAccess {
            reads,
            writes,
            read_globals: Vec::new(alloc),
            written_globals: Vec::new(alloc),
            writes_reserved,
        })
    }

    fn running_time(_system: &Mover) -> RunningTime {
        RunningTime::Average
    }

    ghost kinds_ascend = { λ _. law-kinds_ascend };

    ghost globals_ascend = { λ _. law-globals_ascend };

    ghost clones = { Prim.search rules };

    ghost global_clones = { Prim.search rules };

    ghost reads_admitted = { λ _. law-reads_admitted };

    ghost reads_back = { λ _. law-reads_back };

    ghost global_reads_back = { Prim.search rules };

    ghost no_float = { law-no_float };

    ghost no_global_float = { Prim.search rules };

    ghost declares_known = { λ _. law-declares_known };
}

impl WorldRules for Watched {
    type Value = Value;

    ghost columns = { drifting_columns };

    ghost named_so = { λ _. record { parts = refl; owning = refl; globals = refl } };

    ghost apart = { drifting-apart };

    fn part_id(kind: &str) -> ResourceId {
        Drifting::part_id(kind)
    }

    fn owning(kind: &str) -> bool {
        Drifting::owning(kind)
    }

    fn global_id(name: &str) -> ResourceId {
        Drifting::global_id(name)
    }

    fn register(world: &mut World<Value>, store: Store, alloc: Global) -> Result<(), AllocError> {
        Drifting::register(world, store, alloc)
    }

    fn put(
        value: &mut Value,
        kind: &str,
        index: u32,
        datum: &u64,
        named: &[Entity],
    ) -> Result<(), AllocError> {
        Drifting::put(value, kind, index, datum, named)
    }

    fn take(value: &mut Value, kind: &str, index: u32) -> Result<(), AllocError> {
        Drifting::take(value, kind, index)
    }

    fn reader(value: &mut Value, kind: &str) -> Result<ReaderId, AllocError> {
        Drifting::reader(value, kind)
    }

    fn events(
        value: &Value,
        kind: &str,
        reader: &ReaderId,
        into: &mut BitSet,
    ) -> Result<(), AllocError> {
        Drifting::events(value, kind, reader, into)
    }

    fn catch_up(value: &mut Value, kind: &str, reader: &ReaderId) {
        Drifting::catch_up(value, kind, reader);
    }

    fn named_at(
        value: &Value,
        kind: &str,
        index: u32,
        named: &mut Vec<Entity>,
    ) -> Result<(), AllocError> {
        Drifting::named_at(value, kind, index, named)
    }

    fn get(
        value: &Value,
        kind: &str,
        index: u32,
        ids: &[u64],
        alloc: Global,
    ) -> Result<Option<u64>, AllocError> {
        Drifting::get(value, kind, index, ids, alloc)
    }

    fn to_value(name: &str, global: u64) -> Option<Value> {
        Drifting::to_value(name, global)
    }

    fn as_global<'a>(name: &str, value: &'a Value) -> Option<&'a u64> {
        Drifting::as_global(name, value)
    }
}

impl Rules for Watched {
    ghost sense = { λ _. sense_of watched_book };

    ghost does = { mover_does };

    ghost of_book = { λ rules system made. record { is = tt; sense_so = refl; does_so = λ f o did. law-does system f o null did } };

    fn run<H: AllocGlobal, W: Holder<Value>>(
        rt: &H,
        system: &mut Mover,
        view: &mut W,
        queue: &mut Queue<u64>,
    ) -> Result<(), Stop> {
        match system {
            Mover::Drift => Drifting::run(rt, &mut Drift, view, queue),
            Mover::Watch => Ok(()),
            Mover::Halt => Err(halted(rt)),
            Mover::Found => Ok(()),
        }
    }
}
