//! Rules with two systems that wait for one another, over kinds of their own.
ghost use Rattle.std.specs.Prelude.{◌≡◌, MatchResult, refl};
ghost use Rattle.std.proofs.Common.{rules};
ghost use Rattle.serde_json.specs.Data.{null};
ghost use Rattle.serde_json.specs.View.{view};
ghost use Rattle.scene_model.specs.Laws.{IsMaking};
ghost use Rattle.scene_model.specs.Rulebook.{misshapen};
ghost use Rattle.scene_world.specs.Turns.{sense_of};
ghost use Rattle.scene_cases.specs.Drifting.{counting, drifting_columns, drifting-apart};
ghost use Rattle.scene_cases.specs.DriftingLaws.{law-kinds_ascend, law-globals_ascend, law-reads_admitted, law-reads_back, law-no_float};
ghost use Rattle.scene_tests.specs.Watched.{configured};
ghost use Rattle.scene_tests.specs.Gated.{place_access, place_name, gated_book, Passes, IsAlone, law-passes};
ghost use Rattle.scene_tests.specs.GatedLaws.{law-gates_known};

use hibitset_sets::BitSet;
use scene::{
    DocumentRules, Queue, ReadError, Rules, RunningTime, Stop, Store, SystemAccess, WorldRules,
};
use scene_cases::turns::{Drifting, Value};
use serde_json::Value as Json;
use shred_world::{Holder, ResourceId, World};
use specs_entity::Entity;
use specs_layouts::ReaderId;
use std::alloc::{AllocError, Global};
use std::sync::Arc;
use std::sync::atomic::{AtomicU64, Ordering};

/// The flags of two gates: 1 where the gate was reached.
type Flags = (AtomicU64, AtomicU64);

/// Rules under which two gates wait for one another: a gate that rules make has their flags.
#[derive(Drop)]
pub struct Gated {
    flags: Arc<Flags>,
}

/// Which of two gates it is.
#[derive(Clone, Copy, Debug, PartialEq, Eq)]
pub enum Place {
    First,
    Second,
}

/// A system that raises its own flag, and refuses where it never sees the other's.
#[derive(Drop)]
pub struct Gate {
    flags: Arc<Flags>,
    place: Place,
}

impl Gated {
    /// Rules with flags of their own, which nobody has raised.
    ///
    /// Errors: want of memory.
    pub fn new(alloc: Global) -> Result<Gated, AllocError> {
        let flags = Arc::new(alloc, (AtomicU64::new(0), AtomicU64::new(0)))?;
        Ok(Gated { flags })
    }
}

/// Whether a flag is seen raised in 1,000,000,000 looks.
fn is_seen(flag: &AtomicU64) -> bool {
    for _look in 0..1_000_000_000u64 {
        if flag.load(Ordering::SeqCst) == 1 {
            return true;
        }
    }
    false
}

/// Raises a flag, and tells whether the other is seen.
fn sees(own: &AtomicU64, other: &AtomicU64) -> bool {
    own.store(1, Ordering::SeqCst);
    is_seen(other)
}

/// Whether a gate is passed: its own flag is raised, and the other's is seen.
fn passes(gate: &Gate) -> bool {
    let flags = &*gate.flags;
    match gate.place {
        Place::First => sees(&flags.0, &flags.1),
        Place::Second => sees(&flags.1, &flags.0),
    }
}

/// The refusal of a gate to which nobody came.
fn alone<H: AllocGlobal>(rt: &H) -> Stop
    ensures { IsAlone result }
{
    match String::from_str(rt.alloc(), "alone") {
        Ok(text) => Stop::Refused(text),
        Err(_) => Stop::Memory,
    }
}

/// A gate with a configuration, which has to be null.
fn with_config(flags: &Arc<Flags>, place: Place, config: &Json) -> Result<Option<Gate>, ReadError>
    ensures { MatchResult result (IsMaking (λ gate. place_name gate.place) (λ _. null) (λ gate. place_access gate.place)
        (λ _. 3) (λ _. Unit {0}) (place_name place) (view config.now)
        (configured (place_access place) (view config.now)))
        (λ error. error ≡ ReadError.Shape → configured (place_access place) (view config.now) ≡ misshapen) }
{
    if config.is_null() {
        match Arc::try_clone(flags) {
            Ok(flags) => Ok(Some(Gate { flags, place })),
            Err(_) => Err(ReadError::Memory),
        }
    } else {
        Err(ReadError::Shape)
    }
}

impl DocumentRules for Gated {
    type Data = u64;

    type Global = u64;

    type System = Gate;

    ghost book = { λ _. gated_book };

    ghost part_of = { counting };

    ghost global_of = { λ _. null };

    ghost kind_of = { λ gate. place_name gate.place };

    ghost config_of = { λ _. null };

    ghost declared = { λ gate. place_access gate.place };

    ghost said_time = { λ _. 3 };

    ghost made_by = { λ _ _. Unit {0} };

    fn part_names(&self) -> &[&'static str] {
        &["pos", "vel"]
    }

    fn global_names(&self) -> &[&'static str] {
        &[]
    }

    fn read_data(&self, _alloc: Global, _kind: &str, value: &Json) -> Result<u64, ReadError> {
        value.as_u64().ok_or(ReadError::Shape)
    }

    fn write_data(&self, _alloc: Global, datum: &u64) -> Result<Json, AllocError> {
        Ok(Json::from(*datum))
    }

    fn admits(&self, _kind: &str, _datum: &u64) -> bool {
        true
    }

    fn refs(&self, alloc: Global, _datum: &u64) -> Result<Vec<u64>, AllocError> {
        Ok(Vec::new(alloc))
    }

    fn read_global(&self, _alloc: Global, _name: &str, _value: &Json) -> Result<u64, ReadError> {
        Err(ReadError::Shape)
    }

    fn write_global(&self, _alloc: Global, _global: &u64) -> Result<Json, AllocError> {
        Ok(Json::Null)
    }

    fn make_system(
        &self,
        _alloc: Global,
        kind: &str,
        config: &Json,
    ) -> Result<Option<Gate>, ReadError> {
        if kind == "first" {
            return with_config(&self.flags, Place::First, config);
        }
        if kind == "second" {
            return with_config(&self.flags, Place::Second, config);
        }
        Ok(None)
    }

    fn accessor(gate: &Gate, alloc: Global) -> Result<SystemAccess, AllocError> {
        let reads = match gate.place {
            Place::First => vec![in alloc; "pos"]?,
            Place::Second => vec![in alloc; "vel"]?,
        };
        Ok(SystemAccess {
            reads,
            writes: Vec::new(alloc),
            read_globals: Vec::new(alloc),
            written_globals: Vec::new(alloc),
            writes_reserved: false,
        })
    }

    fn running_time(_gate: &Gate) -> RunningTime {
        RunningTime::Average
    }

    ghost kinds_ascend = { λ _. law-kinds_ascend };

    ghost globals_ascend = { λ _. law-globals_ascend };

    ghost clones = { Prim.search rules };

    ghost global_clones = { Prim.search rules };

    ghost reads_admitted = { λ _. law-reads_admitted };

    ghost reads_back = { λ _. law-reads_back };

    ghost global_reads_back = { Prim.search rules };

    ghost no_float = { law-no_float };

    ghost no_global_float = { Prim.search rules };

    ghost declares_known = { λ _. law-gates_known };
}

impl WorldRules for Gated {
    type Value = Value;

    ghost columns = { drifting_columns };

    ghost named_so = { λ _. record { parts = refl; owning = refl; globals = refl } };

    ghost apart = { drifting-apart };

    fn part_id(kind: &str) -> ResourceId {
        Drifting::part_id(kind)
    }

    fn owning(kind: &str) -> bool {
        Drifting::owning(kind)
    }

    fn global_id(name: &str) -> ResourceId {
        Drifting::global_id(name)
    }

    fn register(world: &mut World<Value>, store: Store, alloc: Global) -> Result<(), AllocError> {
        Drifting::register(world, store, alloc)
    }

    fn put(
        value: &mut Value,
        kind: &str,
        index: u32,
        datum: &u64,
        named: &[Entity],
    ) -> Result<(), AllocError> {
        Drifting::put(value, kind, index, datum, named)
    }

    fn take(value: &mut Value, kind: &str, index: u32) -> Result<(), AllocError> {
        Drifting::take(value, kind, index)
    }

    fn reader(value: &mut Value, kind: &str) -> Result<ReaderId, AllocError> {
        Drifting::reader(value, kind)
    }

    fn events(
        value: &Value,
        kind: &str,
        reader: &ReaderId,
        into: &mut BitSet,
    ) -> Result<(), AllocError> {
        Drifting::events(value, kind, reader, into)
    }

    fn catch_up(value: &mut Value, kind: &str, reader: &ReaderId) {
        Drifting::catch_up(value, kind, reader);
    }

    fn named_at(
        value: &Value,
        kind: &str,
        index: u32,
        named: &mut Vec<Entity>,
    ) -> Result<(), AllocError> {
        Drifting::named_at(value, kind, index, named)
    }

    fn get(
        value: &Value,
        kind: &str,
        index: u32,
        ids: &[u64],
        alloc: Global,
    ) -> Result<Option<u64>, AllocError> {
        Drifting::get(value, kind, index, ids, alloc)
    }

    fn to_value(name: &str, global: u64) -> Option<Value> {
        Drifting::to_value(name, global)
    }

    fn as_global<'a>(name: &str, value: &'a Value) -> Option<&'a u64> {
        Drifting::as_global(name, value)
    }
}

impl Rules for Gated {
    ghost sense = { λ _. sense_of gated_book };

    ghost does = { λ _. Passes };

    ghost of_book = { λ rules system made. record { is = tt; sense_so = refl; does_so = λ f o did. law-passes system.place f o null did } };

    fn run<H: AllocGlobal, W: Holder<Value>>(
        rt: &H,
        gate: &mut Gate,
        _view: &mut W,
        _queue: &mut Queue<u64>,
    ) -> Result<(), Stop> {
        if passes(gate) { Ok(()) } else { Err(alone(rt)) }
    }
}
