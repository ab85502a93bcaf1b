//! The program's rules.
ghost use Rattle.std.specs.Prelude.{◌≡◌, [], false, None, Some};
ghost use Rattle.std.proofs.Common.{rules};
ghost use Rattle.serde_json.specs.View.{view};
ghost use Rattle.scene_model.specs.Parts.{is_among};
ghost use Rattle.scene_model.specs.Declaring.{access_of, texts};
ghost use Rattle.scene_basics.specs.Names.{number_kinds, reference_kinds};
ghost use Rattle.serde_json.specs.Data.{null};
ghost use Rattle.scene_basics.specs.Numbers.{part_of, json_of, signed_in};
ghost use Rattle.scene_basics.specs.Systems.{basics, facts_of, kind_of, system_named};

use crate::data::{BOND, BasicSystem, Datum, G, HP, OWNER, POS, VEL};
use scene::{DocumentRules, ReadError, RunningTime, SystemAccess};
use serde_json::Value;
use std::alloc::{AllocError, Global};

/// The rules of the program: the parts `bond`, `hp`, `owner`, `pos` and `vel`, the global `g`, and the systems `drift`,
/// `pull`, `decay`, `reap` and `bud`. An entity dies with the one to which its `bond` refers.
#[derive(Clone, Copy, Debug)]
pub struct Basics;

/// The system of a kind, if it is one of the program's.
pub fn system_of(kind: &str) -> Option<BasicSystem>
    ensures { result ≡ system_named kind.now }
{
    if kind == "drift" {
        return Some(BasicSystem::Drift);
    }
    if kind == "pull" {
        return Some(BasicSystem::Pull);
    }
    if kind == "decay" {
        return Some(BasicSystem::Decay);
    }
    if kind == "reap" {
        return Some(BasicSystem::Reap);
    }
    if kind == "bud" {
        return Some(BasicSystem::Bud);
    }
    None
}

/// The number of 64 signed bits that a JSON is.
fn signed(value: &Value) -> Option<i64>
    ensures { result ≡ signed_in (view value.now) }
{
    value.as_i64()
}

/// Whether the parts of a kind are references.
pub(crate) fn is_reference_kind(kind: &str) -> bool
    ensures { result ≡ is_among kind.now reference_kinds }
{
    kind == BOND || kind == OWNER
}

/// Whether the parts of a kind are numbers.
fn is_number_kind(kind: &str) -> bool
    ensures { result ≡ is_among kind.now number_kinds }
{
    kind == HP || kind == POS || kind == VEL
}

/// What a system declares that reads and writes these parts, reads these globals, and writes none.
fn declared_as(
    reads: Vec<&'static str>,
    writes: Vec<&'static str>,
    read_globals: Vec<&'static str>,
    alloc: Global,
) -> SystemAccess
    ensures { access_of result ≡ record {
      reads = texts reads.entry.items;
      writes = texts writes.entry.items;
      read_globals = texts read_globals.entry.items;
      written_globals = [];
      reserved = false;
    } }
{
    SystemAccess {
        reads,
        writes,
        read_globals,
        written_globals: Vec::new(alloc),
        writes_reserved: false,
    }
}

impl DocumentRules for Basics {
    ghost use Rattle.scene_basics.specs.RuleLaws.{law-reads_admitted, law-reads_back, law-global_reads_back};
    ghost use Rattle.scene_basics.specs.RuleLaws.{law-no_float, law-no_global_float, law-kinds_ascend};
    ghost use Rattle.scene_basics.specs.RuleLaws.{law-globals_ascend, law-declares_known};

    type Data = Datum;

    type Global = i64;

    type System = BasicSystem;

    ghost book = { λ _. basics };

    ghost part_of = { part_of };

    ghost global_of = { json_of };

    ghost kind_of = { kind_of };

    ghost config_of = { λ _. null };

    ghost declared = { λ system. (facts_of system).access };

    ghost said_time = { λ _. 3 };

    ghost made_by = { λ _ _. Unit {0} };

    fn part_names(&self) -> &[&'static str] {
        &[BOND, HP, OWNER, POS, VEL]
    }

    fn global_names(&self) -> &[&'static str] {
        &[G]
    }

    fn read_data(&self, _alloc: Global, kind: &str, value: &Value) -> Result<Datum, ReadError> {
        if is_reference_kind(kind) {
            return value.as_u64().map(Datum::Owner).ok_or(ReadError::Shape);
        }
        signed(value).map(Datum::Whole).ok_or(ReadError::Shape)
    }

    fn write_data(&self, _alloc: Global, datum: &Datum) -> Result<Value, AllocError> {
        match *datum {
            Datum::Whole(whole) => Ok(Value::from(whole)),
            Datum::Owner(id) => Ok(Value::from(id)),
        }
    }

    fn admits(&self, kind: &str, datum: &Datum) -> bool {
        match *datum {
            Datum::Whole(_whole) => is_number_kind(kind),
            Datum::Owner(_) => is_reference_kind(kind),
        }
    }

    fn refs(&self, alloc: Global, datum: &Datum) -> Result<Vec<u64>, AllocError> {
        match *datum {
            Datum::Whole(_) => Ok(Vec::new(alloc)),
            Datum::Owner(id) => Ok(vec![in alloc; id]?),
        }
    }

    fn read_global(&self, _alloc: Global, _name: &str, value: &Value) -> Result<i64, ReadError> {
        signed(value).ok_or(ReadError::Shape)
    }

    fn write_global(&self, _alloc: Global, global: &i64) -> Result<Value, AllocError> {
        Ok(Value::from(*global))
    }

    fn make_system(
        &self,
        _alloc: Global,
        kind: &str,
        config: &Value,
    ) -> Result<Option<BasicSystem>, ReadError> {
        let Some(system) = system_of(kind) else {
            return Ok(None);
        };
        if config.is_null() {
            Ok(Some(system))
        } else {
            Err(ReadError::Shape)
        }
    }

    fn accessor(system: &BasicSystem, alloc: Global) -> Result<SystemAccess, AllocError> {
        match *system {
            BasicSystem::Drift => Ok(declared_as(
                vec![in alloc; VEL]?,
                vec![in alloc; POS]?,
                Vec::new(alloc),
                alloc,
            )),
            BasicSystem::Pull => Ok(declared_as(
                Vec::new(alloc),
                vec![in alloc; VEL]?,
                vec![in alloc; G]?,
                alloc,
            )),
            BasicSystem::Decay => Ok(declared_as(
                Vec::new(alloc),
                vec![in alloc; HP]?,
                Vec::new(alloc),
                alloc,
            )),
            BasicSystem::Reap => Ok(declared_as(
                vec![in alloc; HP]?,
                Vec::new(alloc),
                Vec::new(alloc),
                alloc,
            )),
            BasicSystem::Bud => Ok(declared_as(
                vec![in alloc; HP, POS]?,
                Vec::new(alloc),
                Vec::new(alloc),
                alloc,
            )),
        }
    }

    fn running_time(_system: &BasicSystem) -> RunningTime
        ensures { result ≡ RunningTime.Average }
    {
        RunningTime::Average
    }

    ghost kinds_ascend = { λ _. law-kinds_ascend };

    ghost globals_ascend = { λ _. law-globals_ascend };

    ghost clones = { Prim.search rules };

    ghost global_clones = { Prim.search rules };

    ghost reads_admitted = { λ _. law-reads_admitted };

    ghost reads_back = { λ _. law-reads_back };

    ghost global_reads_back = { λ _. law-global_reads_back };

    ghost no_float = { law-no_float };

    ghost no_global_float = { law-no_global_float };

    ghost declares_known = { λ _. law-declares_known };
}
