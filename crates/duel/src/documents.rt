//! What the rules say of documents: what values.list names, of which tools/values wrote this.
ghost use Rattle.std.specs.Prelude.{◌≡◌, refl};
ghost use Rattle.std.proofs.Common.{rules};
ghost use Rattle.serde_json.specs.Data.{null};
ghost use Rattle.scene_world.specs.Numbers.{counted};
ghost use Rattle.scene_world.specs.PlainRules.{named_among};
ghost use Rattle.duel.specs.Names.{part_of, refers};
ghost use Rattle.duel.specs.Documents.{all_systems, access_of, kind_of, meaning};

use crate::data::Datum;
use crate::rules::Duel;
use scene_model::{DocumentRules, ReadError, SystemAccess};
use serde_json::Value;
use shred_plan::RunningTime;
use std::alloc::{AllocError, Global};

/// A system of the rules. Its configuration is always null.
#[derive(Clone, Copy, Debug, PartialEq, Eq)]
pub enum DuelSystem {
    /// `strike`.
    Strike,
    /// `bury`.
    Bury,
}

/// The system of a kind, if the rules have one.
fn system_of(kind: &str) -> Option<DuelSystem>
    ensures { result ≡ named_among kind_of all_systems kind.now }
{
    match kind {
        "strike" => Some(DuelSystem::Strike),
        "bury" => Some(DuelSystem::Bury),
        _ => None,
    }
}

/// Whether the parts of a kind are references, and else numbers.
fn refers(kind: &str) -> bool
    ensures { result ≡ refers kind.now }
{
    match kind {
        "target" => true,
        _ => false,
    }
}

impl DocumentRules for Duel {
    ghost use Rattle.duel.specs.Documents.{law-kinds_ascend, law-globals_ascend, law-reads_admitted, law-reads_back};
    ghost use Rattle.duel.specs.Documents.{law-global_reads_back, law-no_float, law-declares_known};

    type Data = Datum;

    type Global = u64;

    type System = DuelSystem;

    ghost book = { λ _. meaning };

    ghost part_of = { part_of };

    ghost global_of = { counted };

    ghost kind_of = { kind_of };

    ghost config_of = { λ _. null };

    ghost declared = { access_of };

    ghost said_time = { λ _. 3 };

    ghost made_by = { λ _ _. Unit {0} };

    fn part_names(&self) -> &[&'static str] {
        &["attack", "hp", "target"]
    }

    fn global_names(&self) -> &[&'static str] {
        &["turn"]
    }

    fn read_data(&self, _alloc: Global, kind: &str, value: &Value) -> Result<Datum, ReadError> {
        let Some(number) = value.as_u64() else {
            return Err(ReadError::Shape);
        };
        if refers(kind) {
            return Ok(Datum::Target(number));
        }
        Ok(Datum::Number(number))
    }

    fn write_data(&self, _alloc: Global, datum: &Datum) -> Result<Value, AllocError> {
        match *datum {
            Datum::Number(number) => Ok(Value::from(number)),
            Datum::Target(id) => Ok(Value::from(id)),
        }
    }

    fn admits(&self, kind: &str, datum: &Datum) -> bool {
        match *datum {
            Datum::Number(_) => !refers(kind),
            Datum::Target(_) => refers(kind),
        }
    }

    fn refs(&self, alloc: Global, datum: &Datum) -> Result<Vec<u64>, AllocError> {
        match *datum {
            Datum::Number(_) => Ok(Vec::new(alloc)),
            Datum::Target(id) => Ok(vec![in alloc; id]?),
        }
    }

    fn read_global(&self, _alloc: Global, _name: &str, value: &Value) -> Result<u64, ReadError> {
        value.as_u64().ok_or(ReadError::Shape)
    }

    fn write_global(&self, _alloc: Global, global: &u64) -> Result<Value, AllocError> {
        Ok(Value::from(*global))
    }

    fn make_system(
        &self,
        _alloc: Global,
        kind: &str,
        config: &Value,
    ) -> Result<Option<DuelSystem>, ReadError> {
        let Some(system) = system_of(kind) else {
            return Ok(None);
        };
        if config.is_null() {
            Ok(Some(system))
        } else {
            Err(ReadError::Shape)
        }
    }

    fn accessor(system: &DuelSystem, alloc: Global) -> Result<SystemAccess, AllocError> {
        match *system {
            DuelSystem::Strike => Ok(SystemAccess {
                reads: vec![in alloc; "attack", "target"]?,
                writes: vec![in alloc; "hp"]?,
                read_globals: Vec::new(alloc),
                written_globals: vec![in alloc; "turn"]?,
                writes_reserved: false,
            }),
            DuelSystem::Bury => Ok(SystemAccess {
                reads: vec![in alloc; "hp", "target"]?,
                writes: Vec::new(alloc),
                read_globals: Vec::new(alloc),
                written_globals: Vec::new(alloc),
                writes_reserved: false,
            }),
        }
    }

    fn running_time(_system: &DuelSystem) -> RunningTime {
        RunningTime::Average
    }

    ghost kinds_ascend = { λ _. law-kinds_ascend };

    ghost globals_ascend = { λ _. law-globals_ascend };

    ghost clones = { Prim.search rules };

    ghost global_clones = { Prim.search rules };

    ghost reads_admitted = { λ _. law-reads_admitted };

    ghost reads_back = { λ _. law-reads_back };

    ghost global_reads_back = { λ _. law-global_reads_back };

    ghost no_float = { law-no_float };

    ghost no_global_float = { λ _. refl };

    ghost declares_known = { λ _. law-declares_known };
}
