//! What the rules of the test say of documents: two kinds of parts, which are whole numbers, no global, and one system.
ghost use Rattle.std.specs.Prelude.{◌≡◌, MatchResult};
ghost use Rattle.std.proofs.Common.{rules};
ghost use Rattle.serde_json.specs.Data.{null};
ghost use Rattle.serde_json.specs.View.{view};
ghost use Rattle.scene_model.specs.Laws.{IsMaking};
ghost use Rattle.scene_model.specs.Rulebook.{misshapen};
ghost use Rattle.scene_cases.specs.Drifting.{configured, counting, drift_access, drift_name, drifting_book};
ghost use Rattle.scene_cases.specs.DriftingLaws.{law-kinds_ascend, law-globals_ascend, law-reads_admitted, law-reads_back, law-no_float, law-declares_known};

use crate::turns::rules::{Drift, Drifting};
use scene_model::{DocumentRules, ReadError, RunningTime, SystemAccess};
use serde_json::Value as Json;
use std::alloc::{AllocError, Global};

/// Drift with a configuration, which has to be null.
fn with_config(config: &Json) -> Result<Option<Drift>, ReadError>
    ensures { MatchResult result (IsMaking (λ _. drift_name) (λ _. null) (λ _. drift_access) (λ _. 3) (λ _. Unit {0})
        drift_name (view config.now) (configured (view config.now)))
        (λ error. error ≡ ReadError.Shape → configured (view config.now) ≡ misshapen) }
{
    if config.is_null() {
        Ok(Some(Drift))
    } else {
        Err(ReadError::Shape)
    }
}

impl DocumentRules for Drifting {
    type Data = u64;

    type Global = u64;

    type System = Drift;

    ghost book = { λ _. drifting_book };

    ghost part_of = { counting };

    ghost global_of = { λ _. null };

    ghost kind_of = { λ _. drift_name };

    ghost config_of = { λ _. null };

    ghost declared = { λ _. drift_access };

    ghost said_time = { λ _. 3 };

    ghost made_by = { λ _ _. Unit {0} };

    fn part_names(&self) -> &[&'static str] {
        &["pos", "vel"]
    }

    fn global_names(&self) -> &[&'static str] {
        &[]
    }

    fn read_data(&self, _alloc: Global, _kind: &str, value: &Json) -> Result<u64, ReadError> {
        value.as_u64().ok_or(ReadError::Shape)
    }

    fn write_data(&self, _alloc: Global, datum: &u64) -> Result<Json, AllocError> {
        Ok(Json::from(*datum))
    }

    fn admits(&self, _kind: &str, _datum: &u64) -> bool {
        true
    }

    fn refs(&self, alloc: Global, _datum: &u64) -> Result<Vec<u64>, AllocError> {
        Ok(Vec::new(alloc))
    }

    fn read_global(&self, _alloc: Global, _name: &str, _value: &Json) -> Result<u64, ReadError> {
        Err(ReadError::Shape)
    }

    fn write_global(&self, _alloc: Global, _global: &u64) -> Result<Json, AllocError> {
        Ok(Json::Null)
    }

    fn make_system(
        &self,
        _alloc: Global,
        kind: &str,
        config: &Json,
    ) -> Result<Option<Drift>, ReadError> {
        if kind == "drift" {
            return with_config(config);
        }
        Ok(None)
    }

    fn accessor(_system: &Drift, alloc: Global) -> Result<SystemAccess, AllocError> {
        Ok(SystemAccess {
            reads: vec![in alloc; "vel"]?,
            writes: vec![in alloc; "pos"]?,
            read_globals: Vec::new(alloc),
            written_globals: Vec::new(alloc),
            writes_reserved: false,
        })
    }

    fn running_time(_system: &Drift) -> RunningTime {
        RunningTime::Average
    }

    ghost kinds_ascend = { λ _. law-kinds_ascend };

    ghost globals_ascend = { λ _. law-globals_ascend };

    ghost clones = { Prim.search rules };

    ghost global_clones = { Prim.search rules };

    ghost reads_admitted = { λ _. law-reads_admitted };

    ghost reads_back = { λ _. law-reads_back };

    ghost global_reads_back = { Prim.search rules };

    ghost no_float = { law-no_float };

    ghost no_global_float = { Prim.search rules };

    ghost declares_known = { λ _. law-declares_known };
}
