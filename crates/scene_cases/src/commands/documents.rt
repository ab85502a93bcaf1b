//! What the rules of the test say of documents: owners, ranks and the era.
//!
//! Documents have no system of these rules.
ghost use Rattle.std.specs.Prelude.{◌≡◌, []};
ghost use Rattle.serde_json.specs.Data.{null};
ghost use Rattle.std.proofs.Common.{rules};
ghost use Rattle.scene_cases.specs.Owning.{counted, no_access, owning_book, part_of};
ghost use Rattle.scene_cases.specs.OwningLaws.{law-kinds_ascend, law-globals_ascend, law-reads_admitted, law-reads_back, law-global_reads_back, law-no_float};

use crate::commands::datum::Datum;
use crate::commands::rules::{Idle, Owning};
use scene_model::{DocumentRules, ReadError, RunningTime, SystemAccess};
use serde_json::Value as Json;
use std::alloc::{AllocError, Global};

impl DocumentRules for Owning {
    type Data = Datum;

    type Global = u64;

    type System = Idle;

    ghost book = { λ _. owning_book };

    ghost part_of = { part_of };

    ghost global_of = { counted };

    ghost kind_of = { λ _. [] };

    ghost config_of = { λ _. null };

    ghost declared = { λ _. no_access };

    ghost said_time = { λ _. 3 };

    ghost made_by = { λ _ _. ⊥ };

    fn part_names(&self) -> &[&'static str] {
        &["owner", "rank"]
    }

    fn global_names(&self) -> &[&'static str] {
        &["era"]
    }

    fn read_data(&self, _alloc: Global, kind: &str, value: &Json) -> Result<Datum, ReadError> {
        let Some(number) = value.as_u64() else {
            return Err(ReadError::Shape);
        };
        if kind == "owner" {
            Ok(Datum::OwnedBy(number))
        } else {
            Ok(Datum::Ranked(number))
        }
    }

    fn write_data(&self, _alloc: Global, datum: &Datum) -> Result<Json, AllocError> {
        match datum {
            Datum::OwnedBy(id) => Ok(Json::from(*id)),
            Datum::Ranked(number) => Ok(Json::from(*number)),
        }
    }

    fn admits(&self, kind: &str, datum: &Datum) -> bool {
        match datum {
            Datum::OwnedBy(_) => kind == "owner",
            Datum::Ranked(_) => kind != "owner",
        }
    }

    fn refs(&self, alloc: Global, datum: &Datum) -> Result<Vec<u64>, AllocError> {
        match datum {
            Datum::OwnedBy(id) => Ok(vec![in alloc; *id]?),
            Datum::Ranked(_) => Ok(Vec::new(alloc)),
        }
    }

    fn read_global(&self, _alloc: Global, _name: &str, value: &Json) -> Result<u64, ReadError> {
        value.as_u64().ok_or(ReadError::Shape)
    }

    fn write_global(&self, _alloc: Global, global: &u64) -> Result<Json, AllocError> {
        Ok(Json::from(*global))
    }

    fn make_system(
        &self,
        _alloc: Global,
        _kind: &str,
        _config: &Json,
    ) -> Result<Option<Idle>, ReadError> {
        Ok(None)
    }

    fn accessor(_system: &Idle, alloc: Global) -> Result<SystemAccess, AllocError> {
        Ok(SystemAccess {
            reads: Vec::new(alloc),
            writes: Vec::new(alloc),
            read_globals: Vec::new(alloc),
            written_globals: Vec::new(alloc),
            writes_reserved: false,
        })
    }

    fn running_time(_system: &Idle) -> RunningTime {
        RunningTime::Average
    }

    ghost kinds_ascend = { λ _. law-kinds_ascend };

    ghost globals_ascend = { λ _. law-globals_ascend };

    ghost clones = { Prim.search rules };

    ghost global_clones = { Prim.search rules };

    ghost reads_admitted = { λ _. law-reads_admitted };

    ghost reads_back = { λ _. law-reads_back };

    ghost global_reads_back = { λ _. law-global_reads_back };

    ghost no_float = { law-no_float };

    ghost no_global_float = { Prim.search rules };

    ghost declares_known = { Prim.search rules };
}
