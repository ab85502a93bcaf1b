//! Tables of numbers that are kept for ids, for the systems that write them and for those that use them.
ghost use Rattle.std.specs.Prelude.{◌≡◌, ℕ, ◌==◌, ◌&&◌, ◌||◌, Bool, false, OnOk, IfOk};
ghost use Rattle.std.specs.List.{list_any};
ghost use Rattle.shred_plan.specs.Index.{has_stage, has_for};

use crate::Adding;
use crate::stage_set::StageSet;
use std::alloc::{AllocError, Global};
use std::collections::BTreeMap;

/// The numbers that were marked for the systems that write each id, and for those that use it.
#[derive(Drop)]
pub(crate) struct IdTable<K: Ord> {
    alloc: Global,
    writers: BTreeMap<K, StageSet>,
    users: BTreeMap<K, StageSet>,
}

impl<K: Ord + Clone + Drop> IdTable<K> {
    ghost use Rattle.shred_plan.specs.Index.{has_for, has_stage, finds};
    ghost use Rattle.shred_plan.specs.Kept.{Marks};

    /// A table without numbers.
    pub(crate) fn new(alloc: Global) -> IdTable<K>
        ensures writers { (id : K) (number : ℕ) → has_for K.cmp result.writers id number ≡ false }
        ensures users { (id : K) (number : ℕ) → has_for K.cmp result.users id number ≡ false }
    {
        IdTable {
            alloc,
            writers: BTreeMap::new(alloc),
            users: BTreeMap::new(alloc),
        }
    }

    /// The numbers of those with which a system conflicts.
    ///
    /// Errors: want of memory.
    pub(crate) fn found(&self, adding: &Adding<K>) -> Result<StageSet, AllocError>
        ensures { IfOk result (λ set. (number : ℕ) → has_stage set number ≡ finds K.cmp self.now adding.now number) }
    {
        let mut set = StageSet::new(self.alloc);
        unite_all(&mut set, &self.writers, adding.reads())?;
        unite_all(&mut set, &self.users, adding.writes())?;
        Ok(set)
    }

    /// Marks a number for the ids of a system.
    ///
    /// Errors: want of memory.
    pub(crate) fn mark(&mut self, adding: &Adding<K>, number: usize) -> Result<(), AllocError>
        ensures { OnOk result (Marks K.cmp K.eq self.old self.new adding.now number) }
    {
        mark_all(self.alloc, &mut self.writers, adding.writes(), number)?;
        mark_all(self.alloc, &mut self.users, adding.writes(), number)?;
        mark_all(self.alloc, &mut self.users, adding.reads(), number)?;
        Ok(())
    }
}

/// Puts what a table has for some ids into a set.
///
/// Errors: want of memory.
fn unite_all<K: Ord>(
    set: &mut StageSet,
    table: &BTreeMap<K, StageSet>,
    ids: &[K],
) -> Result<(), AllocError>
    ensures { OnOk result ((place : ℕ) → has_stage set.new place
        ≡ (has_stage set.old place || list_any (λ id. has_for K.cmp table.now id place) ids.now)) }
{
    for id in ids {
        if let Some(stages) = table.get(id) {
            set.unite(stages)?;
        }
    }
    Ok(())
}

/// Puts a number into what a table has for some ids.
///
/// Errors: want of memory.
fn mark_all<K: Ord + Clone + Drop>(
    alloc: Global,
    table: &mut BTreeMap<K, StageSet>,
    ids: &[K],
    stage: usize,
) -> Result<(), AllocError>
    ensures { OnOk result ((id : K) (place : ℕ) → has_for K.cmp table.new id place
        ≡ (has_for K.cmp table.old id place || ((stage == place) && list_any (λ other. K.eq other id) ids.now))) }
{
    for id in ids {
        mark(alloc, table, id, stage)?;
    }
    Ok(())
}

/// Puts a number into what a table has for an id.
///
/// Errors: want of memory, or a copy of the id that isn't equal to it.
fn mark<K: Ord + Clone + Drop>(
    alloc: Global,
    table: &mut BTreeMap<K, StageSet>,
    id: &K,
    stage: usize,
) -> Result<(), AllocError>
    ensures { OnOk result ((other : K) (place : ℕ) → has_for K.cmp table.new other place
        ≡ (has_for K.cmp table.old other place || ((stage == place) && K.eq id.now other))) }
{
    if let Some(stages) = table.get_mut(id) {
        stages.insert(stage)?;
        return Ok(());
    }
    let key = id.clone()?;
    if key != *id {
        return Err(AllocError);
    }
    let mut stages = StageSet::new(alloc);
    stages.insert(stage)?;
    table.insert(key, stages)?;
    Ok(())
}
