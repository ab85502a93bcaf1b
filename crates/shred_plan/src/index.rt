//! What a planner keeps beside its stages, to find the stage of a system without a look at each.
ghost use Rattle.std.specs.Prelude.{◌≡◌, ℕ, ◌<◌, ◌≤◌, ◌==◌, ◌&&◌, ◌||◌, Bool, not, false, nat_lt, OnOk, IfOk};

use crate::Adding;
use crate::firsts::Firsts;
use crate::id_table::IdTable;
use crate::stage_set::StageSet;
use std::alloc::{AllocError, Global};

/// The stages in which each id is written, and used; the seats of the groups in which it is; the first stage of each number; and
/// the stages that may let a system join a group with which it conflicts.
#[derive(Drop)]
pub(crate) struct Index<K: Ord> {
    stages: IdTable<K>,
    pub(crate) seats: IdTable<K>,
    firsts: Firsts,
    loose: StageSet,
}

impl<K: Ord + Clone + Drop> Index<K> {
    ghost use Rattle.shred_plan.specs.Index.{has_stage, has_for, stood_before, finds};
    ghost use Rattle.shred_plan.specs.Kept.{Marks};

    /// The index of a plan without stages.
    pub(crate) fn new(alloc: Global) -> Index<K>
        ensures writers { (id : K) (place : ℕ) → has_for K.cmp result.stages.writers id place ≡ false }
        ensures users { (id : K) (place : ℕ) → has_for K.cmp result.stages.users id place ≡ false }
        ensures seats { (id : K) (seat : ℕ) → has_for K.cmp result.seats.writers id seat ≡ false }
        ensures seats_of_users { (id : K) (seat : ℕ) → has_for K.cmp result.seats.users id seat ≡ false }
        ensures firsts { (number place : ℕ) → stood_before result.firsts.stages number place ≡ false }
        ensures loose { (place : ℕ) → has_stage result.loose place ≡ false }
    {
        Index {
            stages: IdTable::new(alloc),
            seats: IdTable::new(alloc),
            firsts: Firsts::new(alloc),
            loose: StageSet::new(alloc),
        }
    }

    /// The stages with a system that conflicts with one.
    ///
    /// Errors: want of memory.
    pub(crate) fn blocked(&self, adding: &Adding<K>) -> Result<StageSet, AllocError>
        ensures { IfOk result (λ set. (place : ℕ) → has_stage set place
            ≡ finds K.cmp self.now.stages adding.now place) }
    {
        self.stages.found(adding)
    }

    /// The seats of groups with which a system conflicts.
    ///
    /// Errors: want of memory.
    pub(crate) fn hit(&self, adding: &Adding<K>) -> Result<StageSet, AllocError>
        ensures { IfOk result (λ set. (seat : ℕ) → has_stage set seat ≡ finds K.cmp self.now.seats adding.now seat) }
    {
        self.seats.found(adding)
    }

    /// Keeps a system that a stage takes in.
    ///
    /// Errors: want of memory.
    pub(crate) fn note(&mut self, adding: &Adding<K>, stage: usize) -> Result<(), AllocError>
        ensures stages { OnOk result (Marks K.cmp K.eq self.old.stages self.new.stages adding.now stage) }
        ensures firsts { OnOk result ((number place : ℕ) → stood_before self.new.firsts.stages number place
            ≡ (stood_before self.old.firsts.stages number place
            || (nat_lt stage place && (adding.now.number == number)))) }
        ensures kept { OnOk result ((self.new.seats ≡ self.old.seats) × (self.new.loose ≡ self.old.loose)) }
    {
        self.stages.mark(adding, stage)?;
        self.firsts.note(adding.number(), stage)?;
        Ok(())
    }

    /// The first stage of each number.
    pub(crate) fn firsts(&self) -> &Firsts
        ensures { result.now ≡ self.now.firsts }
    {
        &self.firsts
    }

    /// Keeps that a stage may let a system join a group.
    ///
    /// Errors: want of memory.
    pub(crate) fn note_loose(&mut self, stage: usize) -> Result<(), AllocError>
        ensures kept { (self.new.stages ≡ self.old.stages) × (self.new.seats ≡ self.old.seats)
            × (self.new.firsts ≡ self.old.firsts) }
        ensures loose { OnOk result ((place : ℕ) → has_stage self.new.loose place
            ≡ (has_stage self.old.loose place || (stage == place))) }
    {
        self.loose.insert(stage)
    }

    /// Keeps that a stage lets no system join a group.
    pub(crate) fn note_tight(&mut self, stage: usize)
        ensures kept { (self.new.stages ≡ self.old.stages) × (self.new.seats ≡ self.old.seats)
            × (self.new.firsts ≡ self.old.firsts) }
        ensures loose { (place : ℕ) → has_stage self.new.loose place
            ≡ (has_stage self.old.loose place && not (stage == place)) }
    {
        self.loose.remove(stage);
    }

    /// Whether a stage may let a system join a group.
    pub(crate) fn is_loose(&self, stage: usize) -> bool
        ensures { result ≡ has_stage self.now.loose stage }
    {
        self.loose.contains(stage)
    }

    /// The first stage from one on that may let a system join a group, if there is one before the end; else the end.
    pub(crate) fn next_loose(&self, from: usize, end: usize) -> usize
        requires { from ≤ end }
        ensures from { from ≤ result }
        ensures end { result ≤ end }
        ensures passed { (place : ℕ) → from ≤ place → place < result → has_stage self.now.loose place ≡ false }
    {
        self.loose.first_inside(from, end)
    }
}
