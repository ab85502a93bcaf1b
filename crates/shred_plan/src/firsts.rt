//! The first stage of each number in a plan.
ghost use Rattle.std.specs.Prelude.{◌≡◌, ℕ, ◌^◌, ◌<◌, ◌==◌, ◌&&◌, ◌||◌, not, false, filter, nat_lt, nat_le, OnOk, IfOk};
ghost use Rattle.std.specs.List.{list_all};
ghost use Rattle.std.specs.Option.{option_map_or};

use std::alloc::{AllocError, Global};
use std::collections::BTreeMap;

/// The first stage in which a system of each number stands.
#[derive(Drop)]
pub(crate) struct Firsts {
    alloc: Global,
    stages: BTreeMap<u32, usize>,
}

impl Firsts {
    ghost use Rattle.shred_plan.specs.Index.{stood_before};

    /// No number stands anywhere.
    pub(crate) fn new(alloc: Global) -> Firsts
        ensures { (number place : ℕ) → stood_before result.stages number place ≡ false }
    {
        Firsts {
            alloc,
            stages: BTreeMap::new(alloc),
        }
    }

    /// Keeps that a number stands in a stage.
    ///
    /// Errors: want of memory.
    pub(crate) fn note(&mut self, number: u32, stage: usize) -> Result<(), AllocError>
        ensures { OnOk result ((other place : ℕ) → stood_before self.new.stages other place
            ≡ (stood_before self.old.stages other place || (nat_lt stage place && (number == other)))) }
    {
        let first = match self.stages.get(&number) {
            Some(first) => stage.min(*first),
            None => stage,
        };
        self.stages.insert(number, first)?;
        Ok(())
    }

    /// Whether a number stands in a stage before one.
    pub(crate) fn stood_before(&self, number: u32, stage: usize) -> bool
        ensures { result ≡ stood_before self.now.stages number stage }
    {
        match self.stages.get(&number) {
            Some(first) => *first < stage,
            None => false,
        }
    }

    /// The first stage before which all numbers of a list stand; none where one of them stands nowhere.
    pub(crate) fn ready(&self, numbers: &[u32]) -> Option<usize>
        ensures { (place : ℕ) → place < 2 ^ 63
            → list_all (λ number. stood_before self.now.stages number place) numbers.now
            ≡ option_map_or (λ ready. nat_le ready place) result false }
    {
        let mut ready: usize = 0;
        for number in numbers {
            let Some(first) = self.stages.get(number) else {
                return None;
            };
            ready = ready.max(first.saturating_add(1));
        }
        Some(ready)
    }

    /// The numbers of a list that stand in no stage before one.
    ///
    /// Errors: want of memory.
    pub(crate) fn rest_of(&self, numbers: &[u32], stage: usize) -> Result<Vec<u32>, AllocError>
        ensures { IfOk result (λ rest. rest.items
            ≡ filter (λ number. not (stood_before self.now.stages number stage)) numbers.now) }
    {
        let mut rest = Vec::new(self.alloc);
        for number in numbers {
            if !self.stood_before(*number, stage) {
                rest.push(*number)?;
            }
        }
        Ok(rest)
    }
}
