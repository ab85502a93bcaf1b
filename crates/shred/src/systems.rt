//! Systems that are staged under names.
ghost use Rattle.std.specs.Prelude.{◌≡◌, ◌<◌, length, string_bytes, OnOk, OnErr, IfOk, IfErr, None, unwrap_or, Option};
ghost use Rattle.shred_plan.specs.Plan.{most_groups};
ghost use Rattle.shred_plan.specs.PlanText.{plan_text};
ghost use Rattle.shred.specs.Names.{texts};
ghost use Rattle.shred.specs.Building.{Building, nothing_built, refusal, Refuses, built_with, fenced};

use crate::names::Names;
use crate::{AddError, StagesBuilder, System, SystemId};
use shred_world::ResourceId;
use std::alloc::{AllocError, AllocFailed, Global};
use std::marker::Model;
use std::string::String;

/// How many systems may be staged.
pub const MAX_SYSTEMS: usize = 65_536;

/// Systems that are put into stages as they are added, each under a name, after others by their names.
#[derive(Drop)]
pub struct SystemsBuilder<V, S> {
    stages: StagesBuilder<V, S>,
    names: Names,
}

impl<V, S> Model for SystemsBuilder<V, S> {
    ghost use Rattle.shred.specs.Building.{Building};

    ghost Value = { Building S };

    ghost view = { λ builder. record { staging = builder.stages; names = builder.names } };
}

impl<V: Drop, S: System<V> + Drop> SystemsBuilder<V, S> {
    /// No system.
    pub fn new(alloc: Global) -> SystemsBuilder<V, S>
        ensures { result ≡ nothing_built }
    {
        SystemsBuilder {
            stages: StagesBuilder::new(alloc),
            names: Names::new(alloc),
        }
    }

    /// Adds a system, which comes after those of the given names, and answers its number: they count from 0 in the order of adding.
    ///
    /// A system under the empty name can't be waited for.
    ///
    /// Errors: the first of `NoSuchSystem`, `NameTaken`, `SystemsFull` that stands, else `Memory`; the builder is as it was, and the
    /// system is handed back.
    pub fn add(&mut self, system: S, name: &str, after: &[&str]) -> Result<SystemId, (AddError, S)>
        ensures taken { OnOk result (refusal self.old name.now (texts after.now) ≡ None) }
        ensures refused { IfErr result (λ refused. Refuses (refusal self.old name.now (texts after.now)) refused.0) }
        ensures number { IfOk result (λ id. id.0 ≡ length self.old.staging.systems) }
        ensures ok { OnOk result (self.new ≡ built_with ⟦<ResourceId as PartialEq>⟧.eq self.old system
            (record { reads = S.read_list system; writes = S.write_list system; time = S.said_time system })
            name.now (texts after.now)) }
        ensures err { OnErr result (self.new ≡ self.old) }
        ensures handed_back { IfErr result (λ refused. refused.1 ≡ system) }
    {
        if let Some(error) = self.refusal(name, after) {
            return Err((error, system));
        }
        let Ok(numbers) = self.names.numbers(after) else {
            return Err((AddError::Memory, system));
        };
        let Ok(()) = self.names.enter(name, self.stages.len() as u32) else {
            return Err((AddError::Memory, system));
        };
        match self.stages.insert(system, numbers) {
            Ok(id) => Ok(id),
            Err(AllocFailed { value: system }) => {
                self.names.strike(name);
                Err((AddError::Memory, system))
            }
        }
    }

    /// What stands against a system of this name, after those of some names, memory aside.
    fn refusal(&self, name: &str, after: &[&str]) -> Option<AddError>
        ensures { result ≡ refusal self.now name.now (texts after.now) }
    {
        if self.names.lacks_one(after) {
            Some(AddError::NoSuchSystem)
        } else if self.names.number(name).is_some() {
            Some(AddError::NameTaken)
        } else if self.stages.len() < MAX_SYSTEMS {
            None
        } else {
            Some(AddError::SystemsFull)
        }
    }

    /// What is added from now on runs in later stages than what was added so far.
    pub fn add_barrier(&mut self)
        ensures { self.new ≡ record {
          staging = fenced ⟦<ResourceId as PartialEq>⟧.eq self.old.staging;
          names = self.old.names;
        } }
    {
        self.stages.add_barrier();
    }

    /// The plan as a text: one line a stage, ended by a line feed, its groups joined by ` | `, the numbers of a group by `, `.
    ///
    /// Errors: want of memory.
    pub fn print_par_seq(&self, alloc: Global) -> Result<String, AllocError>
        ensures { IfOk result (λ text. string_bytes text ≡ plan_text self.now.staging.planning.stages) }
    {
        self.stages.write_par_seq(alloc)
    }

    /// The stages, without the names.
    pub fn build(self) -> StagesBuilder<V, S>
        ensures { result ≡ self.staging }
    {
        let SystemsBuilder { stages, names } = self;
        drop(names);
        stages
    }
}
