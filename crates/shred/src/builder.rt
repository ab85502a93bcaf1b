//! The builder of dispatchers.
ghost use Rattle.std.specs.Prelude.{◌≡◌, ◌++◌, ◌∷◌, [], length, string_bytes, OnOk, OnErr, IfOk, IfErr, None, Option};
ghost use Rattle.shred_plan.specs.PlanText.{plan_text};
ghost use Rattle.shred.specs.declared.work.Work.TheVariants.{System as OfSystem, Batch as OfBatch};
ghost use Rattle.shred.specs.Names.{texts};
ghost use Rattle.shred.specs.Building.{Building, nothing_built, refusal, Refuses, built_with, fenced};
ghost use Rattle.shred.specs.Batches.{batch_declares};
ghost use Rattle.shred.specs.Dispatchers.{Drafting, with_building, dispatcher_of};
ghost use Rattle.shred.specs.Asyncs.{here};

use crate::{
    AddError, AsyncDispatcher, Batch, BatchController, Dispatcher, RunNow, StagesBuilder, System,
    SystemId, SystemsBuilder, Work,
};
use shred_world::{ResourceId, World};
use std::alloc::{AllocError, AllocFailed, Global};
use std::marker::Model;
use std::string::String;

/// Collects systems, batches and local systems, and builds their dispatcher.
#[derive(Drop)]
pub struct DispatcherBuilder<V, S, C, L> {
    systems: SystemsBuilder<V, Work<S, Batch<V, S, C>>>,
    locals: Vec<L>,
    workers: usize,
}

impl<V, S, C, L> Model for DispatcherBuilder<V, S, C, L> {
    ghost use Rattle.shred.specs.declared.work.Work.{Work as Works};
    ghost use Rattle.shred.specs.Batches.{Batched};
    ghost use Rattle.shred.specs.Dispatchers.{Drafting};

    ghost Value = { Drafting (Works S (Batched S C)) L };

    ghost view = { λ builder. record {
      building = builder.systems;
      locals = builder.locals.items;
      workers = builder.workers;
    } };
}

impl<
    V: Drop,
    S: System<V> + Drop,
    C: BatchController<V, S> + Drop,
    L: RunNow<V> + Drop,
> DispatcherBuilder<V, S, C, L> {
    /// No system, and no worker.
    pub fn new(alloc: Global) -> DispatcherBuilder<V, S, C, L>
        ensures { result ≡ record { building = nothing_built; locals = []; workers = 0 } }
    {
        DispatcherBuilder {
            systems: SystemsBuilder::new(alloc),
            locals: Vec::new(alloc),
            workers: 0,
        }
    }

    /// Adds a system, which comes after those of the given names, and answers its number: systems and batches count from 0 in the order of adding.
    ///
    /// One under the empty name can't be waited for.
    ///
    /// Errors: the first of `NoSuchSystem`, `NameTaken`, `SystemsFull` that stands, else `Memory`; the builder is as it was, and the
    /// system is handed back.
    pub fn add(&mut self, system: S, name: &str, after: &[&str]) -> Result<SystemId, (AddError, S)>
        ensures taken { OnOk result (refusal self.old.building name.now (texts after.now) ≡ None) }
        ensures refused { IfErr result (λ refused. Refuses (refusal self.old.building name.now (texts after.now))
            refused.0) }
        ensures number { IfOk result (λ id. id.0 ≡ length self.old.building.staging.systems) }
        ensures ok { OnOk result (self.new ≡ with_building self.old
            (built_with ⟦<ResourceId as PartialEq>⟧.eq self.old.building (OfSystem system)
            (record { reads = S.read_list system; writes = S.write_list system; time = S.said_time system })
            name.now (texts after.now))) }
        ensures err { OnErr result (self.new ≡ self.old) }
        ensures handed_back { IfErr result (λ refused. refused.1 ≡ system) }
    {
        match self.systems.add(Work::System(system), name, after) {
            Ok(id) => Ok(id),
            Err((error, Work::System(system))) => Err((error, system)),
            Err((_, Work::Batch(_))) => unreachable!(),
        }
    }

    /// Adds a batch: stages that run as its controller says, in the turn of one system, which comes after those of the given names.
    ///
    /// It reads what its systems and its controller read; it writes what they write, and what the controller reads.
    ///
    /// Errors: as `add`; the controller and the stages are handed back.
    pub fn add_batch(
        &mut self,
        controller: C,
        stages: StagesBuilder<V, S>,
        name: &str,
        after: &[&str],
    ) -> Result<SystemId, (AddError, C, StagesBuilder<V, S>)>
        ensures taken { OnOk result (refusal self.old.building name.now (texts after.now) ≡ None) }
        ensures refused { IfErr result (λ refused. Refuses (refusal self.old.building name.now (texts after.now))
            refused.0) }
        ensures number { IfOk result (λ id. id.0 ≡ length self.old.building.staging.systems) }
        ensures ok { OnOk result (self.new ≡ with_building self.old (built_with ⟦<ResourceId as PartialEq>⟧.eq
            self.old.building (OfBatch (record { controller = controller; staging = stages }))
            (batch_declares stages (C.read_list controller) (C.write_list controller) (C.said_time controller))
            name.now (texts after.now))) }
        ensures err { OnErr result (self.new ≡ self.old) }
        ensures controller_back { IfErr result (λ refused. refused.1 ≡ controller) }
        ensures stages_back { IfErr result (λ refused. refused.2 ≡ stages) }
    {
        let batch = Batch::new(controller, stages);
        match self.systems.add(Work::Batch(batch), name, after) {
            Ok(id) => Ok(id),
            Err((error, Work::Batch(batch))) => {
                let (controller, stages) = batch.into_parts();
                Err((error, controller, stages))
            }
            Err((_, Work::System(_))) => unreachable!(),
        }
    }

    /// Adds a local system, which runs after the staged ones and the earlier local ones.
    ///
    /// Errors: want of memory, which leaves the builder as it was and hands the system back.
    pub fn add_thread_local(&mut self, local: L) -> Result<(), AllocFailed<L>>
        ensures ok { OnOk result (self.new ≡ record {
          building = self.old.building;
          locals = self.old.locals ++ local ∷ [];
          workers = self.old.workers;
        }) }
        ensures err { OnErr result (self.new ≡ self.old) }
        ensures handed_back { IfErr result (λ refused. refused.value ≡ local) }
    {
        let Ok(()) = self.locals.reserve(1) else {
            return Err(AllocFailed { value: local });
        };
        self.locals.push_reserved(local);
        Ok(())
    }

    /// What is added from now on runs in later stages than what was added so far.
    pub fn add_barrier(&mut self)
        ensures { self.new ≡ with_building self.old (record {
          staging = fenced ⟦<ResourceId as PartialEq>⟧.eq self.old.building.staging;
          names = self.old.building.names;
        }) }
    {
        self.systems.add_barrier();
    }

    /// Sets how many workers run a stage; with 0 or 1 it is the caller's thread.
    pub fn add_pool(&mut self, workers: usize)
        ensures { self.new ≡ record { building = self.old.building; locals = self.old.locals; workers = workers } }
    {
        self.workers = workers;
    }

    /// The plan as a text: one line a stage, ended by a line feed, its groups joined by ` | `, the numbers of a group by `, `.
    ///
    /// Errors: want of memory.
    pub fn print_par_seq(&self, alloc: Global) -> Result<String, AllocError>
        ensures { IfOk result (λ text. string_bytes text ≡ plan_text self.now.building.staging.planning.stages) }
    {
        self.systems.print_par_seq(alloc)
    }

    /// The dispatcher of what was added.
    pub fn build(self) -> Dispatcher<V, Work<S, Batch<V, S, C>>, L>
        ensures { result ≡ dispatcher_of self }
    {
        let DispatcherBuilder {
            systems,
            locals,
            workers,
        } = self;
        Dispatcher::of(systems.build(), locals, workers)
    }

    /// The dispatcher of what was added, which owns a world and dispatches in a thread of its own.
    pub fn build_async(self, world: World<V>) -> AsyncDispatcher<V, Work<S, Batch<V, S, C>>, L>
        ensures { result ≡ here (dispatcher_of self) world }
    {
        AsyncDispatcher::of(self.build(), world)
    }
}
