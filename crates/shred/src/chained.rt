//! The builder's calls that take the builder and give it back.
ghost use Rattle.std.specs.Prelude.{◌≡◌, ◌++◌, ◌∷◌, [], OnOk, IfOk, IfErr, None, Option};
ghost use Rattle.shred.specs.declared.work.Work.TheVariants.{System as OfSystem, Batch as OfBatch};
ghost use Rattle.shred.specs.Names.{texts};
ghost use Rattle.shred.specs.Building.{refusal, Refuses, built_with, fenced};
ghost use Rattle.shred.specs.Batches.{batch_declares};
ghost use Rattle.shred.specs.Dispatchers.{with_building};

use crate::{AddError, BatchController, DispatcherBuilder, RunNow, StagesBuilder, System};
use shred_world::ResourceId;
use std::alloc::AllocFailed;

impl<
    V: Drop,
    S: System<V> + Drop,
    C: BatchController<V, S> + Drop,
    L: RunNow<V> + Drop,
> DispatcherBuilder<V, S, C, L> {
    /// The builder with one more system, as `add` makes it.
    ///
    /// Errors: those of `add`; the builder is handed back as it was, and the system.
    pub fn with(
        mut self,
        system: S,
        name: &str,
        after: &[&str],
    ) -> Result<Self, (AddError, Self, S)>
        ensures taken { OnOk result (refusal self.building name.now (texts after.now) ≡ None) }
        ensures refused { IfErr result (λ refused. Refuses (refusal self.building name.now (texts after.now))
            refused.0) }
        ensures ok { IfOk result (λ builder. builder ≡ with_building self
            (built_with ⟦<ResourceId as PartialEq>⟧.eq self.building (OfSystem system)
            (record { reads = S.read_list system; writes = S.write_list system; time = S.said_time system })
            name.now (texts after.now))) }
        ensures builder_back { IfErr result (λ refused. refused.1 ≡ self) }
        ensures system_back { IfErr result (λ refused. refused.2 ≡ system) }
    {
        match self.add(system, name, after) {
            Ok(_id) => Ok(self),
            Err((error, system)) => Err((error, self, system)),
        }
    }

    /// The builder with one more batch, as `add_batch` makes it.
    ///
    /// Errors: those of `add_batch`; the builder is handed back as it was, the controller and the stages.
    pub fn with_batch(
        mut self,
        controller: C,
        stages: StagesBuilder<V, S>,
        name: &str,
        after: &[&str],
    ) -> Result<Self, (AddError, Self, C, StagesBuilder<V, S>)>
        ensures taken { OnOk result (refusal self.building name.now (texts after.now) ≡ None) }
        ensures refused { IfErr result (λ refused. Refuses (refusal self.building name.now (texts after.now))
            refused.0) }
        ensures ok { IfOk result
            (λ builder. builder ≡ with_building self (built_with ⟦<ResourceId as PartialEq>⟧.eq self.building
            (OfBatch (record { controller = controller; staging = stages })) (batch_declares stages (C.read_list
            controller) (C.write_list controller) (C.said_time controller)) name.now (texts after.now))) }
        ensures builder_back { IfErr result (λ refused. refused.1 ≡ self) }
        ensures controller_back { IfErr result (λ refused. refused.2 ≡ controller) }
        ensures stages_back { IfErr result (λ refused. refused.3 ≡ stages) }
    {
        match self.add_batch(controller, stages, name, after) {
            Ok(_id) => Ok(self),
            Err((error, controller, stages)) => Err((error, self, controller, stages)),
        }
    }

    /// The builder with one more local system, as `add_thread_local` makes it.
    ///
    /// Errors: want of memory; the builder is handed back as it was, and the system.
    pub fn with_thread_local(mut self, local: L) -> Result<Self, AllocFailed<(Self, L)>>
        ensures ok { IfOk result (λ builder. builder
            ≡ record { building = self.building; locals = self.locals ++ local ∷ []; workers = self.workers }) }
        ensures builder_back { IfErr result (λ refused. refused.value.0 ≡ self) }
        ensures local_back { IfErr result (λ refused. refused.value.1 ≡ local) }
    {
        match self.add_thread_local(local) {
            Ok(()) => Ok(self),
            Err(AllocFailed { value }) => Err(AllocFailed {
                value: (self, value),
            }),
        }
    }

    /// The builder with a barrier, as `add_barrier` makes it.
    pub fn with_barrier(mut self) -> Self
        ensures { result ≡ with_building self (record {
          staging = fenced ⟦<ResourceId as PartialEq>⟧.eq self.building.staging;
          names = self.building.names;
        }) }
    {
        self.add_barrier();
        self
    }

    /// The builder with this number of workers.
    pub fn with_pool(mut self, workers: usize) -> Self
        ensures { result ≡ record { building = self.building; locals = self.locals; workers = workers } }
    {
        self.add_pool(workers);
        self
    }
}
