//! Batches: stages of systems that run as often as a controller plans, in the turn of one system.
ghost use Rattle.std.specs.Prelude.{◌≡◌, ◌++◌, is_ok, IfOk, OnOk, zero};
ghost use Rattle.std.specs.Option.{option_map};
ghost use Rattle.shred_world.specs.declared.resource_id.ResourceId.{ResourceId as Id};
ghost use Rattle.shred_plan.specs.Plan.{units_of};
ghost use Rattle.shred_stages.specs.Views.{Leaves, error_of};
ghost use Rattle.shred_stages.specs.Runs.{State};
ghost use Rattle.shred_stages.specs.Seats.{refusal_of};
ghost use Rattle.shred.specs.Batches.{TimesRun, RunsAsPlanned, BatchSetsUp, BatchDisposes};
ghost use Rattle.shred_stages.specs.Accesses.{all_reads, all_writes};

use crate::{BatchAccessor, RunningTime, StagesBuilder, Stop, System};
use shred_stages::Refusal;
use shred_world::{Holder, ResourceId, World};
use std::alloc::{AllocError, Global};
use std::marker::Model;

/// What decides how the stages of a batch run.
pub trait BatchController<V, S>: Sized {
    ghost use Rattle.std.specs.Prelude.{ℕ, Bool, Option, List};
    ghost use Rattle.shred_world.specs.Worlds.{Slots};
    ghost use Rattle.shred_world.specs.Bundles.{Holding};
    ghost use Rattle.shred_stages.specs.declared.stop.Stop.{Stop as Refusal};
    ghost use Rattle.shred_stages.specs.Staging.{Staging};

    /// What a run may do, where a run of the stages' systems may do what is said first: the controller and the stages before, what they see, why it refuses, both after, and what they leave.
    ghost meets: { (S → Holding V → Option Refusal → S → Holding V → Type 0) → Self → Staging S → Holding V
        → Option Refusal → Self → Staging S → Holding V → Type 0 };

    /// The ids that it reads, in order.
    ghost read_list: { Self → List Id };

    /// The ids that it writes, in order.
    ghost write_list: { Self → List Id };

    /// How many units of time the batch is said to run.
    ghost said_time: { Self → ℕ };

    /// What a setup may do: the controller before, whether it is accepted, the world before, the controller and the world after.
    ghost sets_up: { Self → Bool → Slots V → Self → Slots V → Type 0 };

    /// Runs the stages over the view of the batch.
    ///
    /// Errors: a `Stop`, by the controller's own rules.
    fn run<H: AllocGlobal, W: Holder<V>>(
        &mut self,
        rt: &H,
        view: &mut W,
        stages: &mut StagesBuilder<V, S>,
    ) -> Result<(), Stop>
    where
        V: Drop,
        S: System<V> + Drop,
        ensures meets { meets S.meets self.old stages.old (W.slots view.old) (error_of result) self.new stages.new
            (W.slots view.new) }
        ensures leaves { Leaves (W.slots view.old) (W.slots view.new) }
        ensures plan { stages.new.planning ≡ stages.old.planning }
        ensures reads { read_list self.new ≡ read_list self.old }
        ensures writes { write_list self.new ≡ write_list self.old };

    /// How long the batch is said to run.
    fn running_time(&self) -> RunningTime
        ensures { units_of result ≡ said_time self.now };

    /// The ids that the controller itself reads and writes.
    ///
    /// Errors: want of memory.
    fn accessor(&self, alloc: Global) -> Result<BatchAccessor, AllocError>
        ensures reads { IfOk result (λ access. access.reads ≡ read_list self.now) }
        ensures writes { IfOk result (λ access. access.writes ≡ write_list self.now) };

    /// Sets up the resources that the controller needs. Errors: want of memory, by its own rules.
    fn setup(&mut self, world: &mut World<V>) -> Result<(), AllocError>
        ensures meets { sets_up self.old (is_ok result) world.old self.new world.new }
        ensures reads { read_list self.new ≡ read_list self.old }
        ensures writes { write_list self.new ≡ write_list self.old };
}

/// Stages of systems with their controller: a system of its own.
///
/// It reads what its systems and its controller read; it writes what they write, and what the controller reads.
#[derive(Drop)]
pub struct Batch<V, S, C> {
    controller: C,
    stages: StagesBuilder<V, S>,
}

impl<V, S, C> Model for Batch<V, S, C> {
    ghost use Rattle.shred.specs.Batches.{Batched};

    ghost Value = { Batched S C };

    ghost view = { λ batch. record { controller = batch.controller; staging = batch.stages } };
}

impl<V, S, C> Batch<V, S, C> {
    /// The batch of a controller and the stages that it runs.
    pub fn new(controller: C, stages: StagesBuilder<V, S>) -> Batch<V, S, C>
        ensures { result ≡ record { controller = controller; staging = stages } }
    {
        Batch { controller, stages }
    }

    /// The controller, and the stages.
    pub fn into_parts(self) -> (C, StagesBuilder<V, S>)
        ensures controller { result.0 ≡ self.controller }
        ensures stages { result.1 ≡ self.staging }
    {
        let Batch { controller, stages } = self;
        (controller, stages)
    }
}

impl<V: Drop, S: System<V> + Drop, C: BatchController<V, S> + Drop> System<V> for Batch<V, S, C> {
    ghost meets = { λ before w refused after w_after. C.meets S.meets before.controller before.staging w refused
        after.controller after.staging w_after × (after.staging.planning ≡ before.staging.planning) };

    ghost read_list = { λ batch. all_reads batch.staging.planning.stages ++ C.read_list batch.controller };

    ghost write_list = { λ batch. all_writes batch.staging.planning.stages
        ++ (C.read_list batch.controller ++ C.write_list batch.controller) };

    ghost said_time = { λ batch. C.said_time batch.controller };

    ghost sets_up = { BatchSetsUp C.sets_up S.sets_up };

    ghost disposes = { BatchDisposes S.disposes };

    fn run<H: AllocGlobal, W: Holder<V>>(&mut self, rt: &H, view: &mut W) -> Result<(), Stop> {
        self.controller.run(rt, view, &mut self.stages)
    }

    fn running_time(&self) -> RunningTime {
        self.controller.running_time()
    }

    fn accessor(&self, alloc: Global) -> Result<BatchAccessor, AllocError> {
        let (own_reads, own_writes) = self.controller.accessor(alloc)?.into_lists();
        let mut reads = self.stages.fetch_all_reads(alloc)?;
        reads.extend_from_slice(&own_reads)?;
        let mut writes = self.stages.fetch_all_writes(alloc)?;
        writes.extend_from_slice(&own_reads)?;
        writes.extend_from_slice(&own_writes)?;
        Ok(BatchAccessor::new(reads, writes))
    }

    fn setup(&mut self, world: &mut World<V>) -> Result<(), AllocError> {
        match self.controller.setup(world) {
            Ok(()) => self.stages.setup(world),
            Err(error) => Err(error),
        }
    }

    fn dispose(self, world: &mut World<V>) -> Result<(), Stop> {
        let (controller, stages) = self.into_parts();
        drop(controller);
        match stages.let_go(world) {
            Ok(()) => Ok(()),
            Err(Refusal { system: _, stop }) => Err(stop),
        }
    }
}

/// What plans how often the stages of a batch run.
pub trait MultiDispatchController<V>: Sized {
    ghost use Rattle.std.specs.Prelude.{ℕ, Bool, List};
    ghost use Rattle.shred_world.specs.Worlds.{Slots};
    ghost use Rattle.shred_world.specs.Bundles.{Holding};

    /// What planning may do: the state before, what it sees, how often the stages are to run, the state after, and what it leaves.
    ghost plans: { Self → Holding V → ℕ → Self → Holding V → Type 0 };

    /// The ids that it reads, in order.
    ghost read_list: { Self → List Id };

    /// The ids that it writes, in order.
    ghost write_list: { Self → List Id };

    /// What a setup may do: the state before, whether it is accepted, the world before, the state and the world after.
    ghost sets_up: { Self → Bool → Slots V → Self → Slots V → Type 0 };

    /// How often the stages are to run, by what the view of the batch holds.
    fn plan<W: Holder<V>>(&mut self, view: &mut W) -> usize
        ensures plans { plans self.old (W.slots view.old) result self.new (W.slots view.new) }
        ensures leaves { Leaves (W.slots view.old) (W.slots view.new) }
        ensures reads { read_list self.new ≡ read_list self.old }
        ensures writes { write_list self.new ≡ write_list self.old };

    /// The ids that it reads and writes.
    ///
    /// Errors: want of memory.
    fn accessor(&self, alloc: Global) -> Result<BatchAccessor, AllocError>
        ensures reads { IfOk result (λ access. access.reads ≡ read_list self.now) }
        ensures writes { IfOk result (λ access. access.writes ≡ write_list self.now) };

    /// Sets up the resources that it needs. Errors: want of memory, by its own rules.
    fn setup(&mut self, world: &mut World<V>) -> Result<(), AllocError>
        ensures meets { sets_up self.old (is_ok result) world.old self.new world.new }
        ensures reads { read_list self.new ≡ read_list self.old }
        ensures writes { write_list self.new ≡ write_list self.old };
}
