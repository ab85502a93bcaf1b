//! Dispatchers: staged systems and local ones over a world.
ghost use Rattle.std.specs.Prelude.{◌≡◌, ◌≢◌, min, Err, is_ok};
ghost use Rattle.shred_world.specs.Bundles.{holding_of};
ghost use Rattle.shred_plan.specs.Plan.{most_groups};
ghost use Rattle.shred_stages.specs.Views.{Leaves};
ghost use Rattle.shred_stages.specs.Orders.{RunsInAnyOrder};
ghost use Rattle.shred_stages.specs.Worth.{most_worth};
ghost use Rattle.shred.specs.Dispatching.{Dispatching, Dispatches, DispatchesAll, DispatchesInAnyOrder};
ghost use Rattle.shred.specs.Dispatching.{DispatchesOnThreads, DispatchesStaged, DispatchesLocals, local_refusal};
ghost use Rattle.shred.specs.Dispatching.{TellsLocal, DispatcherSetsUp, DispatcherDisposes, TellsFirst, stop_in};
ghost use Rattle.shred.specs.Dispatching.{MeetsAsLocal, DisposesAsLocal};
ghost use Rattle.shred_stages.specs.Seats.{refusal_of};
ghost use Rattle.shred_stages.specs.declared.error.DispatchError.TheVariants.{Threads};

use crate::locals::{LocalRefusal, dispose_locals, run_locals, set_up_list};
use crate::{DispatchError, RunNow, StagesBuilder, Stop, System};
use shred_crew::Crew;
use shred_stages::{Pack, Refusal};
use shred_world::{Holder, World};
use std::alloc::AllocError;
use std::marker::Model;
use std::sync::Wait;
use std::thread::Threads;

/// Staged systems in the stages of their plan, and local systems, which run after them on the caller's thread.
#[derive(Drop)]
pub struct Dispatcher<V, S, L> {
    stages: StagesBuilder<V, S>,
    locals: Vec<L>,
    workers: usize,
}

impl<V, S, L> Model for Dispatcher<V, S, L> {
    ghost use Rattle.shred.specs.Dispatching.{Dispatching};

    ghost Value = { Dispatching S L };

    ghost view = { λ dispatcher. record {
      staging = dispatcher.stages;
      locals = dispatcher.locals.items;
      workers = dispatcher.workers;
    } };
}

/// The answer that tells the refusal of a local system.
fn told_local(outcome: Result<(), LocalRefusal>) -> Result<(), DispatchError>
    ensures { TellsLocal result (local_refusal outcome) }
{
    match outcome {
        Ok(()) => Ok(()),
        Err(LocalRefusal { place, stop }) => Err(DispatchError::Local(place, stop)),
    }
}

impl<V: Drop, S: System<V> + Drop, L: RunNow<V> + Drop> Dispatcher<V, S, L> {
    /// The dispatcher of some stages and local systems.
    pub(crate) fn of(
        stages: StagesBuilder<V, S>,
        locals: Vec<L>,
        workers: usize,
    ) -> Dispatcher<V, S, L>
        ensures { result ≡ record { staging = stages; locals = locals.items; workers = workers } }
    {
        Dispatcher {
            stages,
            locals,
            workers,
        }
    }

    /// The stages, the local systems, and how many workers run a stage.
    pub(crate) fn into_parts(self) -> (StagesBuilder<V, S>, Vec<L>, usize)
        ensures stages { result.0 ≡ self.staging }
        ensures locals { result.1.items ≡ self.locals }
        ensures workers { result.2 ≡ self.workers }
    {
        let Dispatcher {
            stages,
            locals,
            workers,
        } = self;
        (stages, locals, workers)
    }

    /// The greatest number of groups in a stage.
    pub fn max_threads(&self) -> usize
        ensures { result ≡ most_groups self.now.staging.planning.stages }
    {
        self.stages.max_threads()
    }

    /// Runs the staged systems on threads, as `dispatch_par` does, and then the local ones in the order in which they were added.
    ///
    /// Errors: that of `dispatch_par`, after which no local system runs; that of `dispatch_thread_local`.
    pub fn dispatch<R: AllocGlobal + Threads + Wait + Sync>(
        &mut self,
        rt: &R,
        world: &mut World<V>,
    ) -> Result<(), DispatchError>
    where
        V: Send + Sync,
        S: Send,
        ensures runs { DispatchesAll S.meets L.meets self.old (holding_of world.old) result self.new
            (holding_of world.new) }

        // Where no staged system refuses, the same steps come to the same in each order that keeps those that are
        // bound to one another.
        ensures any_order { DispatchesInAnyOrder S.meets L.meets self.old (holding_of world.old) result self.new
            (holding_of world.new) }

        // The same ids have values as before.
        ensures leaves { Leaves (holding_of world.old) (holding_of world.new) }
    {
        match self.dispatch_par(rt, world) {
            Ok(()) => self.dispatch_thread_local(rt, world),
            Err(error) => Err(error),
        }
    }

    /// Runs the staged systems, the groups of a stage on as many threads as there are workers, or groups: a chain of the systems'
    /// relations in the order of the plan, as on the caller's thread, where they run with 0 workers or 1.
    ///
    /// A system that refuses ends its group; the stage's other groups run to their ends, and no later stage runs.
    ///
    /// Errors: `System`, with the first refusal in the order of the plan; `Memory` and `Threads`, where there was no memory for what the
    /// stages are run with or for a worker, or a thread couldn't be started: no system ran, and all is as it was.
    pub fn dispatch_par<R: AllocGlobal + Threads + Wait + Sync>(
        &mut self,
        rt: &R,
        world: &mut World<V>,
    ) -> Result<(), DispatchError>
    where
        V: Send + Sync,
        S: Send,
        ensures runs { DispatchesOnThreads S.meets L.meets self.old (holding_of world.old) result self.new
            (holding_of world.new) }
        ensures any_order { RunsInAnyOrder S.meets self.old.staging (holding_of world.old) result self.new.staging
            (holding_of world.new) }
        ensures leaves { Leaves (holding_of world.old) (holding_of world.new) }
    {
        self.stages.execute(rt, self.workers, world)
    }

    /// Runs the staged systems and then the local ones, as `dispatch` does, by the workers of a crew that stands by: it starts
    /// no thread.
    ///
    /// Errors: that of `dispatch_par_with`, after which no local system runs; that of `dispatch_thread_local`.
    pub fn dispatch_with<R: AllocGlobal + Wait>(
        &mut self,
        rt: &R,
        crew: &mut Crew<World<V>, Pack<V, S>>,
        world: &mut World<V>,
    ) -> Result<(), DispatchError>
        ensures runs { DispatchesAll S.meets L.meets self.old (holding_of world.old) result self.new
            (holding_of world.new) }
        ensures any_order { DispatchesInAnyOrder S.meets L.meets self.old (holding_of world.old) result self.new
            (holding_of world.new) }
        ensures leaves { Leaves (holding_of world.old) (holding_of world.new) }
        ensures threads { result ≢ Err Threads }
    {
        match self.dispatch_par_with(rt, crew, world) {
            Ok(()) => self.dispatch_thread_local(rt, world),
            Err(error) => Err(error),
        }
    }

    /// Runs the staged systems, as `dispatch_par` does, by the workers of a crew that stands by: it starts no thread.
    ///
    /// Errors: `System`, with the first refusal in the order of the plan; `Memory`, where there was no memory for what the
    /// stages are run with: no system ran, and all is as it was.
    pub fn dispatch_par_with<R: AllocGlobal + Wait>(
        &mut self,
        rt: &R,
        crew: &mut Crew<World<V>, Pack<V, S>>,
        world: &mut World<V>,
    ) -> Result<(), DispatchError>
        ensures runs { DispatchesOnThreads S.meets L.meets self.old (holding_of world.old) result self.new
            (holding_of world.new) }
        ensures any_order { RunsInAnyOrder S.meets self.old.staging (holding_of world.old) result self.new.staging
            (holding_of world.new) }
        ensures leaves { Leaves (holding_of world.old) (holding_of world.new) }
        ensures threads { result ≢ Err Threads }
    {
        self.stages.execute_with(rt, self.workers, crew, world)
    }

    /// How many workers a crew has that stands by for this dispatcher: as many as it has itself, or as a stage is
    /// worth, whichever is less. Where that is less than two, no thread is worth starting.
    pub fn crew_size(&self) -> usize
        ensures { result ≡ min self.now.workers (most_worth self.now.staging.planning.stages) }
    {
        self.workers.min(self.stages.max_workers())
    }

    /// Runs the staged systems on the caller's thread: a chain of their relations in the order of the plan.
    ///
    /// A system that refuses ends its group; the stage's other groups run to their ends, and no later stage runs.
    ///
    /// Errors: `System`, with the first refusal in the order of the plan.
    pub fn dispatch_seq<H: AllocGlobal>(
        &mut self,
        rt: &H,
        world: &mut World<V>,
    ) -> Result<(), DispatchError>
        ensures runs { DispatchesStaged S.meets L.meets self.old (holding_of world.old) result self.new
            (holding_of world.new) }
        ensures any_order { RunsInAnyOrder S.meets self.old.staging (holding_of world.old) result self.new.staging
            (holding_of world.new) }
        ensures leaves { Leaves (holding_of world.old) (holding_of world.new) }
    {
        self.dispatch_staged(rt, world)
    }

    /// Runs the local systems in the order in which they were added, up to the first that refuses.
    ///
    /// Errors: `Local`, with its place among them from 0.
    pub fn dispatch_thread_local<H: AllocGlobal>(
        &mut self,
        rt: &H,
        world: &mut World<V>,
    ) -> Result<(), DispatchError>
        ensures runs { DispatchesLocals S.meets L.meets self.old (holding_of world.old) result self.new
            (holding_of world.new) }
        ensures leaves { Leaves (holding_of world.old) (holding_of world.new) }
    {
        self.dispatch_locals(rt, world)
    }

    /// Runs all systems over what a world or a view holds.
    fn dispatch_over<H: AllocGlobal, W: Holder<V>>(
        &mut self,
        rt: &H,
        world: &mut W,
    ) -> Result<(), DispatchError>
        ensures runs { Dispatches S.meets L.meets self.old (W.slots world.old) result self.new (W.slots world.new) }
        ensures leaves { Leaves (W.slots world.old) (W.slots world.new) }
    {
        match self.dispatch_staged(rt, world) {
            Ok(()) => self.dispatch_locals(rt, world),
            Err(error) => Err(error),
        }
    }

    /// Runs the staged systems over what a world or a view holds.
    fn dispatch_staged<H: AllocGlobal, W: Holder<V>>(
        &mut self,
        rt: &H,
        world: &mut W,
    ) -> Result<(), DispatchError>
        ensures runs { DispatchesStaged S.meets L.meets self.old (W.slots world.old) result self.new
            (W.slots world.new) }
        ensures any_order { RunsInAnyOrder S.meets self.old.staging (W.slots world.old) result self.new.staging
            (W.slots world.new) }
        ensures leaves { Leaves (W.slots world.old) (W.slots world.new) }
    {
        self.stages.execute_seq(rt, world)
    }

    /// Runs the local systems over what a world or a view holds.
    fn dispatch_locals<H: AllocGlobal, W: Holder<V>>(
        &mut self,
        rt: &H,
        world: &mut W,
    ) -> Result<(), DispatchError>
        ensures runs { DispatchesLocals S.meets L.meets self.old (W.slots world.old) result self.new
            (W.slots world.new) }
        ensures leaves { Leaves (W.slots world.old) (W.slots world.new) }
    {
        told_local(run_locals(rt, world, self.locals.as_mut_slice(), 0))
    }

    /// Sets the systems up: the staged ones in the order in which they were added, and then the local ones.
    ///
    /// Errors: want of memory; the systems before the refused one are set up.
    pub fn setup(&mut self, world: &mut World<V>) -> Result<(), AllocError>
        ensures { DispatcherSetsUp S.sets_up L.sets_up self.old (is_ok result) world.old self.new world.new }
    {
        match self.stages.setup(world) {
            Ok(()) => set_up_list(&mut self.locals, world),
            Err(error) => Err(error),
        }
    }

    /// Lets the systems go: the staged ones in the order in which they were added, and then the local ones, each also where an
    /// earlier one refused.
    ///
    /// Errors: the first refusal, as `System` or `Local`.
    pub fn dispose(self, world: &mut World<V>) -> Result<(), DispatchError>
        ensures { DispatcherDisposes S.disposes L.disposes self result world.old world.new }
    {
        let Dispatcher {
            stages,
            locals,
            workers: _,
        } = self;
        let staged = stages.let_go(world);
        let local = dispose_locals(locals, world);
        told_first(staged, local)
    }
}

/// The answer that tells the refusal of a staged system, else that of a local one.
fn told_first(
    staged: Result<(), Refusal>,
    local: Result<(), LocalRefusal>,
) -> Result<(), DispatchError>
    ensures { TellsFirst result (refusal_of staged) (local_refusal local) }
{
    match staged {
        Ok(()) => told_local(local),
        Err(Refusal { system, stop }) => Err(DispatchError::System(system, stop)),
    }
}

/// Why a dispatch ended early, as a system's refusal; a thread that couldn't be started is told as a want of memory.
fn stop_in(error: DispatchError) -> Stop
    ensures { result ≡ stop_in error }
{
    match error {
        DispatchError::System(_, stop) => stop,
        DispatchError::Local(_, stop) => stop,
        DispatchError::Memory => Stop::Memory,
        DispatchError::Threads => Stop::Memory,
    }
}

impl<V: Drop, S: System<V> + Drop, L: RunNow<V> + Drop> RunNow<V> for Dispatcher<V, S, L> {
    ghost meets = { MeetsAsLocal S.meets L.meets };

    ghost sets_up = { DispatcherSetsUp S.sets_up L.sets_up };

    ghost disposes = { DisposesAsLocal S.disposes L.disposes };

    fn run_now<H: AllocGlobal, W: Holder<V>>(&mut self, rt: &H, world: &mut W) -> Result<(), Stop> {
        match self.dispatch_over(rt, world) {
            Ok(()) => Ok(()),
            Err(error) => Err(stop_in(error)),
        }
    }

    fn setup(&mut self, world: &mut World<V>) -> Result<(), AllocError> {
        Dispatcher::setup(self, world)
    }

    fn dispose(self, world: &mut World<V>) -> Result<(), Stop> {
        match Dispatcher::dispose(self, world) {
            Ok(()) => Ok(()),
            Err(error) => Err(stop_in(error)),
        }
    }
}
