//! Systems that are planned as they are added, and run in the order of their plan.
ghost use Rattle.std.specs.Prelude.{◌≡◌, ◌≢◌, Err, ◌<◌, ◌++◌, ◌∷◌, [], length, string_bytes, OnOk, OnErr, IfOk, IfErr, is_ok};
ghost use Rattle.shred_plan.specs.Plan.{added, fence, placing, most_groups};
ghost use Rattle.shred_plan.specs.PlanText.{plan_text};
ghost use Rattle.shred_stages.specs.Views.{Leaves};
ghost use Rattle.shred_stages.specs.Moves.{IsSeat};
ghost use Rattle.shred_stages.specs.Runs.{StagesRun};
ghost use Rattle.shred_world.specs.Bundles.{holding_of};
ghost use Rattle.shred_stages.specs.Staging.{Runs, Tells, DisposesAll};
ghost use Rattle.shred_stages.specs.declared.error.DispatchError.TheVariants.{Threads};
ghost use Rattle.shred_stages.specs.Ends.{RunsApart};
ghost use Rattle.shred_stages.specs.Orders.{RunsInAnyOrder};
ghost use Rattle.shred_stages.specs.Seats.{StagesAreSeated, refusal_of};
ghost use Rattle.shred_stages.specs.Setups.{SetsUpEach, DisposesEach};
ghost use Rattle.shred_stages.specs.Accesses.{all_reads, all_writes};
ghost use Rattle.shred_stages.specs.Worth.{most_worth};

use crate::access::{Access, ids_in_stages};
use crate::apart::{run_apart, run_standing};
use crate::berth::{Berth, make_ready};
use crate::pack::Pack;
use crate::run::{Refusal, run_stages};
use crate::seat::seat_for;
use crate::setup::{dispose_staged, set_up_staged};
use crate::turn::Staged;
use crate::worth::most_worth;
use crate::{DispatchError, System, SystemId};
use shred_crew::Crew;
use shred_plan::{Adding, Planner};
use shred_world::{Holder, ResourceId, World};
use smallvec::SmallVec;
use std::alloc::{AllocError, AllocFailed, Global};
use std::marker::Model;
use std::string::String;
use std::sync::Wait;
use std::thread::Threads;

/// Plans a system, and puts it behind the others.
///
/// Errors: want of memory, which leaves both as they were and hands the system back.
fn stage_system<V: Drop, S: Drop>(
    planner: &mut Planner<ResourceId>,
    staged: &mut Vec<Staged<V, S>>,
    adding: Adding<ResourceId>,
    one: Staged<V, S>,
) -> Result<(), AllocFailed<Staged<V, S>>>
    requires number { adding.number ≡ length staged.old.items }
    requires seat { IsSeat adding.writes one.seat }
    requires seated { StagesAreSeated planner.old.stages staged.old.items }
    ensures planned { OnOk result (planner.new ≡ added ⟦<ResourceId as PartialEq>⟧.eq planner.old (placing adding)) }
    ensures staged { OnOk result (staged.new.items ≡ staged.old.items ++ one ∷ []) }
    ensures seated { StagesAreSeated planner.new.stages staged.new.items }
    ensures not_planned { OnErr result (planner.new ≡ planner.old) }
    ensures not_staged { OnErr result (staged.new.items ≡ staged.old.items) }
    ensures handed_back { IfErr result (λ refused. refused.value ≡ one) }
{
    let Ok(()) = staged.reserve(1) else {
        return Err(AllocFailed { value: one });
    };
    let Ok(()) = planner.add(adding) else {
        return Err(AllocFailed { value: one });
    };
    staged.push_reserved(one);
    Ok(())
}

/// The answer that tells a refusal.
fn told(outcome: Result<(), Refusal>) -> Result<(), DispatchError>
    ensures { Tells result (refusal_of outcome) }
{
    match outcome {
        Ok(()) => Ok(()),
        Err(Refusal { system, stop }) => Err(DispatchError::System(system, stop)),
    }
}

/// Systems that are put into stages as they are added.
#[derive(Drop)]
pub struct StagesBuilder<V, S> {
    alloc: Global,
    planner: Planner<ResourceId>,
    staged: Vec<Staged<V, S>>,
    cut_for: usize,
    berths: Vec<Berth<V, S>>,
}

impl<V, S> Model for StagesBuilder<V, S> {
    ghost use Rattle.shred_stages.specs.Seats.{IsStaged, systems_of};
    ghost use Rattle.shred_stages.specs.Staging.{Staging};
    ghost use Rattle.shred_stages.specs.Touring.{IsKept};

    ghost Value = { Staging S };

    ghost view = { λ builder. record { planning = builder.planner; systems = systems_of builder.staged.items } };

    ghost invariant = { λ builder. IsStaged ⟦<ResourceId as PartialEq>⟧.eq builder.planner builder.staged.items
        × IsKept builder.planner.stages builder.berths.items };
}

impl<V: Drop, S: System<V> + Drop> StagesBuilder<V, S> {
    /// No system, and no stage.
    pub fn new(alloc: Global) -> StagesBuilder<V, S>
        ensures { result ≡ record { planning = record { first = 0; stages = [] }; systems = [] } }
    {
        StagesBuilder {
            alloc,
            planner: Planner::new(alloc),
            staged: Vec::new(alloc),
            cut_for: 0,
            berths: Vec::new(alloc),
        }
    }

    /// Adds a system, which comes after those of the given numbers, and answers its number: they count from 0 in the order of adding.
    ///
    /// Errors: want of memory, which leaves the builder as it was and hands the system back.
    pub fn insert(&mut self, system: S, after: SmallVec<u32, 4>) -> Result<SystemId, AllocFailed<S>>
        requires room { length self.old.systems < 65536 }
        ensures number { IfOk result (λ id. id.0 ≡ length self.old.systems) }
        ensures ok { OnOk result (self.new ≡ record {
          planning = added ⟦<ResourceId as PartialEq>⟧.eq self.old.planning (placing (record {
            number = length self.old.systems;
            reads = S.read_list system;
            writes = S.write_list system;
            after = after.items;
            time = S.said_time system;
          }));
          systems = self.old.systems ++ system ∷ [];
        }) }
        ensures err { OnErr result (self.new ≡ self.old) }
        ensures handed_back { IfErr result (λ refused. refused.value ≡ system) }
    {
        let number = self.staged.len() as u32;
        let Ok(access) = system.accessor(self.alloc) else {
            return Err(AllocFailed { value: system });
        };
        let (reads, writes) = access.into_lists();
        let Ok(seat) = seat_for(self.alloc, &writes) else {
            return Err(AllocFailed { value: system });
        };
        let adding = Adding::new(number, reads, writes, after, system.running_time());
        let one = Staged { system, seat };
        match stage_system(&mut self.planner, &mut self.staged, adding, one) {
            Ok(()) => {
                self.berths = Vec::new(self.alloc);
                Ok(SystemId(number))
            }
            Err(
                AllocFailed {
                    value: Staged { system, seat: _ },
                },
            ) => { Err(AllocFailed { value: system }) }
        }
    }

    /// How many systems there are.
    pub fn len(&self) -> usize
        ensures { result ≡ length self.now.systems }
    {
        self.staged.len()
    }

    /// What is added from now on runs in later stages than what was added so far.
    pub fn add_barrier(&mut self)
        ensures { self.new ≡ record {
          planning = added ⟦<ResourceId as PartialEq>⟧.eq self.old.planning fence;
          systems = self.old.systems;
        } }
    {
        self.planner.add_barrier();
    }

    /// The plan as a text: one line a stage, ended by a line feed, its groups joined by ` | `, the numbers of a group by `, `.
    ///
    /// Errors: want of memory.
    pub fn write_par_seq(&self, alloc: Global) -> Result<String, AllocError>
        ensures { IfOk result (λ text. string_bytes text ≡ plan_text self.now.planning.stages) }
    {
        self.planner.print_par_seq(alloc)
    }

    /// The ids that the systems read, in the order of the plan.
    ///
    /// Errors: want of memory.
    pub fn fetch_all_reads(&self, alloc: Global) -> Result<Vec<ResourceId>, AllocError>
        ensures { IfOk result (λ ids. ids.items ≡ all_reads self.now.planning.stages) }
    {
        ids_in_stages(alloc, Access::Reads, self.planner.stages())
    }

    /// The ids that the systems write, in the order of the plan.
    ///
    /// Errors: want of memory.
    pub fn fetch_all_writes(&self, alloc: Global) -> Result<Vec<ResourceId>, AllocError>
        ensures { IfOk result (λ ids. ids.items ≡ all_writes self.now.planning.stages) }
    {
        ids_in_stages(alloc, Access::Writes, self.planner.stages())
    }

    /// Sets the systems up in the order in which they were added, up to the first that finds no memory.
    ///
    /// Errors: want of memory; the systems before the refused one are set up.
    pub fn setup(&mut self, world: &mut World<V>) -> Result<(), AllocError>
        ensures plan { self.new.planning ≡ self.old.planning }
        ensures sets_up { SetsUpEach S.sets_up self.old.systems (is_ok result) world.old self.new.systems world.new }
    {
        set_up_staged(self.staged.as_mut_slice(), world)
    }

    /// The greatest number of groups in a stage.
    pub fn max_threads(&self) -> usize
        ensures { result ≡ most_groups self.now.planning.stages }
    {
        self.planner.max_groups()
    }

    /// The greatest number of workers that a stage is worth: one for each three units of its groups' times, which an
    /// average system takes, and no more than it has groups. A stage that is worth one is run by the caller's thread
    /// alone.
    pub fn max_workers(&self) -> usize
        ensures { result ≡ most_worth self.now.planning.stages }
    {
        most_worth(self.planner.stages())
    }

    /// Runs the systems on the caller's thread: stage by stage, group by group.
    ///
    /// A system that refuses ends its group; the stage's other groups run to their ends, and no later stage runs.
    ///
    /// Errors: `System`, with the first refusal in the order of the plan.
    pub fn execute_seq<H: AllocGlobal, W: Holder<V>>(
        &mut self,
        rt: &H,
        world: &mut W,
    ) -> Result<(), DispatchError>
        ensures plan { self.new.planning ≡ self.old.planning }
        ensures runs { Runs S.meets self.old (W.slots world.old) result self.new (W.slots world.new) }

        // Where no system refuses, the same steps come to the same in each order that keeps the systems that are bound to one another.
        ensures any_order { RunsInAnyOrder S.meets self.old (W.slots world.old) result self.new (W.slots world.new) }

        // The same ids have values as before.
        ensures leaves { Leaves (W.slots world.old) (W.slots world.new) }
    {
        told(self.run(rt, world))
    }

    /// Runs the systems by workers: stage by stage, the groups of a stage by as many workers as there are, or groups.
    ///
    /// The caller's thread is one of the workers. Each other has a thread of its own, which is started before the first stage, stands by over all of
    /// them, and has ended when the call returns. A worker runs the groups of one list of `cut`, by the groups' times, in their order; what a worker has not begun when
    /// the caller's thread has run its own list, that thread runs too. What the groups are run with is kept from one call to the next, until a system is added.
    ///
    /// With fewer than 2 workers, or where no stage has 2 groups, all runs on the caller's thread, as `execute_seq` runs it.
    ///
    /// Errors: as `execute_seq`; `Memory` and `Threads`, where there was no memory for what the groups are run with or for a worker, or a thread couldn't be started:
    /// no system ran, and all is as it was.
    pub fn execute<R: AllocGlobal + Threads + Wait + Sync>(
        &mut self,
        rt: &R,
        workers: usize,
        world: &mut World<V>,
    ) -> Result<(), DispatchError>
    where
        V: Send + Sync,
        S: Send,
        ensures plan { self.new.planning ≡ self.old.planning }
        ensures runs { RunsApart S.meets self.old (holding_of world.old) result self.new (holding_of world.new) }
        ensures alone { workers < 2 → Runs S.meets self.old (holding_of world.old) result self.new
            (holding_of world.new) }
        ensures any_order { RunsInAnyOrder S.meets self.old (holding_of world.old) result self.new
            (holding_of world.new) }

        // The same ids have values as before.
        ensures leaves { Leaves (holding_of world.old) (holding_of world.new) }
    {
        let workers = workers.min(self.max_workers());
        if workers < 2 {
            return self.execute_seq(rt, world);
        }
        let stages = self.planner.stages();
        let Ok(()) = make_ready(
            rt.alloc(),
            stages,
            workers,
            &mut self.cut_for,
            &mut self.berths,
        ) else {
            return Err(DispatchError::Memory);
        };
        run_apart(rt, workers, world, &mut self.staged, &mut self.berths)
    }

    /// Runs the systems as `execute` does, by the workers of a crew that stands by: it starts no thread and needs no leave to.
    ///
    /// The groups of a stage are dealt to so many workers, of whom the caller's thread is one; what a crew of fewer has not
    /// begun by then, the caller's thread runs.
    ///
    /// Errors: as `execute_seq`; `Memory`, where there was no memory for what the groups are run with: no system ran, and
    /// all is as it was.
    pub fn execute_with<R: AllocGlobal + Wait>(
        &mut self,
        rt: &R,
        workers: usize,
        crew: &mut Crew<World<V>, Pack<V, S>>,
        world: &mut World<V>,
    ) -> Result<(), DispatchError>
        ensures plan { self.new.planning ≡ self.old.planning }
        ensures runs { RunsApart S.meets self.old (holding_of world.old) result self.new (holding_of world.new) }
        ensures alone { workers < 2 → Runs S.meets self.old (holding_of world.old) result self.new
            (holding_of world.new) }
        ensures any_order { RunsInAnyOrder S.meets self.old (holding_of world.old) result self.new
            (holding_of world.new) }

        // The same ids have values as before.
        ensures leaves { Leaves (holding_of world.old) (holding_of world.new) }
        ensures threads { result ≢ Err Threads }
    {
        let workers = workers.min(self.max_workers());
        if workers < 2 {
            return self.execute_seq(rt, world);
        }
        let stages = self.planner.stages();
        let Ok(()) = make_ready(
            rt.alloc(),
            stages,
            workers,
            &mut self.cut_for,
            &mut self.berths,
        ) else {
            return Err(DispatchError::Memory);
        };
        run_standing(rt, crew, world, &mut self.staged, &mut self.berths)
    }

    /// Runs the systems on the caller's thread as `execute_seq` does, and tells the first refusal in the order of the plan.
    ///
    /// Errors: that refusal; the stage's other groups have run to their ends, and no later stage ran.
    pub fn run<H: AllocGlobal, W: Holder<V>>(
        &mut self,
        rt: &H,
        world: &mut W,
    ) -> Result<(), Refusal>
        ensures plan { self.new.planning ≡ self.old.planning }
        ensures runs { StagesRun S.meets self.old.planning.stages
            (record { systems = self.old.systems; held = W.slots world.old }) (refusal_of result)
            (record { systems = self.new.systems; held = W.slots world.new }) }
        ensures any_order { RunsInAnyOrder S.meets self.old (W.slots world.old) result self.new (W.slots world.new) }
        ensures leaves { Leaves (W.slots world.old) (W.slots world.new) }
    {
        run_stages(rt, world, self.staged.as_mut_slice(), self.planner.stages())
    }

    /// Lets the systems go in the order in which they were added, each also where an earlier one refused.
    ///
    /// Errors: `System`, with the first refusal.
    pub fn dispose(self, world: &mut World<V>) -> Result<(), DispatchError>
        ensures { DisposesAll S.disposes self.systems result world.old world.new }
    {
        told(self.let_go(world))
    }

    /// Lets the systems go as `dispose` does, and tells the first that refuses.
    ///
    /// Errors: that refusal; the later systems were let go as well.
    pub fn let_go(self, world: &mut World<V>) -> Result<(), Refusal>
        ensures { DisposesEach S.disposes 0 self.systems (refusal_of result) world.old world.new }
    {
        let StagesBuilder {
            alloc: _,
            planner,
            staged,
            cut_for: _,
            berths,
        } = self;
        drop(planner);
        drop(berths);
        dispose_staged(staged, world)
    }
}
