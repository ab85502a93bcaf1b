//! The controller that runs the stages of a batch a planned number of times.
ghost use Rattle.std.specs.Prelude.{◌≡◌};
ghost use Rattle.std.specs.Option.{option_map};
ghost use Rattle.shred_stages.specs.Views.{Leaves};
ghost use Rattle.shred_stages.specs.Seats.{stop_of, refusal_of};
ghost use Rattle.shred.specs.Batches.{TimesRun, RunsAsPlanned};
ghost use Rattle.shred.specs.Multis.{controller_of};

use crate::{
    BatchAccessor, BatchController, MultiDispatchController, RunningTime, StagesBuilder, Stop,
    System,
};
use shred_stages::Refusal;
use shred_world::{Holder, World};
use std::alloc::{AllocError, Global};

/// Runs the stages of a batch as often as its controller plans.
#[derive(Drop)]
pub struct MultiDispatcher<C> {
    controller: C,
}

impl<C> MultiDispatcher<C> {
    /// The dispatcher of a controller.
    pub fn new(controller: C) -> MultiDispatcher<C>
        ensures { controller_of result ≡ controller }
    {
        MultiDispatcher { controller }
    }
}

/// Runs stages a number of times, up to the first time in which a system refuses.
fn run_times<V: Drop, S: System<V> + Drop, H: AllocGlobal, W: Holder<V>>(
    rt: &H,
    view: &mut W,
    stages: &mut StagesBuilder<V, S>,
    times: usize,
) -> Result<(), Refusal>
    ensures plan { stages.new.planning ≡ stages.old.planning }
    ensures runs { TimesRun S.meets times stages.old.planning.stages
        (record { systems = stages.old.systems; held = W.slots view.old }) (refusal_of result)
        (record { systems = stages.new.systems; held = W.slots view.new }) }
    ensures leaves { Leaves (W.slots view.old) (W.slots view.new) }
{
    for _time in 0..times {
        match stages.run(rt, view) {
            Ok(()) => {}
            Err(refusal) => return Err(refusal),
        }
    }
    Ok(())
}

impl<V, S, C: MultiDispatchController<V>> BatchController<V, S> for MultiDispatcher<C> {
    ghost meets = { λ meets before staging w refused after staging_after w_after. RunsAsPlanned C.plans meets
        (controller_of before) staging w refused (controller_of after) staging_after w_after };

    ghost read_list = { λ multi. C.read_list (controller_of multi) };

    ghost write_list = { λ multi. C.write_list (controller_of multi) };

    ghost said_time = { λ _. 3 };

    ghost sets_up = { λ before accepted w after w_after. C.sets_up (controller_of before) accepted w
        (controller_of after) w_after };

    fn run<H: AllocGlobal, W: Holder<V>>(
        &mut self,
        rt: &H,
        view: &mut W,
        stages: &mut StagesBuilder<V, S>,
    ) -> Result<(), Stop>
    where
        V: Drop,
        S: System<V> + Drop,
    {
        let times = self.controller.plan(view);
        match run_times(rt, view, stages, times) {
            Ok(()) => Ok(()),
            Err(Refusal { system: _, stop }) => Err(stop),
        }
    }

    fn running_time(&self) -> RunningTime {
        RunningTime::Average
    }

    fn accessor(&self, alloc: Global) -> Result<BatchAccessor, AllocError> {
        self.controller.accessor(alloc)
    }

    fn setup(&mut self, world: &mut World<V>) -> Result<(), AllocError> {
        self.controller.setup(world)
    }
}
