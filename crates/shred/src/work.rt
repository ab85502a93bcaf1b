//! Systems and batches side by side.
ghost use Rattle.shred.specs.Works.{either, WorkMeets, WorkSetsUp, WorkDisposes};

use crate::{BatchAccessor, RunningTime, Stop, System};
use shred_world::{Holder, World};
use std::alloc::{AllocError, Global};

/// A system, or a batch of systems.
#[derive(Drop)]
pub enum Work<S, B> {
    /// A system.
    System(S),
    /// A batch.
    Batch(B),
}

impl<V, S: System<V>, B: System<V>> System<V> for Work<S, B> {
    ghost meets = { WorkMeets S.meets B.meets };

    ghost read_list = { either S.read_list B.read_list };

    ghost write_list = { either S.write_list B.write_list };

    ghost said_time = { either S.said_time B.said_time };

    ghost sets_up = { WorkSetsUp S.sets_up B.sets_up };

    ghost disposes = { WorkDisposes S.disposes B.disposes };

    fn run<H: AllocGlobal, W: Holder<V>>(&mut self, rt: &H, view: &mut W) -> Result<(), Stop> {
        match self {
            Work::System(system) => system.run(rt, view),
            Work::Batch(batch) => batch.run(rt, view),
        }
    }

    fn running_time(&self) -> RunningTime {
        match self {
            Work::System(system) => system.running_time(),
            Work::Batch(batch) => batch.running_time(),
        }
    }

    fn accessor(&self, alloc: Global) -> Result<BatchAccessor, AllocError> {
        match self {
            Work::System(system) => system.accessor(alloc),
            Work::Batch(batch) => batch.accessor(alloc),
        }
    }

    fn setup(&mut self, world: &mut World<V>) -> Result<(), AllocError> {
        match self {
            Work::System(system) => system.setup(world),
            Work::Batch(batch) => batch.setup(world),
        }
    }

    fn dispose(self, world: &mut World<V>) -> Result<(), Stop> {
        match self {
            Work::System(system) => system.dispose(world),
            Work::Batch(batch) => batch.dispose(world),
        }
    }
}
