//! Many dispatches while the workers stand by.
ghost use Rattle.std.specs.Prelude.{◌≡◌, IfOk, IfErr};
ghost use Rattle.shred.specs.Standing.{DispatchesTimes};

use crate::{DispatchError, Dispatcher, RunNow, System};
use shred_crew::{Crew, Shift, Unmanned, with_crew};
use shred_stages::Pack;
use shred_world::World;
use std::sync::Wait;
use std::thread::Threads;

/// A dispatcher that is to be dispatched over a world some times, or was.
#[derive(Drop)]
pub struct Dispatches<V, S, L> {
    /// The dispatcher.
    pub dispatcher: Dispatcher<V, S, L>,
    /// The world.
    pub world: World<V>,
    /// How many times.
    pub times: u32,
    /// How many of them were accepted.
    pub accepted: u32,
    /// The refusal of the one after these, if it was refused.
    pub outcome: Result<(), DispatchError>,
}

impl<V: Drop, S: System<V> + Drop, L: RunNow<V> + Drop> Dispatches<V, S, L> {
    /// So many dispatches of a dispatcher over a world, of which none has been made.
    pub fn of(dispatcher: Dispatcher<V, S, L>, world: World<V>, times: u32) -> Dispatches<V, S, L>
        ensures dispatcher { result.dispatcher ≡ dispatcher }
        ensures world { result.world ≡ world }
        ensures times { result.times ≡ times }
    {
        Dispatches {
            dispatcher,
            world,
            times,
            accepted: 0,
            outcome: Ok(()),
        }
    }
}

impl<V: Drop, S: System<V> + Drop, L: RunNow<V> + Drop> Shift<World<V>, Pack<V, S>>
    for Dispatches<V, S, L> {
    ghost use Rattle.shred.specs.Standing.{DispatchesTimes};

    ghost may = { λ _. Unit {0} };

    ghost does = { λ before after. DispatchesTimes S.meets L.meets before.times before.dispatcher before.world
        after.accepted after.outcome after.dispatcher after.world };

    fn run<R: AllocGlobal + Wait>(&mut self, rt: &R, crew: &mut Crew<World<V>, Pack<V, S>>) {
        self.accepted = 0;
        self.outcome = Ok(());
        for _time in 0..self.times {
            match self.dispatcher.dispatch_with(rt, crew, &mut self.world) {
                Ok(()) => self.accepted += 1,
                Err(error) => {
                    self.outcome = Err(error);
                    return;
                }
            }
        }
    }
}

/// Dispatches some times, each time from where the time before left off, up to the first that is refused. The workers stand
/// by over all of them: each other than the caller's thread is started once.
///
/// Errors: want of memory or of a thread for a worker; nothing ran, and all comes back as it was.
pub fn dispatch_times<
    V: Drop + Send + Sync,
    S: System<V> + Drop + Send,
    L: RunNow<V> + Drop,
    R: AllocGlobal + Threads + Wait + Sync,
>(
    rt: &R,
    dispatches: Dispatches<V, S, L>,
) -> Result<Dispatches<V, S, L>, Unmanned<Dispatches<V, S, L>>>
    ensures ok { IfOk result (λ after. DispatchesTimes S.meets L.meets dispatches.times dispatches.dispatcher
        dispatches.world after.accepted after.outcome after.dispatcher after.world) }
    ensures err { IfErr result (λ unmanned. unmanned.shift ≡ dispatches) }
{
    let workers = dispatches.dispatcher.crew_size();
    with_crew(rt, workers, dispatches)
}
