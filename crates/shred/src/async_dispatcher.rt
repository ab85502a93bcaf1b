//! Dispatches that run in a thread of their own while the caller goes on.
ghost use Rattle.std.specs.Prelude.{◌≡◌, true, is_ok, IfOk};
ghost use Rattle.shred.specs.Dispatching.{DispatchesLocals};
ghost use Rattle.shred.specs.Asyncs.{here, Tells, TellsMemory, IsAway, IsAtHand, Does, Ends, Joins, Finishes};
ghost use Rattle.shred.specs.Asyncs.{JoinsFirst, StartsFrom, SetsUpOwned};

use crate::{AsyncError, DispatchError, Dispatcher, RunNow, System};
use shred_stages::{Away, Done, Errand, Unstarted};
use shred_world::World;
use std::alloc::AllocError;
use std::marker::Model;
use std::mem;
use std::sync::Wait;
use std::thread::Threads;

/// Where the systems and the world are.
#[derive(Drop)]
enum Place<V, S: System<V>, L> {
    /// At hand.
    Here(Dispatcher<V, S, L>, World<V>),
    /// In the thread of a dispatch; the local systems stay.
    Gone(Away<V, S>, Vec<L>),
    /// Let go with a thread that couldn't be started.
    Lost,
}

impl<V, S: System<V>, L> Place<V, S, L> {
    ghost use Rattle.std.specs.Borrow.{sem};
    ghost use Rattle.shred.specs.Places.{IsHere, IsWorldOf, lends_world_in};

    /// The world that is at hand, for writing.
    fn world_mut(&mut self) -> &mut World<V>
        requires at_hand { IsHere self.old }
        ensures* writes_back { sem 𝓛 (lends_world_in V.row S.row L.row S.System self.entry result) }
        ensures world { IsWorldOf result.now self.old }
    {
        match self {
            Place::Here(_, world) => world,
            Place::Gone(_, _) => unreachable!(),
            Place::Lost => unreachable!(),
        }
    }
}

/// A dispatcher that owns its world, and runs its staged systems in a thread of their own; its local systems run on the caller's
/// thread.
///
/// Dropped while a dispatch is under way, it lets the thread run on.
#[derive(Drop)]
pub struct AsyncDispatcher<V, S: System<V>, L> {
    place: Place<V, S, L>,
    /// The error that was lent last.
    told: AsyncError,
}

impl<V, S: System<V>, L> Model for AsyncDispatcher<V, S, L> {
    ghost use Rattle.shred.specs.Asyncs.{Owned, owned_code};
    ghost use Rattle.shred.specs.Places.{owned_in};

    ghost Value = { Owned V S L };

    ghost coded = { owned_code V.code S.code L.code };

    ghost view = { λ dispatcher. owned_in dispatcher.place };
}

/// How a dispatch that was waited for ended.
fn told(outcome: Result<(), DispatchError>) -> Result<(), AsyncError>
    ensures { Tells outcome result }
{
    match outcome {
        Ok(()) => Ok(()),
        Err(error) => Err(AsyncError::Refused(error)),
    }
}

/// Whether a setup found memory.
fn told_memory(outcome: Result<(), AllocError>) -> Result<(), AsyncError>
    ensures { TellsMemory (is_ok outcome) result }
{
    match outcome {
        Ok(()) => Ok(()),
        Err(_) => Err(AsyncError::Memory),
    }
}

impl<V, S: System<V>, L> AsyncDispatcher<V, S, L> {
    /// The dispatcher that owns a world.
    pub(crate) fn of(dispatcher: Dispatcher<V, S, L>, world: World<V>) -> AsyncDispatcher<V, S, L>
        ensures { result ≡ here dispatcher world }
    {
        AsyncDispatcher {
            place: Place::Here(dispatcher, world),
            told: AsyncError::Failed,
        }
    }
}

impl<
    V: Send + Sync + Drop + 'static,
    S: System<V> + Send + Drop + 'static,
    L: RunNow<V> + Drop,
> AsyncDispatcher<V, S, L> {
    ghost use Rattle.std.specs.Borrow.{sem};
    ghost use Rattle.shred.specs.Lendings.{HasWorld, IsLent, lends_world, lends_for_reading, lends_for_writing};

    /// Whether a dispatch is under way and has not come to its end.
    ///
    /// When the answer turns from `true` to `false` is not proved.
    pub fn running(&self) -> bool
        ensures { result ≡ true → IsAway self.now }
    {
        match &self.place {
            Place::Gone(away, _) => !away.is_over(),
            Place::Here(_, _) => false,
            Place::Lost => false,
        }
    }

    /// Waits for the dispatch that is under way, if one is, and runs no local system.
    ///
    /// Errors: `Refused`, with how that dispatch ended; `Failed`, from when a thread couldn't be started on.
    pub fn wait_without_tl<R: Threads + Wait>(&mut self, rt: &R) -> Result<(), AsyncError>
        ensures joins { Joins S.meets L.meets self.old result self.new }
    {
        match mem::replace(&mut self.place, Place::Lost) {
            Place::Here(dispatcher, world) => {
                self.place = Place::Here(dispatcher, world);
                Ok(())
            }
            Place::Gone(away, locals) => {
                let Done { errand, result } = away.join(rt);
                let Errand {
                    stages,
                    workers,
                    world,
                } = errand;
                self.place = Place::Here(Dispatcher::of(stages, locals, workers), world);
                told(result)
            }
            Place::Lost => Err(AsyncError::Failed),
        }
    }

    /// Waits for the dispatch that is under way, if one is, and then runs the local systems on the caller's thread.
    ///
    /// Errors: `Refused`, with how that dispatch ended, after which no local system runs, or with the local system that refused;
    /// `Failed`, from when a thread couldn't be started on.
    pub fn wait<R: AllocGlobal + Threads + Wait>(&mut self, rt: &R) -> Result<(), AsyncError>
        ensures finishes { Finishes S.meets L.meets self.old result self.new }
    {
        match self.wait_without_tl(rt) {
            Ok(()) => self.run_locals(rt),
            Err(error) => Err(error),
        }
    }

    /// Runs the local systems over the world that is at hand.
    fn run_locals<H: AllocGlobal>(&mut self, rt: &H) -> Result<(), AsyncError>
        requires at_hand { IsAtHand self.old }
        ensures runs { Does (Ends (DispatchesLocals S.meets L.meets)) self.old result self.new }
    {
        match &mut self.place {
            Place::Here(dispatcher, world) => told(dispatcher.dispatch_thread_local(rt, world)),
            Place::Gone(_, _) => unreachable!(),
            Place::Lost => unreachable!(),
        }
    }

    /// Starts a run of the staged systems over the world that is at hand in a thread of its own.
    fn start<R: AllocGlobal + Threads + Wait + Sync + Send + Copy + 'static>(
        &mut self,
        rt: R,
    ) -> Result<(), AsyncError>
        requires at_hand { IsAtHand self.old }
        ensures starts { Does StartsFrom self.old result self.new }
    {
        match mem::replace(&mut self.place, Place::Lost) {
            Place::Here(dispatcher, world) => {
                let (stages, locals, workers) = dispatcher.into_parts();
                match Away::start(
                    rt,
                    Errand {
                        stages,
                        workers,
                        world,
                    },
                ) {
                    Ok(away) => {
                        self.place = Place::Gone(away, locals);
                        Ok(())
                    }
                    Err(
                        Unstarted::Memory(
                            Errand {
                                stages,
                                workers,
                                world,
                            },
                        ),
                    ) => {
                        self.place = Place::Here(Dispatcher::of(stages, locals, workers), world);
                        Err(AsyncError::Memory)
                    }
                    Err(Unstarted::Thread) => Err(AsyncError::Failed),
                }
            }
            Place::Gone(_, _) => unreachable!(),
            Place::Lost => unreachable!(),
        }
    }

    /// Starts a dispatch of the staged systems in a thread of its own, and goes on. No local system runs.
    ///
    /// A dispatch that is under way is waited for first.
    ///
    /// Errors: `Refused`, with how that one ended, and `Memory`: none is started, and dispatcher and world are at hand; `Failed`,
    /// where a thread can't be started, or one couldn't be before: systems and world are lost.
    pub fn dispatch<R: AllocGlobal + Threads + Wait + Sync + Send + Copy + 'static>(
        &mut self,
        rt: R,
    ) -> Result<(), AsyncError>
        ensures { JoinsFirst S.meets L.meets StartsFrom self.old result self.new }
    {
        match self.wait_without_tl(&rt) {
            Ok(()) => self.start(rt),
            Err(error) => Err(error),
        }
    }

    /// Sets the systems up over the world that is at hand.
    fn set_up(&mut self) -> Result<(), AsyncError>
        requires at_hand { IsAtHand self.old }
        ensures sets_up { Does (SetsUpOwned S.sets_up L.sets_up) self.old result self.new }
    {
        match &mut self.place {
            Place::Here(dispatcher, world) => told_memory(dispatcher.setup(world)),
            Place::Gone(_, _) => unreachable!(),
            Place::Lost => unreachable!(),
        }
    }

    /// Sets the systems up: the staged ones in the order in which they were added, and then the local ones.
    ///
    /// A dispatch that is under way is waited for first.
    ///
    /// Errors: as `wait_without_tl`, and no system is set up; `Memory`: the systems before the refused one are set up.
    pub fn setup<R: Threads + Wait>(&mut self, rt: &R) -> Result<(), AsyncError>
        ensures { JoinsFirst S.meets L.meets (SetsUpOwned S.sets_up L.sets_up) self.old result self.new }
    {
        match self.wait_without_tl(rt) {
            Ok(()) => self.set_up(),
            Err(error) => Err(error),
        }
    }

    /// The world that is at hand.
    fn world_at_hand(&self) -> &World<V>
        requires at_hand { IsAtHand self.now }
        ensures { HasWorld self.now result.now }
    {
        match &self.place {
            Place::Here(_, world) => world,
            Place::Gone(_, _) => unreachable!(),
            Place::Lost => unreachable!(),
        }
    }

    /// The world that is at hand, for writing.
    fn world_at_hand_mut(&mut self) -> &mut World<V>
        requires at_hand { IsAtHand self.old }
        ensures* writes_back { sem 𝓛 (lends_world V.row S.row L.row S.System self.entry result) }
        ensures world { HasWorld self.old result.now }
    {
        self.place.world_mut()
    }

    /// The world. A dispatch that is under way is waited for first, and no local system runs.
    ///
    /// Errors, which are lent too: as `wait_without_tl`; after `Refused` the world is at hand, and the next call lends it.
    pub fn world<R: Threads + Wait>(&mut self, rt: &R) -> Result<&World<V>, &AsyncError>
        ensures* left { sem 𝓛 (lends_for_reading V.row S.row L.row S.System L.RunNow.meets self.entry result) }
        ensures world { IfOk result (λ world. IsLent S.meets L.meets self.old world.now) }
    {
        match self.wait_without_tl(rt) {
            Ok(()) => Ok(self.world_at_hand()),
            Err(error) => {
                self.told = error;
                Err(&self.told)
            }
        }
    }

    /// The world, for writing. A dispatch that is under way is waited for first, and no local system runs.
    ///
    /// Errors: as `wait_without_tl`; after `Refused` the world is at hand, and the next call lends it.
    pub fn world_mut<R: Threads + Wait>(&mut self, rt: &R) -> Result<&mut World<V>, AsyncError>
        ensures* writes_back { sem 𝓛 (lends_for_writing V.row S.row L.row S.System L.RunNow.meets self.entry result) }
        ensures world { IfOk result (λ world. IsLent S.meets L.meets self.old world.now) }
    {
        match self.wait_without_tl(rt) {
            Ok(()) => Ok(self.world_at_hand_mut()),
            Err(error) => Err(error),
        }
    }

    /// As `world`.
    pub fn res<R: Threads + Wait>(&mut self, rt: &R) -> Result<&World<V>, &AsyncError>
        ensures* left { sem 𝓛 (lends_for_reading V.row S.row L.row S.System L.RunNow.meets self.entry result) }
        ensures world { IfOk result (λ world. IsLent S.meets L.meets self.old world.now) }
    {
        self.world(rt)
    }

    /// As `world_mut`.
    pub fn mut_res<R: Threads + Wait>(&mut self, rt: &R) -> Result<&mut World<V>, AsyncError>
        ensures* writes_back { sem 𝓛 (lends_for_writing V.row S.row L.row S.System L.RunNow.meets self.entry result) }
        ensures world { IfOk result (λ world. IsLent S.meets L.meets self.old world.now) }
    {
        self.world_mut(rt)
    }
}
