//! A run of stages in a thread of its own.
ghost use Rattle.std.specs.Prelude.{◌≡◌, IfOk, IfErr};
ghost use Rattle.std.specs.Thread.{IsSend, IsSync};
ghost use Rattle.shred_stages.specs.Errands.{Leaves, HandsBack};

use crate::{Done, Errand, System, Unstarted};
use std::marker::Model;
use std::snapshot::Snapshot;
use std::sync::atomic::{AtomicBool, Ordering};
use std::sync::{Arc, Wait};
use std::thread::{Promise, PromisedHandle, Threads, spawn_with};

/// What the thread of a run promises, given what it was started with.
#[derive(Drop)]
struct Pledge<V, S> {
    errand: Snapshot<Errand<V, S>>,
}

impl<V, S: System<V>> Promise<Done<V, S>> for Pledge<V, S> {
    ghost use Rattle.shred_stages.specs.Errands.{Leaves};

    ghost kept_by = { λ pledge done. Leaves S.meets pledge.errand.value done.result done.errand };
}

/// A run of stages in a thread of its own. Contracts see what it was started with.
///
/// Dropped, it lets the thread run on, and what that leaves is let go.
#[derive(Drop)]
pub struct Away<V, S: System<V>> {
    handle: PromisedHandle<Done<V, S>, Pledge<V, S>>,
    over: Arc<AtomicBool>,
}

impl<V, S: System<V>> Model for Away<V, S> {
    ghost use Rattle.shred_stages.specs.declared.errand.Errand.{Errand as Begun};
    ghost use Rattle.shred_stages.specs.Errands.{errand_code};

    ghost Value = { Begun V S };

    ghost coded = { errand_code V.code S.code };

    ghost view = { λ away. away.handle.promise.errand.value };
}

/// What the thread does: it runs the stages, and at last raises the flag.
fn serve<V: Send + Sync + Drop, S: System<V> + Send + Drop, R: AllocGlobal + Threads + Wait + Sync>(
    rt: &R,
    mut errand: Errand<V, S>,
    over: Arc<AtomicBool>,
) -> Done<V, S>
    ensures { Leaves S.meets errand result.result result.errand }
{
    let result = errand.stages.execute(rt, errand.workers, &mut errand.world);
    over.store(true, Ordering::SeqCst);
    Done { errand, result }
}

impl<V: Send + Sync + Drop + 'static, S: System<V> + Send + Drop + 'static> Away<V, S> {
    /// Starts a run of the stages over the world in a thread of its own, as `StagesBuilder::execute` runs them.
    ///
    /// Errors: `Memory`, with all that was given; `Thread`, where the thread couldn't be started: all of it is let go.
    pub fn start<R: AllocGlobal + Threads + Wait + Sync + Send + Copy + 'static>(
        rt: R,
        errand: Errand<V, S>,
    ) -> Result<Away<V, S>, Unstarted<V, S>>
        ensures begun { IfOk result (λ away. away ≡ errand) }
        ensures handed_back { IfErr result (λ refused. HandsBack errand refused) }
    {
        let Ok(over) = Arc::new(rt.alloc(), AtomicBool::new(false)) else {
            return Err(Unstarted::Memory(errand));
        };
        let Ok(theirs) = Arc::try_clone(&over) else {
            return Err(Unstarted::Memory(errand));
        };
        let pledge = Pledge {
            errand: Snapshot::of(&errand),
        };
        match spawn_with(
            &rt,
            pledge,
            move || -> Done<V, S>
                requires { IsSync R.row × IsSend V.row × IsSync V.row × IsSend S.row }
                ensures { Leaves S.meets errand result.result result.errand }
            { serve(&rt, errand, theirs) },
        ) {
            Ok(handle) => Ok(Away { handle, over }),
            Err(_) => Err(Unstarted::Thread),
        }
    }

    /// Whether the run has come to its end, so that `join` finds it there.
    ///
    /// Nothing is proved of the answer.
    pub fn is_over(&self) -> bool {
        self.over.load(Ordering::SeqCst)
    }

    /// Waits for the run, and gives what it left.
    pub fn join<R: Threads + Wait>(self, rt: &R) -> Done<V, S>
        ensures { Leaves S.meets self result.result result.errand }
    {
        let Away { handle, over } = self;
        drop(over);
        handle.join(rt)
    }
}
