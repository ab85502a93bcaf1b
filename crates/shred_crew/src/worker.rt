//! What a worker does at its line.
ghost use Rattle.std.specs.Prelude.{◌≡◌, None, Some};
ghost use Rattle.std.specs.Arc.{arc_value};
ghost use Rattle.crossbeam_queue.specs.Passes.{view, IsPassOf};
ghost use Rattle.shred_crew.specs.Lines.{IsDone, IsLine};
ghost use Rattle.shred_crew.specs.declared.line.Errand.{Errand};
ghost use Rattle.shred_crew.specs.declared.line.Hand.TheVariants.{Caller, Worker};

use crate::Load;
use crate::line::{Answered, Grip, Line, Packet, Taken};
use crate::load::work_list;
use crossbeam_utils::sync::{Parker, Unparker};
use std::alloc::Global;
use std::sync::atomic::{AtomicBool, Ordering};
use std::sync::{Arc, OnceLock, Wait};

/// Puts an answer on the line.
fn answer<C, T: Load<C>, R: Wait>(rt: &R, line: &Line<C, T>, grip: &mut Grip<C, T>, row: Vec<T>)
    requires line { IsLine line.now grip.old }
    requires done { (errand : Errand _ _) × (view grip.old ≡ Worker (Some errand)) × IsDone T.does errand row }
    ensures line { IsLine line.now grip.new }
    ensures free { view grip.new ≡ Worker None }
{
    match line.push_as::<Answered, R>(rt, grip, Packet::Answer(row)) {
        Ok(()) => {}
        Err(_) => unreachable!(),
    }
}

/// What a worker has beside its line.
#[derive(Drop)]
pub(crate) struct Calls {
    /// By which it is called.
    pub(crate) called: Parker<Global>,
    /// By which it calls the worker before it, if there is one.
    pub(crate) before: Option<Unparker<Global>>,
    /// By which it calls the caller.
    pub(crate) caller: Unparker<Global>,
    /// Whether rows may lie on lines.
    pub(crate) open: Arc<AtomicBool>,
}

/// Calls the worker before, if there is one.
fn pass_on(before: &Option<Unparker<Global>>) {
    if let Some(before) = before {
        before.unpark();
    }
}

/// Works on what was asked for, if something was, and answers; tells whether something lies on the line for the caller. The
/// worker before is called first, where its row may lie on its line: rows were laid there in the order of the workers.
fn serve_once<C: Drop, T: Load<C> + Drop, R: AllocGlobal + Wait>(
    rt: &R,
    line: &Line<C, T>,
    grip: &mut Grip<C, T>,
    calls: &Calls,
) -> bool
    requires line { IsLine line.now grip.old }
    requires free { view grip.old ≡ Worker None }
    ensures line { IsLine line.now grip.new }
    ensures free { view grip.new ≡ Worker None }
{
    match line.try_pop_as::<Taken>(grip) {
        Some(Packet::Ask(shared, row)) => {
            pass_on(&calls.before);
            let mut row = row;
            work_list(rt, &*shared, &mut row);
            drop(shared);
            answer(rt, line, grip, row);
            true
        }
        Some(Packet::Answer(row)) => {
            answer(rt, line, grip, row);
            true
        }
        None => {
            if calls.open.load(Ordering::Acquire) {
                pass_on(&calls.before);
            }
            false
        }
    }
}

/// What a worker does: each time that it is called it works on what was asked for, until all is over.
pub(crate) fn serve<C: Drop, T: Load<C> + Drop, R: AllocGlobal + Wait>(
    rt: &R,
    line: Arc<Line<C, T>>,
    grip: Grip<C, T>,
    over: &OnceLock<()>,
    calls: Calls,
)
    requires line { IsLine (arc_value line) grip }
    requires free { view grip ≡ Worker None }
{
    let mut grip = grip;
    for _ in rt.forever() {
        calls.called.park(rt);
        if over.get().is_some() {
            return;
        }
        if serve_once(rt, &*line, &mut grip, &calls) {
            calls.caller.unpark();
        }
    }
}
