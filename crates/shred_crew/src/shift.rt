//! Shifts: what is done while a crew stands by.
ghost use Rattle.std.specs.Prelude.{◌≡◌, None, IfOk, IfErr};
ghost use Rattle.std.specs.Arc.{arc_value};
ghost use Rattle.crossbeam_queue.specs.Passes.{view};
ghost use Rattle.shred_crew.specs.Lines.{hand_of, IsLine};
ghost use Rattle.shred_crew.specs.declared.line.Hand.TheVariants.{Caller, Worker};

use crate::line::{Grip, Line, Roles};
use crate::numbered::Numbered;
use crate::seat::Seat;
use crate::worker::{Calls, serve};
use crate::{Crew, Load};
use crossbeam_utils::sync::{Parker, Unparker};
use std::alloc::{AllocError, Global};
use std::sync::atomic::AtomicBool;
use std::sync::{Arc, OnceLock, Wait};
use std::thread;
use std::thread::{Scope, Threads};

/// What is done while a crew stands by.
pub trait Shift<C, T: Load<C>>: Sized {
    /// When it may be done.
    ghost may: { Self → Type 0 };

    /// What may come of it.
    ghost does: { Self → Self → Type 0 };

    /// Does it.
    fn run<R: AllocGlobal + Wait>(&mut self, rt: &R, crew: &mut Crew<C, T>)
        requires { may self.old }
        ensures { does self.old self.new };
}

/// Why no crew stood by.
#[derive(Clone, Copy, Debug, PartialEq, Eq)]
pub enum Want {
    /// There was no memory for a worker.
    Memory,
    /// A thread couldn't be started.
    Threads,
}

/// What was to be done, as it was, and why nothing was.
#[derive(Drop)]
pub struct Unmanned<S> {
    /// Why.
    pub want: Want,
    /// What was to be done.
    pub shift: S,
}

/// A place at a line for a worker, and one for the caller.
#[derive(Drop)]
struct Post<C, T: Load<C>> {
    line: Arc<Line<C, T>>,
    grip: Grip<C, T>,
    call: Unparker<Global>,
    other_end: Arc<Line<C, T>>,
    other_grip: Grip<C, T>,
    called: Parker<Global>,
}

/// A line with its two ends.
///
/// Errors: want of memory.
fn make_post<C: Drop, T: Load<C> + Drop>(alloc: Global) -> Result<Post<C, T>, AllocError>
    ensures line { IfOk result (λ post. IsLine (arc_value post.line) post.grip) }
    ensures caller { IfOk result (λ post. hand_of post.grip ≡ Caller None) }
    ensures other_line { IfOk result (λ post. IsLine (arc_value post.other_end) post.other_grip) }
    ensures worker { IfOk result (λ post. hand_of post.other_grip ≡ Worker None) }
{
    let (line, mut grip) = Line::<C, T>::ruled(alloc, 1)?;
    let other_grip = line.another::<Roles>(&mut grip);
    let line = Arc::new(alloc, line)?;
    let other_end = Arc::try_clone(&line)?;
    let called = Parker::new(alloc)?;
    let call = called.unparker().clone()?;
    Ok(Post {
        line,
        grip,
        call,
        other_end,
        other_grip,
        called,
    })
}

/// What calls the worker of the last seat, if there is a seat.
///
/// Errors: want of memory.
fn call_of_last<C, T: Load<C>>(
    seats: &[Seat<C, T>],
) -> Result<Option<Unparker<Global>>, AllocError> {
    match seats.last() {
        Some(seat) => Ok(Some(seat.call.clone()?)),
        None => Ok(None),
    }
}

/// Starts a worker's thread.
///
/// Errors: want of memory or of a thread; the crew is as it was.
fn engage<
    's,
    'g: 's,
    E: 's,
    C: Sync + Send + Drop + 'g,
    T: Load<C> + Send + Drop + 'g,
    R: AllocGlobal + Threads + Wait + Sync + 'g,
>(
    scope: &Scope<'s, E>,
    rt: &'g R,
    over: &'g OnceLock<()>,
    crew: &mut Crew<C, T>,
) -> Result<(), Want> {
    let Ok(post) = make_post::<C, Numbered<T>>(rt.alloc()) else {
        return Err(Want::Memory);
    };
    let Ok(before) = call_of_last(&crew.seats) else {
        return Err(Want::Memory);
    };
    let Ok(caller) = crew.parked.unparker().clone() else {
        return Err(Want::Memory);
    };
    let Ok(open) = Arc::try_clone(&crew.open) else {
        return Err(Want::Memory);
    };
    let Ok(()) = crew.seats.reserve(1) else {
        return Err(Want::Memory);
    };
    let Post {
        line,
        grip,
        call,
        other_end,
        other_grip,
        called,
    } = post;
    let calls = Calls {
        called,
        before,
        caller,
        open,
    };
    let started = scope.spawn(
        move ||
            requires { IsLine (arc_value other_end) other_grip × (hand_of other_grip ≡ Worker None) }
        { serve(rt, other_end, other_grip, over, calls) },
    );
    if started.is_err() {
        return Err(Want::Threads);
    }
    crew.seats.push_reserved(Seat { line, grip, call });
    Ok(())
}

/// Starts the threads of some workers.
///
/// Errors: want of memory or of a thread, after some have started.
fn engage_each<
    's,
    'g: 's,
    E: 's,
    C: Sync + Send + Drop + 'g,
    T: Load<C> + Send + Drop + 'g,
    R: AllocGlobal + Threads + Wait + Sync + 'g,
>(
    scope: &Scope<'s, E>,
    rt: &'g R,
    over: &'g OnceLock<()>,
    count: usize,
    crew: &mut Crew<C, T>,
) -> Result<(), Want> {
    for _worker in 0..count {
        engage(scope, rt, over, crew)?;
    }
    Ok(())
}

/// Tells the workers that all is over.
fn dismiss<C, T: Load<C>, R: Wait>(rt: &R, over: &OnceLock<()>, crew: &Crew<C, T>) {
    let _ = over.set(rt, ());
    for seat in crew.seats.iter() {
        seat.call.unpark();
    }
}

/// Does what is to be done, once all workers have started.
fn man<
    's,
    'g: 's,
    E: 's,
    C: Sync + Send + Drop + 'g,
    T: Load<C> + Send + Drop + 'g,
    S: Shift<C, T> + Drop,
    R: AllocGlobal + Threads + Wait + Sync + 'g,
>(
    scope: &Scope<'s, E>,
    rt: &'g R,
    over: &'g OnceLock<()>,
    count: usize,
    shift: S,
) -> Result<S, Unmanned<S>>
    requires { S.may shift }
    ensures ok { IfOk result (λ after. S.does shift after) }
    ensures err { IfErr result (λ unmanned. unmanned.shift ≡ shift) }
{
    let Ok(parked) = Parker::new(rt.alloc()) else {
        return Err(Unmanned {
            want: Want::Memory,
            shift,
        });
    };
    let Ok(open) = Arc::new(rt.alloc(), AtomicBool::new(false)) else {
        return Err(Unmanned {
            want: Want::Memory,
            shift,
        });
    };
    let mut crew = Crew {
        seats: Vec::new(rt.alloc()),
        open,
        parked,
    };
    let engaged = engage_each(scope, rt, over, count, &mut crew);
    let mut shift = shift;
    if engaged.is_ok() {
        shift.run(rt, &mut crew);
    }
    dismiss(rt, over, &crew);
    match engaged {
        Ok(()) => Ok(shift),
        Err(want) => Err(Unmanned { want, shift }),
    }
}

/// Does what is to be done, in a scope of its own, which ends once all workers have.
fn man_scope<
    'g,
    C: Sync + Send + Drop + 'g,
    T: Load<C> + Send + Drop + 'g,
    S: Shift<C, T> + Drop,
    R: AllocGlobal + Threads + Wait + Sync,
>(rt: &'g R, over: &'g OnceLock<()>, count: usize, shift: S) -> Result<S, Unmanned<S>>
    requires { S.may shift }
    ensures ok { IfOk result (λ after. S.does shift after) }
    ensures err { IfErr result (λ unmanned. unmanned.shift ≡ shift) }
{
    thread::scope(
        thread::scope_env(),
        rt,
        move |scope| -> Result<S, Unmanned<S>>
            requires { S.may shift }
            ensures ok { IfOk result (λ after. S.does shift after) }
            ensures err { IfErr result (λ unmanned. unmanned.shift ≡ shift) }
        { man(scope, rt, over, count, shift) },
    )
}

/// Does what is to be done while so many workers stand by, of which the caller's thread is one: each other has a thread of its own, which
/// is started before anything is done and has ended when the call returns. Asked for is that it may be done.
///
/// Errors: want of memory, or a thread that can't be started; nothing was done, and what was to be done comes back as it was.
pub fn with_crew<
    C: Sync + Send + Drop,
    T: Load<C> + Send + Drop,
    S: Shift<C, T> + Drop,
    R: AllocGlobal + Threads + Wait + Sync,
>(rt: &R, workers: usize, shift: S) -> Result<S, Unmanned<S>>
    requires { S.may shift }
    ensures ok { IfOk result (λ after. S.does shift after) }
    ensures err { IfErr result (λ unmanned. unmanned.shift ≡ shift) }
{
    let over = OnceLock::new();
    man_scope(rt, &over, workers.saturating_sub(1), shift)
}
