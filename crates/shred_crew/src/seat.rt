//! Seats from which the caller asks the workers.
ghost use Rattle.std.specs.Prelude.{◌≡◌, None, Some, IsSome, IfSome, IfNone};
ghost use Rattle.std.specs.Arc.{arc_value};
ghost use Rattle.shred_crew.specs.Lines.{IsDone, AreWorkedOn, AreIdle};

use crate::Load;
use crate::line::{Asked, Grip, Line, Packet, Settled};
use crate::load::work_list;
use crossbeam_utils::sync::{Parker, Unparker};
use std::alloc::Global;
use std::marker::Model;
use std::mem;
use std::sync::{Arc, Wait};

/// The caller's end of a line, and what calls the worker.
#[derive(Drop)]
pub(crate) struct Seat<C, T: Load<C>> {
    pub(crate) line: Arc<Line<C, T>>,
    pub(crate) grip: Grip<C, T>,
    pub(crate) call: Unparker<Global>,
}

impl<C, T: Load<C>> Model for Seat<C, T> {
    ghost use Rattle.std.specs.Prelude.{◌≡◌, Option};
    ghost use Rattle.std.specs.Arc.{arc_value};
    ghost use Rattle.shred_crew.specs.Lines.{asked_by, hand_of, IsLine};
    ghost use Rattle.shred_crew.specs.declared.line.Errand.{Errand};
    ghost use Rattle.shred_crew.specs.declared.line.Hand.TheVariants.{Caller};

    ghost Value = { Option (Errand C T) };

    ghost view = { λ seat. asked_by (hand_of seat.grip) };

    ghost invariant = { λ seat. IsLine (arc_value seat.line) seat.grip
        × (hand_of seat.grip ≡ Caller (asked_by (hand_of seat.grip))) };
}

impl<C: Drop, T: Load<C> + Drop> Seat<C, T> {
    /// Asks the worker to work on a row, over what all share, without calling it.
    fn ask<R: Wait>(&mut self, rt: &R, shared: Arc<C>, row: Vec<T>)
        requires { self.old ≡ None }
        ensures { self.new ≡ Some (record { shared = arc_value shared; row = row }) }
    {
        match self
            .line
            .push_as::<Asked, R>(rt, &mut self.grip, Packet::Ask(shared, row))
        {
            Ok(()) => {}
            Err(_) => unreachable!(),
        }
    }

    /// The row that was asked for, if it lies on the line: as the worker left it, or worked on here, where no worker has taken it yet.
    fn take<R: AllocGlobal>(&mut self, rt: &R) -> Option<Vec<T>>
        requires { IsSome self.old }
        ensures some { IfSome result (λ row. (self.new ≡ None) × IfSome self.old (λ errand. IsDone T.does errand row)) }
        ensures none { IfNone result (self.new ≡ self.old) }
    {
        match self.line.try_pop_as::<Settled>(&mut self.grip) {
            Some(Packet::Ask(shared, row)) => {
                let mut row = row;
                work_list(rt, &*shared, &mut row);
                drop(shared);
                Some(row)
            }
            Some(Packet::Answer(row)) => Some(row),
            None => None,
        }
    }

    /// Waits for the row that was asked for, once each load of it was worked on.
    fn settle<R: AllocGlobal + Wait>(&mut self, rt: &R, parked: &Parker<Global>) -> Vec<T>
        requires { IsSome self.old }
        ensures idle { self.new ≡ None }
        ensures works { IfSome self.old (λ errand. IsDone T.does errand result) }
    {
        for _ in rt.forever() {
            if let Some(row) = self.take(rt) {
                return row;
            }
            parked.park(rt);
        }
        unreachable!()
    }
}

/// Works on each load of some rows on the caller's thread.
fn work_here<C, T: Load<C>, H: AllocGlobal>(rt: &H, shared: &C, rows: &mut [Vec<T>])
    ensures { AreWorkedOn (T.does shared.now) rows.old rows.new }
{
    let Some((row, later)) = rows.split_first_mut() else {
        return;
    };
    work_list(rt, shared, row);
    work_here(rt, shared, later);
}

/// Works on each load of some rows: a row for each worker, and those for which there is none on the caller's thread. Of
/// the workers that are asked the last one is called, who calls the one before it, and so on.
fn work_rows<C: Drop, T: Load<C> + Drop, R: AllocGlobal + Wait>(
    rt: &R,
    shared: &Arc<C>,
    seats: &mut [Seat<C, T>],
    rows: &mut [Vec<T>],
    parked: &Parker<Global>,
)
    requires idle { AreIdle seats.old }
    ensures works { AreWorkedOn (T.does (arc_value shared.now)) rows.old rows.new }
    ensures idle { AreIdle seats.new }
{
    let Some((seat, others)) = seats.split_first_mut() else {
        work_here(rt, &**shared, rows);
        return;
    };
    let Some((row, later)) = rows.split_first_mut() else {
        return;
    };
    let Ok(theirs) = Arc::try_clone(shared) else {
        work_list(rt, &**shared, row);
        work_rows(rt, shared, others, later, parked);
        return;
    };
    let load = mem::replace(row, Vec::new(rt.alloc()));
    seat.ask(rt, theirs, load);
    if others.is_empty() || later.is_empty() {
        seat.call.unpark();
    }
    work_rows(rt, shared, others, later, parked);
    *row = seat.settle(rt, parked);
}

/// Works on each load of a list of rows on the caller's thread.
pub(crate) fn work_list_here<C, T: Load<C>, H: AllocGlobal>(
    rt: &H,
    shared: &C,
    rows: &mut Vec<Vec<T>>,
)
    ensures { AreWorkedOn (T.does shared.now) rows.old.items rows.new.items }
{
    work_here(rt, shared, rows.as_mut_slice());
}

/// Works on each load of a list of rows, as `work_rows` does.
pub(crate) fn work_row_list<C: Drop, T: Load<C> + Drop, R: AllocGlobal + Wait>(
    rt: &R,
    shared: &Arc<C>,
    seats: &mut Vec<Seat<C, T>>,
    rows: &mut Vec<Vec<T>>,
    parked: &Parker<Global>,
)
    requires idle { AreIdle seats.old.items }
    ensures works { AreWorkedOn (T.does (arc_value shared.now)) rows.old.items rows.new.items }
    ensures idle { AreIdle seats.new.items }
{
    work_rows(
        rt,
        shared,
        seats.as_mut_slice(),
        rows.as_mut_slice(),
        parked,
    );
}
