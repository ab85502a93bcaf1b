//! A crew: threads that stand by while something is done, and work on what they are asked to.
ghost use Rattle.std.specs.Prelude.{◌≡◌, length, vec_capacity};
ghost use Rattle.std.specs.List.{AllZip};
ghost use Rattle.std.specs.Arc.{arc_value};
ghost use Rattle.shred_crew.specs.Deals.{IsWorkedOn};
ghost use Rattle.shred_crew.specs.Lines.{AreWorkedOn, AreIdle};

use crate::deal::{deal_list, fill_slots};
use crate::gather::{empty_slots, gather_list};
use crate::load::work_row;
use crate::numbered::Numbered;
use crate::seat::{Seat, work_list_here, work_row_list};
use crate::{Load, Room};
use crossbeam_utils::sync::Parker;
use std::alloc::{AllocFailed, Global};
use std::sync::atomic::{AtomicBool, Ordering};
use std::sync::{Arc, Wait};
use std::thread;

/// Workers that stand by, each in a thread of its own. The caller's thread is one worker more.
#[derive(Drop)]
pub struct Crew<C, T: Load<C>> {
    pub(crate) seats: Vec<Seat<C, Numbered<T>>>,
    pub(crate) open: Arc<AtomicBool>,
    pub(crate) parked: Parker<Global>,
    ghost idle: { AreIdle seats.items },
}

/// What was shared, once no worker has it any more.
fn take_back<C: Drop, R: Wait>(rt: &R, shared: Arc<C>) -> C
    ensures { result ≡ arc_value shared }
{
    let mut shared = shared;
    for _ in rt.forever() {
        match Arc::try_unwrap(shared) {
            Ok(alone) => return alone,
            Err(back) => shared = back,
        }
        thread::yield_now();
    }
    unreachable!()
}

impl<C: Drop, T: Load<C> + Drop> Crew<C, T> {
    /// Works on each load of some rows, on the workers' threads and the caller's.
    fn work_dealt<R: AllocGlobal + Wait>(
        &mut self,
        rt: &R,
        shared: C,
        rows: &mut Vec<Vec<Numbered<T>>>,
    ) -> C
        ensures shared { result ≡ shared }
        ensures works { AreWorkedOn (IsWorkedOn (T.does shared)) rows.old.items rows.new.items }
    {
        match Arc::new(rt.alloc(), shared) {
            Ok(shared) => {
                self.open.store(true, Ordering::Release);
                work_row_list(rt, &shared, &mut self.seats, rows, &self.parked);
                self.open.store(false, Ordering::Release);
                take_back(rt, shared)
            }
            Err(AllocFailed { value }) => {
                work_list_here(rt, &value, rows);
                value
            }
        }
    }

    /// Works on each load, over what all workers share, which is handed back.
    ///
    /// Each worker is asked for its share, by the room; the caller's thread works on the last one, and on what no worker has begun by
    /// then. It waits until all is done, and takes no memory but for what is shared; where that is wanting it does all itself.
    pub fn work<R: AllocGlobal + Wait>(
        &mut self,
        rt: &R,
        shared: C,
        room: &mut Room<T>,
        loads: &mut Vec<T>,
    ) -> C
        requires { room.old.count ≡ length loads.old.items }
        ensures shared { result ≡ shared }
        ensures works { AllZip (T.does shared) loads.old.items loads.new.items }
        ensures capacity { vec_capacity loads.new ≡ vec_capacity loads.old }
        ensures room { room.new ≡ room.old }
    {
        if room.shares.len() < 2 || self.seats.is_empty() {
            work_row(rt, &shared, loads.as_mut_slice());
            return shared;
        }
        fill_slots(loads, &mut room.slots);
        deal_list(&mut room.slots, &room.shares, &mut room.rows);
        let shared = self.work_dealt(rt, shared, &mut room.rows);
        gather_list(&mut room.rows, &mut room.slots);
        empty_slots(&mut room.slots, loads);
        shared
    }
}
