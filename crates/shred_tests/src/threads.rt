//! What threads leave in cells: writers of several threads add up, and readers of two stand beside each other.
use crate::values::{Number, Value};
use shred::{SharedWorld, TrustCell};
use std::alloc::{AllocError, Global};
use std::sync::Wait;
use std::sync::atomic::AtomicU64;
use std::sync::atomic::Ordering::SeqCst;
use std::thread;
use std::thread::Threads;

const ROUNDS: u64 = 1_000;

/// How often a reader looks for the other one at most.
const LOOKS: u64 = 1_000_000_000;

/// What threads add to.
trait Tally {
    /// Adds 1, unless it is lent.
    fn adds(&self, rt: &impl Wait) -> bool;

    /// Whether a writer is seen at work.
    fn is_torn(&self, rt: &impl Wait) -> bool;
}

/// Two numbers, which are the same unless a writer is at work.
impl Tally for TrustCell<(u64, u64)> {
    fn adds(&self, rt: &impl Wait) -> bool {
        match self.try_borrow_mut(rt) {
            Ok(mut both) => {
                both.0 = both.0.wrapping_add(1);
                thread::yield_now();
                both.1 = both.1.wrapping_add(1);
                true
            }
            Err(_) => false,
        }
    }

    fn is_torn(&self, rt: &impl Wait) -> bool {
        match self.try_borrow(rt) {
            Ok(both) => both.0 != both.1,
            Err(_) => false,
        }
    }
}

/// The number.
impl Tally for SharedWorld<Value> {
    fn adds(&self, rt: &impl Wait) -> bool {
        match self.fetch_mut::<Number>(rt) {
            Ok(mut number) => {
                number.0 = number.0.wrapping_add(1);
                true
            }
            Err(_) => false,
        }
    }

    fn is_torn(&self, _rt: &impl Wait) -> bool {
        false
    }
}

/// Adds often, each time until it isn't lent.
fn add_often<T: Tally>(rt: &impl Wait, tally: &T) {
    for _ in 0..ROUNDS {
        for _ in rt.forever() {
            if tally.adds(rt) {
                break;
            }
            thread::yield_now();
        }
    }
}

/// Counts how often a writer is seen at work.
fn look_often<T: Tally>(rt: &impl Wait, tally: &T, torn: &AtomicU64) {
    for _ in 0..ROUNDS {
        if tally.is_torn(rt) {
            torn.fetch_add(1, SeqCst);
        }
    }
}

/// Lets threads add, each beside one that looks, and tells how often a writer was seen at work.
fn add_in_threads<R: Threads + Wait + Sync, T: Tally + Sync>(
    rt: &R,
    workers: u64,
    tally: &T,
) -> u64 {
    let torn = AtomicU64::new(0);
    let seen = &torn;
    thread::scope(thread::scope_env(), rt, |scope| {
        for _ in 0..workers {
            if scope.spawn(move || add_often(rt, tally)).is_err() {
                add_often(rt, tally);
            }
            let _ = scope.spawn(move || look_often(rt, tally, seen)).is_ok();
        }
    });
    torn.load(SeqCst)
}

/// What threads leave that add to a cell, and how often a writer was seen at work.
fn sum_of_threads<R: Threads + Wait + Sync>(rt: &R, workers: u64) -> (Option<(u64, u64)>, u64) {
    let cell = TrustCell::new((0u64, 0u64));
    let torn = add_in_threads(rt, workers, &cell);
    (cell.into_inner().ok(), torn)
}

/// Writers of several threads each write alone, and no reader sees one at work.
#[test]
fn a_writer_is_alone(rt: HostRuntime) {
    for workers in [1, 2, 8] {
        let sum = workers * ROUNDS;
        assert_eq!(rt;
            sum_of_threads(&rt, workers),
            (Some((sum, sum)), 0),
            "{workers} threads"
        );
    }
}

/// The number that threads leave which add to it; none where it is still lent.
fn number_of_threads<R: Threads + Wait + Sync>(
    rt: &R,
    alloc: Global,
    workers: u64,
) -> Result<Option<u64>, AllocError> {
    let mut world: SharedWorld<Value> = SharedWorld::empty(alloc);
    world.insert(Number(0))?;
    let _ = add_in_threads(rt, workers, &world);
    match world.fetch::<Number>(rt) {
        Ok(number) => Ok(Some(number.0)),
        Err(_) => Ok(None),
    }
}

/// Writers of several threads lose nothing.
#[test]
fn writers_of_threads_add_up(rt: HostRuntime) {
    for workers in [2, 8] {
        let number = number_of_threads(&rt, rt.alloc(), workers);
        assert_eq!(rt; number, Ok(Some(workers * ROUNDS)), "{workers} threads");
    }
}

/// Borrows for reading and, while it does, sets its own flag and looks for the other's.
fn stands_beside(
    rt: &impl Wait,
    cell: &TrustCell<u64>,
    own: &AtomicU64,
    other: &AtomicU64,
) -> bool {
    let Ok(lent) = cell.try_borrow(rt) else {
        return false;
    };
    own.store(*lent, SeqCst);
    for _ in 0..LOOKS {
        if other.load(SeqCst) == *lent {
            return true;
        }
    }
    false
}

/// How many of two threads' readers see the other's flag while they borrow.
fn readers_that_meet<R: Threads + Wait + Sync>(rt: &R) -> u64 {
    let cell = TrustCell::new(1u64);
    let flags = (AtomicU64::new(0), AtomicU64::new(0));
    let met = AtomicU64::new(0);
    let (shared, left, right, count) = (&cell, &flags.0, &flags.1, &met);
    thread::scope(thread::scope_env(), rt, |scope| {
        let beside = move || {
            if stands_beside(rt, shared, left, right) {
                count.fetch_add(1, SeqCst);
            }
        };
        if scope.spawn(beside).is_ok() && stands_beside(rt, shared, right, left) {
            count.fetch_add(1, SeqCst);
        }
    });
    met.load(SeqCst)
}

/// Readers of two threads stand beside each other.
#[test]
fn readers_stand_together(rt: HostRuntime) {
    assert_eq!(rt; readers_that_meet(&rt), 2);
}

/// How often a thread reads.
const READS: u64 = 50_000;

/// Reads often, and counts how often it is refused.
fn read_often(rt: &impl Wait, cell: &TrustCell<u64>, refused: &AtomicU64) {
    for _ in 0..READS {
        if cell.try_borrow(rt).is_err() {
            refused.fetch_add(1, SeqCst);
        }
    }
}

/// How often readers of some threads are refused, beside whom nobody writes.
fn refused_readers<R: Threads + Wait + Sync>(rt: &R, workers: u64) -> u64 {
    let cell = TrustCell::new(1u64);
    let count = AtomicU64::new(0);
    let (shared, refused) = (&cell, &count);
    thread::scope(thread::scope_env(), rt, |scope| {
        for _ in 0..workers {
            if scope
                .spawn(move || read_often(rt, shared, refused))
                .is_err()
            {
                read_often(rt, shared, refused);
            }
        }
    });
    count.load(SeqCst)
}

// A borrow that is refused where another thread moved the cell meanwhile, in place of trying again, is caught here.
#[test]
fn readers_of_threads_are_never_refused(rt: HostRuntime) {
    for workers in [2, 4, 8] {
        assert_eq!(rt; refused_readers(&rt, workers), 0, "{workers} threads");
    }
}
