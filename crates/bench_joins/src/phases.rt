//! Phases on threads: entities are created and deleted at random by two to eight seats, and every count has to be exact.
//!
//! The small runs are 100, and print how many were exact; the timed ones print what a creation and a deletion cost.

mod chance;
mod checks;
mod seat_times;
mod seats;
mod set_times;

use crate::phases::chance::Chance;
use crate::phases::checks::one_run;
use std::alloc::{AllocError, Global};
use std::io;
use std::sync::Wait;
use std::thread::Threads;
use std::time::Clock;

/// How many runs there are where nothing else is asked for.
const RUNS: u32 = 100;

/// In how many of so many runs all counts are exact.
fn exact_runs<R: Threads + Sync>(rt: &R, alloc: Global, runs: u32) -> Result<u32, AllocError> {
    let mut exact = 0u32;
    for run in 0..runs {
        if one_run(rt, alloc, Chance::new(run as u64))? {
            exact = exact.saturating_add(1);
        }
    }
    Ok(exact)
}

/// The line of so many runs.
pub fn counts<R: Print + Threads + Sync>(rt: &R, alloc: Global, runs: u32) -> io::Result<()> {
    match exact_runs(rt, alloc, runs) {
        Ok(exact) => println!(rt; "{exact} of {runs} runs ended with exact counts"),
        Err(_) => println!(rt; "no memory"),
    }
}

/// The line of 100 runs.
pub fn checksums<R: Print + Threads + Sync>(rt: &R, alloc: Global) -> io::Result<()> {
    counts(rt, alloc, RUNS)
}

/// The lines of times.
pub fn times<R: Clock + Print + Threads + Wait + Sync>(rt: &R, alloc: Global) -> io::Result<()> {
    seat_times::all(rt, alloc)?;
    set_times::all(rt, alloc)
}
