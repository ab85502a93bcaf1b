//! The sets of `hibitset`, by one worker and by the parallel driver.
//!
//! The small runs print checksums. The timed ones are of sets over up to 10,000,000 indices, and print the time of an operation, the
//! words that a walk reads for a member, and the ratio of several workers to one.
mod alone;
mod parallel;
mod shape;
mod taken;
mod work;

use std::alloc::Global;
use std::io;
use std::thread::Threads;
use std::time::Clock;

/// The lines of checksums.
///
/// Errors: those of printing, and want of memory.
pub fn checksums<R: Print + Threads + Sync>(rt: &R, alloc: Global) -> io::Result<()> {
    alone::checksums(rt, alloc)?;
    parallel::checksums(rt, alloc)
}

/// The lines of times.
///
/// Errors: those of printing and of the clock, and want of memory.
pub fn times<R: Clock + Print + Threads + Sync>(rt: &R, alloc: Global) -> io::Result<()> {
    alone::times(rt, alloc)?;
    parallel::times(rt, alloc)
}
