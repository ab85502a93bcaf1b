//! Entities, storages, joins and parallel collects of `specs`.
//!
//! The small runs print checksums. The timed ones are of up to 1,000,000 entities, and print the time of an operation or of an item of
//! a join.
mod collects;
mod entities;
mod joins;
mod kinds;
mod storages;

use std::alloc::Global;
use std::io;
use std::thread::Threads;
use std::time::Clock;

/// The lines of checksums.
///
/// Errors: those of printing, and want of memory.
pub fn checksums<R: Print + Threads + Sync>(rt: &R, alloc: Global) -> io::Result<()> {
    entities::checksums(rt, alloc)?;
    storages::checksums(rt, alloc)?;
    joins::checksums(rt, alloc)?;
    collects::checksums(rt, alloc)
}

/// The lines of times.
///
/// Errors: those of printing and of the clock, and want of memory.
pub fn times<R: Clock + Print + Threads + Sync>(rt: &R, alloc: Global) -> io::Result<()> {
    entities::times(rt, alloc)?;
    storages::times(rt, alloc)?;
    joins::times(rt, alloc)?;
    collects::times(rt, alloc)
}
