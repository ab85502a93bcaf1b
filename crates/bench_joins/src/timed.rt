//! The time of one of many.
use std::io;
use std::time::{Clock, Instant};

/// The nanoseconds of one of so many, which began at `start`; 0 where there are none.
///
/// Errors: those of the clock.
pub fn each<R: Clock>(rt: &R, start: Instant, count: u64) -> io::Result<u128> {
    let nanos = start.elapsed(rt)?.as_nanos();
    Ok(if count != 0 { nanos / count as u128 } else { 0 })
}
