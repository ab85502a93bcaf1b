//! Parts that are put into a storage whose changes are told to a reader, and into one that tells of nothing.
use crate::changes::parts::{Made, Place, Told, empty, fill};
use crate::timed::each;
use specs_layouts::{MaskedStorage, ReaderId};
use std::alloc::{AllocError, Global};
use std::io;
use std::time::{Clock, Instant};

/// How many events a reader has yet to read, once he has read them.
///
/// Errors: `AllocError`.
fn read(
    alloc: Global,
    storage: &mut MaskedStorage<Told>,
    reader: &ReaderId,
) -> Result<usize, AllocError> {
    let mut list = Vec::new(alloc);
    storage.channel_mut().read(reader, &mut list)?;
    Ok(list.len())
}

/// How many events a reader reads of 1000 parts.
fn told_events(alloc: Global) -> Result<usize, AllocError> {
    let mut told = empty::<Told>(alloc)?;
    let reader = told.register_reader()?;
    fill(&mut told, 1000, 1)?;
    read(alloc, &mut told, &reader)
}

/// The line of checksums: how many events a reader reads of 1000 parts.
///
/// Errors: those of printing, and want of memory.
pub fn check<R: Print>(rt: &R, alloc: Global) -> io::Result<()> {
    let events = told_events(alloc)?;
    println!(rt; "told: {events} events")
}

/// The nanoseconds of each of so many parts that are put in.
fn time_fill<C: Made, R: Clock>(
    rt: &R,
    storage: &mut MaskedStorage<C>,
    end: u32,
) -> io::Result<u128> {
    let start = Instant::now(rt)?;
    fill(storage, end, 1)?;
    each(rt, start, u64::from(end))
}

/// The nanoseconds of each of so many parts whose insertion nobody is told.
fn untold<R: Clock>(rt: &R, alloc: Global, end: u32) -> io::Result<u128> {
    let mut places = empty::<Place>(alloc)?;
    time_fill(rt, &mut places, end)
}

/// The time of parts whose insertion nobody is told.
fn time_untold<R: Clock + Print>(rt: &R, alloc: Global, end: u32) -> io::Result<()> {
    let nanos = untold(rt, alloc, end)?;
    println!(rt; "{end} parts put in: {nanos} ns")
}

/// The times of parts whose insertion a reader is told, and of what he reads.
fn time_told<R: Clock + Print>(rt: &R, alloc: Global, end: u32) -> io::Result<()> {
    let mut told = empty::<Told>(alloc)?;
    let reader = told.register_reader()?;
    let nanos = time_fill(rt, &mut told, end)?;
    print_told(rt, end, nanos)?;
    time_read(rt, alloc, &mut told, &reader, end)
}

/// The line of the time of parts whose insertion a reader is told.
fn print_told<R: Print>(rt: &R, end: u32, nanos: u128) -> io::Result<()> {
    println!(rt; "{end} parts put in and told: {nanos} ns")
}

/// The time of the events that a reader reads.
fn time_read<R: Clock + Print>(
    rt: &R,
    alloc: Global,
    storage: &mut MaskedStorage<Told>,
    reader: &ReaderId,
    end: u32,
) -> io::Result<()> {
    let start = Instant::now(rt)?;
    let events = read(alloc, storage, reader)?;
    let nanos = each(rt, start, u64::from(end))?;
    println!(rt; "{events} events read: {nanos} ns")
}

/// The lines of times of so many parts.
///
/// Errors: those of printing and of the clock, and want of memory.
pub fn time<R: Clock + Print>(rt: &R, alloc: Global, end: u32) -> io::Result<()> {
    time_untold(rt, alloc, end)?;
    time_told(rt, alloc, end)
}
