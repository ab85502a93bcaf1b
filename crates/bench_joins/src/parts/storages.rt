//! Parts that are put into each storage and looked up.
use crate::parts::kinds::{Frozen, Heat, Mass, Name, Numbered, Rank, Speed, empty, fill};
use crate::timed::each;
use specs_layouts::MaskedStorage;
use std::alloc::{AllocError, Global};
use std::io;
use std::time::{Clock, Instant};

/// How many parts each storage holds when it is timed.
const PARTS: u32 = 1_000_000;

/// What look-ups gave.
#[derive(Clone, Copy)]
struct Found {
    /// How many indices had a part.
    count: u32,
    /// A sum over the numbers of the parts, ascending by index, which goes round at 2 ^ 64.
    sum: u64,
}

/// Looks each index below `end` up.
fn look_up<C: Numbered>(storage: &MaskedStorage<C>, end: u32) -> Found {
    let mut found = Found { count: 0, sum: 0 };
    for id in 0..end {
        if storage.contains(id) {
            found.count = found.count.wrapping_add(1);
            found.sum = found
                .sum
                .wrapping_mul(31)
                .wrapping_add(storage.get(id).number() as u64);
        }
    }
    found
}

/// How many parts are put in, one at every third index below 1000, and what look-ups give of them.
fn fill_and_look_up<C: Numbered>(alloc: Global) -> Result<(u32, Found), AllocError> {
    let mut storage = empty::<C>(alloc)?;
    let new = fill(&mut storage, 1000, 3)?;
    Ok((new, look_up(&storage, 1000)))
}

/// The line of checksums of one storage, with a part at every third index below 1000.
fn check<C: Numbered, R: Print>(rt: &R, alloc: Global, name: &str) -> io::Result<()> {
    let (new, Found { count, sum }) = fill_and_look_up::<C>(alloc)?;
    println!(rt; "{name}: {new} new, {count} found, sum {sum}")
}

/// A line of checksums for each storage.
///
/// Errors: those of printing, and want of memory.
pub fn checksums<R: Print>(rt: &R, alloc: Global) -> io::Result<()> {
    check::<Mass, R>(rt, alloc, "VecStorage")?;
    check::<Speed, R>(rt, alloc, "DenseVecStorage")?;
    check::<Heat, R>(rt, alloc, "DefaultVecStorage")?;
    check::<Name, R>(rt, alloc, "HashMapStorage")?;
    check::<Rank, R>(rt, alloc, "BTreeStorage")?;
    check::<Frozen, R>(rt, alloc, "NullStorage")
}

/// Looks every part up, and answers the nanoseconds of one.
fn time_look_ups<C: Numbered, R: Clock>(rt: &R, storage: &MaskedStorage<C>) -> io::Result<u128> {
    let start = Instant::now(rt)?;
    let _ = look_up(storage, PARTS).count;
    each(rt, start, u64::from(PARTS))
}

/// Puts a part at each index, and answers the nanoseconds of one.
fn time_insertions<C: Numbered, R: Clock>(
    rt: &R,
    storage: &mut MaskedStorage<C>,
) -> io::Result<u128> {
    let start = Instant::now(rt)?;
    let _ = fill(storage, PARTS, 1)?;
    each(rt, start, u64::from(PARTS))
}

/// The nanoseconds of an insertion and of a look-up, with a part at each index.
fn nanos_of<C: Numbered, R: Clock>(rt: &R, alloc: Global) -> io::Result<(u128, u128)> {
    let mut storage = empty::<C>(alloc)?;
    let inserted = time_insertions(rt, &mut storage)?;
    Ok((inserted, time_look_ups(rt, &storage)?))
}

/// The line of times of one storage, with a part at each index.
fn time<C: Numbered, R: Clock + Print>(rt: &R, alloc: Global, name: &str) -> io::Result<()> {
    let (inserted, seen) = nanos_of::<C, R>(rt, alloc)?;
    println!(rt; "{name}: insertion {inserted} ns, look-up {seen} ns")
}

/// A line of times for each storage.
///
/// Errors: those of printing and of the clock, and want of memory.
pub fn times<R: Clock + Print>(rt: &R, alloc: Global) -> io::Result<()> {
    time::<Mass, R>(rt, alloc, "VecStorage")?;
    time::<Speed, R>(rt, alloc, "DenseVecStorage")?;
    time::<Heat, R>(rt, alloc, "DefaultVecStorage")?;
    time::<Name, R>(rt, alloc, "HashMapStorage")?;
    time::<Rank, R>(rt, alloc, "BTreeStorage")?;
    time::<Frozen, R>(rt, alloc, "NullStorage")
}
