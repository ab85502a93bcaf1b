//! What a shared set costs: to share and settle it, to add to it, and to look into it.
ghost use Rattle.std.specs.Prelude.{◌≡◌, ◌≤◌};
ghost use Rattle.hibitset.specs.SharedSets.{IsSeatOf};

use hibitset::{AtomicBitSet, BitSeat, SharedBitSet};
use std::alloc::Global;
use std::io;
use std::time::{Clock, Instant};

/// How many indices a set gets.
const COUNT: u32 = 200_000;

/// How often each is measured; the least time counts.
const ROUNDS: u32 = 5;

/// Microseconds.
#[derive(Clone, Copy)]
struct Times {
    share: u64,
    add: u64,
    find: u64,
    settle: u64,
}

/// Adds each index below a number, which is new to the set.
fn add_all(set: &SharedBitSet, seat: BitSeat, count: u32) -> BitSeat
    requires { IsSeatOf set.now seat × (count ≤ 16777216) }
    ensures { IsSeatOf set.entry.now result }
{
    let mut seat = seat;
    for id in 0..count {
        let _ = set.add_atomic(&mut seat, id);
    }
    seat
}

/// Looks for each index below a number.
fn find_all(set: &SharedBitSet, seat: BitSeat, count: u32) -> (BitSeat, u32)
    requires { IsSeatOf set.now seat }
    ensures { IsSeatOf set.entry.now result.0 }
{
    let mut seat = seat;
    let mut found = 0u32;
    for id in 0..count {
        found = found.wrapping_add(set.contains(&mut seat, id) as u32);
    }
    (seat, found)
}

/// The microseconds since a moment.
fn since<R: Clock>(rt: &R, moment: Instant) -> io::Result<u64> {
    Ok(moment.elapsed(rt)?.as_micros().min(u64::MAX as u128) as u64)
}

/// Measures once: a set is shared, gets its indices, is looked into, and settled. None where a call was refused.
fn times_once<R: Clock>(
    rt: &R,
    bits: AtomicBitSet,
    count: u32,
) -> io::Result<Option<(Times, AtomicBitSet)>>
    requires { count ≤ 16777216 }
{
    let began = Instant::now(rt)?;
    let Ok((set, seat)) = bits.share() else {
        return Ok(None);
    };
    let share = since(rt, began)?;
    let began = Instant::now(rt)?;
    let seat = add_all(&set, seat, count);
    let add = since(rt, began)?;
    let began = Instant::now(rt)?;
    let (seat, found) = find_all(&set, seat, count);
    let find = since(rt, began)?;
    let began = Instant::now(rt)?;
    let Ok(bits) = set.settle(seat) else {
        return Ok(None);
    };
    let settle = since(rt, began)?;
    if found < count {
        return Ok(None);
    }
    Ok(Some((
        Times {
            share,
            add,
            find,
            settle,
        },
        bits,
    )))
}

/// The line of a set that gets so many indices, or none, and is shared again with what it has.
fn line<R: Clock + Print>(rt: &R, alloc: Global, count: u32) -> io::Result<()>
    requires { count ≤ 16777216 }
{
    let mut bits = AtomicBitSet::new(alloc);
    for round in 0..ROUNDS {
        match times_once(rt, bits, count)? {
            Some((times, settled)) => {
                bits = settled;
                println!(rt;
                    "set of {count}, round {round}: share {} us, add {} us, find {} us, settle {} us",
                    times.share, times.add, times.find, times.settle
                )?;
            }
            None => return Ok(()),
        }
    }
    Ok(())
}

/// Prints the lines of a set without members and of one with many.
///
/// Errors: those of printing and of the clock, and want of memory.
pub fn all<R: Clock + Print>(rt: &R, alloc: Global) -> io::Result<()> {
    line(rt, alloc, 0)?;
    line(rt, alloc, COUNT)?;
    line(rt, alloc, 16_777_216)
}
