//! Sets that threads share: what each seat is answered, and what comes back.
ghost use Rattle.std.specs.Prelude.{◌≡◌, ◌<◌, ◌≤◌};
ghost use Rattle.std.specs.Thread.{IsSync};
ghost use Rattle.hibitset.specs.SharedSets.{IsSeatOf, view_of_seat};

use crate::walked::{atomic_of, members, walks};
use hibitset::{AtomicBitSet, BitSeat, SharedBitSet};
use hibitset_sets::{BitSetLike, Index};
use std::alloc::{AllocError, Global};
use std::test::Fail;
use std::thread::{Threads, join};

/// What one thread did: its seat, and how many of its calls found their index new.
#[derive(Drop)]
struct Added {
    seat: BitSeat,
    new: u32,
}

/// Adds each index below `count` by a seat.
fn add_below(set: &SharedBitSet, seat: BitSeat, count: Index) -> Added
    requires seat { IsSeatOf set.now seat }
    requires count { count ≤ 16777216 }
    ensures seat { IsSeatOf set.entry.now result.seat }
    ensures parts { (view_of_seat result.seat).parts ≡ (view_of_seat seat).parts }
{
    let mut seat = seat;
    let mut new = 0u32;
    for id in 0..count {
        if !set.add_atomic(&mut seat, id) {
            new = new.wrapping_add(1);
        }
    }
    Added { seat, new }
}

/// The same by two seats, each on a thread of its own, and then one seat again.
fn add_in_threads<R: Threads + Sync>(
    rt: &R,
    set: &SharedBitSet,
    one: BitSeat,
    other: BitSeat,
    count: Index,
) -> Added
    requires seats { IsSeatOf set.now one × IsSeatOf set.now other }
    requires count { count ≤ 16777216 }
    ensures seat { IsSeatOf set.entry.now result.seat }
{
    let (one, other) = join(
        rt,
        move || -> Added
            requires { IsSeatOf set.now one × (count ≤ 16777216) }
            ensures { IsSeatOf set.entry.now result.seat }
        { add_below(set, one, count) },
        move || -> Added
            requires { IsSeatOf set.now other × (count ≤ 16777216) }
            ensures { IsSeatOf set.entry.now result.seat }
        { add_below(set, other, count) },
    );
    Added {
        seat: one.seat.join(set, other.seat),
        new: one.new.wrapping_add(other.new),
    }
}

/// How many calls of two threads found their index new in an empty set, and whether the set that
/// comes back has all of them and no other.
fn of_two_threads<R: Threads + Sync>(
    rt: &R,
    alloc: Global,
    count: Index,
) -> Result<Option<(u32, bool)>, AllocError>
    requires { count ≤ 16777216 }
{
    let (set, seat) = match AtomicBitSet::new(alloc).share() {
        Ok(shared) => shared,
        Err((error, _)) => return Err(error),
    };
    let (one, other) = seat.split(&set, 30_000);
    let added = add_in_threads(rt, &set, one, other, count);
    let Ok(bits) = set.settle(added.seat) else {
        return Ok(None);
    };
    let mut all = true;
    for id in 0..count {
        all = all && bits.contains(id);
    }
    Ok(Some((added.new, all && members(&bits) == count as usize)))
}

#[test]
fn no_index_is_new_to_two_threads(rt: HostRuntime) -> Result<(), Fail> {
    for _ in 0..20 {
        let counted = of_two_threads(&rt, rt.alloc(), 1_000)?;
        assert_eq!(rt; counted, Some((1_000, true)));
    }
    Ok(())
}

/// Whether a seat finds what another added, and not what nobody did.
fn found_by_another(set: &SharedBitSet, one: BitSeat, other: BitSeat) -> (bool, bool)
    requires { IsSeatOf set.now one × IsSeatOf set.now other }
{
    let mut one = one;
    let mut other = other;
    let _ = set.add_atomic(&mut one, 70_000);
    (
        set.contains(&mut other, 70_000),
        set.contains(&mut other, 70_001),
    )
}

/// The same of a set without members; none where a call was refused.
fn found_in_a_set(alloc: Global) -> Option<(bool, bool)> {
    let Ok((set, seat)) = AtomicBitSet::new(alloc).share() else {
        return None;
    };
    let (one, other) = seat.split(&set, 1);
    Some(found_by_another(&set, one, other))
}

#[test]
fn what_one_seat_adds_another_finds(rt: HostRuntime) -> Result<(), Fail> {
    assert_eq!(rt; found_in_a_set(rt.alloc()), Some((true, false)));
    Ok(())
}
