//! What a creation and a deletion cost: by seats on threads, held alone, and round one lock; and what a phase costs itself.
ghost use Rattle.std.specs.Prelude.{◌≡◌, IfOk};
ghost use Rattle.specs_entity.specs.PhaseSeats.{StaysIn};

use specs_entity::{EntitiesRes, PhaseSeat};
use std::alloc::{AllocError, Global};
use std::io;
use std::sync::{Mutex, Wait};
use std::thread::{Threads, join};
use std::time::{Clock, Instant};

/// How many entities are created and deleted, and how many indices a set gets.
const COUNT: u32 = 200_000;

/// How often each is measured; the least time counts.
const ROUNDS: u32 = 5;

/// Creates as many entities as the seat may, and deletes them again.
fn create_all(seat: PhaseSeat) -> PhaseSeat
    ensures { StaysIn seat result }
{
    let mut seat = seat;
    for _ in 0..seat.allowance() {
        if let Ok(entity) = seat.create() {
            let _ = seat.delete(entity);
        }
    }
    seat
}

/// Two seats that have a half each of what one had.
fn halves(seat: PhaseSeat) -> Result<(PhaseSeat, PhaseSeat), AllocError>
    ensures { IfOk result (λ seats. StaysIn seat seats.0 × StaysIn seat seats.1) }
{
    let parts = seat.parts() / 2;
    if parts == 0 {
        return Err(AllocError);
    }
    let allowance = seat.allowance() / 2;
    match seat.split(parts, allowance) {
        Ok(both) => Ok(both),
        Err((error, _)) => Err(error),
    }
}

/// One seat of two.
fn joined(one: PhaseSeat, other: PhaseSeat) -> Result<PhaseSeat, AllocError>
    requires { StaysIn one other }
    ensures { IfOk result (λ after. StaysIn one after) }
{
    match one.join(other) {
        Ok(seat) => Ok(seat),
        Err((error, _, _)) => Err(error),
    }
}

/// The same by two seats, each on a thread of its own, where more than one is asked for.
fn create_by_two<R: Threads + Sync>(
    rt: &R,
    seat: PhaseSeat,
    seats: u32,
) -> Result<PhaseSeat, AllocError>
    ensures { IfOk result (λ after. StaysIn seat after) }
{
    if seats < 2 {
        return Ok(create_all(seat));
    }
    let (one, other) = halves(seat)?;
    let (one, other) = join(
        rt,
        move || -> PhaseSeat
            ensures { StaysIn one result }
        { create_all(one) },
        move || -> PhaseSeat
            ensures { StaysIn other result }
        { create_all(other) },
    );
    joined(one, other)
}

/// The same by up to four.
fn create_apart<R: Threads + Sync>(
    rt: &R,
    seat: PhaseSeat,
    seats: u32,
) -> Result<PhaseSeat, AllocError>
    ensures { IfOk result (λ after. StaysIn seat after) }
{
    if seats < 3 {
        return create_by_two(rt, seat, seats);
    }
    let (one, other) = halves(seat)?;
    let (one, other) = join(
        rt,
        move || -> Result<PhaseSeat, AllocError>
            ensures { IfOk result (λ after. StaysIn one after) }
        { create_by_two(rt, one, 2) },
        move || -> Result<PhaseSeat, AllocError>
            ensures { IfOk result (λ after. StaysIn other after) }
        { create_by_two(rt, other, 2) },
    );
    joined(one?, other?)
}

/// The microseconds of a phase in which so many seats create and delete.
fn by_seats<R: Clock + Threads + Sync>(rt: &R, alloc: Global, seats: u32) -> io::Result<u64> {
    let Ok(seat) = EntitiesRes::new(alloc).open_phase(COUNT) else {
        return Ok(0);
    };
    let began = Instant::now(rt)?;
    let seat = create_apart(rt, seat, seats)?;
    let took = began.elapsed(rt)?.as_micros().min(u64::MAX as u128) as u64;
    drop(seat);
    Ok(took)
}

/// The microseconds of as many creations and deletions by one owner.
fn alone<R: Clock>(rt: &R, alloc: Global) -> io::Result<u64> {
    let mut entities = EntitiesRes::new(alloc);
    let began = Instant::now(rt)?;
    for _ in 0..COUNT {
        if let Ok(entity) = entities.create() {
            let _ = entities.delete(entity);
        }
    }
    Ok(began.elapsed(rt)?.as_micros().min(u64::MAX as u128) as u64)
}

/// Creates and deletes so many entities, each under a lock of its own.
fn create_locked<R: Wait>(rt: &R, entities: &Mutex<EntitiesRes>, count: u32) -> u32 {
    let mut made = 0u32;
    for _ in 0..count {
        let created = entities.lock(rt).create();
        if let Ok(entity) = created {
            if entities.lock(rt).delete(entity).is_ok() {
                made = made.saturating_add(1);
            }
        }
    }
    made
}

/// The same by two threads, where more than one is asked for.
fn create_locked_by_two<R: Threads + Wait + Sync>(
    rt: &R,
    entities: &Mutex<EntitiesRes>,
    count: u32,
    threads: u32,
) -> u32 {
    if threads < 2 {
        return create_locked(rt, entities, count);
    }
    let (one, other) = join(
        rt,
        move || create_locked(rt, entities, count / 2),
        move || create_locked(rt, entities, count / 2),
    );
    one.saturating_add(other)
}

/// The same by up to four.
fn create_locked_apart<R: Threads + Wait + Sync>(
    rt: &R,
    entities: &Mutex<EntitiesRes>,
    count: u32,
    threads: u32,
) -> u32 {
    if threads < 3 {
        return create_locked_by_two(rt, entities, count, threads);
    }
    let (one, other) = join(
        rt,
        move || create_locked_by_two(rt, entities, count / 2, 2),
        move || create_locked_by_two(rt, entities, count / 2, 2),
    );
    one.saturating_add(other)
}

/// The microseconds of as many round one lock, by so many threads.
fn by_lock<R: Clock + Threads + Wait + Sync>(
    rt: &R,
    alloc: Global,
    threads: u32,
) -> io::Result<u64> {
    let entities = Mutex::new(EntitiesRes::new(alloc));
    let began = Instant::now(rt)?;
    let made = create_locked_apart(rt, &entities, COUNT, threads);
    let took = began.elapsed(rt)?.as_micros().min(u64::MAX as u128) as u64;
    Ok(if made == COUNT { took } else { 0 })
}

/// The microseconds of a phase over so many indices, in which nothing is done.
fn empty_phase<R: Clock>(rt: &R, alloc: Global, indices: u32) -> io::Result<u64> {
    let mut entities = EntitiesRes::new(alloc);
    for _ in 0..indices {
        let _ = entities.allocate();
    }
    let began = Instant::now(rt)?;
    let settled = match entities.open_phase(100) {
        Ok(seat) => seat.settle().is_ok(),
        Err(_) => false,
    };
    let took = began.elapsed(rt)?.as_micros().min(u64::MAX as u128) as u64;
    Ok(if settled { took } else { 0 })
}

/// The line of a number of seats or threads.
fn line<R: Clock + Print + Threads + Wait + Sync>(
    rt: &R,
    alloc: Global,
    threads: u32,
) -> io::Result<()> {
    let mut seats = u64::MAX;
    let mut lock = u64::MAX;
    for _ in 0..ROUNDS {
        seats = seats.min(by_seats(rt, alloc, threads)?);
        lock = lock.min(by_lock(rt, alloc, threads)?);
    }
    println!(rt;
        "{COUNT} created and deleted by {threads} threads: seats {seats} us, one lock {lock} us"
    )
}

/// Prints all times.
///
/// Errors: those of printing and of the clock, and want of memory.
pub fn all<R: Clock + Print + Threads + Wait + Sync>(rt: &R, alloc: Global) -> io::Result<()> {
    let mut held = u64::MAX;
    let mut empty = u64::MAX;
    for _ in 0..ROUNDS {
        held = held.min(alone(rt, alloc)?);
        empty = empty.min(empty_phase(rt, alloc, 10_000)?);
    }
    println!(rt; "{COUNT} created and deleted by one owner: {held} us")?;
    println!(rt; "a phase of 10000 indices and a reserve of 100: {empty} us")?;
    for threads in [1u32, 2, 4] {
        line(rt, alloc, threads)?;
    }
    Ok(())
}
