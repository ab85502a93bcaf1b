//! What seats do: each on a thread of its own, at random.
ghost use Rattle.std.specs.Prelude.{◌≡◌, ◌≤◌, IfOk, MatchResult};
ghost use Rattle.specs_entity.specs.PhaseSeats.{StaysIn, view_at};

use crate::phases::chance::Chance;
use specs_entity::{Entity, PhaseSeat};
use std::alloc::{AllocError, Global};
use std::thread::{Threads, join};

/// How often a seat creates, deletes or looks.
const CALLS: u32 = 24;

/// The entities that were alive as the phase was opened, and some that were dead.
#[derive(Drop)]
pub struct Before {
    pub alive: Vec<Entity>,
    pub dead: Vec<Entity>,
}

/// A seat that has done its work: the indices that it deleted, and whether each answer was the one that it has to be.
#[derive(Drop)]
pub struct Done {
    pub seat: PhaseSeat,
    pub deleted: Vec<u32>,
    pub right: bool,
}

/// One of some entities, by chance; none where there is none.
fn one_of(entities: &[Entity], chance: &mut Chance) -> Option<Entity> {
    if entities.len() == 0 {
        return None;
    }
    let place = chance.below(entities.len() as u64);
    entities.get(place as usize).copied()
}

/// Creates an entity, and says whether that was refused just where the allowance is spent.
fn creates(seat: &mut PhaseSeat) -> bool
    ensures { StaysIn seat.old seat.new }
{
    let allowance = seat.allowance();
    match seat.create() {
        Ok(_) => allowance > 0 && seat.allowance() + 1 == allowance,
        Err(_) => allowance == 0,
    }
}

/// Deletes an entity that the seat knows, which has to go well.
fn deletes(
    seat: &mut PhaseSeat,
    entity: Option<Entity>,
    deleted: &mut Vec<u32>,
) -> Result<bool, AllocError>
    ensures { StaysIn seat.old seat.new }
{
    match entity {
        Some(entity) => {
            deleted.push(entity.id())?;
            Ok(seat.delete(entity).is_ok())
        }
        None => Ok(true),
    }
}

/// Looks at an entity that the seat knows, and at one that was dead before the phase.
fn looks(seat: &mut PhaseSeat, known: Option<Entity>, dead: Option<Entity>) -> bool
    ensures { StaysIn seat.old seat.new }
{
    let lives = match known {
        Some(entity) => seat.is_alive(entity),
        None => true,
    };
    let stale = match dead {
        Some(entity) => seat.is_alive(entity),
        None => false,
    };
    lives && !stale
}

/// Does one thing by chance.
fn acts(
    seat: &mut PhaseSeat,
    before: &Before,
    deleted: &mut Vec<u32>,
    chance: &mut Chance,
) -> Result<bool, AllocError>
    ensures { StaysIn seat.old seat.new }
{
    let known = if chance.below(2) == 0 {
        one_of(before.alive.as_slice(), chance)
    } else {
        one_of(seat.known(), chance)
    };
    match chance.below(4) {
        0 => deletes(seat, known, deleted),
        1 => Ok(looks(seat, known, one_of(before.dead.as_slice(), chance))),
        _ => Ok(creates(seat)),
    }
}

/// What a seat does on its thread.
fn work(alloc: Global, seat: PhaseSeat, before: &Before, chance: Chance) -> Result<Done, AllocError>
    ensures { IfOk result (λ done. StaysIn seat done.seat) }
{
    let mut seat = seat;
    let mut chance = chance;
    let mut deleted = Vec::new(alloc);
    let mut right = true;
    for _ in 0..CALLS {
        right = acts(&mut seat, before, &mut deleted, &mut chance)? && right;
    }
    Ok(Done {
        seat,
        deleted,
        right,
    })
}

/// Two that have done their work, as one: where seats weren't joined for want of memory, both came back and are joined then.
fn together(one: Done, other: Done) -> Result<Done, AllocError>
    requires { StaysIn one.seat other.seat }
    ensures { IfOk result (λ done. StaysIn one.seat done.seat) }
{
    let mut deleted = one.deleted;
    let mut more = other.deleted;
    deleted.append(&mut more)?;
    let right = one.right && other.right;
    match one.seat.join(other.seat) {
        Ok(seat) => Ok(Done {
            seat,
            deleted,
            right,
        }),
        Err((_, seat, more)) => match seat.join(more) {
            Ok(seat) => Ok(Done {
                seat,
                deleted,
                right,
            }),
            Err((error, _, _)) => Err(error),
        },
    }
}

/// Half of a seat's parts with some of its allowance, and the rest. A seat that isn't split for want of memory comes back, as
/// one of a single part does.
fn halves(seat: PhaseSeat, chance: &mut Chance) -> Result<(PhaseSeat, PhaseSeat), PhaseSeat>
    ensures { MatchResult result (λ seats. StaysIn seat seats.0 × StaysIn seat seats.1) (StaysIn seat) }
{
    let parts = seat.parts() / 2;
    if parts == 0 {
        return Err(seat);
    }
    let allowance = chance.below(seat.allowance() as u64 + 1) as u32;
    match seat.split(parts, allowance) {
        Ok(both) => Ok(both),
        Err((_, seat)) => Err(seat),
    }
}

/// Lets a seat work: by two threads, where so many seats are asked for.
fn by_two<R: Threads + Sync>(
    rt: &R,
    alloc: Global,
    seat: PhaseSeat,
    seats: u32,
    before: &Before,
    chance: Chance,
) -> Result<Done, AllocError>
    ensures { IfOk result (λ done. StaysIn seat done.seat) }
{
    let mut chance = chance;
    if seats < 2 {
        return work(alloc, seat, before, chance);
    }
    let (one, other) = match halves(seat, &mut chance) {
        Ok(both) => both,
        Err(seat) => return work(alloc, seat, before, chance),
    };
    let fork = chance.fork();
    let (one, other) = join(
        rt,
        move || -> Result<Done, AllocError>
            ensures { IfOk result (λ done. StaysIn one done.seat) }
        { work(alloc, one, before, chance) },
        move || -> Result<Done, AllocError>
            ensures { IfOk result (λ done. StaysIn other done.seat) }
        { work(alloc, other, before, fork) },
    );
    together(one?, other?)
}

/// The same by up to four threads.
fn by_four<R: Threads + Sync>(
    rt: &R,
    alloc: Global,
    seat: PhaseSeat,
    seats: u32,
    before: &Before,
    chance: Chance,
) -> Result<Done, AllocError>
    ensures { IfOk result (λ done. StaysIn seat done.seat) }
{
    let mut chance = chance;
    if seats < 3 {
        return by_two(rt, alloc, seat, seats, before, chance);
    }
    let (one, other) = match halves(seat, &mut chance) {
        Ok(both) => both,
        Err(seat) => return work(alloc, seat, before, chance),
    };
    let fork = chance.fork();
    let half = seats / 2;
    let rest = seats - half;
    let (one, other) = join(
        rt,
        move || -> Result<Done, AllocError>
            ensures { IfOk result (λ done. StaysIn one done.seat) }
        { by_two(rt, alloc, one, rest, before, chance) },
        move || -> Result<Done, AllocError>
            ensures { IfOk result (λ done. StaysIn other done.seat) }
        { by_two(rt, alloc, other, half, before, fork) },
    );
    together(one?, other?)
}

/// Splits a seat, by halves, into so many, at most eight, each of which works on a thread of its own, and joins them again.
/// What isn't split for want of memory works alone.
pub fn work_apart<R: Threads + Sync>(
    rt: &R,
    alloc: Global,
    seat: PhaseSeat,
    seats: u32,
    before: &Before,
    chance: Chance,
) -> Result<Done, AllocError>
    ensures { IfOk result (λ done. StaysIn seat done.seat) }
{
    let mut chance = chance;
    if seats < 5 {
        return by_four(rt, alloc, seat, seats, before, chance);
    }
    let (one, other) = match halves(seat, &mut chance) {
        Ok(both) => both,
        Err(seat) => return work(alloc, seat, before, chance),
    };
    let fork = chance.fork();
    let half = seats / 2;
    let rest = seats - half;
    let (one, other) = join(
        rt,
        move || -> Result<Done, AllocError>
            ensures { IfOk result (λ done. StaysIn one done.seat) }
        { by_four(rt, alloc, one, rest, before, chance) },
        move || -> Result<Done, AllocError>
            ensures { IfOk result (λ done. StaysIn other done.seat) }
        { by_four(rt, alloc, other, half, before, fork) },
    );
    together(one?, other?)
}
