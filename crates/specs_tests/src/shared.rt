//! Entities that threads share: what each seat is given, and what comes back.
ghost use Rattle.std.specs.Prelude.{◌≡◌, IfSome};
ghost use Rattle.std.specs.Thread.{IsSync};
ghost use Rattle.specs_entity.specs.SharedSeats.{IsSeatOf};

use specs_entity::{EntitiesRes, Entity, EntitySeat, Error, Generation, SharedEntities};
use std::alloc::{AllocError, Global};
use std::test::Fail;
use std::thread::{Threads, join};

/// What one thread did: its seat, and whether each answer was the one that it has to be.
#[derive(Drop)]
struct Worked {
    seat: EntitySeat,
    right: bool,
}

/// Creates two entities, asks for a third that the allowance hasn't, and deletes the first.
fn work(phase: &SharedEntities, seat: EntitySeat) -> Worked
    requires { IsSeatOf phase.now seat }
    ensures { IsSeatOf phase.entry.now result.seat }
{
    let mut seat = seat;
    let one = phase.create(&mut seat);
    let two = phase.create(&mut seat);
    let spent = phase.create(&mut seat).is_err();
    let (Ok(one), Ok(two)) = (one, two) else {
        return Worked { seat, right: false };
    };
    let lives = phase.is_alive(&mut seat, one) && phase.is_alive(&mut seat, two);
    let deleted = phase.delete(&mut seat, one).is_ok();
    Worked {
        seat,
        right: spent && lives && deleted && one != two,
    }
}

/// Two seats work, each on a thread of its own.
fn work_in_threads<R: Threads + Sync>(
    rt: &R,
    phase: &SharedEntities,
    one: EntitySeat,
    other: EntitySeat,
) -> (Worked, Worked)
    requires { IsSeatOf phase.now one × IsSeatOf phase.now other }
    ensures { IsSeatOf phase.entry.now result.0.seat × IsSeatOf phase.entry.now result.1.seat }
{
    join(
        rt,
        move || -> Worked
            requires { IsSeatOf phase.now one }
            ensures { IsSeatOf phase.entry.now result.seat }
        { work(phase, one) },
        move || -> Worked
            requires { IsSeatOf phase.now other }
            ensures { IsSeatOf phase.entry.now result.seat }
        { work(phase, other) },
    )
}

/// A reserve of four for two seats, each of which may create two; none where a call was refused.
fn shared_by_two(alloc: Global) -> Option<(SharedEntities, EntitySeat, EntitySeat)>
    ensures { IfSome result (λ all. IsSeatOf all.0 all.1 × IsSeatOf all.0 all.2) }
{
    let Ok((phase, seat)) = EntitiesRes::new(alloc).share(4) else {
        return None;
    };
    match seat.split(&phase, 30_000, 2) {
        Ok((one, other)) => Some((phase, one, other)),
        Err(_) => None,
    }
}

/// What two seats leave of a phase; none where a call was refused.
fn settled(phase: SharedEntities, one: EntitySeat, other: EntitySeat) -> Option<EntitiesRes>
    requires { IsSeatOf phase one × IsSeatOf phase other }
{
    let Ok(seat) = one.join(&phase, other) else {
        return None;
    };
    match phase.settle(seat) {
        Ok(entities) => Some(entities),
        Err(_) => None,
    }
}

/// Whether entities are the first ones of the indices from 0 on.
fn are_first(entities: &[Entity]) -> bool {
    for (place, entity) in entities.iter().enumerate() {
        if entity.id() as usize != place || entity.generation() != Generation::one() {
            return false;
        }
    }
    true
}

/// Whether there are two entities, ascending by index.
fn are_two(entities: &[Entity]) -> bool {
    match entities {
        [one, other] => one.id() < other.id(),
        _ => false,
    }
}

/// Whether four live, of which a merge lets two die.
fn four_live_and_two_die(entities: EntitiesRes) -> Result<bool, AllocError> {
    let mut entities = entities;
    let born = entities.living_entities()?;
    let dead = entities.merge()?;
    Ok(born.len() == 4 && are_first(born.as_slice()) && are_two(dead.as_slice()))
}

/// Whether two threads are answered as they have to be, and the phase leaves what they did.
fn two_threads_share<R: Threads + Sync>(rt: &R, alloc: Global) -> Result<bool, AllocError> {
    let Some((phase, one, other)) = shared_by_two(alloc) else {
        return Ok(false);
    };
    let (one, other) = work_in_threads(rt, &phase, one, other);
    let right = one.right && other.right;
    match settled(phase, one.seat, other.seat) {
        Some(entities) => Ok(four_live_and_two_die(entities)? && right),
        None => Ok(false),
    }
}

#[test]
fn no_entity_is_given_to_two_threads(rt: HostRuntime) -> Result<(), Fail> {
    for _ in 0..100 {
        assert!(rt; two_threads_share(&rt, rt.alloc())?);
    }
    Ok(())
}

/// The index that the one claim of a phase gives, and those that two births after it get.
fn one_of_three(alloc: Global) -> Result<Option<(u32, u32, u32)>, AllocError> {
    let Ok((phase, seat)) = EntitiesRes::new(alloc).share(3) else {
        return Ok(None);
    };
    let mut seat = seat;
    let claimed = phase.create(&mut seat);
    let Ok(mut entities) = phase.settle(seat) else {
        return Ok(None);
    };
    match (claimed, entities.create(), entities.create()) {
        (Ok(claimed), Ok(second), Ok(third)) => Ok(Some((claimed.id(), second.id(), third.id()))),
        _ => Ok(None),
    }
}

#[test]
fn what_was_not_claimed_stays_unused(rt: HostRuntime) -> Result<(), Fail> {
    assert_eq!(rt; one_of_three(rt.alloc())?, Some((0, 1, 2)));
    Ok(())
}

/// Whether a seat that holds half of the parts can't settle, and both come back.
fn half_of_the_parts(alloc: Global) -> Result<Option<bool>, AllocError> {
    let Ok((phase, seat)) = EntitiesRes::new(alloc).share(0) else {
        return Ok(None);
    };
    let Ok((one, other)) = seat.split(&phase, 32_768, 0) else {
        return Ok(None);
    };
    match phase.settle(one) {
        Ok(_) => Ok(Some(false)),
        Err((_, phase, one)) => {
            let Ok(seat) = one.join(&phase, other) else {
                return Ok(None);
            };
            Ok(Some(seat.parts() == 65_536 && phase.settle(seat).is_ok()))
        }
    }
}

#[test]
fn a_phase_with_a_seat_out_comes_back(rt: HostRuntime) -> Result<(), Fail> {
    assert_eq!(rt; half_of_the_parts(rt.alloc())?, Some(true));
    Ok(())
}

/// Whether a reserve that is greater than the indices left is refused, and the entities come back.
fn three_of_two(alloc: Global) -> Result<bool, AllocError> {
    match EntitiesRes::with_limits(alloc, 2, 1).share(3) {
        Ok(_) => Ok(false),
        Err((error, mut entities)) => Ok(
            matches!(error, Error::IndicesSpent)
                && entities.create().is_ok()
                && entities.create().is_ok()
                && entities.create().is_err(),
        ),
    }
}

#[test]
fn a_reserve_without_indices_is_refused(rt: HostRuntime) -> Result<(), Fail> {
    assert!(rt; three_of_two(rt.alloc())?);
    Ok(())
}

/// The index and the generation that a claim gives after the first entity of index 0 was killed.
fn claim_after_a_kill(alloc: Global) -> Option<(u32, i32)> {
    let mut entities = EntitiesRes::new(alloc);
    let first = entities.allocate().ok()?;
    entities.kill(&[first]).ok()?;
    let Ok((phase, seat)) = entities.share(1) else {
        return None;
    };
    let mut seat = seat;
    let claimed = phase.create(&mut seat).ok()?;
    Some((claimed.id(), claimed.generation().id()))
}

#[test]
fn a_claim_follows_the_generations(rt: HostRuntime) -> Result<(), Fail> {
    assert_eq!(rt; claim_after_a_kill(rt.alloc()), Some((0, 2)));
    Ok(())
}

/// What one seat says of an entity before and after another creates it, and of one that the other deleted: alive until
/// the next merge.
fn seen_by_another(
    phase: &SharedEntities,
    one: EntitySeat,
    other: EntitySeat,
) -> Option<(bool, bool)>
    requires { IsSeatOf phase.now one × IsSeatOf phase.now other }
{
    let mut one = one;
    let mut other = other;
    let created = phase.create(&mut one).ok()?;
    let seen = phase.is_alive(&mut other, created);
    phase.delete(&mut other, created).ok()?;
    Some((seen, phase.is_alive(&mut one, created)))
}

/// The same in a phase of two seats.
fn seen_in_a_phase(alloc: Global) -> Option<(bool, bool)> {
    let (phase, one, other) = shared_by_two(alloc)?;
    seen_by_another(&phase, one, other)
}

#[test]
fn what_one_seat_creates_another_finds(rt: HostRuntime) -> Result<(), Fail> {
    assert_eq!(rt; seen_in_a_phase(rt.alloc()), Some((true, true)));
    Ok(())
}
