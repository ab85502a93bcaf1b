//! What a phase has to leave: each entity given once, each deletion kept, and nothing else.
use crate::phases::chance::Chance;
use crate::phases::seats::{Before, work_apart};
use specs_entity::{EntitiesRes, Entity, PhaseSeat};
use std::alloc::{AllocError, Global};
use std::thread::Threads;

/// So many new entities.
fn births(
    entities: &mut EntitiesRes,
    alloc: Global,
    count: u64,
) -> Result<Vec<Entity>, AllocError> {
    let mut born = Vec::new(alloc);
    for _ in 0..count {
        match entities.allocate() {
            Ok(entity) => born.push(entity)?,
            Err(_) => return Err(AllocError),
        }
    }
    Ok(born)
}

/// Entities by chance, some of them dead, and their list.
fn entities_before(
    entities: &mut EntitiesRes,
    alloc: Global,
    chance: &mut Chance,
) -> Result<Before, AllocError> {
    let dead = births(entities, alloc, chance.below(20))?;
    if entities.kill(dead.as_slice()).is_err() {
        return Err(AllocError);
    }
    let alive = births(entities, alloc, chance.below(30))?;
    Ok(Before { alive, dead })
}

/// The indices of some entities, each once, ascending.
fn indices(entities: &[Entity], alloc: Global) -> Result<Vec<u32>, AllocError> {
    let mut ids = Vec::with_capacity(alloc, entities.len())?;
    for entity in entities.iter() {
        ids.push(entity.id())?;
    }
    ids.sort_unstable();
    Ok(ids)
}

/// Whether no number of an ascending list stands in it twice.
fn are_apart(numbers: &[u32]) -> bool {
    for pair in numbers.windows(2) {
        if let [one, other] = pair {
            if one == other {
                return false;
            }
        }
    }
    true
}

/// Whether all of some entities are alive.
fn all_live(entities: &EntitiesRes, list: &[Entity]) -> bool {
    list.iter().all(|entity| entities.is_alive(*entity))
}

/// What a seat with all parts lists of its births and deletions.
#[derive(Drop)]
struct Listed {
    born: Vec<Entity>,
    deleted: Vec<u32>,
}

/// The births of a seat.
fn births_of(seat: &PhaseSeat, alloc: Global) -> Result<Vec<Entity>, AllocError> {
    let mut born = Vec::with_capacity(alloc, seat.known().len())?;
    for entity in seat.known().iter() {
        born.push(*entity)?;
    }
    Ok(born)
}

/// Whether the entities are those of before with what is listed.
fn are_exact(
    entities: &mut EntitiesRes,
    before: &Before,
    listed: Listed,
    alloc: Global,
) -> Result<bool, AllocError> {
    let mut deleted = listed.deleted;
    deleted.sort_unstable();
    deleted.dedup();
    let born = indices(listed.born.as_slice(), alloc)?;
    let all = before.alive.len() + listed.born.len();
    let there = all_live(entities, before.alive.as_slice())
        && all_live(entities, listed.born.as_slice())
        && entities.living_entities()?.len() == all;
    let dead = entities.merge()?;
    let gone = indices(dead.as_slice(), alloc)?;
    let left = entities.living_entities()?.len();
    Ok(
        there
            && are_apart(born.as_slice())
            && gone.as_slice() == deleted.as_slice()
            && left + gone.len() == all,
    )
}

/// The first seat of a phase: where it isn't opened for want of memory, the entities came back, and it is opened then.
fn opened(entities: EntitiesRes, reserve: u32) -> Option<PhaseSeat> {
    match entities.open_phase(reserve) {
        Ok(seat) => Some(seat),
        Err((_, entities)) => entities.open_phase(reserve).ok(),
    }
}

/// Whether a run ends with exact counts: some entities, a reserve, and two to eight seats, all by chance.
pub fn one_run<R: Threads + Sync>(
    rt: &R,
    alloc: Global,
    chance: Chance,
) -> Result<bool, AllocError> {
    let mut chance = chance;
    let mut entities = EntitiesRes::new(alloc);
    let before = entities_before(&mut entities, alloc, &mut chance)?;
    let reserve = chance.below(100) as u32;
    let seats = 2 + chance.below(7) as u32;
    let seat = match opened(entities, reserve) {
        Some(seat) => seat,
        None => return Err(AllocError),
    };
    let done = work_apart(rt, alloc, seat, seats, &before, chance)?;
    let listed = Listed {
        born: births_of(&done.seat, alloc)?,
        deleted: done.deleted,
    };
    match done.seat.settle() {
        Ok(entities) => {
            let mut entities = entities;
            Ok(are_exact(&mut entities, &before, listed, alloc)? && done.right)
        }
        Err(_) => Ok(false),
    }
}
