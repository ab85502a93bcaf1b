//! The systems, stages and worlds that are dispatched.
ghost use Rattle.std.specs.Prelude.{◌≡◌};

use crate::dispatches::load::{Mixer, Number, Value, mixed};
use shred::{ResourceId, RunningTime, StagesBuilder, World};
use smallvec::SmallVec;
use std::alloc::{AllocError, Global};

/// The systems that are dispatched.
pub(crate) type Stages = StagesBuilder<Value, Mixer>;

/// How many systems are planned.
pub(crate) const PLANNED: u32 = 4096;

/// How many stages a chain of them has.
pub(crate) const LAYERS: u32 = 16;

/// The numbers of workers.
pub(crate) const WORKERS: [usize; 4] = [0, 1, 2, 4];

/// How many systems a dispatch has, and how many ids they write.
pub(crate) const LOADS: [(u32, u32); 8] = [
    (1, 1),
    (1, 1),
    (10, 1),
    (10, 10),
    (100, 1),
    (100, 100),
    (1000, 1),
    (1000, 1000),
];

/// The lists whose systems come after others: how far before a system the first of those was added, how many they are, and the list's name.
pub(crate) static WAITING: [(u32, u32, &str); 3] = [
    (1, 1, "each after the one before"),
    (50, 50, "each after the 50 before"),
    (2048, 1, "half of them free, each other after one of those"),
];

/// The time that is said of a system.
fn time_of(number: u32) -> RunningTime {
    match number % 5 {
        0 => RunningTime::VeryShort,
        1 => RunningTime::Short,
        2 => RunningTime::Average,
        3 => RunningTime::Long,
        _ => RunningTime::VeryLong,
    }
}

/// The id that a system writes, one of so many.
fn id_of(number: u32, ids: u32) -> ResourceId
    ensures { result.kind ≡ 1 }
{
    ResourceId::new_with_dynamic_id::<Value, Number>(u64::from(number % ids.max(1)))
}

/// The system of that number, which writes one of so many ids.
fn mixer_of(number: u32, ids: u32, time: RunningTime, rounds: u32) -> Mixer {
    Mixer {
        id: id_of(number, ids),
        amount: u64::from(number) + 1,
        time,
        rounds,
    }
}

/// Adds a system that comes after others, as long as there is room.
fn add(stages: &mut Stages, mixer: Mixer, after: SmallVec<u32, 4>) -> Result<(), AllocError> {
    if stages.len() < 65_536 {
        let _ = stages.insert(mixer, after)?;
    }
    Ok(())
}

/// Adds so many systems, each of which writes one of so many ids.
fn fill(
    stages: &mut Stages,
    alloc: Global,
    systems: u32,
    ids: u32,
    rounds: u32,
) -> Result<(), AllocError> {
    for number in 0..systems {
        let mixer = mixer_of(number, ids, time_of(number), rounds);
        add(stages, mixer, SmallVec::new(alloc))?;
    }
    Ok(())
}

/// So many systems, each of which writes one of so many ids.
pub(crate) fn stages_of(
    alloc: Global,
    systems: u32,
    ids: u32,
    rounds: u32,
) -> Result<Stages, AllocError> {
    let mut stages = StagesBuilder::new(alloc);
    fill(&mut stages, alloc, systems, ids, rounds)?;
    Ok(stages)
}

/// The number of the system of the same group in the stage before, of so many groups each, if there is one.
fn number_before(alloc: Global, number: u32, groups: u32) -> Result<SmallVec<u32, 4>, AllocError> {
    let mut after = SmallVec::new(alloc);
    if number >= groups {
        after.push(number - groups)?;
    }
    Ok(after)
}

/// Adds so many stages of so many groups.
fn fill_chain(
    stages: &mut Stages,
    alloc: Global,
    layers: u32,
    groups: u32,
    rounds: u32,
) -> Result<(), AllocError> {
    for number in 0..layers.saturating_mul(groups) {
        let after = number_before(alloc, number, groups)?;
        add(
            stages,
            mixer_of(number, groups, RunningTime::Average, rounds),
            after,
        )?;
    }
    Ok(())
}

/// So many stages of so many groups: each system writes the id of its group, and comes after the one of that group in the stage before.
pub(crate) fn chain_of(
    alloc: Global,
    layers: u32,
    groups: u32,
    rounds: u32,
) -> Result<Stages, AllocError> {
    let mut stages = StagesBuilder::new(alloc);
    fill_chain(&mut stages, alloc, layers, groups, rounds)?;
    Ok(stages)
}

/// The numbers of so many systems, one after the other, the first of which was added `back` before a system; those alone that are there.
fn numbers_before(
    alloc: Global,
    number: u32,
    back: u32,
    count: u32,
) -> Result<SmallVec<u32, 4>, AllocError> {
    let mut numbers = SmallVec::new(alloc);
    for place in 0..count {
        let distance = back.saturating_sub(place);
        if distance <= number {
            numbers.push(number - distance)?;
        }
    }
    Ok(numbers)
}

/// Adds the systems each of which comes after so many others.
fn fill_waiting(
    stages: &mut Stages,
    alloc: Global,
    back: u32,
    count: u32,
) -> Result<(), AllocError> {
    for number in 0..PLANNED {
        let after = numbers_before(alloc, number, back, count)?;
        add(
            stages,
            mixer_of(number, PLANNED, RunningTime::Average, 1),
            after,
        )?;
    }
    Ok(())
}

/// Systems each of which writes an id of its own and comes after so many others, the first of which was added `back` before it.
pub(crate) fn waiting_of(alloc: Global, back: u32, count: u32) -> Result<Stages, AllocError> {
    let mut stages = StagesBuilder::new(alloc);
    fill_waiting(&mut stages, alloc, back, count)?;
    Ok(stages)
}

/// Puts a 0 under each of so many ids.
fn fill_world(world: &mut World<Value>, ids: u32) -> Result<(), AllocError> {
    for number in 0..ids {
        world.insert_by_id(id_of(number, ids), Number(0))?;
    }
    Ok(())
}

/// A world with a 0 under each of so many ids.
pub(crate) fn world_of(alloc: Global, ids: u32) -> Result<World<Value>, AllocError> {
    let mut world = World::empty(alloc);
    fill_world(&mut world, ids)?;
    Ok(world)
}

/// The checksum of the numbers under so many ids.
pub(crate) fn checksum_of(world: &World<Value>, ids: u32) -> u64 {
    let mut checksum = 0;
    for number in 0..ids {
        if let Some(Number(value)) = world.try_fetch_by_id::<Number>(id_of(number, ids)) {
            checksum = mixed(checksum, *value);
        }
    }
    checksum
}
