//! Three frames of a simulation, and two colonies, whatever the number of workers.
ghost use Rattle.simulation.specs.Frames.{IsTwo, Stands};

use simulation::colonies::runs as colonies;
use simulation::colonies::values::Held;
use simulation::frames::{Staged, Stopped, dispatcher, run_three};
use simulation::parts::{Position, Velocity};
use simulation::setup::{empty_world, spawn};
use simulation::values::Value;
use specs::{Dispatcher, Entity, Error, MaskedStorage, NoLocal, World, WorldExt};
use std::alloc::Global;
use std::sync::Wait;
use std::thread::Threads;

/// Why a run didn't come to its end.
#[derive(Clone, Copy, Debug, PartialEq, Eq)]
enum Failure {
    World,
    Dispatch,
}

impl From<Error> for Failure {
    fn from(_error: Error) -> Failure {
        Failure::World
    }
}

impl From<Stopped> for Failure {
    fn from(_stopped: Stopped) -> Failure {
        Failure::Dispatch
    }
}

/// The place of an entity in a world.
fn place_of(world: &World<Value>, entity: Entity) -> Result<Option<u64>, Error> {
    let positions = world.read_storage::<Position>()?;
    Ok(positions.get(entity).map(|position| position.0))
}

/// A dispatcher of both systems.
type Both = Dispatcher<Value, Staged, NoLocal>;

/// Whether three courses come out of a world: from 0 by 1 to 3, from 90 by 5 past 100, where it ends, and from 96 by 1 to 99.
fn courses_in<R: AllocGlobal + Threads + Wait + Sync>(
    rt: &R,
    both: &mut Both,
    world: &mut World<Value>,
) -> Result<bool, Failure>
    requires two { IsTwo both.old }
    requires stands { Stands world.old }
{
    let slow = spawn(world, Position(0), Velocity(1))?;
    let fast = spawn(world, Position(90), Velocity(5))?;
    let near = spawn(world, Position(96), Velocity(1))?;
    run_three(rt, both, world)?;
    Ok(
        place_of(world, slow)? == Some(3)
            && place_of(world, fast)?.is_none()
            && place_of(world, near)? == Some(99),
    )
}

/// Whether they come out of a new world with so many workers.
fn courses_come_out<R: AllocGlobal + Threads + Wait + Sync>(
    rt: &R,
    alloc: Global,
    workers: usize,
) -> Result<bool, Failure> {
    let mut world = empty_world(alloc)?;
    let Ok(mut both) = dispatcher(alloc, workers) else {
        return Err(Failure::Dispatch);
    };
    courses_in(rt, &mut both, &mut world)
}

/// Whether an entity has both parts in a world, and loses them with its life.
fn both_are_lost(world: &mut World<Value>) -> Result<bool, Failure> {
    let entity = match world.create_entity()?.with(Position(1)) {
        Ok(builder) => match builder.with(Velocity(2)) {
            Ok(builder) => builder.build(),
            Err(_) => return Err(Failure::World),
        },
        Err(_) => return Err(Failure::World),
    };
    let begun = place_of(world, entity)? == Some(1);
    world.delete_entity(entity)?;
    Ok(begun && !has_velocity(world, entity))
}

/// Whether a dispatcher's setup registers both kinds in a world that has none.
fn registers_by_setup(alloc: Global) -> Result<bool, Failure> {
    let mut world: World<Value> = WorldExt::new(alloc)?;
    let mut both = dispatcher(alloc, 0).map_err(|_| Failure::Dispatch)?;
    both.setup(&mut world).map_err(|_| Failure::Dispatch)?;
    both_are_lost(&mut world)
}

/// How many entities live.
fn count_living(world: &World<Held>) -> Result<usize, Failure> {
    let living = world
        .entities()?
        .living_entities()
        .map_err(|_| Failure::World)?;
    Ok(living.len())
}

/// Whether two colonies leave four births, of which the next merge lets two die.
fn colonies_come_out<R: AllocGlobal + Threads + Wait + Sync>(
    rt: &R,
    alloc: Global,
    workers: usize,
) -> Result<bool, Failure> {
    let mut world: World<Held> = WorldExt::new(alloc)?;
    let mut both = colonies::dispatcher(alloc, workers).map_err(|_| Failure::Dispatch)?;
    colonies::grow_apart(rt, &mut both, &mut world)?;
    let born = count_living(&world)?;
    let dead = world.merge()?.len();
    Ok(born == 4 && dead == 2 && count_living(&world)? == 2)
}

/// Whether a world has a velocity at an entity's index.
fn has_velocity(world: &World<Value>, entity: Entity) -> bool {
    match world.try_fetch::<MaskedStorage<Velocity>>() {
        Some(velocities) => velocities.contains(entity.id()),
        None => true,
    }
}

#[test]
fn setup_registers_what_systems_fetch(rt: HostRuntime) {
    assert_eq!(rt; registers_by_setup(rt.alloc()), Ok(true));
}

#[test]
fn courses_come_out_alone(rt: HostRuntime) {
    assert_eq!(rt; courses_come_out(&rt, rt.alloc(), 0), Ok(true));
}

#[test]
fn courses_come_out_with_two_workers(rt: HostRuntime) {
    assert_eq!(rt; courses_come_out(&rt, rt.alloc(), 2), Ok(true));
}

#[test]
fn colonies_grow_in_one_phase(rt: HostRuntime) {
    assert_eq!(rt; colonies_come_out(&rt, rt.alloc(), 0), Ok(true));
}

#[test]
fn colonies_grow_in_one_phase_by_two_workers(rt: HostRuntime) {
    assert_eq!(rt; colonies_come_out(&rt, rt.alloc(), 2), Ok(true));
}
