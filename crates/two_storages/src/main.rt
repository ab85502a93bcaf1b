//! Entities with positions, some of which have a velocity: they move, those that have come far halt, and all are printed.
#![tactic(auto)]

ghost use Rattle.std.specs.Prelude.{◌≡◌, OnErr, OnOk, Some};
ghost use Rattle.specs.specs.ForStorages.{KeepsParts, PutsIn, AreChanged};
ghost use Rattle.two_storages.specs.Movement.{moved, position_at, velocity_at};

use specs::{
    Change, Component, DenseVecStorage, EntitiesRes, Entity, Error, Join, JoinCursor,
    MaskedStorage, Storage, TryDefault, VecStorage, change_each,
};
use std::io;

/// How far an entity comes before it halts.
const FAR: u64 = 25;

/// Where an entity is.
#[derive(Drop)]
struct Position(u64);

impl Component for Position {
    type Storage = VecStorage<Position>;
}

/// How far an entity moves at a time.
#[derive(Drop)]
struct Velocity(u64);

impl Component for Velocity {
    type Storage = DenseVecStorage<Velocity>;
}

/// Puts a part at an entity.
///
/// Errors: those of `Storage::insert`; the parts are as they were.
fn put<T: Component>(
    entities: &EntitiesRes,
    parts: &mut MaskedStorage<T>,
    entity: Entity,
    part: T,
) -> Result<(), Error>
    ensures ok { OnOk result (PutsIn T.Storage.part_at parts.old entity.id (Some part) parts.new) }
    ensures err { OnErr result (KeepsParts T.Storage.part_at parts.old parts.new) }
{
    match Storage::new(entities, parts).insert(entity, part) {
        Ok(_) => Ok(()),
        Err((error, _)) => Err(error),
    }
}

/// Adds a velocity to a position; a sum goes round at 2 ^ 64.
struct Moving;

impl<'a> Change<Position, &'a MaskedStorage<Velocity>> for Moving {
    type Refusal = ();

    ghost changed = { λ _ position velocity. moved position velocity };

    fn change(&self, position: &mut Position, velocity: &'a Velocity) -> Result<(), ()> {
        position.0 = position.0.wrapping_add(velocity.0);
        Ok(())
    }
}

/// Adds its velocity to each position.
fn move_all(positions: &mut MaskedStorage<Position>, velocities: &MaskedStorage<Velocity>)
    ensures { AreChanged moved (position_at positions.old) (velocity_at velocities.now) (position_at positions.new) }
{
    match change_each(positions, velocities, &Moving) {
        Ok(()) => {}
        Err(_) => unreachable!(),
    }
}

/// Halts each entity that has come far. Nobody gains or loses a velocity.
fn brake(velocities: &mut MaskedStorage<Velocity>, positions: &MaskedStorage<Position>)
    ensures { velocities.new.mask ≡ velocities.old.mask }
{
    let mut cursor = JoinCursor::new(velocities, positions);
    while cursor.advance() {
        let place = cursor.item().0;
        if let Ok(velocity) = cursor.values() {
            if place >= FAR {
                velocity.0 = 0;
            }
        }
    }
}

/// Prints where each entity is.
fn print_all(
    rt: &HostRuntime,
    entities: &EntitiesRes,
    positions: &MaskedStorage<Position>,
) -> io::Result<()> {
    for (entity, position) in (entities, positions).join() {
        println!(rt; "{} {}", entity.id(), position.0)?;
    }
    Ok(())
}

/// Creates three entities: one that has no velocity, a slow and a fast one.
///
/// Errors: those of `EntitiesRes::create` and of `put`; some of them may be there then.
fn populate(
    entities: &mut EntitiesRes,
    positions: &mut MaskedStorage<Position>,
    velocities: &mut MaskedStorage<Velocity>,
) -> Result<(), Error> {
    let still = entities.create()?;
    put(entities, positions, still, Position(0))?;
    let slow = entities.create()?;
    put(entities, positions, slow, Position(10))?;
    put(entities, velocities, slow, Velocity(2))?;
    let fast = entities.create()?;
    put(entities, positions, fast, Position(20))?;
    put(entities, velocities, fast, Velocity(7))
}

/// Moves three entities twice, with a brake between.
fn run(rt: &HostRuntime) -> Result<(), Error> {
    let alloc = rt.alloc();
    let mut entities = EntitiesRes::new(alloc);
    let mut positions = MaskedStorage::new(alloc, VecStorage::unwrap_default(alloc));
    let mut velocities = MaskedStorage::new(alloc, DenseVecStorage::unwrap_default(alloc));
    populate(&mut entities, &mut positions, &mut velocities)?;
    move_all(&mut positions, &velocities);
    brake(&mut velocities, &positions);
    move_all(&mut positions, &velocities);
    let _ = print_all(rt, &entities, &positions);
    Ok(())
}

fn main(rt: HostRuntime) -> io::Result<()> {
    match run(&rt) {
        Ok(()) => Ok(()),
        Err(error) => println!(rt; "refused: {error}"),
    }
}
