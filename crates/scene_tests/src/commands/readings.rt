//! What the rules read of documents and write for them, and how their global and their system stand in a world.
use scene_cases::commands::{Datum, Idle, Owning, Value};
use scene_commands::open_world;
use scene_model::{DocumentRules, Queue, ReadError};
use scene_world::{Placed, Rules, SceneValue, Store, WorldRules};
use serde_json::Value as Json;
use shred_stages::{Stop, System};
use shred_world::World;
use std::alloc::{AllocError, Global};

/// A number under one of the two kinds, the datum as which it is read, and the ids to which that refers.
struct Reading {
    name: &'static str,
    owns: bool,
    number: u64,
    datum: Datum,
    refs: &'static [u64],
}

const READINGS: [Reading; 3] = [
    Reading {
        name: "an owner",
        owns: true,
        number: 7,
        datum: Datum::OwnedBy(7),
        refs: &[7],
    },
    Reading {
        name: "a rank",
        owns: false,
        number: 7,
        datum: Datum::Ranked(7),
        refs: &[],
    },
    Reading {
        name: "the greatest rank",
        owns: false,
        number: 18_446_744_073_709_551_615,
        datum: Datum::Ranked(18_446_744_073_709_551_615),
        refs: &[],
    },
];

/// What is read under the kind of owners, or under that of ranks.
fn read(owns: bool, json: &Json, alloc: Global) -> Result<Datum, ReadError> {
    if owns {
        Owning.read_data(alloc, "owner", json)
    } else {
        Owning.read_data(alloc, "rank", json)
    }
}

/// Whether a datum is read of its number and of nothing else, is of its kind alone, and is written as that number.
fn holds(row: &Reading, alloc: Global) -> Result<bool, AllocError> {
    let json = Json::from(row.number);
    let refs = Owning.refs(alloc, &row.datum)?;
    let written = Owning.write_data(alloc, &row.datum)?;
    Ok(
        read(row.owns, &json, alloc) == Ok(row.datum)
            && read(row.owns, &Json::Null, alloc) == Err(ReadError::Shape)
            && Owning.admits("owner", &row.datum) == row.owns
            && Owning.admits("rank", &row.datum) != row.owns
            && refs.as_slice() == row.refs
            && written.as_u64() == Some(row.number),
    )
}

#[test]
fn each_number_is_read_under_its_kind(rt: HostRuntime) {
    let mut wrong = None;
    for row in &READINGS {
        if holds(row, rt.alloc()) != Ok(true) {
            wrong = Some(row.name);
        }
    }
    assert_eq!(rt; wrong, None);
}

/// The era that stands in a world into which it was put, as a document reads it.
fn era_there(number: u64, alloc: Global) -> Option<u64> {
    let read = Owning.read_global(alloc, "era", &Json::from(number)).ok()?;
    let mut world: World<Value> = open_world::<Owning>(Store::Vec, (1, 1), 0, alloc).ok()?;
    let value = Owning::to_value("era", read)?;
    world.insert_raw(Owning::global_id("era"), value).ok()?;
    let stands = Owning::as_global("era", world.get_raw(Owning::global_id("era"))?)?;
    Owning.write_global(alloc, stands).ok()?.as_u64()
}

#[test]
fn an_era_stands_in_a_world_as_it_is_read(rt: HostRuntime) {
    assert_eq!(rt; era_there(1800, rt.alloc()), Some(1800));
}

/// A turn of a system at a position of a world that gets a queue there.
fn turn_alone<R: Rules, H: AllocGlobal>(
    rt: &H,
    alloc: Global,
    system: R::System,
    world: &mut World<R::Value>,
) -> Result<(), Stop>
where
    R::Value: Drop,
{
    let Ok(_) = world.insert_raw(
        <R::Value as SceneValue<R::Data>>::queue_id(1),
        <R::Value as SceneValue<R::Data>>::wrap_queue(Queue::new(alloc)),
    ) else {
        return Err(Stop::Memory);
    };
    let mut placed: Placed<R> = Placed {
        position: 1,
        system,
    };
    System::run(&mut placed, rt, world)
}

/// Whether a system that rests has its turn.
fn rests<H: AllocGlobal>(rt: &H, alloc: Global) -> bool {
    match open_world::<Owning>(Store::BTree, (1, 1), 0, alloc) {
        Ok(mut world) => turn_alone::<Owning, H>(rt, alloc, Idle, &mut world).is_ok(),
        Err(_) => false,
    }
}

#[test]
fn a_system_that_rests_has_its_turn(rt: HostRuntime) {
    assert!(rt; rests(&rt, rt.alloc()));
}
