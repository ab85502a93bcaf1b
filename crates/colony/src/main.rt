//! A colony: entities go to their goals and die there, and one more is asked for in each frame. It is saved and loaded.
#![tactic(auto)]

ghost use Rattle.std.specs.Prelude.{◌≡◌, IfOk, OnOk, Ok};
ghost use Rattle.colony.specs.Frames.{Frames, IsColony};
ghost use Rattle.specs.specs.ForWorlds.{Maintains};
ghost use Rattle.specs_saveload.specs.Loading.{AreApart};

mod parts;
mod systems;
mod values;

use anyhow::Result;
use parts::*;
use specs::saveload::*;
use specs::*;
use std::alloc::Global;
use std::sync::Wait;
use std::thread::Threads;
use systems::{Systems, dispatcher};
use values::Value;

/// What is saved of an entity: its marker and its position.
type Entry = EntityData<SimpleMarker<Settler>, Option<u64>>;

/// Loads a list, and answers what is saved then: the list, where no two entries have one marker.
fn saved_again(alloc: Global, list: Vec<Entry>) -> Result<Vec<Entry>>
    ensures { AreApart list.items → IfOk result (λ again. again.items ≡ list.items) }
{
    let mut entities = EntitiesRes::new(alloc);
    let mut positions = MaskedStorage::<Position>::new(alloc, TryDefault::unwrap_default(alloc));
    let mut markers = MaskedStorage::new(alloc, DenseVecStorage::unwrap_default(alloc));
    let mut allocator = SimpleMarkerAllocator::<Settler>::new(alloc);
    positions.deserialize(alloc, list, &mut entities, &mut markers, &mut allocator)?;
    specs_entity::laws::the_living_are_below_the_limit(&entities);
    Ok(positions.serialize(alloc, &entities, &markers)?)
}

/// Prints the markers of a list, each with a position.
fn print_list(rt: &HostRuntime, list: &[Entry]) -> Result<()> {
    for entry in list {
        let place = entry.components.unwrap_or(0);
        println!(rt; "marker {} at {place}", entry.marker.id())?;
    }
    Ok(())
}

/// Prints what is saved of a world, and what is saved again once that was loaded.
fn print_saved(rt: &HostRuntime, world: &World<Value>) -> Result<()> {
    let positions = world.read_resource::<MaskedStorage<Position>>()?;
    let markers = world.read_resource::<MaskedStorage<SimpleMarker<Settler>>>()?;
    let list = positions.serialize(rt.alloc(), world.entities()?, markers)?;
    print_list(rt, &list)?;
    println!(rt; "loaded")?;
    print_list(rt, &saved_again(rt.alloc(), list)?)
}

/// Runs a frame: the systems are dispatched, the dead are merged away, and the one that was asked for comes.
fn run_frame<R: AllocGlobal + Threads + Wait + Sync>(
    rt: &R,
    systems: &mut Systems,
    world: &mut World<Value>,
) -> Result<Maintained>
    requires colony { IsColony systems.old }
    ensures again { OnOk result (IsColony systems.new) }
    ensures frame { IfOk result (λ counts. Frames (λ dispatched. Maintains
        ⟦<EntitiesRes as Held<Value>>⟧.stands_at ⟦<MetaTable as Held<Value>>⟧.stands_at
        ⟦<Value as AnyStorage>⟧.drops ⟦<Settler as Job<Value>>⟧.runs
        ⟦<LazyUpdate<Settler> as Held<Value>>⟧.stands_at ⟦<SharedLazy<Settler> as Held<Value>>⟧.stands_at
        8 dispatched (Ok counts)) world.old world.new) }
{
    systems.dispatch(rt, world)?;
    Ok(LazyWorld::<Value, Settler>::maintain(world, rt, 8)?)
}

fn main(rt: HostRuntime) -> Result<()> {
    let mut world: World<Value> = LazyWorld::<Value, Settler>::with_queues(rt.alloc())?;
    let mut systems = dispatcher(rt.alloc(), 4)?;
    systems.setup(&mut world)?;
    world.register::<SimpleMarker<Settler>>()?;
    world.insert(SimpleMarkerAllocator::<Settler>::new(rt.alloc()))?;
    Settler(Velocity(5), Goal(100)).run(&mut world)?;
    Settler(Velocity(2), Goal(8)).run(&mut world)?;
    let positions = world.write_resource::<MaskedStorage<Position>>()?;
    let reader = positions.register_reader()?;
    for _ in 0..3 {
        run_frame(&rt, &mut systems, &mut world)?;
        let positions = world.write_resource::<MaskedStorage<Position>>()?;
        let mut events = Vec::new(rt.alloc());
        positions.channel_mut().read(&reader, &mut events)?;
        println!(rt; "{} told", events.len())?;
    }
    print_saved(&rt, &world)
}
