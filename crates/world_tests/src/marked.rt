//! Entities that were loaded into a world, and others that are marked there.
use rand_core::SeedableRng;
use rand_pcg::Pcg32;
use shred_world::{Resource, World};
use specs::saveload::{Mark, MarkedEntity, MarkedLazily};
use specs_entity::{EntitiesRes, Error};
use specs_layouts::{
    Component, DenseVecStorage, MaskedStorage, TryDefault, UnprotectedStorage, VecStorage,
};
use specs_markers::{Marker, MarkerAllocator, SimpleMarkerAllocator, UuidMarkerAllocator};
use specs_saveload::{DeserializeComponents, EntityData, SavedMarker, SerializeComponents};
use specs_world::{LazyUpdate, LazyWorld, WorldExt};
use std::alloc::{AllocGlobal, Global};
use std::sync::Wait;
use world_cases::saving::kinds::Health;
use world_cases::saving::tasks::Task;
use world_cases::saving::values::{Net, Plain, Random, Value};

/// How many of the entities of a world are marked.
fn count_marked<M: Marker>(world: &World<Value>) -> usize
where
    MaskedStorage<M>: Resource<Value>,
{
    let Some(markers) = world.try_fetch::<MaskedStorage<M>>() else {
        return 0;
    };
    let mut count = 0usize;
    for id in 0..16 {
        if markers.contains(id) {
            count = count.wrapping_add(1);
        }
    }
    count
}

/// Whether no two entities of a world bear one marker.
fn markers_differ<M: Marker>(world: &World<Value>) -> bool
where
    MaskedStorage<M>: Resource<Value>,
    M::Identifier: PartialEq,
{
    let Some(markers) = world.try_fetch::<MaskedStorage<M>>() else {
        return true;
    };
    for one in 0..16 {
        for other in 0..16 {
            if one != other
                && markers.contains(one)
                && markers.contains(other)
                && markers.get(one).id() == markers.get(other).id()
            {
                return false;
            }
        }
    }
    true
}

/// What gives markers, and the storage of those that entities bear.
#[derive(Drop)]
struct Marking<S: Drop, A: Drop> {
    /// The storage.
    markers: S,
    /// What gives them.
    allocator: A,
}

/// What there is to mark entities with, as a type of markers has it.
type MarkingBy<M> = Marking<MaskedStorage<M>, <M as Marker>::Allocator>;

/// What is saved of a marked entity without health.
type Entry<M> = EntityData<M, Option<i64>>;

/// What is saved of two entities that are made and marked.
fn save_two<M: SavedMarker>(
    alloc: Global,
    entities: &mut EntitiesRes,
    old: &mut MarkingBy<M>,
) -> Result<Vec<Entry<M>>, Error>
where
    M::Allocator: Drop,
{
    let one = entities.create()?;
    let other = entities.create()?;
    let _ = old.allocator.mark(one, &mut old.markers, entities)?;
    let _ = old.allocator.mark(other, &mut old.markers, entities)?;
    let healths: MaskedStorage<Health> = MaskedStorage::new(
        alloc,
        VecStorage::unwrap_default(alloc),
    );
    healths.serialize(alloc, entities, &old.markers)
}

/// Loads a list of entities without health.
fn load<M: SavedMarker>(
    alloc: Global,
    list: Vec<Entry<M>>,
    entities: &mut EntitiesRes,
    new: &mut MarkingBy<M>,
) -> Result<(), Error>
where
    M::Allocator: Drop,
{
    let mut healths: MaskedStorage<Health> = MaskedStorage::new(
        alloc,
        VecStorage::unwrap_default(alloc),
    );
    match healths.deserialize(alloc, list, entities, &mut new.markers, &mut new.allocator) {
        Ok(()) => Ok(()),
        Err(refused) => Err(refused.error),
    }
}

/// Two marked entities, as they are loaded into a new world from what is saved of an old one.
fn load_two<M: SavedMarker>(
    alloc: Global,
    old: MarkingBy<M>,
    new: MarkingBy<M>,
) -> Result<(EntitiesRes, MarkingBy<M>), Error>
where
    M::Allocator: Drop,
{
    let mut old = old;
    let mut new = new;
    let mut entities = EntitiesRes::new(alloc);
    let list = save_two(alloc, &mut entities, &mut old)?;
    let mut loaded = EntitiesRes::new(alloc);
    load(alloc, list, &mut loaded, &mut new)?;
    Ok((loaded, new))
}

/// Puts a resource into a world.
fn put<T: Resource<Value> + Drop>(world: &mut World<Value>, resource: T) -> Result<(), Error> {
    match world.insert(resource) {
        Ok(()) => Ok(()),
        Err(_) => Err(Error::Memory),
    }
}

/// Builds a marked entity.
fn build_marked<M: Marker>(world: &mut World<Value>) -> Result<(), Error>
where
    MaskedStorage<M>: Resource<Value>,
    M::Allocator: Resource<Value>,
{
    match world.create_entity()?.marked::<M>() {
        Ok(builder) => {
            builder.build();
            Ok(())
        }
        Err((error, _)) => Err(error),
    }
}

/// Builds an entity whose marking waits.
fn build_lazily<M: Marker>(
    entities: &mut EntitiesRes,
    lazy: &mut LazyUpdate<Task>,
) -> Result<(), Error>
where
    Task: From<Mark<M>>,
{
    match lazy.create_entity(entities)?.marked::<M>() {
        Ok(builder) => {
            builder.build();
            Ok(())
        }
        Err((error, _)) => Err(error),
    }
}

/// Queues the marking of a new entity of a world.
fn queue_marked<M: Marker>(world: &mut World<Value>) -> Result<(), Error>
where
    Task: From<Mark<M>>,
{
    let Some(mut entities) = world.remove::<EntitiesRes>() else {
        return Err(Error::NotRegistered);
    };
    let Some(mut lazy) = world.remove::<LazyUpdate<Task>>() else {
        return Err(Error::NotRegistered);
    };
    build_lazily::<M>(&mut entities, &mut lazy)?;
    put(world, entities)?;
    put(world, lazy)
}

/// A world with queues that holds entities, and what there is to mark them with.
fn make_world<M: Marker>(
    alloc: Global,
    entities: EntitiesRes,
    marking: MarkingBy<M>,
) -> Result<World<Value>, Error>
where
    MaskedStorage<M>: Resource<Value>,
    M::Allocator: Resource<Value> + Drop,
{
    let Marking { markers, allocator } = marking;
    let mut world: World<Value> = LazyWorld::<Value, Task>::with_queues(alloc)?;
    put(&mut world, entities)?;
    put(&mut world, markers)?;
    put(&mut world, allocator)?;
    Ok(world)
}

/// Builds two marked entities, and two whose marking waits.
fn mark_four<M: Marker>(world: &mut World<Value>) -> Result<(), Error>
where
    MaskedStorage<M>: Resource<Value>,
    M::Allocator: Resource<Value>,
    Task: From<Mark<M>>,
{
    build_marked::<M>(world)?;
    build_marked::<M>(world)?;
    queue_marked::<M>(world)?;
    queue_marked::<M>(world)
}

/// Whether two jobs run while a world is maintained, and neither fails.
fn runs_two<R: Wait>(rt: &R, world: &mut World<Value>) -> bool {
    match world.maintain(rt, 10) {
        Ok(counts) => counts.jobs == 2 && counts.failed == 0,
        Err(_) => false,
    }
}

/// Whether of two loaded entities, two that were built and two whose marking waits four are marked before the world is
/// maintained, and six after it, each with a marker of its own.
fn are_marked<R: AllocGlobal + Wait, M: SavedMarker>(
    rt: &R,
    old: MarkingBy<M>,
    new: MarkingBy<M>,
) -> Result<bool, Error>
where
    MaskedStorage<M>: Resource<Value>,
    M::Allocator: Resource<Value> + Drop,
    M::Identifier: PartialEq,
    Task: From<Mark<M>>,
{
    let (entities, marking) = load_two::<M>(rt.alloc(), old, new)?;
    let mut world = make_world::<M>(rt.alloc(), entities, marking)?;
    mark_four::<M>(&mut world)?;
    let before = count_marked::<M>(&world);
    let ran = runs_two(rt, &mut world);
    Ok(before == 4 && ran && count_marked::<M>(&world) == 6 && markers_differ::<M>(&world))
}

/// What there is to mark with whole numbers.
fn plain(alloc: Global) -> MarkingBy<Plain> {
    Marking {
        markers: MaskedStorage::new(alloc, DenseVecStorage::unwrap_default(alloc)),
        allocator: SimpleMarkerAllocator::new(alloc),
    }
}

/// What there is to mark with UUIDs out of a source with that seed.
fn random(alloc: Global, seed: u64) -> MarkingBy<Random> {
    Marking {
        markers: MaskedStorage::new(alloc, VecStorage::unwrap_default(alloc)),
        allocator: UuidMarkerAllocator::new(alloc, Pcg32::seed_from_u64(seed)),
    }
}

/// Whether entities that are marked with whole numbers come out so.
fn numbers_are_marked<R: AllocGlobal + Wait>(rt: &R) -> Result<bool, Error> {
    are_marked::<R, Plain>(rt, plain(rt.alloc()), plain(rt.alloc()))
}

/// Whether those that are marked with UUIDs do.
fn uuids_are_marked<R: AllocGlobal + Wait>(rt: &R) -> Result<bool, Error> {
    are_marked::<R, Random>(rt, random(rt.alloc(), 7), random(rt.alloc(), 8))
}

/// Registers both kinds of markers.
fn register_markers(world: &mut World<Value>) -> Result<(), Error> {
    world.register::<Plain>()?;
    world.register::<Random>()
}

/// Whether entities that die lose their markers of either kind.
fn markers_go<R: AllocGlobal>(rt: &R) -> Result<bool, Error> {
    let mut world: World<Value> = LazyWorld::<Value, Task>::with_queues(rt.alloc())?;
    register_markers(&mut world)?;
    let plain: SimpleMarkerAllocator<Net> = SimpleMarkerAllocator::new(rt.alloc());
    put(&mut world, plain)?;
    put(
        &mut world,
        UuidMarkerAllocator::new(rt.alloc(), Pcg32::seed_from_u64(7)),
    )?;
    build_marked::<Plain>(&mut world)?;
    build_marked::<Random>(&mut world)?;
    let marked = count_marked::<Plain>(&world) == 1 && count_marked::<Random>(&world) == 1;
    world.delete_all()?;
    Ok(marked && count_marked::<Plain>(&world) == 0 && count_marked::<Random>(&world) == 0)
}

#[test]
fn all_are_marked_once_the_world_is_maintained(rt: HostRuntime) {
    assert!(rt; matches!(numbers_are_marked(&rt), Ok(true)));
    assert!(rt; matches!(uuids_are_marked(&rt), Ok(true)));
}

#[test]
fn markers_go_with_their_entities(rt: HostRuntime) {
    assert!(rt; matches!(markers_go(&rt), Ok(true)));
}
