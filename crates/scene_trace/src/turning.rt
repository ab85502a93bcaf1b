//! The systems of a frame alone, over the scene in a world of its own.
use crate::course::Course;
use crate::plain::{Parts, Plain, part_of};
use scene_commands::{entity_under, id_marked, load_world};
use scene_dispatch::open_queues;
use scene_document::{JsonError, Limits, LoadError, read_document, read_json};
use scene_model::{DocRefusal, FrameRefusal, Queue, Store};
use scene_world::{Rules, SceneValue};
use serde_json::Value;
use shred_world::World;
use specs_entity::Entity;
use std::alloc::{AllocError, Global};
use std::collections::BTreeMap;
use std::sync::Wait;
use std::thread::Threads;

/// What the systems of a frame made of a scene, and the queue of each by its place.
#[derive(Drop)]
pub(crate) struct Turned<D> {
    pub(crate) between: Plain,
    pub(crate) queues: Vec<(u32, Queue<D>)>,
}

/// The JSON of a text. Errors: `Document` with `Unreadable`; `Memory`.
pub(crate) fn json_of(alloc: Global, text: &[u8]) -> Result<Value, LoadError> {
    match read_json(alloc, text) {
        Ok(value) => Ok(value),
        Err(JsonError::Unreadable) => Err(LoadError::Document(DocRefusal::Unreadable)),
        Err(JsonError::Memory) => Err(LoadError::Memory),
    }
}

/// The ids that entities bear. Errors: want of memory, and where one bears none.
fn ids_of<R: Rules>(
    world: &World<R::Value>,
    named: &[Entity],
    alloc: Global,
) -> Result<Vec<u64>, AllocError> {
    let mut ids = Vec::new(alloc);
    for entity in named {
        let Some(id) = id_marked::<R>(world, entity.id()) else {
            return Err(AllocError);
        };
        ids.push(id)?;
    }
    Ok(ids)
}

/// The datum of a kind at an index, if there is one.
fn datum_in<R: Rules>(
    world: &World<R::Value>,
    kind: &str,
    index: u32,
    alloc: Global,
) -> Result<Option<R::Data>, AllocError> {
    let Some(value) = world.get_raw(R::part_id(kind)) else {
        return Ok(None);
    };
    let mut named = Vec::new(alloc);
    R::named_at(value, kind, index, &mut named)?;
    let ids = ids_of::<R>(world, &named, alloc)?;
    if ids.len() != named.len() {
        return Err(AllocError);
    }
    R::get(value, kind, index, &ids, alloc)
}

fn parts_in<R: Rules>(
    rules: &R,
    world: &World<R::Value>,
    id: u64,
    alloc: Global,
) -> Result<Parts, AllocError> {
    let mut parts = BTreeMap::new(alloc);
    let Some(entity) = entity_under::<R>(world, id) else {
        return Ok(parts);
    };
    for kind in rules.part_names() {
        if let Some(datum) = datum_in::<R>(world, *kind, entity.id(), alloc)? {
            let part = part_of(alloc, rules, &datum)?;
            drop(parts.insert(*kind, part)?);
        }
    }
    Ok(parts)
}

fn globals_in<R: Rules>(
    rules: &R,
    world: &World<R::Value>,
    alloc: Global,
) -> Result<BTreeMap<&'static str, Value>, AllocError> {
    let mut globals = BTreeMap::new(alloc);
    for name in rules.global_names() {
        if let Some(value) = world.get_raw(R::global_id(*name)) {
            if let Some(global) = R::as_global(*name, value) {
                let written = rules.write_global(alloc, global)?;
                drop(globals.insert(*name, written)?);
            }
        }
    }
    Ok(globals)
}

/// The scene in a world, in which the entities of this one live.
fn plain_in<R: Rules>(
    rules: &R,
    world: &World<R::Value>,
    before: &Plain,
    alloc: Global,
) -> Result<Plain, AllocError> {
    let mut entities = BTreeMap::new(alloc);
    for (id, _parts) in &before.entities {
        let parts = parts_in(rules, world, *id, alloc)?;
        drop(entities.insert(*id, parts)?);
    }
    let globals = globals_in(rules, world, alloc)?;
    Ok(Plain {
        next: before.next,
        entities,
        globals,
    })
}

/// The queue of the system at a place. Errors: where there is none, told as want of memory.
fn queue_in<R: Rules>(world: &mut World<R::Value>, place: u32) -> Result<Queue<R::Data>, AllocError>
where
    R::Value: Drop,
{
    let id = <R::Value as SceneValue<R::Data>>::queue_id(place);
    let Some(value) = world.take_raw(id) else {
        return Err(AllocError);
    };
    match <R::Value as SceneValue<R::Data>>::unwrap_queue(value) {
        Ok(queue) => Ok(queue),
        Err(_) => Err(AllocError),
    }
}

/// A world in which the scene of a text stands, with an empty queue at each of these places.
fn world_of<R: Rules>(
    rules: &R,
    limits: Limits,
    text: &[u8],
    places: &[u32],
    alloc: Global,
) -> Result<World<R::Value>, LoadError>
where
    R::Value: Drop,
{
    let value = json_of(alloc, text)?;
    let draft = read_document(alloc, rules, limits, &value)?;
    let mut world = load_world(
        rules,
        Store::Vec,
        (16_777_216, 2_147_483_647),
        &draft,
        alloc,
    )?;
    open_queues::<R>(&mut world, places, alloc)?;
    Ok(world)
}

/// What the systems of a course make of the scene of this text, and ask for; none where one of them refuses.
pub(crate) fn turn<R: Rules + Send + Sync, H: AllocGlobal + Threads + Wait + Sync>(
    rt: &H,
    rules: &R,
    limits: Limits,
    text: &[u8],
    before: &Plain,
    course: &mut Course<R>,
) -> Result<Option<Turned<R::Data>>, LoadError>
where
    R::Value: Drop + Send + Sync,
    R::Data: Send + Sync,
    R::Global: Send + Sync,
    R::System: Send + Sync,
{
    let alloc = rt.alloc();
    let mut places = Vec::new(alloc);
    for (place, _kind) in &course.kinds {
        places.push(*place)?;
    }
    let mut world = world_of(rules, limits, text, &places, alloc)?;
    match course.dispatcher.run_systems(rt, rules, &mut world) {
        Ok(()) => {}
        Err(FrameRefusal::Memory) => return Err(LoadError::Memory),
        Err(_) => return Ok(None),
    }
    let between = plain_in(rules, &world, before, alloc)?;
    let mut queues = Vec::new(alloc);
    for place in places {
        let queue = queue_in::<R>(&mut world, place)?;
        queues.push((place, queue))?;
    }
    Ok(Some(Turned { between, queues }))
}
