//! What is saved of worlds, and what is saved again once they were loaded into new ones.
use serde_json::Value;
use specs_entity::{EntitiesRes, Entity, Error};
use specs_layouts::{DenseVecStorage, MaskedStorage, TryDefault, VecStorage};
use specs_markers::{Marker, MarkerAllocator, SimpleMarker, SimpleMarkerAllocator};
use specs_saveload::laws::{an_unmarked_refusal_names_one, one_entity_is_saved_as_in_the_whole};
use specs_saveload::{
    DeserializeComponents, EntityData, FormError, JsonForm, MarkedBuilder, Marks, PartForms,
    SerializeComponents, list_from_value,
};
use std::alloc::{AllocError, Global};
use world_cases::saving::kinds::{Health, Owner};
use world_cases::saving::round::{marked_after_a_round, saved_and_loaded_again};

/// The kind of the markers.
struct Net;

/// Owners and healths.
type Parts = (MaskedStorage<Owner>, MaskedStorage<Health>);

/// What is saved of their parts.
type Data = (Option<SimpleMarker<Net>>, Option<i64>);

/// Entities, their markers, what gives these, and their parts.
#[derive(Drop)]
struct World {
    entities: EntitiesRes,
    markers: MaskedStorage<SimpleMarker<Net>>,
    allocator: SimpleMarkerAllocator<Net>,
    parts: Parts,
    born: Vec<Entity>,
}

/// A step of a world's making. Entities are told by the order of their births.
enum Step {
    Create,
    Mark(usize),
    Own(usize, usize),
    Heal(usize, i64),
    Kill(usize),
}

use Step::{Create, Heal, Kill, Mark, Own};

/// A world, what is saved of its owners, and what is saved of all, which is saved again once it was loaded into a new
/// world. None where that is `Unmarked`.
struct Row {
    name: &'static str,
    steps: &'static [Step],
    owners: Option<&'static str>,
    all: Option<&'static str>,
}

const ROWS: [Row; 7] = [
    Row {
        name: "two that own each other",
        steps: &[Create, Create, Mark(0), Mark(1), Own(0, 1), Own(1, 0)],
        owners: Some("[{\"components\":[1],\"marker\":0},{\"components\":[0],\"marker\":1}]"),
        all: Some(
            "[{\"components\":[1,null],\"marker\":0},{\"components\":[0,null],\"marker\":1}]",
        ),
    },
    Row {
        name: "an unmarked owner",
        steps: &[Create, Create, Mark(0), Own(0, 1)],
        owners: None,
        all: None,
    },
    Row {
        name: "a dead owner",
        steps: &[Create, Create, Mark(0), Mark(1), Own(0, 1), Kill(1)],
        owners: None,
        all: None,
    },
    Row {
        name: "an owner whose index another has",
        steps: &[Create, Create, Mark(0), Own(0, 1), Kill(1), Create, Mark(2)],
        owners: None,
        all: None,
    },
    Row {
        name: "by index, not by marker",
        steps: &[
            Create,
            Create,
            Create,
            Mark(2),
            Mark(0),
            Heal(2, -5),
            Heal(0, 7),
        ],
        owners: Some("[{\"components\":[null],\"marker\":1},{\"components\":[null],\"marker\":0}]"),
        all: Some(
            "[{\"components\":[null,7],\"marker\":1},{\"components\":[null,-5],\"marker\":0}]",
        ),
    },
    Row {
        name: "the unmarked are not saved",
        steps: &[Create, Create, Mark(1), Heal(0, 1), Heal(1, 2), Own(0, 0)],
        owners: Some("[{\"components\":[null],\"marker\":0}]"),
        all: Some("[{\"components\":[null,2],\"marker\":0}]"),
    },
    Row {
        name: "an entry that names the last",
        steps: &[Create, Create, Create, Mark(0), Mark(1), Mark(2), Own(0, 2)],
        owners: Some(
            "[{\"components\":[2],\"marker\":0},{\"components\":[null],\"marker\":1},{\"components\":[null],\"marker\":2}]",
        ),
        all: Some(
            "[{\"components\":[2,null],\"marker\":0},{\"components\":[null,null],\"marker\":1},{\"components\":[null,null],\"marker\":2}]",
        ),
    },
];

/// A world, and what is saved of its owners with all that they name. None where that is `Unmarked`.
struct ReachRow {
    name: &'static str,
    steps: &'static [Step],
    saved: Option<&'static str>,
    marked: usize,
}

const REACHED: [ReachRow; 4] = [
    ReachRow {
        name: "an unmarked owner is marked and saved",
        steps: &[Create, Create, Mark(0), Own(0, 1)],
        saved: Some("[{\"components\":[1],\"marker\":0},{\"components\":[null],\"marker\":1}]"),
        marked: 2,
    },
    ReachRow {
        name: "wave after wave, and not by index",
        steps: &[
            Create,
            Create,
            Create,
            Create,
            Mark(1),
            Own(1, 3),
            Own(3, 0),
            Own(2, 2),
        ],
        saved: Some(
            "[{\"components\":[1],\"marker\":0},{\"components\":[2],\"marker\":1},{\"components\":[null],\"marker\":2}]",
        ),
        marked: 3,
    },
    ReachRow {
        name: "first the marked ones",
        steps: &[
            Create,
            Create,
            Create,
            Mark(2),
            Mark(0),
            Own(0, 1),
            Own(2, 1),
            Own(1, 2),
        ],
        saved: Some(
            "[{\"components\":[2],\"marker\":1},{\"components\":[2],\"marker\":0},{\"components\":[0],\"marker\":2}]",
        ),
        marked: 3,
    },
    ReachRow {
        name: "a dead owner, after another was marked",
        steps: &[
            Create,
            Create,
            Create,
            Mark(0),
            Own(0, 1),
            Own(1, 2),
            Kill(2),
        ],
        saved: None,
        marked: 2,
    },
];

/// Lists that are loaded one after the other into a world of so many indices, the place at which the last is refused,
/// and what is saved then.
struct LoadRow {
    name: &'static str,
    indices: u32,
    lists: &'static [&'static str],
    refused: Option<usize>,
    saved: &'static str,
}

const LOADS: [LoadRow; 8] = [
    LoadRow {
        name: "what is absent is taken out",
        indices: 8,
        lists: &[
            "[{\"components\":[null,5],\"marker\":0},{\"components\":[0,6],\"marker\":1}]",
            "[{\"components\":[null,null],\"marker\":1}]",
        ],
        refused: None,
        saved: "[{\"components\":[null,5],\"marker\":0},{\"components\":[null,null],\"marker\":1}]",
    },
    LoadRow {
        name: "a known marker is one entity",
        indices: 8,
        lists: &[
            "[{\"components\":[4,1],\"marker\":9}]",
            "[{\"components\":[9,2],\"marker\":4}]",
        ],
        refused: None,
        saved: "[{\"components\":[4,1],\"marker\":9},{\"components\":[9,2],\"marker\":4}]",
    },
    LoadRow {
        name: "the first names the last, and all keep their order",
        indices: 8,
        lists: &[
            "[{\"components\":[2,1],\"marker\":0},{\"components\":[null,2],\"marker\":1},{\"components\":[0,3],\"marker\":2}]",
        ],
        refused: None,
        saved: "[{\"components\":[2,1],\"marker\":0},{\"components\":[null,2],\"marker\":1},{\"components\":[0,3],\"marker\":2}]",
    },
    LoadRow {
        name: "one that the list lacks comes behind them",
        indices: 8,
        lists: &["[{\"components\":[7,1],\"marker\":0},{\"components\":[null,2],\"marker\":1}]"],
        refused: None,
        saved: "[{\"components\":[7,1],\"marker\":0},{\"components\":[null,2],\"marker\":1},{\"components\":[null,null],\"marker\":7}]",
    },
    LoadRow {
        name: "those behind a refusal are there without parts",
        indices: 3,
        lists: &[
            "[{\"components\":[2,1],\"marker\":0},{\"components\":[7,2],\"marker\":1},{\"components\":[0,3],\"marker\":2}]",
        ],
        refused: Some(1),
        saved: "[{\"components\":[2,1],\"marker\":0},{\"components\":[null,null],\"marker\":1},{\"components\":[null,null],\"marker\":2}]",
    },
    LoadRow {
        name: "those before a refusal are loaded",
        indices: 2,
        lists: &[
            "[{\"components\":[null,1],\"marker\":0},{\"components\":[0,2],\"marker\":1},{\"components\":[null,3],\"marker\":2}]",
        ],
        refused: Some(2),
        saved: "[{\"components\":[null,1],\"marker\":0},{\"components\":[0,2],\"marker\":1}]",
    },
    LoadRow {
        name: "of two refusals that of the former entry is told",
        indices: 2,
        lists: &[
            "[{\"components\":[7,1],\"marker\":0},{\"components\":[null,2],\"marker\":1},{\"components\":[null,3],\"marker\":2}]",
        ],
        refused: Some(0),
        saved: "[{\"components\":[null,null],\"marker\":0},{\"components\":[null,null],\"marker\":1}]",
    },
    LoadRow {
        name: "a refused reference leaves the entry's entity",
        indices: 2,
        lists: &["[{\"components\":[null,1],\"marker\":0},{\"components\":[7,2],\"marker\":1}]"],
        refused: Some(1),
        saved: "[{\"components\":[null,1],\"marker\":0},{\"components\":[null,null],\"marker\":1}]",
    },
];

/// A world without entities.
fn empty(alloc: Global, indices: u32) -> World {
    World {
        entities: EntitiesRes::with_limits(alloc, indices, 100),
        markers: MaskedStorage::new(alloc, DenseVecStorage::unwrap_default(alloc)),
        allocator: SimpleMarkerAllocator::new(alloc),
        parts: parts(alloc),
        born: Vec::new(alloc),
    }
}

/// Storages without parts.
fn parts(alloc: Global) -> Parts {
    (
        MaskedStorage::new(alloc, DenseVecStorage::unwrap_default(alloc)),
        MaskedStorage::new(alloc, VecStorage::unwrap_default(alloc)),
    )
}

/// The entity of a place among those that were born.
fn born(world: &World, place: usize) -> Option<Entity> {
    world.born.get(place).copied()
}

/// Gives an entity an owner.
fn own(world: &mut World, one: Entity, other: Entity) -> Result<(), Error> {
    if world.entities.is_alive(one) {
        match world.parts.0.insert(one.id(), Owner(other)) {
            Ok(_) => {}
            Err(_) => return Err(Error::Memory),
        }
    }
    Ok(())
}

/// Gives an entity health.
fn heal(world: &mut World, one: Entity, health: i64) -> Result<(), Error> {
    if world.entities.is_alive(one) {
        match world.parts.1.insert(one.id(), Health(health)) {
            Ok(_) => {}
            Err(_) => return Err(Error::Memory),
        }
    }
    Ok(())
}

/// Takes a step.
fn take(world: &mut World, step: &Step) -> Result<(), Error> {
    match step {
        Create => {
            let entity = world.entities.create()?;
            match world.born.push(entity) {
                Ok(()) => {}
                Err(_) => return Err(Error::Memory),
            }
        }
        Mark(one) => {
            if let Some(entity) = born(world, *one) {
                let _ = world
                    .allocator
                    .mark(entity, &mut world.markers, &world.entities)?;
            }
        }
        Own(one, other) => {
            if let (Some(one), Some(other)) = (born(world, *one), born(world, *other)) {
                own(world, one, other)?;
            }
        }
        Heal(one, health) => {
            if let Some(entity) = born(world, *one) {
                heal(world, entity, *health)?;
            }
        }
        Kill(one) => {
            if let Some(entity) = born(world, *one) {
                world.entities.kill(&[entity])?;
            }
        }
    }
    Ok(())
}

/// The JSON text of a list.
fn text_of<D: PartForms>(
    alloc: Global,
    list: &[EntityData<SimpleMarker<Net>, D>],
) -> Result<String, AllocError> {
    let mut values = Vec::new(alloc);
    for entry in list {
        let value = entry.to_value(alloc)?;
        values.push(value)?;
    }
    Value::Array(values).to_string(alloc)
}

/// Whether a list was saved with that text, or is `Unmarked` where there is none.
fn is_text<D: PartForms>(
    alloc: Global,
    outcome: Result<Vec<EntityData<SimpleMarker<Net>, D>>, Error>,
    wanted: Option<&str>,
) -> Result<bool, Error> {
    match outcome {
        Ok(list) => {
            let text = text_of(alloc, list.as_slice())?;
            Ok(wanted == Some(text.as_str()))
        }
        Err(Error::Unmarked) => Ok(wanted.is_none()),
        Err(error) => Err(error),
    }
}

/// Whether what is saved of a world is saved again, once it was loaded, as the row says.
fn comes_back(alloc: Global, world: &World, row: &Row) -> Result<bool, Error> {
    let mut new = parts(alloc);
    match saved_and_loaded_again(
        alloc,
        &world.parts,
        &world.entities,
        &world.markers,
        &mut new,
    ) {
        Ok(Some(loaded)) => {
            let text = text_of(alloc, loaded.again.as_slice())?;
            Ok(row.all == Some(text.as_str()))
        }
        Ok(None) => Ok(false),
        Err(Error::Unmarked) => Ok(row.all.is_none()),
        Err(error) => Err(error),
    }
}

/// Whether a world is saved as its row says.
fn holds(alloc: Global, row: &Row) -> Result<bool, Error> {
    let mut world = empty(alloc, 100);
    for step in row.steps {
        take(&mut world, step)?;
    }
    let owners = world
        .parts
        .0
        .serialize(alloc, &world.entities, &world.markers);
    let all = world
        .parts
        .serialize(alloc, &world.entities, &world.markers);
    Ok(
        is_text(alloc, owners, row.owners)?
            && is_text(alloc, all, row.all)?
            && comes_back(alloc, &world, row)?,
    )
}

#[test]
fn worlds_are_saved_by_rows(rt: HostRuntime) {
    let mut wrong = None;
    for row in &ROWS {
        if !matches!(holds(rt.alloc(), row), Ok(true)) {
            wrong = Some(row.name);
        }
    }
    assert_eq!(rt; wrong, None);
}

/// Whether each entry of a list has the data that is saved of its entity's parts alone.
fn alone_as_in_the_whole(alloc: Global) -> Result<bool, Error> {
    let mut world = empty(alloc, 100);
    for step in &[
        Create,
        Create,
        Create,
        Mark(2),
        Mark(0),
        Own(2, 0),
        Own(0, 2),
        Heal(0, 7),
        Heal(1, 8),
    ] {
        take(&mut world, step)?;
    }
    let list = world
        .parts
        .serialize(alloc, &world.entities, &world.markers)?;
    let names = Marks {
        entities: &world.entities,
        markers: &world.markers,
    };
    let mut same = list.as_slice().len() == 2;
    for entry in list.as_slice() {
        let Some(entity) = world.allocator.retrieve_entity_internal(entry.marker.id()) else {
            return Ok(false);
        };
        let alone = world.parts.serialize_entity(alloc, entity, &names)?;
        same = same && alone == entry.components;
    }
    Ok(same)
}

#[test]
fn one_entity_alone_has_the_data_of_its_entry(rt: HostRuntime) {
    assert!(rt; matches!(alone_as_in_the_whole(rt.alloc()), Ok(true)));
}

/// How many entities are marked, each of which is saved alone as the whole list has it.
fn count_marked(alloc: Global, world: &World) -> Result<usize, Error> {
    let mut count = 0;
    for entity in world.born.as_slice() {
        match one_entity_is_saved_as_in_the_whole(
            &world.parts.1,
            alloc,
            *entity,
            &world.entities,
            &world.markers,
        )? {
            Some(_) => count += 1,
            None => {}
        }
    }
    Ok(count)
}

/// Whether a world is saved with all that its owners name as its row says.
fn reaches(alloc: Global, row: &ReachRow) -> Result<bool, Error> {
    let mut world = empty(alloc, 100);
    for step in row.steps {
        take(&mut world, step)?;
    }
    let saved = world.parts.0.serialize_recursive(
        alloc,
        &world.entities,
        &mut world.markers,
        &mut world.allocator,
    );
    Ok(is_text(alloc, saved, row.saved)? && count_marked(alloc, &world)? == row.marked)
}

#[test]
fn worlds_are_saved_with_all_that_is_named(rt: HostRuntime) {
    let mut wrong = None;
    for row in &REACHED {
        if !matches!(reaches(rt.alloc(), row), Ok(true)) {
            wrong = Some(row.name);
        }
    }
    assert_eq!(rt; wrong, None);
}

/// Whether an entity in the making is marked, and another gets the next marker.
fn builds(alloc: Global) -> Result<bool, Error> {
    let mut world = empty(alloc, 100);
    let first = match world
        .entities
        .build_entity()?
        .marked(&mut world.markers, &mut world.allocator)
    {
        Ok(builder) => builder.build(),
        Err((error, _)) => return Err(error),
    };
    let second = world.entities.create()?;
    let mark = world
        .allocator
        .mark(second, &mut world.markers, &world.entities)?;
    Ok(first.id() == 0 && world.markers.contains(0) && mark == Some((1, true)))
}

#[test]
fn entities_in_the_making_are_marked(rt: HostRuntime) {
    assert!(rt; matches!(builds(rt.alloc()), Ok(true)));
}

/// The list of a text.
fn list_of(
    alloc: Global,
    text: &str,
) -> Result<Vec<EntityData<SimpleMarker<Net>, Data>>, FormError> {
    let Ok(json) = Value::from_str(alloc, text) else {
        return Err(FormError::whole());
    };
    list_from_value(alloc, &json)
}

/// Whether lists are loaded as their row says.
fn loads(alloc: Global, row: &LoadRow) -> Result<bool, Error> {
    let mut world = empty(alloc, row.indices);
    let mut refused = None;
    for text in row.lists {
        let Ok(list) = list_of(alloc, text) else {
            return Ok(false);
        };
        match world.parts.deserialize(
            alloc,
            list,
            &mut world.entities,
            &mut world.markers,
            &mut world.allocator,
        ) {
            Ok(()) => {}
            Err(refusal) => refused = Some(refusal.place),
        }
    }
    let saved = world
        .parts
        .serialize(alloc, &world.entities, &world.markers);
    Ok(is_text(alloc, saved, Some(row.saved))? && refused == row.refused)
}

#[test]
fn lists_are_loaded_by_rows(rt: HostRuntime) {
    let mut wrong = None;
    for row in &LOADS {
        if !matches!(loads(rt.alloc(), row), Ok(true)) {
            wrong = Some(row.name);
        }
    }
    assert_eq!(rt; wrong, None);
}

/// The id of the marker that an entity gets which is made after a world of two that own each other was saved and loaded.
fn marked_after_two(alloc: Global) -> Result<Option<u64>, Error> {
    let mut world = empty(alloc, 100);
    for step in &[Create, Create, Mark(0), Mark(1), Own(0, 1), Own(1, 0)] {
        take(&mut world, step)?;
    }
    let mut new = parts(alloc);
    marked_after_a_round(
        alloc,
        &world.parts,
        &world.entities,
        &world.markers,
        &mut new,
    )
}

#[test]
fn a_marker_after_a_load_is_new(rt: HostRuntime) {
    assert!(rt; matches!(marked_after_two(rt.alloc()), Ok(Some(2))));
}
