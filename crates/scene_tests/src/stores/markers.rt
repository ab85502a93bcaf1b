//! Markers of a scene: the next id is the document's, and nothing is given past the greatest.
use scene_world::{SceneMarker, SceneMarkerAllocator, no_markers};
use specs_entity::{EntitiesRes, Entity, Error};
use specs_layouts::{ComponentEvent, MaskedStorage};
use specs_markers::{Marker, MarkerAllocator};
use std::alloc::Global;

/// Two entities.
fn born(entities: &mut EntitiesRes) -> Result<(Entity, Entity), Error> {
    let one = entities.allocate()?;
    let other = entities.allocate()?;
    Ok((one, other))
}

/// The id that is asked for, the one that is given, and what comes next then. None is given where no id is left.
type Giving = (Option<u64>, Option<u64>, u64);

/// What is given one after another, from a document's next id on.
struct Row {
    name: &'static str,
    next: u64,
    given: &'static [Giving],
}

const ROWS: [Row; 3] = [
    Row {
        name: "ids of a document, and then new ones",
        next: 10,
        given: &[
            (Some(3), Some(3), 10),
            (Some(9), Some(9), 10),
            (None, Some(10), 11),
            (None, Some(11), 12),
        ],
    },
    Row {
        name: "an id that isn't below the next one",
        next: 2,
        given: &[
            (Some(2), Some(2), 3),
            (Some(7), Some(7), 8),
            (None, Some(8), 9),
        ],
    },
    Row {
        name: "no id is left",
        next: u64::MAX,
        given: &[
            (Some(1), Some(1), u64::MAX),
            (None, None, u64::MAX),
            (Some(u64::MAX), None, u64::MAX),
        ],
    },
];

/// Whether what is given for an entity is what the row says.
fn gives(alloc: Global, entity: Entity, row: &Row) -> Result<bool, Error> {
    let mut allocator = SceneMarkerAllocator::new(alloc, row.next);
    let mut right = allocator.next() == row.next;
    for (asked, wanted, next) in row.given {
        let given = match allocator.allocate(entity, *asked) {
            Ok(marker) => Some(marker.id()),
            Err(Error::MarkersSpent) => None,
            Err(error) => return Err(error),
        };
        right = right && given == *wanted && allocator.next() == *next;
    }
    Ok(right)
}

/// Whether a row holds.
fn holds(alloc: Global, row: &Row) -> Result<bool, Error> {
    let mut entities = EntitiesRes::new(alloc);
    let (one, _) = born(&mut entities)?;
    gives(alloc, one, row)
}

#[test]
fn ids_are_given_from_the_next_one_on(rt: HostRuntime) {
    let mut wrong = None;
    for row in &ROWS {
        if !matches!(holds(rt.alloc(), row), Ok(true)) {
            wrong = Some(row.name);
        }
    }
    assert_eq!(rt; wrong, None);
}

/// Whether a marked entity is found, and what is forgotten isn't.
fn finds(
    allocator: &mut SceneMarkerAllocator,
    markers: &mut MaskedStorage<SceneMarker>,
    entities: &EntitiesRes,
    entity: Entity,
) -> Result<bool, Error> {
    let marked = allocator.mark(entity, markers, entities)?;
    let found = allocator.retrieve_entity_internal(7) == Some(entity);
    allocator.forget(7);
    let gone = allocator.retrieve_entity_internal(7).is_none();
    Ok(marked == Some((7, true)) && found && gone && allocator.next() == 8)
}

/// What a reader of the markers is told as an entity is marked and found.
fn told(alloc: Global) -> Result<(bool, Vec<ComponentEvent>), Error> {
    let mut entities = EntitiesRes::new(alloc);
    let (one, _) = born(&mut entities)?;
    let mut markers = no_markers(alloc);
    let Ok(reader) = markers.register_reader() else {
        return Err(Error::Memory);
    };
    let mut allocator = SceneMarkerAllocator::new(alloc, 7);
    let found = finds(&mut allocator, &mut markers, &entities, one)?;
    let mut events = Vec::new(alloc);
    match markers.channel_mut().read(&reader, &mut events) {
        Ok(()) => Ok((found, events)),
        Err(_) => Err(Error::Memory),
    }
}

/// Whether a marked entity is found until it is forgotten, and a reader is told of its marker.
fn marks_and_forgets(alloc: Global) -> Result<bool, Error> {
    let (found, events) = told(alloc)?;
    let wanted = [ComponentEvent::Inserted(0), ComponentEvent::Modified(0)];
    Ok(found && events.as_slice() == wanted.as_slice())
}

#[test]
fn a_marked_entity_is_found_until_it_is_forgotten(rt: HostRuntime) {
    assert!(rt; matches!(marks_and_forgets(rt.alloc()), Ok(true)));
}

/// Marks two entities, one of which dies then, and notes the living.
fn maintained(
    allocator: &mut SceneMarkerAllocator,
    markers: &mut MaskedStorage<SceneMarker>,
    entities: &mut EntitiesRes,
    one: Entity,
    other: Entity,
) -> Result<(), Error> {
    let _ = allocator.mark(one, markers, entities)?;
    let _ = allocator.mark(other, markers, entities)?;
    entities.kill(&[one])?;
    allocator.maintain(entities, markers)
}

/// Whether the living alone are noted again.
fn maintains(alloc: Global) -> Result<bool, Error> {
    let mut entities = EntitiesRes::new(alloc);
    let (one, other) = born(&mut entities)?;
    let mut markers = no_markers(alloc);
    let mut allocator = SceneMarkerAllocator::new(alloc, 0);
    maintained(&mut allocator, &mut markers, &mut entities, one, other)?;
    Ok(
        allocator.retrieve_entity_internal(0).is_none()
            && allocator.retrieve_entity_internal(1) == Some(other)
            && allocator.next() == 2,
    )
}

#[test]
fn the_dead_are_not_noted_again(rt: HostRuntime) {
    assert!(rt; matches!(maintains(rt.alloc()), Ok(true)));
}
