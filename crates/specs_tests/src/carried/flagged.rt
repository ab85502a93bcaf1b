//! Parts of fifteen entities whose changes are told: put, written and taken out.
use crate::flags::Armor;
use crate::parts::made;
use specs_entity::{EntitiesRes, Entity};
use specs_layouts::{ComponentEvent, ReaderId};
use specs_storage::{LentStorageMut, Storage};
use std::alloc::{AllocError, Global};

/// What is done to each part.
#[derive(Clone, Copy)]
enum Kind {
    Put,
    Written,
    Taken,
}

impl Kind {
    /// The event that tells of it.
    fn of(self, id: u32) -> ComponentEvent {
        match self {
            Kind::Put => ComponentEvent::Inserted(id),
            Kind::Written => ComponentEvent::Modified(id),
            Kind::Taken => ComponentEvent::Removed(id),
        }
    }

    /// Does it to the part of an entity, and answers whether it was done.
    fn done(self, storage: &mut LentStorageMut<'_, Armor>, entity: Entity) -> bool {
        match self {
            Kind::Put => matches!(storage.insert(entity, Armor(entity.id())), Ok(None)),
            Kind::Written => match storage.get_mut(entity) {
                Ok(part) => {
                    part.0 = 100;
                    true
                }
                Err(_) => false,
            },
            Kind::Taken => matches!(storage.remove(entity), Ok(Some(_))),
        }
    }
}

/// Does it to the part of each entity, and answers the events that tell of it, or none where it wasn't done.
fn done_to_all(
    alloc: Global,
    storage: &mut LentStorageMut<'_, Armor>,
    entities: &[Entity],
    kind: Kind,
) -> Result<Vec<ComponentEvent>, AllocError> {
    let mut wanted = Vec::new(alloc);
    for entity in entities {
        if kind.done(storage, *entity) {
            wanted.push(kind.of(entity.id()))?;
        }
    }
    Ok(wanted)
}

/// Whether it is done to the part of each entity, and the reader reads of it, once an entity and of nothing else.
fn tells(
    alloc: Global,
    storage: &mut LentStorageMut<'_, Armor>,
    reader: &ReaderId,
    entities: &[Entity],
    kind: Kind,
) -> Result<bool, AllocError> {
    let wanted = done_to_all(alloc, storage, entities, kind)?;
    let mut list = Vec::new(alloc);
    storage.channel_mut().read(reader, &mut list)?;
    Ok(wanted.len() == entities.len() && list.as_slice() == wanted.as_slice())
}

/// Fifteen entities that are born in a row.
fn fifteen(alloc: Global, entities: &mut EntitiesRes) -> Result<Vec<Entity>, AllocError> {
    let mut born = Vec::new(alloc);
    for _ in 0..15 {
        match entities.create() {
            Ok(entity) => born.push(entity)?,
            Err(_) => return Err(AllocError),
        }
    }
    Ok(born)
}

/// Whether all that is done to the parts of these entities is told.
fn all_is_told(
    alloc: Global,
    storage: &mut LentStorageMut<'_, Armor>,
    entities: &[Entity],
) -> Result<bool, AllocError> {
    let reader = storage.register_reader()?;
    for kind in [Kind::Put, Kind::Written, Kind::Taken] {
        if !tells(alloc, storage, &reader, entities, kind)? {
            return Ok(false);
        }
    }
    Ok(storage.event_emission())
}

/// Whether it is of fifteen entities.
fn holds(alloc: Global) -> Result<bool, AllocError> {
    let mut entities = EntitiesRes::new(alloc);
    let born = fifteen(alloc, &mut entities)?;
    match made::<Armor>(alloc) {
        Some(mut parts) => {
            let mut storage = Storage::new(&entities, &mut parts);
            all_is_told(alloc, &mut storage, born.as_slice())
        }
        None => Ok(false),
    }
}

#[test]
fn changes_of_parts_are_told(rt: HostRuntime) {
    assert_eq!(rt; holds(rt.alloc()), Ok(true));
}
