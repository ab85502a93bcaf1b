//! Entities with three parts each, which are saved and loaded.
use crate::saving::goals::Goal;
use hibitset::BitSetLike;
use serde_json::Value;
use specs_entity::{EntitiesRes, Entity, Error};
use specs_layouts::{DenseVecStorage, MaskedStorage, TryDefault, VecStorage};
use specs_markers::{MarkerAllocator, SimpleMarker, SimpleMarkerAllocator};
use specs_saveload::{
    DeserializeComponents, EntityData, FormError, JsonForm, SerializeComponents, list_from_value,
};
use std::alloc::{AllocError, Global};
use world_cases::saving::kinds::{Health, Owner};

/// What the markers are for.
pub struct Saved;

/// Healths, goals and owners.
type Parts = (
    MaskedStorage<Health>,
    MaskedStorage<Goal>,
    MaskedStorage<Owner>,
);

/// What is saved of an entity's parts.
type Data = (
    Option<i64>,
    Option<Option<i64>>,
    Option<SimpleMarker<Saved>>,
);

/// What is saved of an entity.
type Entry = EntityData<SimpleMarker<Saved>, Data>;

/// What is saved of entities.
pub type Entries = Vec<Entry>;

/// Entities with their markers and parts.
#[derive(Drop)]
pub struct Scene {
    entities: EntitiesRes,
    markers: MaskedStorage<SimpleMarker<Saved>>,
    allocator: SimpleMarkerAllocator<Saved>,
    parts: Parts,
}

/// The goal of the entity with that number: it for an even one, else none.
pub fn goal_of(number: u32) -> Option<i64> {
    if number % 2 == 0 {
        Some(number as i64)
    } else {
        None
    }
}

impl Scene {
    /// A scene without entities.
    fn empty(alloc: Global) -> Scene {
        Scene {
            entities: EntitiesRes::new(alloc),
            markers: MaskedStorage::new(alloc, DenseVecStorage::unwrap_default(alloc)),
            allocator: SimpleMarkerAllocator::new(alloc),
            parts: (
                MaskedStorage::new(alloc, VecStorage::unwrap_default(alloc)),
                MaskedStorage::new(alloc, VecStorage::unwrap_default(alloc)),
                MaskedStorage::new(alloc, DenseVecStorage::unwrap_default(alloc)),
            ),
        }
    }

    /// So many entities, each owned by the next and the last by the first, of which the first so many are marked.
    ///
    /// Errors: those of births and marks.
    pub fn new(alloc: Global, count: u32, marked: u32) -> Result<Scene, Error> {
        let mut scene = Scene::empty(alloc);
        scene.fill(count, marked)?;
        Ok(scene)
    }

    /// Makes so many entities, each owned by the next and the last by the first, of which the first so many are marked.
    fn fill(&mut self, count: u32, marked: u32) -> Result<(), Error> {
        let mut first = None;
        let mut before = None;
        for number in 0..count {
            let entity = self.make(number, number < marked)?;
            match before {
                Some(before) => self.own(before, entity)?,
                None => first = Some(entity),
            }
            before = Some(entity);
        }
        match (first, before) {
            (Some(first), Some(last)) => self.own(last, first),
            _ => Ok(()),
        }
    }

    /// Makes an entity with its health and its goal, and marks it or not.
    fn make(&mut self, number: u32, is_marked: bool) -> Result<Entity, Error> {
        let entity = self.entities.allocate()?;
        if self
            .parts
            .0
            .insert(entity.id(), Health(number as i64))
            .is_err()
        {
            return Err(Error::Memory);
        }
        if self
            .parts
            .1
            .insert(entity.id(), Goal(goal_of(number)))
            .is_err()
        {
            return Err(Error::Memory);
        }
        if is_marked {
            self.mark(entity)?;
        }
        Ok(entity)
    }

    /// Marks an entity.
    fn mark(&mut self, entity: Entity) -> Result<(), Error> {
        let _ = self
            .allocator
            .mark(entity, &mut self.markers, &self.entities)?;
        Ok(())
    }

    /// Gives an entity an owner.
    fn own(&mut self, entity: Entity, owner: Entity) -> Result<(), Error> {
        if self.entities.is_alive(entity)
            && self.parts.2.insert(entity.id(), Owner(owner)).is_err()
        {
            return Err(Error::Memory);
        }
        Ok(())
    }

    /// What is saved of the marked ones.
    pub fn entries(&self, alloc: Global) -> Result<Entries, Error> {
        self.parts.serialize(alloc, &self.entities, &self.markers)
    }

    /// What is saved of the marked ones and of all that they name.
    pub fn reached(&mut self, alloc: Global) -> Result<Entries, Error> {
        self.parts.serialize_recursive(
            alloc,
            &self.entities,
            &mut self.markers,
            &mut self.allocator,
        )
    }

    /// A scene into which entries were loaded.
    ///
    /// Errors: those of `deserialize`.
    pub fn loaded(alloc: Global, entries: Entries) -> Result<Scene, Error> {
        let mut scene = Scene::empty(alloc);
        match scene.parts.deserialize(
            alloc,
            entries,
            &mut scene.entities,
            &mut scene.markers,
            &mut scene.allocator,
        ) {
            Ok(()) => Ok(scene),
            Err(refused) => Err(refused.error),
        }
    }

    /// The sums of healths, of goals and of the owners' indices, which go round at 2 ^ 64.
    pub fn sums(&self) -> (i64, i64, u64) {
        (self.healths(), self.goals(), self.owners())
    }

    /// The sum of the healths.
    fn healths(&self) -> i64 {
        let mut sum = 0i64;
        for id in self.parts.0.mask().iter() {
            if self.parts.0.contains(id) {
                sum = sum.wrapping_add(self.parts.0.get(id).0);
            }
        }
        sum
    }

    /// The sum of the goals that are there.
    fn goals(&self) -> i64 {
        let mut sum = 0i64;
        for id in self.parts.1.mask().iter() {
            if self.parts.1.contains(id) {
                sum = sum.wrapping_add(self.parts.1.get(id).0.unwrap_or(0));
            }
        }
        sum
    }

    /// The sum of the owners' indices.
    fn owners(&self) -> u64 {
        let mut sum = 0u64;
        for id in self.parts.2.mask().iter() {
            if self.parts.2.contains(id) {
                sum = sum.wrapping_add(self.parts.2.get(id).0.id() as u64);
            }
        }
        sum
    }
}

/// Puts the JSON of an entry behind the others.
fn push_value(values: &mut Vec<Value>, alloc: Global, entry: &Entry) -> Result<(), AllocError> {
    values.push(entry.to_value(alloc)?)?;
    Ok(())
}

/// The JSON of entries.
pub fn value_of(alloc: Global, entries: &Entries) -> Result<Value, AllocError> {
    let mut values = Vec::new(alloc);
    for entry in entries {
        push_value(&mut values, alloc, entry)?;
    }
    Ok(Value::Array(values))
}

/// The entries of a JSON.
pub fn entries_of(alloc: Global, json: &Value) -> Result<Entries, FormError> {
    list_from_value(alloc, json)
}
