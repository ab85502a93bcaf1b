//! Joins of storages and entities.
use crate::joins::{Joins, NOTHING, Parts, Row, wrong};
use crate::parts::{Level, Mood, Numbered};
use specs_entity::{EntitiesRes, Entity};
use specs_join::Join;
use specs_layouts::{HashMapStorage, MaskedStorage, TryDefault, VecStorage};
use specs_storage::Storage;
use std::alloc::{AllocError, Global};

const ROWS: [Row; 1] = [Row {
    name: "two storages join where both have a part",
    parts: Parts {
        masses: &[0, 1, 2],
        moods: &[0, 1],
        ..NOTHING
    },
    joins: Joins::Both(&[(1, 0), (2, 2)]),
}];

/// Entities with levels and moods.
#[derive(Drop)]
struct Population {
    entities: EntitiesRes,
    levels: MaskedStorage<Level>,
    moods: MaskedStorage<Mood>,
}

impl Population {
    /// Nobody.
    fn new(alloc: Global) -> Population {
        Population {
            entities: EntitiesRes::new(alloc),
            levels: MaskedStorage::new(alloc, VecStorage::unwrap_default(alloc)),
            moods: MaskedStorage::new(alloc, HashMapStorage::unwrap_default(alloc)),
        }
    }

    /// Bears the next entity at an index, with a level and a mood.
    fn bears(&mut self, id: u32, level: u32, mood: u32) -> Entity {
        let _ = self.entities.allocate().is_ok();
        let entity = self.entities.entity(id);
        let _ = Storage::new(&self.entities, &mut self.levels)
            .insert(entity, Level(level))
            .is_ok();
        let _ = Storage::new(&self.entities, &mut self.moods)
            .insert(entity, Mood::made(mood))
            .is_ok();
        entity
    }

    /// What a join has at an entity that is asked for.
    fn at(&self, entity: Entity) -> Option<(u32, u32)> {
        let walk = (&self.levels, &self.moods).join();
        match walk.get(entity, &self.entities) {
            Some((level, mood)) => Some((level.0, mood.number())),
            None => None,
        }
    }

    /// What is at an entity with both parts, once one of them is taken out, and once another entity lives at its index; and
    /// what is at that one.
    fn asked(&mut self) -> [Option<(u32, u32)>; 4] {
        let entity = self.bears(0, 1, 1);
        let both = self.at(entity);
        let _ = Storage::new(&self.entities, &mut self.moods)
            .remove(entity)
            .is_ok();
        let one = self.at(entity);
        let _ = self.entities.kill(&[entity]).is_ok();
        let other = self.bears(0, 2, 0);
        [both, one, self.at(entity), self.at(other)]
    }
}

#[test]
fn a_join_is_asked_at_an_entity(rt: HostRuntime) {
    let asked = Population::new(rt.alloc()).asked();
    let shared = wrong(&rt, rt.alloc(), &ROWS);
    assert_eq!(rt;
        (asked, shared),
        ([Some((1, 1)), None, None, Some((2, 0))], None)
    );
}

/// A sequence of numbers that looks like chance.
#[derive(Drop)]
struct Sequence(u32);

impl Sequence {
    fn next(&mut self) -> u32 {
        self.0 = self.0.wrapping_mul(214013).wrapping_add(2531011);
        self.0 % 32767
    }

    /// A number below 256.
    fn small(&mut self) -> u32 {
        self.next().wrapping_sub(127) & 255
    }
}

/// The entities whose level is lowest so far, in the order of their indices.
fn lowest(
    alloc: Global,
    entities: &EntitiesRes,
    levels: &MaskedStorage<Level>,
) -> Result<Vec<Entity>, AllocError> {
    let mut lowest = Vec::new(alloc);
    let mut least: u32 = 256;
    for (level, entity) in (levels, entities).join() {
        if level.0 <= least {
            least = level.0;
            lowest.push(entity)?;
        }
    }
    Ok(lowest)
}

/// Whether the last so many of a list are deleted at the next merge.
fn deletes(entities: &mut EntitiesRes, list: &[Entity], count: usize) -> bool {
    for (place, entity) in list.iter().enumerate() {
        if place.wrapping_add(count) >= list.len() && entities.delete(*entity).is_err() {
            return false;
        }
    }
    true
}

/// Whether an entity is born with a level.
fn puts_one(entities: &mut EntitiesRes, levels: &mut MaskedStorage<Level>, level: u32) -> bool {
    match entities.create() {
        Ok(entity) => Storage::new(entities, levels)
            .insert(entity, Level(level))
            .is_ok(),
        Err(_) => false,
    }
}

impl Population {
    /// Whether so many entities are born, each with the next level.
    fn puts(&mut self, sequence: &mut Sequence, count: u32) -> bool {
        for _ in 0..count {
            if !puts_one(&mut self.entities, &mut self.levels, sequence.small()) {
                return false;
            }
        }
        true
    }

    /// Whether up to 24 of the lowest so far are deleted, and as many entities are born.
    fn passes_round(&mut self, alloc: Global, sequence: &mut Sequence) -> bool {
        let count = sequence.next() % 25;
        let is_deleted = match lowest(alloc, &self.entities, &self.levels) {
            Ok(list) => deletes(&mut self.entities, list.as_slice(), count as usize),
            Err(_) => false,
        };
        is_deleted && self.puts(sequence, count)
    }

    /// Whether births and deletions without a merge, a hundred rounds of them, are all accepted.
    fn passes(&mut self, alloc: Global, sequence: &mut Sequence) -> bool {
        if !self.puts(sequence, 100) {
            return false;
        }
        for _ in 0..100u32 {
            if !self.passes_round(alloc, sequence) {
                return false;
            }
        }
        true
    }
}

#[test]
fn an_entity_lives_from_its_birth_on(rt: HostRuntime) {
    let mut sequence = Sequence(3735928559);
    let is_passed = Population::new(rt.alloc()).passes(rt.alloc(), &mut sequence);
    assert!(rt; is_passed);
}
