//! Births, deaths and merges, call by call, and the texts of errors.
use hibitset::BitSetLike;
use specs_entity::laws::the_living_are_below_the_limit;
use specs_entity::{BoxedErr, EntitiesRes, Entity, Error, WrongGeneration};
use std::alloc::{AllocError, Global};

/// What a call on entities answers.
#[derive(Clone, Copy, PartialEq, Eq)]
pub enum Answer {
    /// The entity of this index and signed generation.
    Entity(u32, i32),
    /// It was accepted.
    Accepted,
    /// No index is left.
    IndicesSpent,
    /// No generation is left at the next index.
    GenerationsSpent,
    /// This entity isn't alive, or stands in a list twice, and the generation at its index.
    WrongGeneration(u32, i32, i32),
    /// Another refusal.
    Refused,
}

use Answer::{Accepted, GenerationsSpent, IndicesSpent, Refused};

/// A call with what it has to answer. Each entity that a call gives is noted, and later calls name it by its place among
/// those that were noted.
pub enum Call {
    /// A birth that is persistent at once.
    Allocates(Answer),
    /// A birth that is persistent from the next merge on.
    Creates(Answer),
    /// A row of so many such births.
    CreatesRow(usize, Answer, &'static [(u32, i32)]),
    /// An entity that is built.
    Builds(Answer),
    /// An entity whose builder is dropped.
    Drops(Answer),
    /// Deaths now, in this order.
    Kills(&'static [usize], Answer),
    /// A death at the next merge.
    Deletes(usize, Answer),
    /// The deaths that were put off.
    Merges(&'static [(u32, i32)]),
    /// The entity that stands for an index.
    Finds(u32, Answer),
    /// Whether an entity is alive.
    Lives(usize, bool),
    /// The generation of the last persistent birth at an index.
    Persists(u32, Option<i32>),
    /// The indices of the living.
    Masks(&'static [u32]),
    /// Whether the deletions of two entities, both dead, are refused alike.
    RefusesAlike(usize, usize, bool),
    /// So many births that are persistent from the next merge on, each deleted at once if asked for.
    CreatesMany(u32, bool),
    /// How many deaths were put off.
    MergesMany(usize),
    /// How many indices have a living entity.
    CountsLiving(usize),
    /// So many rounds of births of both sorts, with a death between, and a merge after them, all ten times, which give new
    /// entities alone.
    Mixes(u32),
    /// The deaths, now or at the next merge, of all that were noted, and none is noted then.
    Ends(bool),
}

use Call::{
    Allocates, Builds, CountsLiving, Creates, CreatesMany, CreatesRow, Deletes, Drops, Ends, Finds,
    Kills, Lives, Masks, Merges, MergesMany, Mixes, Persists, RefusesAlike,
};

/// Calls on entities with limits of their indices and of the generations at each.
pub struct Row {
    /// What is tested.
    pub name: &'static str,
    /// How many indices there are.
    pub indices: u32,
    /// How many entities may live at each.
    pub generations: u32,
    /// The calls.
    pub calls: &'static [Call],
}

/// Entities, and those that calls gave.
#[derive(Drop)]
struct Noted {
    entities: EntitiesRes,
    list: Vec<Entity>,
}

/// The answer that tells an entity.
fn told(entity: Entity) -> Answer {
    Answer::Entity(entity.id(), entity.generation().id())
}

/// The answer that tells that an entity isn't alive.
fn not_alive(refusal: &WrongGeneration) -> Answer {
    let entity = refusal.entity;
    Answer::WrongGeneration(
        entity.id(),
        entity.generation().id(),
        refusal.actual_gen.id(),
    )
}

/// The answer that tells a refusal.
fn refused(error: &Error) -> Answer {
    match error {
        Error::IndicesSpent => IndicesSpent,
        Error::GenerationsSpent => GenerationsSpent,
        Error::WrongGeneration(refusal) => not_alive(refusal),
        _ => Refused,
    }
}

/// Notes an entity.
fn note(list: &mut Vec<Entity>, entity: Entity) -> Answer {
    match list.push(entity) {
        Ok(()) => told(entity),
        Err(_) => Refused,
    }
}

/// Notes a birth.
fn note_birth(list: &mut Vec<Entity>, birth: Result<Entity, Error>) -> Answer {
    match birth {
        Ok(entity) => note(list, entity),
        Err(error) => refused(&error),
    }
}

/// Whether an entity has this index and this signed generation.
fn is(entity: Entity, wanted: (u32, i32)) -> bool {
    entity.id() == wanted.0 && entity.generation().id() == wanted.1
}

/// Whether a list has these entities.
fn are(list: &[Entity], wanted: &[(u32, i32)]) -> bool {
    if list.len() != wanted.len() {
        return false;
    }
    for (entity, pair) in list.iter().zip(wanted) {
        if !is(*entity, *pair) {
            return false;
        }
    }
    true
}

/// Whether so many births are accepted without a merge, and the deletion of each if asked for.
fn create_many(entities: &mut EntitiesRes, count: u32, deletes: bool) -> bool {
    for _ in 0..count {
        match entities.create() {
            Ok(entity) => {
                if deletes && entities.delete(entity).is_err() {
                    return false;
                }
            }
            Err(_) => return false,
        }
    }
    true
}

/// Whether the entities of a list all die, now or at the next merge.
fn all_end(entities: &mut EntitiesRes, list: &[Entity], is_now: bool) -> bool {
    for entity in list {
        let is_over = if is_now {
            entities.kill(&[*entity]).is_ok()
        } else {
            entities.delete(*entity).is_ok()
        };
        if !is_over {
            return false;
        }
    }
    true
}

/// Notes an entity that has to be new.
fn note_new(list: &mut Vec<Entity>, birth: Result<Entity, Error>) -> bool {
    match birth {
        Ok(entity) => !list.contains(&entity) && list.push(entity).is_ok(),
        Err(_) => false,
    }
}

/// Whether an entity is born, lives, and is dead once it is killed.
fn passes(entities: &mut EntitiesRes) -> bool {
    match entities.allocate() {
        Ok(entity) => {
            entities.is_alive(entity)
                && entities.kill(&[entity]).is_ok()
                && !entities.is_alive(entity)
        }
        Err(_) => false,
    }
}

/// Whether four births of both sorts, with a death between, give entities that were never noted.
fn mix(entities: &mut EntitiesRes, list: &mut Vec<Entity>) -> bool {
    note_new(list, entities.allocate())
        && passes(entities)
        && note_new(list, entities.create())
        && note_new(list, entities.create())
        && note_new(list, entities.allocate())
}

/// Whether so many rounds of such births do.
fn mix_all(entities: &mut EntitiesRes, list: &mut Vec<Entity>, count: u32) -> bool {
    for _ in 0..count {
        if !mix(entities, list) {
            return false;
        }
    }
    true
}

impl Noted {
    /// An entity that was noted.
    fn at(&self, place: usize) -> Option<Entity> {
        self.list.get(place).copied()
    }

    fn allocate(&mut self) -> Answer {
        let birth = self.entities.allocate();
        note_birth(&mut self.list, birth)
    }

    fn create(&mut self) -> Answer {
        let birth = self.entities.create();
        note_birth(&mut self.list, birth)
    }

    /// A row of births, of whom the last ones that were noted have to be these.
    fn create_row(&mut self, count: usize, wanted: &[(u32, i32)]) -> Answer {
        let before = self.list.len();
        match self.entities.create_iter(count) {
            Ok(row) => {
                for entity in row {
                    let _ = note(&mut self.list, entity);
                }
            }
            Err(error) => return refused(&error),
        }
        match self.list.as_slice().get(before..) {
            Some(row) if are(row, wanted) => Accepted,
            _ => Refused,
        }
    }

    fn build(&mut self) -> Answer {
        match self.entities.build_entity() {
            Ok(builder) => note(&mut self.list, builder.build()),
            Err(error) => refused(&error),
        }
    }

    /// An entity whose builder is dropped.
    fn drop_builder(&mut self) -> Answer {
        match self.entities.build_entity() {
            Ok(builder) => note(&mut self.list, builder.entity),
            Err(error) => refused(&error),
        }
    }

    /// The entities at these places.
    fn listed(&self, alloc: Global, places: &[usize]) -> Option<Vec<Entity>> {
        let mut list = Vec::new(alloc);
        for place in places {
            list.push(self.at(*place)?).ok()?;
        }
        Some(list)
    }

    fn kill(&mut self, alloc: Global, places: &[usize]) -> Answer {
        let Some(list) = self.listed(alloc, places) else {
            return Refused;
        };
        match self.entities.kill(list.as_slice()) {
            Ok(()) => Accepted,
            Err(error) => refused(&error),
        }
    }

    fn delete(&mut self, place: usize) -> Answer {
        let Some(entity) = self.at(place) else {
            return Refused;
        };
        match self.entities.delete(entity) {
            Ok(()) => Accepted,
            Err(refusal) => not_alive(&refusal),
        }
    }

    /// Whether a merge ends these entities.
    fn merges(&mut self, wanted: &[(u32, i32)]) -> bool {
        match self.entities.merge() {
            Ok(dead) => are(dead.as_slice(), wanted),
            Err(_) => false,
        }
    }

    fn find(&mut self, id: u32) -> Answer {
        note(&mut self.list, self.entities.entity(id))
    }

    fn lives(&self, place: usize) -> bool {
        match self.at(place) {
            Some(entity) => self.entities.is_alive(entity),
            None => false,
        }
    }

    /// The signed generation of the last persistent birth at an index.
    fn persistent(&self, id: u32) -> Option<i32> {
        match self.entities.generation(id) {
            Some(generation) => Some(generation.id()),
            None => None,
        }
    }

    /// Whether the mask of the living has these indices.
    fn masks(&self, wanted: &[u32]) -> bool {
        the_living_are_below_the_limit(&self.entities);
        let mut left = wanted;
        for id in self.entities.mask() {
            match left.split_first() {
                Some((first, rest)) if *first == id => left = rest,
                _ => return false,
            }
        }
        left.is_empty()
    }

    /// The refusal of a deletion.
    fn refusal(&mut self, place: usize) -> Option<WrongGeneration> {
        let entity = self.at(place)?;
        self.entities.delete(entity).err()
    }

    /// Whether two deletions are refused alike.
    fn refuses_alike(&mut self, one: usize, other: usize) -> bool {
        match (self.refusal(one), self.refusal(other)) {
            (Some(first), Some(second)) => first == second,
            _ => false,
        }
    }

    /// Whether a merge ends so many entities.
    fn merges_many(&mut self, wanted: usize) -> bool {
        match self.entities.merge() {
            Ok(dead) => dead.len() == wanted,
            Err(_) => false,
        }
    }

    /// How many indices have a living entity.
    fn living(&self) -> usize {
        let mut count: usize = 0;
        for _index in self.entities.mask() {
            count = count.wrapping_add(1);
        }
        count
    }

    /// Whether all that were noted die, and none is noted then.
    fn ends(&mut self, is_now: bool) -> bool {
        let is_over = all_end(&mut self.entities, self.list.as_slice(), is_now);
        self.list.clear();
        is_over
    }

    /// Whether so many rounds of births give new entities alone, ten times, with a merge after each.
    fn mixes(&mut self, count: u32) -> bool {
        for _ in 0..10u32 {
            if !mix_all(&mut self.entities, &mut self.list, count)
                || self.entities.merge().is_err()
            {
                return false;
            }
        }
        true
    }

    /// Whether a call answers what it has to.
    fn answers(&mut self, alloc: Global, call: &Call) -> bool {
        match call {
            Allocates(wanted) => self.allocate() == *wanted,
            Creates(wanted) => self.create() == *wanted,
            CreatesRow(count, wanted, row) => self.create_row(*count, row) == *wanted,
            Builds(wanted) => self.build() == *wanted,
            Drops(wanted) => self.drop_builder() == *wanted,
            Kills(places, wanted) => self.kill(alloc, places) == *wanted,
            Deletes(place, wanted) => self.delete(*place) == *wanted,
            Merges(wanted) => self.merges(wanted),
            Finds(id, wanted) => self.find(*id) == *wanted,
            Lives(place, wanted) => self.lives(*place) == *wanted,
            Persists(id, wanted) => self.persistent(*id) == *wanted,
            Masks(wanted) => self.masks(wanted),
            RefusesAlike(one, other, wanted) => self.refuses_alike(*one, *other) == *wanted,
            CreatesMany(count, deletes) => create_many(&mut self.entities, *count, *deletes),
            MergesMany(wanted) => self.merges_many(*wanted),
            CountsLiving(wanted) => self.living() == *wanted,
            Mixes(count) => self.mixes(*count),
            Ends(is_now) => self.ends(*is_now),
        }
    }

    fn answers_all(&mut self, alloc: Global, calls: &[Call]) -> bool {
        for call in calls {
            if !self.answers(alloc, call) {
                return false;
            }
        }
        true
    }
}

/// Whether each call of a row answers what it has to.
fn holds(alloc: Global, row: &Row) -> bool {
    let mut noted = Noted {
        entities: EntitiesRes::with_limits(alloc, row.indices, row.generations),
        list: Vec::new(alloc),
    };
    noted.answers_all(alloc, row.calls)
}

/// The first of some rows that doesn't hold.
pub fn wrong(alloc: Global, rows: &[Row]) -> Option<&'static str> {
    for row in rows {
        if !holds(alloc, row) {
            return Some(row.name);
        }
    }
    None
}

/// As many indices as there are.
pub const ALL: u32 = 16777216;

/// As many generations as there are.
pub const MOST: u32 = 2147483647;

const ROWS: [Row; 12] = [
    Row {
        name: "indices are spent at their limit",
        indices: 2,
        generations: MOST,
        calls: &[
            Allocates(Answer::Entity(0, 1)),
            Allocates(Answer::Entity(1, 1)),
            Allocates(IndicesSpent),
        ],
    },
    Row {
        name: "generations are spent at their limit",
        indices: ALL,
        generations: 1,
        calls: &[
            Allocates(Answer::Entity(0, 1)),
            Kills(&[0], Accepted),
            Allocates(GenerationsSpent),
            Allocates(GenerationsSpent),
        ],
    },
    Row {
        name: "a list with a repeat kills nobody",
        indices: ALL,
        generations: MOST,
        calls: &[
            Allocates(Answer::Entity(0, 1)),
            Kills(&[0, 0], Answer::WrongGeneration(0, 1, 1)),
            Lives(0, true),
        ],
    },
    // The Rust crate leaves the first of such a list dead, and out of the cache.
    Row {
        name: "a dead entity in a list spares the others",
        indices: ALL,
        generations: MOST,
        calls: &[
            Allocates(Answer::Entity(0, 1)),
            Allocates(Answer::Entity(1, 1)),
            Kills(&[1], Accepted),
            Kills(&[0, 1], Answer::WrongGeneration(1, 1, -1)),
            Lives(0, true),
            Allocates(Answer::Entity(1, 2)),
            Allocates(Answer::Entity(2, 1)),
        ],
    },
    Row {
        name: "a kill fills the cache in its order",
        indices: ALL,
        generations: MOST,
        calls: &[
            Creates(Answer::Entity(0, 1)),
            Creates(Answer::Entity(1, 1)),
            Kills(&[1, 0], Accepted),
            Creates(Answer::Entity(0, 2)),
            Creates(Answer::Entity(1, 2)),
        ],
    },
    Row {
        name: "a merge fills the cache from the least index",
        indices: ALL,
        generations: MOST,
        calls: &[
            Creates(Answer::Entity(0, 1)),
            Creates(Answer::Entity(1, 1)),
            Deletes(1, Accepted),
            Deletes(0, Accepted),
            Merges(&[(0, 1), (1, 1)]),
            Creates(Answer::Entity(1, 2)),
            Creates(Answer::Entity(0, 2)),
        ],
    },
    // The Rust crate takes the first generation of an index that was never used, and a dead one, for alive.
    Row {
        name: "what was never born is not alive, and is what is born there later",
        indices: ALL,
        generations: MOST,
        calls: &[
            Finds(7, Answer::Entity(7, 1)),
            Lives(0, false),
            Deletes(0, Answer::WrongGeneration(7, 1, 1)),
            Finds(8, Answer::Entity(8, 1)),
            RefusesAlike(0, 0, true),
            RefusesAlike(0, 1, false),
            Finds(0, Answer::Entity(0, 1)),
            Creates(Answer::Entity(0, 1)),
            Lives(2, true),
        ],
    },
    Row {
        name: "no form of a dead entity is alive",
        indices: ALL,
        generations: MOST,
        calls: &[
            Allocates(Answer::Entity(0, 1)),
            Kills(&[0], Accepted),
            Finds(0, Answer::Entity(0, -1)),
            Lives(0, false),
            Lives(1, false),
        ],
    },
    // The Rust crate reads past its generations at an index that was raised and not merged.
    Row {
        name: "a fresh birth is persistent after the merge",
        indices: ALL,
        generations: MOST,
        calls: &[
            Creates(Answer::Entity(0, 1)),
            Persists(0, None),
            Kills(&[0], Accepted),
            Creates(Answer::Entity(0, 2)),
            Deletes(0, Answer::WrongGeneration(0, 1, -1)),
            Merges(&[]),
            Persists(0, Some(2)),
        ],
    },
    Row {
        name: "a builder that is dropped deletes its entity",
        indices: ALL,
        generations: MOST,
        calls: &[
            Drops(Answer::Entity(0, 1)),
            Builds(Answer::Entity(1, 1)),
            Masks(&[0, 1]),
            Merges(&[(0, 1)]),
            Lives(0, false),
            Masks(&[1]),
        ],
    },
    Row {
        name: "the mask has the indices of the living",
        indices: ALL,
        generations: MOST,
        calls: &[
            Masks(&[]),
            Allocates(Answer::Entity(0, 1)),
            Creates(Answer::Entity(1, 1)),
            Masks(&[0, 1]),
            Deletes(0, Accepted),
            Masks(&[0, 1]),
            Merges(&[(0, 1)]),
            Masks(&[1]),
        ],
    },
    Row {
        name: "births in a row are all or none",
        indices: 6,
        generations: MOST,
        calls: &[
            Creates(Answer::Entity(0, 1)),
            Kills(&[0], Accepted),
            CreatesRow(7, IndicesSpent, &[]),
            Finds(0, Answer::Entity(0, -1)),
            Masks(&[]),
            CreatesRow(4, Accepted, &[(0, 2), (1, 1), (2, 1), (3, 1)]),
            Finds(0, Answer::Entity(0, 2)),
            Masks(&[0, 1, 2, 3]),
            Creates(Answer::Entity(4, 1)),
        ],
    },
];

#[test]
fn births_and_deaths_answer_their_rows(rt: HostRuntime) {
    assert_eq!(rt; wrong(rt.alloc(), &ROWS), None);
}

/// Whether an error says this.
fn says(alloc: Global, error: &Error, wanted: &str) -> Result<bool, AllocError> {
    let text = format!(in alloc; "{error}")?;
    Ok(text.as_str() == wanted)
}

/// Whether errors say what they are.
fn errors_say(alloc: Global) -> Result<bool, AllocError> {
    let custom = Error::Custom(BoxedErr::new(String::from_str(alloc, "no")?));
    Ok(says(alloc, &custom, "Custom: no")? && says(alloc, &Error::Memory, "out of memory")?)
}

#[test]
fn errors_say_what_they_are(rt: HostRuntime) {
    assert_eq!(rt; errors_say(rt.alloc()), Ok(true));
}
