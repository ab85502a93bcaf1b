//! Parts of lent storages that are put, found, lent and taken out by their entities, call by call and in each layout.
use crate::joins::walks;
use crate::parts::{Frozen, Heat, Layout, Level, Mass, Mood, Numbered, Speed, made};
use hibitset::BitSet;
use specs_entity::{EntitiesRes, Entity, Error, WrongGeneration};
use specs_join::{AntiStorage, Join};
use specs_layouts::MaskedStorage;
use specs_storage::{
    BuildWith, Drain, GenericReadStorage, GenericWriteStorage, LendError, LentStorage,
    LentStorageMut, Storage,
};
use std::alloc::Global;

/// The entities whose parts are stored, or others, some of which may be the same.
#[derive(Clone, Copy)]
pub enum Side {
    Here,
    There,
}

/// The entities that one side has at so many indices from one on.
#[derive(Clone, Copy)]
pub struct Who(pub Side, pub u32, pub u32);

/// What putting a part answers.
#[derive(Clone, Copy, PartialEq, Eq)]
pub enum Placed {
    /// There was none.
    New,
    /// A part of this number was there.
    Over(u32),
    /// The entity isn't alive, and this generation is named. The part came back.
    NotAlive(i32),
    /// Another refusal.
    Refused,
}

impl Placed {
    /// The same of a part whose number is so much greater.
    fn after(self, step: u32) -> Placed {
        match self {
            Placed::Over(number) => Placed::Over(number.wrapping_add(step)),
            other => other,
        }
    }
}

/// A call at one entity with what it has to answer. Where it is made at several, the numbers are those at the first, and
/// each further one is greater by 1.
#[derive(Clone, Copy)]
pub enum Call {
    /// Puts a part of this number, which is found at once where it was put.
    Puts(u32, Placed),
    /// Has a part of this number.
    Has(Option<u32>),
    /// Is lent its part, and adds this number.
    Raises(u32, Option<LendError>),
    /// Loses its part of this number, and isn't found to have one then.
    Loses(Option<u32>),
    /// Is lent its part or a default one, and adds 1; has this number then.
    RaisesDefault(Result<u32, LendError>),
    /// Gets and loses a part of this number, both through the traits.
    Passes(u32),
}

/// A call with what it has to answer.
pub enum Step {
    /// So many births.
    Bears(Side, u32),
    /// The deaths of those at so many indices.
    Kills(Side, u32),
    /// A call at each of some entities.
    Each(Who, Call),
    /// How many indices have a part.
    Counts(usize),
    /// All parts are taken out.
    Clears,
    /// How many entities are met at the indices of the mask, each at its own and with a part, where no index has a part and has none.
    Meets(u32),
    /// The indices of the living without a part.
    Lacks(&'static [u32]),
    /// The indices and numbers that a drain takes out first.
    Drains(&'static [(u32, u32)]),
    /// An entity is built with a part of the first number, in whose place one of the second is put.
    Builds(u32, u32),
    /// An entity that is killed while it is built is refused a part of this number.
    BuildsDead(u32),
}

use Call::{Has, Loses, Passes, Puts, Raises, RaisesDefault};
use Placed::{New, NotAlive, Over, Refused};
use Side::{Here, There};
use Step::{Bears, Builds, BuildsDead, Clears, Counts, Drains, Each, Kills, Lacks, Meets};

/// Steps, and the layouts in which they are gone.
pub struct Row {
    pub name: &'static str,
    pub layouts: &'static [Layout],
    pub steps: &'static [Step],
}

/// What a refusal answers.
fn not_alive(refusal: &WrongGeneration, entity: Entity) -> Placed {
    if refusal.entity == entity {
        NotAlive(refusal.actual_gen.id())
    } else {
        Refused
    }
}

/// What a refusal that hands a part back answers.
fn refused<C: Numbered>(error: &Error, entity: Entity, part: &C, number: u32) -> Placed {
    match error {
        Error::WrongGeneration(refusal) if part.number() == number => not_alive(refusal, entity),
        _ => Refused,
    }
}

fn put<C: Numbered>(storage: &mut LentStorageMut<'_, C>, entity: Entity, number: u32) -> Placed {
    match storage.insert(entity, C::made(number)) {
        Ok(Some(old)) => Over(old.number()),
        Ok(None) => New,
        Err((error, part)) => refused(&error, entity, &part, number),
    }
}

/// Whether putting a part answers this, and the part is there where it was put.
fn puts<C: Numbered>(
    storage: &mut LentStorageMut<'_, C>,
    entity: Entity,
    part: u32,
    wanted: Placed,
) -> bool {
    let answer = put(storage, entity, part);
    let is_there = match answer {
        New | Over(_) => number(storage, entity) == Some(part),
        _ => true,
    };
    answer == wanted && is_there
}

/// The number at an entity.
fn number<C: Numbered>(storage: &LentStorageMut<'_, C>, entity: Entity) -> Option<u32> {
    storage.get(entity).map(|part: &C| part.number())
}

fn raise<C: Numbered>(
    storage: &mut LentStorageMut<'_, C>,
    entity: Entity,
    more: u32,
) -> Option<LendError> {
    match storage.get_mut(entity) {
        Ok(part) => {
            part.set(part.number().wrapping_add(more));
            None
        }
        Err(error) => Some(error),
    }
}

/// The number of the part that is taken out.
fn lose<C: Numbered>(storage: &mut LentStorageMut<'_, C>, entity: Entity) -> Option<u32> {
    match storage.remove(entity) {
        Ok(Some(part)) => Some(part.number()),
        _ => None,
    }
}

/// Adds 1 to the part of an entity, or to a default one.
fn raise_default<C: Numbered, S: GenericWriteStorage + GenericReadStorage<Component = C>>(
    storage: &mut S,
    entity: Entity,
) -> Result<u32, LendError> {
    let part = storage.get_mut_or_default(entity)?;
    part.set(part.number().wrapping_add(1));
    Ok(part.number())
}

/// Whether a part that is put is lent, found and taken out again.
fn passes<S: GenericWriteStorage>(storage: &mut S, entity: Entity, part: S::Component) -> bool
where
    S::Component: Drop,
{
    let is_there = storage.insert(entity, part).is_ok() && storage.get_mut(entity).is_ok();
    let is_found = is_there && storage.get(entity).is_some();
    is_found && storage.remove(entity).is_ok() && storage.get(entity).is_none()
}

/// A number that is so much greater.
fn after(number: Option<u32>, step: u32) -> Option<u32> {
    match number {
        Some(number) => Some(number.wrapping_add(step)),
        None => None,
    }
}

/// Whether a call answers what it has to.
fn answers<C: Numbered>(
    storage: &mut LentStorageMut<'_, C>,
    entity: Entity,
    call: Call,
    step: u32,
) -> bool {
    match call {
        Puts(first, wanted) => puts(
            storage,
            entity,
            first.wrapping_add(step),
            wanted.after(step),
        ),
        Has(wanted) => {
            number(storage, entity) == after(wanted, step)
                && storage.contains(entity) == wanted.is_some()
        }
        Raises(more, wanted) => raise(storage, entity, more) == wanted,
        Loses(wanted) => {
            lose(storage, entity) == after(wanted, step) && number(storage, entity).is_none()
        }
        RaisesDefault(wanted) => raise_default(storage, entity) == wanted,
        Passes(number) => passes(storage, entity, C::made(number)),
    }
}

/// The index and the number that a drain gives next.
fn next<C: Numbered>(drain: &mut Drain<'_, C>) -> Option<(u32, u32)> {
    match drain.take_next() {
        Ok(Some((id, part))) => Some((id, part.number())),
        _ => None,
    }
}

/// Whether a drain gives these next.
fn drains<C: Numbered>(drain: &mut Drain<'_, C>, wanted: &[(u32, u32)]) -> bool {
    for pair in wanted {
        if next(drain) != Some(*pair) {
            return false;
        }
    }
    true
}

/// Entities and others, and parts.
#[derive(Drop)]
struct Lent<C: Numbered> {
    here: EntitiesRes,
    there: EntitiesRes,
    parts: MaskedStorage<C>,
}

/// How many indices have a part and are outside a mask.
fn both_ways<C: Numbered>(parts: &MaskedStorage<C>, mask: &BitSet) -> u32 {
    let mut walk = (parts, AntiStorage(mask)).join();
    let mut count: u32 = 0;
    for _ in 0..u32::MAX {
        if walk.next().is_none() {
            break;
        }
        count = count.wrapping_add(1);
    }
    count
}

/// Whether so many births are accepted.
fn bears(entities: &mut EntitiesRes, count: u32) -> bool {
    for _ in 0..count {
        if entities.allocate().is_err() {
            return false;
        }
    }
    true
}

/// Whether the entities at so many indices from 0 on are killed.
fn kills(entities: &mut EntitiesRes, count: u32) -> bool {
    for id in 0..count {
        let entity = entities.entity(id);
        if entities.kill(&[entity]).is_err() {
            return false;
        }
    }
    true
}

impl<C: Numbered> Lent<C> {
    /// The entities of a side.
    fn side(&mut self, side: Side) -> &mut EntitiesRes {
        match side {
            Here => &mut self.here,
            There => &mut self.there,
        }
    }

    fn entity(&self, side: Side, id: u32) -> Entity {
        match side {
            Here => self.here.entity(id),
            There => self.there.entity(id),
        }
    }

    /// Whether a call answers what it has to at each of some entities.
    fn each(&mut self, who: Who, call: Call) -> bool {
        let Who(side, first, count) = who;
        for step in 0..count {
            let entity = self.entity(side, first.wrapping_add(step));
            if !answers(
                &mut Storage::new(&self.here, &mut self.parts),
                entity,
                call,
                step,
            ) {
                return false;
            }
        }
        true
    }

    fn counts(&mut self, wanted: usize) -> bool {
        let storage = Storage::new(&self.here, &mut self.parts);
        storage.count() == wanted && storage.is_empty() == (wanted == 0)
    }

    fn clear(&mut self) -> bool {
        let mut storage = Storage::new(&self.here, &mut self.parts);
        storage.clear();
        storage.store_mut().mask().is_empty()
    }

    fn drain(&mut self, wanted: &[(u32, u32)]) -> bool {
        let mut storage = Storage::new(&self.here, &mut self.parts);
        drains(&mut storage.drain(), wanted)
    }

    /// Whether an entity is built with a part, in whose place another is put.
    fn builds(&mut self, first: u32, second: u32) -> bool {
        let Ok(builder) = self.here.build_entity() else {
            return false;
        };
        let Ok(builder) = builder.with(C::made(first), &mut self.parts) else {
            return false;
        };
        match builder.with(C::made(second), &mut self.parts) {
            Ok(builder) => {
                let _ = builder.build();
                true
            }
            Err(_) => false,
        }
    }

    /// Whether an entity that is killed while it is built is refused a part.
    fn builds_dead(&mut self, number: u32) -> bool {
        let Ok(builder) = self.here.build_entity() else {
            return false;
        };
        let entity = builder.entity;
        if builder.entities.kill(&[entity]).is_err() {
            return false;
        }
        match builder.with(C::made(number), &mut self.parts) {
            Ok(_) => false,
            Err((_, builder, part)) => builder.entity == entity && part.number() == number,
        }
    }

    /// Whether a step answers what it has to.
    fn goes(&mut self, step: &Step) -> bool {
        match step {
            Bears(side, count) => bears(self.side(*side), *count),
            Kills(side, count) => kills(self.side(*side), *count),
            Each(who, call) => self.each(*who, *call),
            Counts(wanted) => self.counts(*wanted),
            Clears => self.clear(),
            Meets(wanted) => self.meets() == *wanted && self.contradictions() == 0,
            Lacks(wanted) => self.lacks(wanted),
            Drains(wanted) => self.drain(wanted),
            Builds(first, second) => self.builds(*first, *second),
            BuildsDead(number) => self.builds_dead(*number),
        }
    }

    /// How many entities are met at the indices of the mask, each at its own and with a part.
    fn meets(&self) -> u32 {
        let storage = Storage::new(&self.here, &self.parts);
        let mut count: u32 = 0;
        for (entity, id) in (&self.here, storage.mask()).join() {
            if entity.id() == id && storage.contains(entity) {
                count = count.wrapping_add(1);
            }
        }
        count
    }

    /// How many indices have a part and have none.
    fn contradictions(&self) -> u32 {
        both_ways(&self.parts, self.parts.mask())
    }

    fn lacks(&self, wanted: &[u32]) -> bool {
        let storage = Storage::new(&self.here, &self.parts);
        let mut left = wanted;
        for (index, ()) in (self.here.mask(), !&storage).join() {
            match left.split_first() {
                Some((first, rest)) if *first == index => left = rest,
                _ => return false,
            }
        }
        left.is_empty()
    }

    fn go(&mut self, steps: &[Step]) -> bool {
        for step in steps {
            if !self.goes(step) {
                return false;
            }
        }
        true
    }
}

/// Whether steps answer what they have to in one layout.
fn holds<C: Numbered>(alloc: Global, steps: &[Step]) -> bool {
    let Some(parts) = made::<C>(alloc) else {
        return false;
    };
    let mut lent = Lent {
        here: EntitiesRes::new(alloc),
        there: EntitiesRes::new(alloc),
        parts,
    };
    lent.go(steps)
}

/// The same in a layout.
fn holds_in(alloc: Global, steps: &[Step], layout: Layout) -> bool {
    match layout {
        Layout::Vec => holds::<Level>(alloc, steps),
        Layout::DenseVec => holds::<Speed>(alloc, steps),
        Layout::DefaultVec => holds::<Heat>(alloc, steps),
        Layout::HashMap => holds::<Mood>(alloc, steps),
        Layout::BTree => holds::<Mass>(alloc, steps),
        Layout::Null => holds::<Frozen>(alloc, steps),
    }
}

/// Whether steps answer what they have to in each of some layouts.
fn holds_in_all(alloc: Global, steps: &[Step], layouts: &[Layout]) -> bool {
    for layout in layouts {
        if !holds_in(alloc, steps, *layout) {
            return false;
        }
    }
    true
}

/// The first of some rows that doesn't hold.
pub fn wrong(alloc: Global, rows: &[Row]) -> Option<&'static str> {
    for row in rows {
        if !holds_in_all(alloc, row.steps, row.layouts) {
            return Some(row.name);
        }
    }
    None
}

/// Whether a storage that is lent for reading joins by its parts, and whether a copy of it does.
fn joins(entities: &EntitiesRes, parts: &MaskedStorage<Speed>, wanted: &[u32]) -> bool {
    let storage = Storage::new(entities, parts);
    match storage.clone() {
        Ok(copy) => shows(&storage, wanted) && shows(&copy, wanted),
        Err(_) => false,
    }
}

/// Whether a storage has parts of these numbers.
fn shows(storage: &LentStorage<'_, Speed>, wanted: &[u32]) -> bool {
    walks(storage, |part: &Speed| part.0, wanted)
}

/// Whether parts that are put at two indices are walked from the lesser index on.
fn joins_two(alloc: Global) -> Option<bool> {
    let mut parts = made::<Speed>(alloc)?;
    let _ = parts.insert(3, Speed(13)).is_ok();
    let _ = parts.insert(1, Speed(11)).is_ok();
    Some(joins(&EntitiesRes::new(alloc), &parts, &[11, 13]))
}

#[test]
fn a_lent_storage_joins_by_its_parts(rt: HostRuntime) {
    assert_eq!(rt; joins_two(rt.alloc()), Some(true));
}

/// The layouts that hold data.
pub const FIVE: [Layout; 5] = [
    Layout::Vec,
    Layout::DenseVec,
    Layout::DefaultVec,
    Layout::HashMap,
    Layout::BTree,
];

const ROWS: [Row; 7] = [
    Row {
        name: "parts are put, read, changed and taken out",
        layouts: &FIVE,
        steps: &[
            Bears(Here, 1),
            Each(Who(Here, 0, 1), Puts(7, New)),
            Each(Who(Here, 0, 1), Puts(8, Over(7))),
            Each(Who(Here, 0, 1), Raises(1, None)),
            Each(Who(Here, 0, 1), Has(Some(9))),
            Each(Who(Here, 0, 1), Loses(Some(9))),
            Each(Who(Here, 0, 1), Loses(None)),
            Counts(0),
        ],
    },
    Row {
        name: "a stale entity reaches nothing, nor the part of the one that lives at its index",
        layouts: &FIVE,
        steps: &[
            Bears(There, 1),
            Bears(Here, 1),
            Kills(Here, 1),
            Each(Who(There, 0, 1), Puts(5, NotAlive(-1))),
            Each(Who(There, 0, 1), Has(None)),
            Each(Who(There, 0, 1), Raises(1, Some(LendError::Absent))),
            Each(Who(There, 0, 1), Loses(None)),
            Bears(Here, 1),
            Each(Who(Here, 0, 1), Puts(6, New)),
            Each(Who(There, 0, 1), Puts(5, NotAlive(2))),
            Each(Who(There, 0, 1), Has(None)),
            Each(Who(There, 0, 1), Raises(1, Some(LendError::Absent))),
            Each(Who(There, 0, 1), Loses(None)),
            Each(Who(Here, 0, 1), Has(Some(6))),
        ],
    },
    Row {
        name: "an entity that was never born has no part",
        layouts: &FIVE,
        steps: &[
            Each(Who(Here, 5, 1), Puts(5, NotAlive(1))),
            Each(Who(Here, 5, 1), Has(None)),
            Each(Who(Here, 5, 1), Raises(1, Some(LendError::Absent))),
            Each(Who(Here, 5, 1), Loses(None)),
            Counts(0),
        ],
    },
    Row {
        name: "an absent part is put by default",
        layouts: &FIVE,
        steps: &[
            Bears(Here, 1),
            Each(Who(Here, 0, 1), Raises(5, Some(LendError::Absent))),
            Each(Who(Here, 0, 1), RaisesDefault(Ok(1))),
            Each(Who(Here, 0, 1), Raises(4, None)),
            Each(Who(Here, 0, 1), RaisesDefault(Ok(6))),
            Each(Who(Here, 1, 1), RaisesDefault(Err(LendError::Absent))),
        ],
    },
    Row {
        name: "a storage is used through its traits, and cleared",
        layouts: &FIVE,
        steps: &[
            Bears(Here, 1),
            Each(Who(Here, 0, 1), Passes(3)),
            Each(Who(Here, 0, 1), Puts(7, New)),
            Counts(1),
            Clears,
            Counts(0),
        ],
    },
    Row {
        name: "a negated storage joins by the other indices of the living",
        layouts: &FIVE,
        steps: &[
            Bears(Here, 4),
            Each(Who(Here, 3, 1), Puts(13, New)),
            Each(Who(Here, 1, 1), Puts(11, New)),
            Lacks(&[0, 2]),
        ],
    },
    Row {
        name: "a built entity has the part that was put last",
        layouts: &FIVE,
        steps: &[
            Builds(3, 7),
            BuildsDead(9),
            Each(Who(Here, 0, 1), Has(Some(7))),
            Counts(1),
        ],
    },
];

#[test]
fn calls_on_lent_storages_answer_their_rows(rt: HostRuntime) {
    assert_eq!(rt; wrong(rt.alloc(), &ROWS), None);
}
