//! Places whose part is put, replaced, lent and taken out, and the places of all indices, walked beside a join.
ghost use Rattle.std.specs.Prelude.{◌≡◌, IsSome};
ghost use Rattle.specs_storage.specs.EntryCursors.{index_of, indices_left};

use crate::parts::{Speed, made};
use specs_entity::{EntitiesRes, Entity, WrongGeneration};
use specs_join::Join;
use specs_layouts::MaskedStorage;
use specs_storage::{EntryCursor, LentStorageMut, Storage, StorageEntry};
use std::alloc::Global;

/// What putting a part at a place answers.
#[derive(Clone, Copy, PartialEq, Eq)]
enum Placed {
    /// There was none.
    New,
    /// This part was there.
    Over(u32),
    /// The entity isn't alive, and this generation is named.
    NotAlive(i32),
    /// Another refusal.
    Refused,
}

/// A call at the place of an entity's part, with what it has to answer.
enum Call {
    /// A part of this number is put there.
    Replaces(u32, Placed),
    /// The same, as a place with a part and one without offer it.
    Settles(u32, Placed),
    /// The part there, or a new one of this number, is lent and doubled.
    Doubles(u32, Option<u32>),
    /// The part there, or one of this number that a closure gives.
    Fills(u32, Option<u32>),
    /// The part there is lent and made greater by 1, or a new one of 8 is made 9.
    Raises(Option<u32>),
    /// The part there is lent for as long as the storage is, doubled, and taken out.
    Loses(Option<u32>),
    /// The part there.
    Has(Option<u32>),
}

use Call::{Doubles, Fills, Has, Loses, Raises, Replaces, Settles};
use Placed::{New, NotAlive, Over, Refused};

/// What a place that isn't found answers.
fn not_found(refusal: &WrongGeneration) -> Placed {
    NotAlive(refusal.actual_gen.id())
}

fn replace(storage: &mut LentStorageMut<'_, Speed>, entity: Entity, number: u32) -> Placed {
    let place = match storage.entry(entity) {
        Ok(place) => place,
        Err(refusal) => return not_found(&refusal),
    };
    match place.replace(Speed(number)) {
        Ok(Some(old)) => Over(old.0),
        Ok(None) => New,
        Err(_) => Refused,
    }
}

/// What an entity without a place answers, or none where it has one.
fn missing(storage: &mut LentStorageMut<'_, Speed>, entity: Entity) -> Option<Placed> {
    match storage.entry(entity) {
        Ok(_) => None,
        Err(refusal) => Some(not_found(&refusal)),
    }
}

fn settle(storage: &mut LentStorageMut<'_, Speed>, entity: Entity, number: u32) -> Placed {
    if let Some(placed) = missing(storage, entity) {
        return placed;
    }
    match storage.entry(entity) {
        Ok(StorageEntry::Occupied(mut place)) => match place.insert(Speed(number)) {
            Ok(old) => Over(old.0),
            Err(_) => Refused,
        },
        Ok(StorageEntry::Vacant(place)) => {
            let is_put = place.insert_entry(Speed(number)).is_ok();
            if is_put { New } else { Refused }
        }
        Err(_) => Refused,
    }
}

fn double(storage: &mut LentStorageMut<'_, Speed>, entity: Entity, number: u32) -> Option<u32> {
    let Ok(place) = storage.entry(entity) else {
        return None;
    };
    match place.or_insert(Speed(number)) {
        Ok(part) => {
            part.0 = part.0.wrapping_mul(2);
            Some(part.0)
        }
        Err(_) => None,
    }
}

fn fill(storage: &mut LentStorageMut<'_, Speed>, entity: Entity, number: u32) -> Option<u32> {
    let Ok(place) = storage.entry(entity) else {
        return None;
    };
    match place.or_insert_with(|| Speed(number)) {
        Ok(part) => Some(part.0),
        Err(_) => None,
    }
}

fn raise(storage: &mut LentStorageMut<'_, Speed>, entity: Entity) -> Option<u32> {
    match storage.entry(entity) {
        Ok(StorageEntry::Occupied(mut place)) => {
            if let Ok(part) = place.get_mut() {
                part.0 = part.0.wrapping_add(1);
            }
            Some(place.get().0)
        }
        Ok(StorageEntry::Vacant(place)) => match place.insert(Speed(8)) {
            Ok(part) => {
                part.0 = 9;
                Some(part.0)
            }
            Err(_) => None,
        },
        Err(_) => None,
    }
}

fn lose(storage: &mut LentStorageMut<'_, Speed>, entity: Entity) -> Option<u32> {
    if let Ok(StorageEntry::Occupied(place)) = storage.entry(entity) {
        if let Ok(part) = place.into_mut() {
            part.0 = part.0.wrapping_mul(2);
        }
    }
    match storage.entry(entity) {
        Ok(StorageEntry::Occupied(place)) => match place.remove() {
            Ok(part) => Some(part.0),
            Err(_) => None,
        },
        _ => None,
    }
}

/// Whether a call answers what it has to.
fn answers(storage: &mut LentStorageMut<'_, Speed>, entity: Entity, call: &Call) -> bool {
    match call {
        Replaces(number, wanted) => replace(storage, entity, *number) == *wanted,
        Settles(number, wanted) => settle(storage, entity, *number) == *wanted,
        Doubles(number, wanted) => double(storage, entity, *number) == *wanted,
        Fills(number, wanted) => fill(storage, entity, *number) == *wanted,
        Raises(wanted) => raise(storage, entity) == *wanted,
        Loses(wanted) => lose(storage, entity) == *wanted,
        Has(wanted) => storage.get(entity).map(|part: &Speed| part.0) == *wanted,
    }
}

/// Calls at the places of entities, which are told by their indices. Two were born.
struct Row {
    name: &'static str,
    calls: &'static [(u32, Call)],
}

/// Whether each call answers what it has to.
fn all_answer(
    entities: &EntitiesRes,
    parts: &mut MaskedStorage<Speed>,
    calls: &[(u32, Call)],
) -> bool {
    for (id, call) in calls {
        let mut storage = Storage::new(entities, &mut *parts);
        if !answers(&mut storage, entities.entity(*id), call) {
            return false;
        }
    }
    true
}

/// The same of a storage of its own.
fn holds(alloc: Global, row: &Row) -> bool {
    let mut entities = EntitiesRes::new(alloc);
    let is_born = entities.create_iter(2).is_ok();
    match made::<Speed>(alloc) {
        Some(mut parts) => is_born && all_answer(&entities, &mut parts, row.calls),
        None => false,
    }
}

/// The first of some rows that doesn't hold.
fn wrong(alloc: Global, rows: &[Row]) -> Option<&'static str> {
    for row in rows {
        if !holds(alloc, row) {
            return Some(row.name);
        }
    }
    None
}

const ROWS: [Row; 4] = [
    Row {
        name: "replace answers what was there",
        calls: &[
            (0, Replaces(1337, New)),
            (0, Replaces(9001, Over(1337))),
            (0, Has(Some(9001))),
            (0, Replaces(1, Over(9001))),
            (2, Replaces(1, NotAlive(1))),
        ],
    },
    Row {
        name: "a part is put only where none is",
        calls: &[
            (0, Doubles(5, Some(10))),
            (0, Doubles(7, Some(20))),
            (0, Fills(3, Some(20))),
            (1, Fills(3, Some(3))),
            (2, Fills(3, None)),
        ],
    },
    Row {
        name: "places lend their part",
        calls: &[
            (2, Raises(None)),
            (0, Raises(Some(9))),
            (0, Raises(Some(10))),
        ],
    },
    Row {
        name: "a place has what was put last",
        calls: &[
            (0, Settles(1337, New)),
            (0, Settles(9001, Over(1337))),
            (0, Loses(Some(18002))),
            (0, Loses(None)),
            (2, Settles(1, NotAlive(1))),
        ],
    },
];

#[test]
fn calls_at_places_answer_their_rows(rt: HostRuntime) {
    assert_eq!(rt; wrong(rt.alloc(), &ROWS), None);
}

/// The number at the cursor's index, which is put as 2 where none was there.
fn number<R: Join>(cursor: &mut EntryCursor<'_, Speed, R>) -> Option<u32>
    requires { IsSome (index_of cursor.old) }
    ensures { indices_left R.Mask.members cursor.new ≡ indices_left R.Mask.members cursor.old }
{
    match cursor.place().entry().or_insert(Speed(2)) {
        Ok(part) => Some(part.0),
        Err(_) => None,
    }
}

/// The sum of the numbers at the indices of a join, each put as 2 where none was there.
fn sum<R: Join>(storage: &mut LentStorageMut<'_, Speed>, read: R) -> u32 {
    let mut sum: u32 = 0;
    let mut cursor = storage.entries().cursor(read);
    while cursor.advance().is_some() {
        sum = sum.wrapping_add(number(&mut cursor).unwrap_or(0));
    }
    sum
}

/// The sum of the numbers of thirty entities, of whom the first fifteen have their index and the others get 2, and how many
/// have one then.
fn summed(entities: &EntitiesRes, parts: &mut MaskedStorage<Speed>) -> (u32, usize) {
    for id in 0..15u32 {
        let _ = parts.insert(id, Speed(id)).is_ok();
    }
    let mut storage = Storage::new(entities, parts);
    let sum = sum(&mut storage, entities);
    (sum, storage.count())
}

/// The same of a storage of its own.
fn summed_of_thirty(alloc: Global) -> Option<(u32, usize)> {
    let mut entities = EntitiesRes::new(alloc);
    entities.create_iter(30).ok()?;
    let mut parts = made::<Speed>(alloc)?;
    Some(summed(&entities, &mut parts))
}

#[test]
fn a_place_is_at_every_index(rt: HostRuntime) {
    assert_eq!(rt; summed_of_thirty(rt.alloc()), Some((135, 30)));
}
