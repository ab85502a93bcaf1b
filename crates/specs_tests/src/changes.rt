//! Sets of changes that are added up, applied and taken out, sums at the borders of their types, and values stored at once.
ghost use Rattle.std.specs.Prelude.{◌≡◌, length, IfOk};
ghost use Rattle.hibitset_sets.specs.BitSet.{has_member};
ghost use Rattle.hibitset_sets.specs.Walk.{walk};

use crate::joins::walks;
use crate::parts::{Speed, made};
use specs_entity::{EntitiesRes, Entity};
use specs_join::changeset::Change;
use specs_join::laws::a_join_has_an_item_for_each_index;
use specs_join::{Accumulate, ChangeError, ChangeSet, Join, JoinCursor, ParJoin, store_all};
use specs_layouts::{Component, MaskedStorage, VecStorage};
use std::alloc::{AllocError, Global};
use std::mem;
use std::thread::Threads;

/// What adding a change answers.
#[derive(Clone, Copy, PartialEq, Eq)]
enum Answer {
    Added,
    Overflow,
    OutOfRange,
    Memory,
}

/// A call on a set of changes with what it has to answer. Entities are told by their indices.
enum Call {
    /// Adds a change.
    Adds(u32, u8, Answer),
    /// Adds the changes of pairs.
    Extends(&'static [(u32, u8)], Answer),
    /// Takes a change out.
    Takes(u32, Option<u8>),
    /// Takes all changes out, one after the other.
    TakesAll(&'static [u8]),
    /// No change is left.
    Clears,
    /// The changes, ascending by index.
    Has(&'static [u8]),
}

use Answer::{Added, Memory, OutOfRange, Overflow};
use Call::{Adds, Clears, Extends, Has, Takes, TakesAll};

/// Calls on a set of changes.
struct Row {
    name: &'static str,
    calls: &'static [Call],
}

/// A set of changes, and who is changed.
#[derive(Drop)]
struct Changes {
    entities: EntitiesRes,
    set: ChangeSet<u8>,
}

/// What a call answered.
fn answer_of(outcome: Result<(), ChangeError>) -> Answer {
    match outcome {
        Ok(()) => Added,
        Err(ChangeError::Overflow) => Overflow,
        Err(ChangeError::OutOfRange) => OutOfRange,
        Err(ChangeError::Memory) => Memory,
    }
}

/// Pairs of entities and changes.
fn pairs_of(
    alloc: Global,
    entities: &EntitiesRes,
    pairs: &[(u32, u8)],
) -> Result<Vec<(Entity, u8)>, AllocError> {
    let mut list = Vec::new(alloc);
    for (id, change) in pairs {
        list.push((entities.entity(*id), *change))?;
    }
    Ok(list)
}

/// Whether the changes of a set are taken out in this order.
fn takes_all(changes: ChangeSet<u8>, wanted: &[u8]) -> bool {
    let mut left = wanted;
    for (change, ()) in changes.take_join(()) {
        match left.split_first() {
            Some((first, rest)) if *first == change => left = rest,
            _ => return false,
        }
    }
    left.is_empty()
}

impl Changes {
    fn add(&mut self, id: u32, change: u8) -> Answer {
        let entity = self.entities.entity(id);
        answer_of(self.set.add(entity, change))
    }

    fn extend(&mut self, alloc: Global, pairs: &[(u32, u8)]) -> Answer {
        match pairs_of(alloc, &self.entities, pairs) {
            Ok(pairs) => answer_of(self.set.extend_pairs(pairs)),
            Err(_) => Memory,
        }
    }

    fn clear(&mut self) -> bool {
        self.set.clear();
        true
    }

    /// Whether a call answers what it has to.
    fn answers(&mut self, alloc: Global, call: &Call) -> bool {
        match call {
            Adds(id, change, wanted) => self.add(*id, *change) == *wanted,
            Extends(pairs, wanted) => self.extend(alloc, pairs) == *wanted,
            Takes(id, wanted) => self.set.take(*id) == *wanted,
            TakesAll(wanted) => {
                takes_all(mem::replace(&mut self.set, ChangeSet::new(alloc)), wanted)
            }
            Clears => self.clear(),
            Has(wanted) => walks(&self.set, |change: &u8| *change, wanted),
        }
    }

    fn answers_all(&mut self, alloc: Global, calls: &[Call]) -> bool {
        for call in calls {
            if !self.answers(alloc, call) {
                return false;
            }
        }
        true
    }
}

/// Whether each call of a row answers what it has to.
fn holds(alloc: Global, row: &Row) -> bool {
    let mut changes = Changes {
        entities: EntitiesRes::new(alloc),
        set: ChangeSet::new(alloc),
    };
    changes.answers_all(alloc, row.calls)
}

/// The first of some rows that doesn't hold.
fn wrong(alloc: Global, rows: &[Row]) -> Option<&'static str> {
    for row in rows {
        if !holds(alloc, row) {
            return Some(row.name);
        }
    }
    None
}

const ROWS: [Row; 5] = [
    Row {
        name: "a sum without a place is refused",
        calls: &[
            Adds(70000, 255, Added),
            Adds(0, 200, Added),
            Adds(0, 56, Overflow),
            Adds(0, 55, Added),
            Has(&[255, 255]),
        ],
    },
    Row {
        name: "a refused pair leaves those before it",
        calls: &[
            Extends(&[(0, 200), (1, 1), (0, 100), (1, 1)], Overflow),
            Has(&[200, 1]),
        ],
    },
    Row {
        name: "an index without entities is refused",
        calls: &[
            Adds(16777216, 1, OutOfRange),
            Adds(16777215, 1, Added),
            Has(&[1]),
        ],
    },
    Row {
        name: "changes are taken out",
        calls: &[
            Adds(5, 7, Added),
            Adds(6, 8, Added),
            Takes(5, Some(7)),
            Takes(5, None),
            Has(&[8]),
            Clears,
            Has(&[]),
        ],
    },
    Row {
        name: "changes are taken out by their indices",
        calls: &[
            Adds(1, 8, Added),
            Adds(0, 7, Added),
            TakesAll(&[7, 8]),
            Has(&[]),
        ],
    },
];

#[test]
fn calls_on_change_sets_answer_their_rows(rt: HostRuntime) {
    assert_eq!(rt; wrong(rt.alloc(), &ROWS), None);
}

/// Takes the changes from the parts.
fn wound(parts: &mut MaskedStorage<Speed>, changes: &ChangeSet<u32>) {
    let mut cursor = JoinCursor::new(parts, changes);
    while cursor.advance() {
        let change = *cursor.item();
        if let Ok(part) = cursor.values() {
            part.0 = part.0.wrapping_sub(change);
        }
    }
}

/// Makes each change twice as large.
fn double(changes: &mut MaskedStorage<Change<u32>>) {
    let mut cursor = JoinCursor::new(changes, ());
    while cursor.advance() {
        if let Ok(change) = cursor.values() {
            change.0 = change.0.wrapping_mul(2);
        }
    }
}

/// 32 for the first entity, and 12 and 13 for the second.
fn wounds(alloc: Global, entities: &EntitiesRes) -> Result<ChangeSet<u32>, ChangeError> {
    let one = entities.entity(0);
    let other = entities.entity(1);
    ChangeSet::from_pairs(alloc, [(one, 32), (other, 12), (other, 13)])
}

/// Whether parts of 100, 200 and 300 are these after the wounds, and these after twice as many more.
fn is_left(
    parts: &mut MaskedStorage<Speed>,
    changes: &mut ChangeSet<u32>,
    once: &[u32],
    thrice: &[u32],
) -> bool {
    for id in 0..3u32 {
        let _ = parts.insert(id, Speed(100 * (id + 1))).is_ok();
    }
    wound(parts, changes);
    let is_once = walks(&*parts, |part: &Speed| part.0, once);
    double(&mut changes.storage);
    wound(parts, changes);
    is_once && walks(&*parts, |part: &Speed| part.0, thrice)
}

/// The same of a storage of its own.
fn is_left_of_three(alloc: Global) -> Option<bool> {
    let entities = EntitiesRes::new(alloc);
    let mut changes = wounds(alloc, &entities).ok()?;
    let mut parts = made::<Speed>(alloc)?;
    Some(is_left(&mut parts, &mut changes, &[68, 175, 300], &[4, 125, 300]))
}

#[test]
fn changes_of_one_entity_add_up(rt: HostRuntime) {
    assert_eq!(rt; is_left_of_three(rt.alloc()), Some(true));
}

/// The number after another was added in, or none where that was refused.
fn sum<T: Accumulate + Copy + Drop>(number: T, other: T) -> Option<T> {
    let mut sum = number;
    match sum.add_in(other) {
        Ok(()) => Some(sum),
        Err(_) => None,
    }
}

/// Whether the sum of two numbers is the last of their type on its side, to which the second can't be added.
fn ends<T: Accumulate + Copy + PartialEq + Drop>(number: T, other: T, last: T) -> bool {
    sum(number, other) == Some(last) && sum(last, other) == None
}

#[test]
fn sums_end_at_the_ends_of_their_types(rt: HostRuntime) {
    let unsigned = [
        ends(254u8, 1, 255),
        ends(65534u16, 1, 65535),
        ends(u32::MAX - 1, 1, u32::MAX),
        ends(u64::MAX - 1, 1, u64::MAX),
        ends(u128::MAX - 1, 1, u128::MAX),
        ends(usize::MAX - 1, 1, usize::MAX),
    ];
    let signed = [
        ends(126i8, 1, 127),
        ends(-32767i16, -1, -32768),
        ends(i32::MAX - 1, 1, i32::MAX),
        ends(i64::MAX - 1, 1, i64::MAX),
        ends(i128::MAX - 1, 1, i128::MAX),
        ends(isize::MAX - 1, 1, isize::MAX),
    ];
    assert_eq!(rt; (unsigned, signed), ([true; 6], [true; 6]));
}

#[derive(Drop)]
struct Number(i8);

impl Component for Number {
    type Storage = VecStorage<Number>;
}

/// The numbers, each with one more, collected by so many workers.
fn raised<R: Threads + Sync>(
    rt: &R,
    alloc: Global,
    workers: usize,
    storage: &MaskedStorage<Number>,
) -> Result<Vec<Number>, AllocError>
    ensures { IfOk result (λ list. length list.items ≡ length (walk (has_member storage.now.mask))) }
{
    a_join_has_an_item_for_each_index(storage);
    storage.par_join().collect(
        rt,
        alloc,
        workers,
        |number: &Number| Number(number.0.wrapping_add(1)),
    )
}

/// Whether 1 is added to each number so many times.
fn raises<R: Threads + Sync>(
    rt: &R,
    alloc: Global,
    workers: usize,
    storage: &mut MaskedStorage<Number>,
    times: u32,
) -> Result<(), AllocError> {
    for _ in 0..times {
        let list = raised(rt, alloc, workers, storage)?;
        store_all(storage, list)?;
    }
    Ok(())
}

/// How many numbers there are, and how many of them are the greatest.
fn counts(storage: &MaskedStorage<Number>) -> (u32, u32) {
    let (mut all, mut greatest) = (0u32, 0u32);
    for number in storage.join() {
        all = all.wrapping_add(1);
        if number.0 == 127 {
            greatest = greatest.wrapping_add(1);
        }
    }
    (all, greatest)
}

/// How many of a thousand numbers, each the least, are the greatest when they were raised 255 times.
fn risen<R: Threads + Sync>(rt: &R, alloc: Global, workers: usize) -> Option<(u32, u32)> {
    let mut storage = made::<Number>(alloc)?;
    for id in 0..1000u32 {
        let _ = storage.insert(id, Number(-128)).is_ok();
    }
    raises(rt, alloc, workers, &mut storage, 255).ok()?;
    Some(counts(&storage))
}

#[test]
fn a_thousand_numbers_are_raised_to_the_greatest(rt: HostRuntime) {
    let one = risen(&rt, rt.alloc(), 1);
    let two = risen(&rt, rt.alloc(), 2);
    assert_eq!(rt; [one, two], [Some((1000, 1000)); 2]);
}
