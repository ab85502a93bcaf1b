//! A thousand parts in each storage, and what slices show.
use crate::parts::{Frozen, Heat, Layout, Level, Mass, Mood, Numbered, Speed, made};
use specs_entity::{EntitiesRes, Entity};
use specs_layouts::laws::parts_are_a_finite_map;
use specs_layouts::{
    AnyStorage, Component, DefaultVecStorage, DenseVecStorage, MaskedStorage, SliceAccess,
    TryDefault,
};
use std::alloc::Global;

/// Inserts a thousand parts, and answers how many of them found no part before.
fn fill<C: Numbered>(storage: &mut MaskedStorage<C>) -> u32 {
    let mut fresh: u32 = 0;
    for number in 0..1000u32 {
        if let Ok(None) = storage.insert(3 * number, C::made(number)) {
            fresh = fresh.wrapping_add(1);
        }
    }
    fresh
}

/// The sum of the numbers of all parts.
fn sum<C: Numbered>(storage: &MaskedStorage<C>) -> u32 {
    let mut sum: u32 = 0;
    for id in 0..3000u32 {
        if storage.contains(id) {
            sum = sum.wrapping_add(storage.get(id).number());
        }
    }
    sum
}

/// Raises each part by `get_mut`.
fn raise_all<C: Numbered>(storage: &mut MaskedStorage<C>) {
    for id in 0..3000u32 {
        if storage.contains(id) {
            if let Ok(part) = storage.get_mut(id) {
                part.set(part.number().wrapping_add(1));
            }
        }
    }
}

/// Removes the parts, and answers how many there were.
fn empty<C: Numbered>(storage: &mut MaskedStorage<C>) -> u32 {
    let mut removed: u32 = 0;
    for number in 0..1000u32 {
        if let Ok(Some(_)) = storage.remove(3 * number) {
            removed = removed.wrapping_add(1);
        }
    }
    removed
}

/// Parts inserted, their sum, their sum when raised, parts removed, removed again, inserted again, and the sum after
/// `clear`.
fn thousand<C: Numbered>(alloc: Global) -> Option<[u32; 7]> {
    let mut storage = made::<C>(alloc)?;
    let fresh = fill(&mut storage);
    let before = sum(&storage);
    raise_all(&mut storage);
    let after = sum(&storage);
    let removed = empty(&mut storage);
    let gone = empty(&mut storage);
    let again = fill(&mut storage);
    storage.clear();
    Some([fresh, before, after, removed, gone, again, sum(&storage)])
}

/// The numbers of a thousand parts in a layout.
struct Row {
    layout: Layout,
    name: &'static str,
    numbers: [u32; 7],
}

/// What a thousand numbered parts come to.
const NUMBERS: [u32; 7] = [1000, 499500, 500500, 1000, 0, 1000, 0];

const ROWS: [Row; 6] = [
    Row {
        layout: Layout::Vec,
        name: "VecStorage",
        numbers: NUMBERS,
    },
    Row {
        layout: Layout::DenseVec,
        name: "DenseVecStorage",
        numbers: NUMBERS,
    },
    Row {
        layout: Layout::DefaultVec,
        name: "DefaultVecStorage",
        numbers: NUMBERS,
    },
    Row {
        layout: Layout::HashMap,
        name: "HashMapStorage",
        numbers: NUMBERS,
    },
    Row {
        layout: Layout::BTree,
        name: "BTreeStorage",
        numbers: NUMBERS,
    },
    Row {
        layout: Layout::Null,
        name: "NullStorage",
        numbers: [1000, 1000, 1000, 1000, 0, 1000, 0],
    },
];

/// The numbers of a thousand parts in a layout.
fn thousand_in(alloc: Global, layout: Layout) -> Option<[u32; 7]> {
    match layout {
        Layout::Vec => thousand::<Level>(alloc),
        Layout::DenseVec => thousand::<Speed>(alloc),
        Layout::DefaultVec => thousand::<Heat>(alloc),
        Layout::HashMap => thousand::<Mood>(alloc),
        Layout::BTree => thousand::<Mass>(alloc),
        Layout::Null => thousand::<Frozen>(alloc),
    }
}

/// The first of some rows that doesn't hold.
fn wrong(alloc: Global, rows: &[Row]) -> Option<&'static str> {
    for row in rows {
        if thousand_in(alloc, row.layout) != Some(row.numbers) {
            return Some(row.name);
        }
    }
    None
}

#[test]
fn each_storage_holds_a_thousand_parts(rt: HostRuntime) {
    assert_eq!(rt; wrong(rt.alloc(), &ROWS), None);
}

/// A step with a storage whose layout is a slice of parts.
enum Step {
    /// A part of this number is put at an index.
    Puts(u32, u32),
    /// The part at an index is taken out.
    Removes(u32),
    /// All parts are taken out.
    Clears,
    /// The slice has parts of these numbers.
    Shows(&'static [u32]),
}

use Step::{Clears, Puts, Removes, Shows};

/// Whether a slice has parts of these numbers.
fn shows<C: Numbered>(parts: &[C], wanted: &[u32]) -> bool {
    if parts.len() != wanted.len() {
        return false;
    }
    for (part, number) in parts.iter().zip(wanted) {
        if part.number() != *number {
            return false;
        }
    }
    true
}

/// Whether a step goes well.
fn goes<C: Numbered>(storage: &mut MaskedStorage<C>, step: &Step) -> bool
where
    C::Storage: SliceAccess<C, Element = C>,
{
    match step {
        Puts(id, number) => *id < 16777216 && storage.insert(*id, C::made(*number)).is_ok(),
        Removes(id) => storage.remove(*id).is_ok(),
        Clears => {
            storage.clear();
            true
        }
        Shows(wanted) => shows(storage.inner().as_slice(), wanted),
    }
}

/// Whether steps with a storage go well.
fn go<C: Numbered>(alloc: Global, steps: &[Step]) -> bool
where
    C::Storage: SliceAccess<C, Element = C>,
{
    let Some(mut storage) = made::<C>(alloc) else {
        return false;
    };
    for step in steps {
        if !goes(&mut storage, step) {
            return false;
        }
    }
    true
}

const GAPS: [Step; 5] = [
    Puts(1, 1),
    Puts(3, 3),
    Shows(&[0, 1, 0, 3]),
    Removes(3),
    Shows(&[0, 1, 0, 0]),
];

const CLEARED: [Step; 7] = [
    Puts(5, 50),
    Puts(2, 20),
    Shows(&[50, 20]),
    Clears,
    Shows(&[]),
    Puts(7, 70),
    Shows(&[70]),
];

#[test]
fn gaps_have_defaults_and_a_cleared_row_begins_anew(rt: HostRuntime) {
    let gaps = go::<Heat>(rt.alloc(), &GAPS);
    let cleared = go::<Speed>(rt.alloc(), &CLEARED);
    assert_eq!(rt; [gaps, cleared], [true, true]);
}

/// How long the slices of storages without parts are that are lent for writing.
fn lengths(alloc: Global) -> [usize; 2] {
    let mut row = DenseVecStorage::<Speed>::unwrap_default(alloc);
    let mut slots = DefaultVecStorage::<Heat>::unwrap_default(alloc);
    [row.as_mut_slice().len(), slots.as_mut_slice().len()]
}

/// Drops the parts of entities, through the bound of any storage.
fn dropped<S: AnyStorage>(storage: &mut S, entities: &[Entity]) -> bool {
    storage.make_room(entities.len()).is_ok() && storage.drop(entities).is_ok()
}

/// What the parts at the entities 1, 3 and 1, and then that at 6, leave of a thousand when they are dropped.
fn left(storage: &mut MaskedStorage<Heat>, entities: &EntitiesRes) -> Option<[u32; 3]> {
    let named = [entities.entity(1), entities.entity(3), entities.entity(1)];
    let all = fill(storage);
    if !dropped(storage, &named) {
        return None;
    }
    let most = sum(storage);
    storage.make_room(2).ok()?;
    MaskedStorage::drop(storage, 6).ok()?;
    parts_are_a_finite_map(storage);
    Some([all, most, sum(storage)])
}

/// The same of a storage of its own.
fn left_of_all(alloc: Global) -> Option<[u32; 3]> {
    let mut storage = made::<Heat>(alloc)?;
    left(&mut storage, &EntitiesRes::new(alloc))
}

#[test]
fn parts_of_entities_are_dropped(rt: HostRuntime) {
    assert_eq!(rt; lengths(rt.alloc()), [0, 0]);
    assert_eq!(rt; left_of_all(rt.alloc()), Some([1000, 499499, 499497]));
}
