//! Parts in each layout, reached by their entities.
use crate::lent::Call::{Has, Loses, Puts, Raises};
use crate::lent::Placed::{New, NotAlive, Over};
use crate::lent::Side::{Here, There};
use crate::lent::Step::{Bears, Clears, Counts, Drains, Each, Kills, Meets};
use crate::lent::{FIVE, Row, Who, wrong};
use crate::parts::{Heat, Layout, Level, Numbered, made};
use specs_entity::EntitiesRes;
use specs_layouts::{MaskedStorage, SliceAccess};
use specs_storage::{LentStorage, LentStorageMut, Storage};
use std::alloc::Global;

/// A thousand entities, and those that are born at their indices for the second time.
const ALL: Who = Who(Here, 0, 1000);

const LATER: Who = Who(There, 0, 1000);

const ROWS: [Row; 12] = [
    Row {
        name: "parts are put and found",
        layouts: &FIVE,
        steps: &[
            Bears(Here, 1000),
            Each(ALL, Puts(2718, New)),
            Each(ALL, Has(Some(2718))),
        ],
    },
    Row {
        name: "a hundred thousand parts are put and found",
        layouts: &[Layout::Vec],
        steps: &[
            Bears(Here, 100000),
            Each(Who(Here, 0, 100000), Puts(2718, New)),
            Each(Who(Here, 0, 100000), Has(Some(2718))),
        ],
    },
    Row {
        name: "parts are taken out once",
        layouts: &FIVE,
        steps: &[
            Bears(Here, 1000),
            Each(ALL, Puts(2718, New)),
            Each(ALL, Loses(Some(2718))),
            Each(ALL, Loses(None)),
            Each(ALL, Has(None)),
            Counts(0),
        ],
    },
    Row {
        name: "what is written is found",
        layouts: &FIVE,
        steps: &[
            Bears(Here, 1000),
            Each(ALL, Puts(2718, New)),
            Each(ALL, Raises(282, None)),
            Each(ALL, Has(Some(3000))),
        ],
    },
    Row {
        name: "a later generation reaches no part",
        layouts: &FIVE,
        steps: &[
            Bears(Here, 1000),
            Bears(There, 1000),
            Kills(There, 1000),
            Bears(There, 1000),
            Each(ALL, Puts(2718, New)),
            Each(LATER, Puts(31415, NotAlive(1))),
            Each(LATER, Has(None)),
            Each(ALL, Has(Some(2718))),
        ],
    },
    Row {
        name: "what a later generation puts is not there",
        layouts: &FIVE,
        steps: &[
            Bears(Here, 1000),
            Bears(There, 1000),
            Kills(There, 1000),
            Bears(There, 1000),
            Each(LATER, Puts(31415, NotAlive(1))),
            Each(ALL, Loses(None)),
        ],
    },
    Row {
        name: "a cleared storage has no part",
        layouts: &FIVE,
        steps: &[
            Bears(Here, 10),
            Each(Who(Here, 0, 10), Puts(10, New)),
            Clears,
            Each(Who(Here, 0, 10), Has(None)),
        ],
    },
    Row {
        name: "no index has a part and has none, and a mask joins",
        layouts: &FIVE,
        steps: &[
            Bears(Here, 50),
            Each(Who(Here, 0, 50), Puts(10, New)),
            Counts(50),
            Meets(50),
        ],
    },
    Row {
        name: "a second part takes the place of the first",
        layouts: &FIVE,
        steps: &[
            Bears(Here, 1000),
            Each(ALL, Puts(0, New)),
            Each(ALL, Puts(7000, Over(0))),
            Each(ALL, Has(Some(7000))),
        ],
    },
    Row {
        name: "a part is found as soon as it was put",
        layouts: &FIVE,
        steps: &[Bears(Here, 10000), Each(Who(Here, 0, 10000), Puts(0, New))],
    },
    Row {
        name: "a marker is put twice",
        layouts: &[Layout::Null],
        steps: &[
            Bears(Here, 1),
            Each(Who(Here, 0, 1), Puts(1, New)),
            Each(Who(Here, 0, 1), Puts(1, Over(1))),
        ],
    },
    Row {
        name: "a drain takes all parts out",
        layouts: &FIVE,
        steps: &[
            Bears(Here, 5),
            Each(Who(Here, 1, 2), Puts(11, New)),
            Each(Who(Here, 4, 1), Puts(14, New)),
            Drains(&[(1, 11), (2, 12), (4, 14)]),
            Counts(0),
        ],
    },
];

#[test]
fn layouts_answer_their_rows(rt: HostRuntime) {
    assert_eq!(rt; wrong(rt.alloc(), &ROWS), None);
}

/// Whether a thousand parts are put, each numbered by its index.
fn fills<C: Numbered>(parts: &mut MaskedStorage<C>) -> bool {
    for id in 0..1000u32 {
        if parts.insert(id, C::made(id)).is_err() {
            return false;
        }
    }
    true
}

/// Whether each slot of a slice has the part of its index.
fn has_slots(storage: &LentStorageMut<'_, Level>) -> bool {
    let mut number: u32 = 0;
    for slot in storage.as_slice() {
        if !matches!(slot, Some(part) if part.0 == number) {
            return false;
        }
        number = number.wrapping_add(1);
    }
    number == 1000
}

/// The same where a slot always has a part.
fn has_places(storage: &LentStorage<'_, Heat>) -> bool {
    let mut number: u32 = 0;
    for part in storage.as_slice() {
        if part.0 != number {
            return false;
        }
        number = number.wrapping_add(1);
    }
    number == 1000 && storage.unprotected_storage().as_slice().len() == 1000
}

/// Whether slices of full storages have the parts at their indices.
fn slices(alloc: Global) -> Option<[bool; 2]> {
    let entities = EntitiesRes::new(alloc);
    let mut levels = made::<Level>(alloc)?;
    let mut heats = made::<Heat>(alloc)?;
    let are_full = fills(&mut levels) && fills(&mut heats);
    let slots = has_slots(&Storage::new(&entities, &mut levels));
    let places = has_places(&Storage::new(&entities, &heats));
    Some([are_full && slots, places])
}

#[test]
fn a_slice_has_the_parts_at_their_indices(rt: HostRuntime) {
    assert_eq!(rt; slices(rt.alloc()), Some([true, true]));
}
