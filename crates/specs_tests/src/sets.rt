//! Joins of sets: lent and owned, for several threads, and under operators.
use crate::joins::{gathers, walks};
use hibitset::{AtomicBitSet, BitSet};
use specs_join::Join;
use std::alloc::Global;

/// What is joined of two sets, and the items that this has.
enum Joins {
    /// The first set.
    Lent(&'static [u32]),
    /// What both sets have.
    And(&'static [u32]),
    /// What one of the sets has.
    Or(&'static [u32]),
    /// What one of the sets alone has.
    Xor(&'static [u32]),
    /// The first set, and what the second lacks.
    Not(&'static [(u32, u32)]),
    /// The first set, and what both have, which is read in place.
    AndInPlace(&'static [(u32, u32)]),
    /// The first set, and what one of them has, which is read in place.
    OrInPlace(&'static [(u32, u32)]),
    /// The first set, and what one of them alone has, which is read in place.
    XorInPlace(&'static [(u32, u32)]),
    /// The first set, and what the second lacks, which is read in place.
    NotInPlace(&'static [(u32, u32)]),
    /// A set for several threads.
    Atomic(&'static [u32]),
    /// Both sets, which the walk owns.
    Owned(&'static [(u32, u32)]),
}

/// Two sets, and how they join.
struct Row {
    name: &'static str,
    one: &'static [u32],
    other: &'static [u32],
    joins: Joins,
}

/// Two sets, of which a copy of the second is for several threads.
#[derive(Drop)]
struct Sets {
    one: BitSet,
    other: BitSet,
    atomic: AtomicBitSet,
}

/// The index of an item.
fn index(index: u32) -> u32 {
    index
}

/// The indices of an item.
fn indices(indices: (u32, u32)) -> (u32, u32) {
    indices
}

/// Whether each of these indices is put into a set for several threads.
fn gathers_atomic(set: &mut AtomicBitSet, indices: &[u32]) -> bool {
    for index in indices {
        if *index >= 16777216 || set.add(*index).is_err() {
            return false;
        }
    }
    true
}

impl Sets {
    /// Empty sets.
    fn new(alloc: Global) -> Sets {
        Sets {
            one: BitSet::new(alloc),
            other: BitSet::new(alloc),
            atomic: AtomicBitSet::new(alloc),
        }
    }

    /// Whether these indices are put.
    fn takes(&mut self, one: &[u32], other: &[u32]) -> bool {
        gathers(&mut self.one, one)
            && gathers(&mut self.other, other)
            && gathers_atomic(&mut self.atomic, other)
    }

    /// Whether they join as they have to.
    fn joins(self, joins: &Joins) -> bool {
        match joins {
            Joins::Owned(wanted) => self.owned(wanted),
            Joins::Lent(wanted) => walks(&self.one, index, wanted),
            Joins::And(wanted) => walks(&self.one & &self.other, index, wanted),
            Joins::Or(wanted) => walks(&self.one | &self.other, index, wanted),
            Joins::Xor(wanted) => walks(&self.one ^ &self.other, index, wanted),
            Joins::Not(wanted) => walks((&self.one, !&self.other), indices, wanted),
            Joins::Atomic(wanted) => walks(&self.atomic, index, wanted),
            Joins::AndInPlace(wanted) => {
                let and = &self.one & &self.other;
                walks((&self.one, &and), indices, wanted)
            }
            Joins::OrInPlace(wanted) => {
                let or = &self.one | &self.other;
                walks((&self.one, &or), indices, wanted)
            }
            Joins::XorInPlace(wanted) => {
                let xor = &self.one ^ &self.other;
                walks((&self.one, &xor), indices, wanted)
            }
            Joins::NotInPlace(wanted) => {
                let not = !&self.other;
                walks((&self.one, &not), indices, wanted)
            }
        }
    }

    /// Whether a walk that owns the sets has these items.
    fn owned(self, wanted: &[(u32, u32)]) -> bool {
        let Sets {
            one,
            other: _,
            atomic,
        } = self;
        walks((one, atomic), indices, wanted)
    }
}

/// Whether a row joins as it has to.
fn holds(alloc: Global, row: &Row) -> bool {
    let mut sets = Sets::new(alloc);
    sets.takes(row.one, row.other) && sets.joins(&row.joins)
}

/// The first of some rows that doesn't hold.
fn wrong(alloc: Global, rows: &[Row]) -> Option<&'static str> {
    for row in rows {
        if !holds(alloc, row) {
            return Some(row.name);
        }
    }
    None
}

const ROWS: [Row; 11] = [
    Row {
        name: "a set joins by its indices",
        one: &[64, 1, 2],
        other: &[],
        joins: Joins::Lent(&[1, 2, 64]),
    },
    Row {
        name: "what two sets have joins",
        one: &[1, 2, 64],
        other: &[2, 3, 64],
        joins: Joins::And(&[2, 64]),
    },
    Row {
        name: "what one of two sets has joins",
        one: &[1, 2, 64],
        other: &[2, 3, 64],
        joins: Joins::Or(&[1, 2, 3, 64]),
    },
    Row {
        name: "what one of two sets alone has joins",
        one: &[1, 2, 64],
        other: &[2, 3, 64],
        joins: Joins::Xor(&[1, 3]),
    },
    Row {
        name: "what a set lacks joins",
        one: &[1, 2, 64],
        other: &[2, 3, 64],
        joins: Joins::Not(&[(1, 1)]),
    },
    Row {
        name: "what two sets have is read in place",
        one: &[1, 2, 64],
        other: &[2, 3, 64],
        joins: Joins::AndInPlace(&[(2, 2), (64, 64)]),
    },
    Row {
        name: "what one of two sets has is read in place",
        one: &[1, 2, 64],
        other: &[2, 3, 64],
        joins: Joins::OrInPlace(&[(1, 1), (2, 2), (64, 64)]),
    },
    Row {
        name: "what one of two sets alone has is read in place",
        one: &[1, 2, 64],
        other: &[2, 3, 64],
        joins: Joins::XorInPlace(&[(1, 1)]),
    },
    Row {
        name: "what a set lacks is read in place",
        one: &[1, 2, 64],
        other: &[2, 3, 64],
        joins: Joins::NotInPlace(&[(1, 1)]),
    },
    Row {
        name: "a set for several threads joins and stays",
        one: &[],
        other: &[4096, 63],
        joins: Joins::Atomic(&[63, 4096]),
    },
    Row {
        name: "sets that the walk owns join",
        one: &[64, 1, 2],
        other: &[2, 3, 64],
        joins: Joins::Owned(&[(2, 2), (64, 64)]),
    },
];

#[test]
fn sets_join_by_their_indices(rt: HostRuntime) {
    assert_eq!(rt; wrong(rt.alloc(), &ROWS), None);
}
