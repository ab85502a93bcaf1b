//! Two sets under the operators and the assignments.
use crate::walked::{atomic_of, members, set_of, walks};
use hibitset::AtomicBitSet;
use hibitset_sets::{BitSet, BitSetAnd, BitSetLike, BitSetOr, Index};
use std::alloc::{AllocError, Global};
use std::test::Fail;

/// Two sets, and the indices that both have, that either has and that one of them alone has.
struct Row {
    name: &'static str,
    left: &'static [Index],
    right: &'static [Index],
    both: &'static [Index],
    either: &'static [Index],
    one: &'static [Index],
}

const ROWS: [Row; 5] = [
    Row {
        name: "the worked intersection",
        left: &[1, 3, 5, 15, 200, 50001],
        right: &[1, 3, 50000, 50001],
        both: &[1, 3, 50001],
        either: &[1, 3, 5, 15, 200, 50000, 50001],
        one: &[5, 15, 200, 50000],
    },
    Row {
        name: "the worked assignments",
        left: &[1, 2],
        right: &[2, 3],
        both: &[2],
        either: &[1, 2, 3],
        one: &[1, 3],
    },
    Row {
        name: "no index in common",
        left: &[1, 2],
        right: &[5000, 262_144],
        both: &[],
        either: &[1, 2, 5000, 262_144],
        one: &[1, 2, 5000, 262_144],
    },
    Row {
        name: "indices under two bits of the top",
        left: &[1, 2, 5000, 262_144],
        right: &[2, 262_144, 262_145],
        both: &[2, 262_144],
        either: &[1, 2, 5000, 262_144, 262_145],
        one: &[1, 5000, 262_145],
    },
    Row {
        name: "the least and the greatest index",
        left: &[0, 16_777_215],
        right: &[16_777_215],
        both: &[16_777_215],
        either: &[0, 16_777_215],
        one: &[0],
    },
];

/// What is left of the first set where both have it.
fn shared(left: &BitSet, right: &BitSet) -> Result<BitSet, AllocError> {
    let mut set = left.clone()?;
    set &= right;
    Ok(set)
}

/// The first set with what the second has.
fn united(left: &BitSet, right: &BitSet) -> Result<BitSet, AllocError> {
    let mut set = left.clone()?;
    set.bitor_assign(right)?;
    Ok(set)
}

/// What one of the two sets alone has.
fn toggled(left: &BitSet, right: &BitSet) -> Result<BitSet, AllocError> {
    let mut set = left.clone()?;
    set.bitxor_assign(right)?;
    Ok(set)
}

/// Whether the virtual sets walk what the row says.
fn operators_hold(left: &BitSet, right: &BitSet, row: &Row) -> bool {
    walks(left & right, row.both) && walks(left | right, row.either) && walks(left ^ right, row.one)
}

/// Whether the assignments leave what the row says, and toggling twice the first set.
fn assignments_hold(left: &BitSet, right: &BitSet, row: &Row) -> Result<bool, AllocError> {
    let toggled_once = toggled(left, right)?;
    Ok(
        walks(shared(left, right)?, row.both)
            && walks(united(left, right)?, row.either)
            && walks(toggled(&toggled_once, right)?, row.left)
            && walks(toggled_once, row.one),
    )
}

fn holds(alloc: Global, row: &Row) -> Result<bool, AllocError> {
    let left = set_of(alloc, row.left)?;
    let right = set_of(alloc, row.right)?;
    Ok(operators_hold(&left, &right, row) && assignments_hold(&left, &right, row)?)
}

#[test]
fn two_sets_under_operators_and_assignments(rt: HostRuntime) -> Result<(), Fail> {
    let mut wrong = None;
    for row in ROWS.as_slice() {
        if !holds(rt.alloc(), row)? {
            wrong = Some(row.name);
        }
    }
    assert_eq!(rt; wrong, None);
    Ok(())
}

/// Whether sets for several threads, lent to the operators, walk what the row says, beside one of their kind and another set.
fn lent_hold(left: &AtomicBitSet, right: &AtomicBitSet, other: &BitSet, row: &Row) -> bool {
    walks(left & right, row.both)
        && walks(left | right, row.either)
        && walks(left ^ right, row.one)
        && walks(left & other, row.both)
        && walks((left & !right) | (right & !left), row.one)
}

/// Whether sets for several threads, held by the operators, do.
fn held_hold(alloc: Global, row: &Row, other: &BitSet) -> Result<bool, AllocError> {
    let both = atomic_of(alloc, row.left)? & atomic_of(alloc, row.right)?;
    let either = atomic_of(alloc, row.left)? | other;
    let one = atomic_of(alloc, row.left)? ^ other;
    let left_alone = atomic_of(alloc, row.left)? & !atomic_of(alloc, row.right)?;
    let right_alone = atomic_of(alloc, row.right)? & !atomic_of(alloc, row.left)?;
    Ok(
        walks(both, row.both)
            && walks(either, row.either)
            && walks(one, row.one)
            && walks(left_alone | right_alone, row.one),
    )
}

/// Whether a `for` over a set for several threads comes to these indices, first lent and then by value.
fn comes_to(set: AtomicBitSet, wanted: &[Index]) -> bool {
    let mut left = wanted;
    for index in &set {
        match left.split_first() {
            Some((first, rest)) if *first == index => left = rest,
            _ => return false,
        }
    }
    left.is_empty() && comes_by_value(set, wanted)
}

/// Whether a `for` over such a set by value does.
fn comes_by_value(set: AtomicBitSet, wanted: &[Index]) -> bool {
    let mut left = wanted;
    for index in set {
        match left.split_first() {
            Some((first, rest)) if *first == index => left = rest,
            _ => return false,
        }
    }
    left.is_empty()
}

fn atomic_holds(alloc: Global, row: &Row) -> Result<bool, AllocError> {
    let left = atomic_of(alloc, row.left)?;
    let right = atomic_of(alloc, row.right)?;
    let other = set_of(alloc, row.right)?;
    Ok(
        lent_hold(&left, &right, &other, row)
            && held_hold(alloc, row, &other)?
            && comes_to(left, row.left),
    )
}

#[test]
fn sets_for_several_threads_under_operators(rt: HostRuntime) -> Result<(), Fail> {
    let mut wrong = None;
    for row in ROWS.as_slice() {
        if !atomic_holds(rt.alloc(), row)? {
            wrong = Some(row.name);
        }
    }
    assert_eq!(rt; wrong, None);
    Ok(())
}

/// The numbers below `end` that leave `rest` when divided by 2.
fn halves(alloc: Global, end: Index, rest: Index) -> Result<BitSet, AllocError> {
    let mut set = BitSet::new(alloc);
    for i in 0..end {
        if i % 2 == rest && i < 16_777_216 {
            let _ = set.add(i)?;
        }
    }
    Ok(set)
}

/// How many odd and even numbers there are below 100,000, and how many are both.
fn odd_and_even(alloc: Global) -> Result<[usize; 3], AllocError> {
    let odd = halves(alloc, 100_000, 1)?;
    let even = halves(alloc, 100_000, 0)?;
    let none = BitSetAnd(&odd, &even).is_empty() && !BitSetOr(&odd, &even).is_empty();
    let both = if none {
        members(BitSetAnd(&odd, &even))
    } else {
        1
    };
    Ok([members(&odd), members(&even), both])
}

#[test]
fn odd_and_even_numbers_share_none(rt: HostRuntime) -> Result<(), Fail> {
    assert_eq!(rt; odd_and_even(rt.alloc())?, [50_000, 50_000, 0]);
    Ok(())
}
