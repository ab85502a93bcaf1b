//! Drains that are let go before their end: what they gave is taken out, and nothing else.
use crate::walked::{set_of, walks};
use hibitset::AtomicBitSet;
use hibitset_sets::laws::a_dropped_drain_took_what_it_gave;
use hibitset_sets::{
    BitIter, BitSet, BitSetAnd, BitSetLike, BitSetOr, DrainBitIter, DrainableBitSet, Index,
};
use std::alloc::{AllocError, Global};
use std::test::Fail;

/// A set that is drained into that many places, what comes and what is left.
struct Row {
    members: &'static [Index],
    places: usize,
    given: &'static [Index],
    left: &'static [Index],
}

const ROWS: [Row; 4] = [
    Row {
        members: &[1, 2, 3],
        places: 2,
        given: &[1, 2],
        left: &[3],
    },
    Row {
        members: &[9, 70, 5000],
        places: 4,
        given: &[9, 70, 5000],
        left: &[],
    },
    Row {
        members: &[9, 70, 5000],
        places: 0,
        given: &[],
        left: &[9, 70, 5000],
    },
    Row {
        members: &[],
        places: 3,
        given: &[],
        left: &[],
    },
];

/// Whether a drain of the set into that many places gives these indices.
fn gives<T: DrainableBitSet>(set: &mut T, places: usize, given: &[Index]) -> bool {
    let mut room = [0u32; 4];
    if places > 4 {
        return false;
    }
    let came = a_dropped_drain_took_what_it_gave(set, &mut room[..places]);
    room.get(..came) == Some(given)
}

fn holds(alloc: Global, row: &Row) -> Result<bool, AllocError> {
    let mut set = set_of(alloc, row.members)?;
    Ok(gives(&mut set, row.places, row.given) && walks(&set, row.left))
}

#[test]
fn a_dropped_drain_has_taken_the_first_of_the_walk(rt: HostRuntime) -> Result<(), Fail> {
    let mut wrong = None;
    for row in ROWS.as_slice() {
        if !holds(rt.alloc(), row)? {
            wrong = Some(row.members);
        }
    }
    assert_eq!(rt; wrong, None);
    Ok(())
}

/// Whether a drain of what both sets have takes its one item out of both.
fn both_lose_it(alloc: Global) -> Result<bool, AllocError> {
    let one = set_of(alloc, &[1, 2, 3])?;
    let mut both = BitSetAnd(one, set_of(alloc, &[2, 3, 4])?);
    Ok(gives(&mut both, 1, &[2]) && walks(&both.0, &[1, 3]) && walks(&both.1, &[3, 4]))
}

/// Whether a drain, lent, of what either set has takes its items out of each.
fn each_loses_its_own(alloc: Global) -> Result<bool, AllocError> {
    let one = set_of(alloc, &[1])?;
    let mut either = BitSetOr(one, set_of(alloc, &[1, 300])?);
    Ok(gives(&mut &mut either, 3, &[1, 300]) && either.is_empty())
}

/// Whether a drain of a set for several threads, which is held alone, takes its item out.
fn an_atomic_set_loses_it(alloc: Global) -> Result<bool, AllocError> {
    let mut set = AtomicBitSet::new(alloc);
    let _ = set.add(4_096)?;
    let _ = set.add(3)?;
    Ok(gives(&mut set, 1, &[3]) && walks(&set, &[4_096]))
}

#[test]
fn drains_of_several_sets_take_out_of_each(rt: HostRuntime) -> Result<(), Fail> {
    assert!(rt; both_lose_it(rt.alloc())?);
    assert!(rt; each_loses_its_own(rt.alloc())?);
    assert!(rt; an_atomic_set_loses_it(rt.alloc())?);
    Ok(())
}

/// Whether a walk goes on from masks that have the bit of 5 in the first word and that of the second word.
fn goes_on(set: &BitSet) -> bool {
    let mut walk = BitIter::new(set, [1 << 5, 1 << 1, 0, 0], [0, 0, 0]);
    walk.contains(70)
        && walk.next() == Some(5)
        && walk.next() == Some(64)
        && walk.next() == Some(70)
        && walk.next() == None
}

/// Whether a drain goes on from a mask that has the bit of 5 alone.
fn drains_on(set: &mut BitSet) -> bool {
    let mut drain = DrainBitIter::new(set, [1 << 5, 0, 0, 0], [0, 0, 0]);
    drain.next() == Some(5) && drain.next() == None
}

#[test]
fn walks_and_drains_go_on_from_masks(rt: HostRuntime) -> Result<(), Fail> {
    let mut set = set_of(rt.alloc(), &[0, 5, 64, 70])?;
    assert!(rt; goes_on(&set) && drains_on(&mut set) && walks(&set, &[0, 64, 70]));
    Ok(())
}
