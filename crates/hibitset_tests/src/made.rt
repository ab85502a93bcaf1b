//! Sets that are made of indices, or to which indices are added.
use crate::walked::walks;
use hibitset::AtomicBitSet;
use hibitset_sets::{BitSet, Index};
use std::alloc::{AllocError, Global};
use std::test::Fail;

/// What ranges and a list make of a set: 3 to 5, then to 7, then 9 and 3 again.
fn made_of_indices(alloc: Global) -> Result<BitSet, AllocError> {
    let mut set = BitSet::from_indices(alloc, 3..6)?;
    set.extend_indices(5..8)?;
    set.extend_indices_by_ref(&[9u32, 3])?;
    Ok(set)
}

/// The same of a set for several threads.
fn atomic_made_of_indices(alloc: Global) -> Result<AtomicBitSet, AllocError> {
    let mut set = AtomicBitSet::from_indices(alloc, 3..6)?;
    set.extend_indices(5..8)?;
    set.extend_indices_by_ref(&[9u32, 3])?;
    Ok(set)
}

/// A set and one for several threads, each made of a list.
fn made_of_lists(alloc: Global) -> Result<(BitSet, AtomicBitSet), AllocError> {
    let set = BitSet::from_indices_by_ref(alloc, &[9u32, 3])?;
    let atomic = AtomicBitSet::from_indices_by_ref(alloc, &[9u32, 3])?;
    Ok((set, atomic))
}

/// Whether a set that is taken by value walks 3 and 9.
fn walks_by_value(set: BitSet) -> bool {
    let mut wanted: [Index; 2] = [3, 9];
    let mut same = true;
    let mut came = 0usize;
    for i in set {
        same = same && wanted.get(came) == Some(&i);
        came = came.wrapping_add(1);
    }
    wanted[0] = 0;
    same && came == wanted.len()
}

#[test]
fn a_set_is_made_of_indices(rt: HostRuntime) -> Result<(), Fail> {
    let all = [3, 4, 5, 6, 7, 9];
    assert!(rt; walks(made_of_indices(rt.alloc())?, &all));
    assert!(rt; walks(atomic_made_of_indices(rt.alloc())?, &all));
    let (set, atomic) = made_of_lists(rt.alloc())?;
    assert!(rt; walks_by_value(set) && walks(atomic, &[3, 9]));
    Ok(())
}
