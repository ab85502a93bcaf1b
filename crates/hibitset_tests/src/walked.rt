//! What the tables share: sets of indices, and whether a set walks what a row says.
use hibitset::AtomicBitSet;
use hibitset_sets::{BitSet, BitSetLike, Index};
use std::alloc::{AllocError, Global};

/// The set of the indices, those past the greatest left out.
pub fn set_of(alloc: Global, indices: &[Index]) -> Result<BitSet, AllocError> {
    let mut set = BitSet::new(alloc);
    for i in indices {
        if *i < 16_777_216 {
            let _ = set.add(*i)?;
        }
    }
    Ok(set)
}

/// The same as a set for several threads.
pub fn atomic_of(alloc: Global, indices: &[Index]) -> Result<AtomicBitSet, AllocError> {
    let mut set = AtomicBitSet::new(alloc);
    for i in indices {
        if *i < 16_777_216 {
            let _ = set.add(*i)?;
        }
    }
    Ok(set)
}

/// Whether a set walks these indices and no other.
pub fn walks<T: BitSetLike + Drop>(set: T, wanted: &[Index]) -> bool {
    let mut came = 0usize;
    for i in set.iter() {
        if wanted.get(came) != Some(&i) {
            return false;
        }
        came = came.wrapping_add(1);
    }
    came == wanted.len()
}

/// How many indices a set walks.
pub fn members<T: BitSetLike + Drop>(set: T) -> usize {
    let mut came = 0usize;
    for _ in set.iter() {
        came = came.wrapping_add(1);
    }
    came
}
