//! The calls that are measured, each with an answer that a wrong call would change.
use hibitset::{BitSet, BitSetLike, Counter, Index};
use std::alloc::AllocError;

/// Puts the indices in, those past the greatest left out, and counts those that were not there.
///
/// Errors: `AllocError`, and the indices before are in.
pub fn insert(set: &mut BitSet, indices: &[Index]) -> Result<u64, AllocError> {
    let mut new = 0u64;
    for i in indices {
        if *i < 16_777_216 && !set.add(*i)? {
            new = new.saturating_add(1);
        }
    }
    Ok(new)
}

/// Counts the indices that are members.
pub fn look_up(set: &BitSet, indices: &[Index]) -> u64 {
    let mut found = 0u64;
    for i in indices {
        if BitSet::contains(set, *i) {
            found = found.saturating_add(1);
        }
    }
    found
}

/// Takes the indices out, and counts those that were there.
pub fn remove(set: &mut BitSet, indices: &[Index]) -> u64 {
    let mut removed = 0u64;
    for i in indices {
        if BitSet::remove(set, *i) {
            removed = removed.saturating_add(1);
        }
    }
    removed
}

/// What a walk gave.
#[derive(Clone, Copy, Drop)]
pub struct Walked {
    /// How many members came.
    pub members: u64,
    /// A sum over the members in their order, which goes round at 2 ^ 64.
    pub sum: u64,
}

/// Walks a set to its end.
pub fn walk<T: BitSetLike + Drop>(set: T) -> Walked {
    let mut members = 0u64;
    let mut sum = 0u64;
    for i in set.iter() {
        members = members.saturating_add(1);
        sum = sum.wrapping_mul(31).wrapping_add(i as u64);
    }
    Walked { members, sum }
}

/// How many words were told of.
#[derive(Drop)]
struct Told(u64);

impl Counter for Told {
    ghost ticked = { λ _ _ _. Unit {0} };

    ghost ticked_none = { λ _. tt };

    ghost ticked_both = { λ _ _ _ _ _ _ _. tt };

    fn tick(&mut self) {
        self.0 = self.0.saturating_add(1);
    }
}

/// How many words of kept sets a walk to the end reads.
pub fn words_read<T: BitSetLike + Drop>(set: T) -> u64 {
    let mut told = Told(0);
    let mut walk = set.iter_counted(&mut told);
    for _ in 0..u64::MAX {
        if walk.next_counted(&mut told).is_none() {
            break;
        }
    }
    told.0
}
