//! Where the indices of the measured sets lie.
use hibitset::{BitSet, Index};
use std::alloc::{AllocError, Global};

/// How the indices of a set lie below its end.
#[derive(Clone, Copy, Drop)]
pub enum Shape {
    /// Every index.
    Dense,
    /// Every 997th index.
    Sparse,
    /// The first 100 of each 1000 indices.
    Clustered,
}

impl Shape {
    /// The word for it in the printed lines.
    pub fn name(self) -> &'static str {
        match self {
            Shape::Dense => "dense",
            Shape::Sparse => "sparse",
            Shape::Clustered => "clustered",
        }
    }

    /// Whether an index belongs to it.
    fn holds(self, i: Index) -> bool {
        match self {
            Shape::Dense => true,
            Shape::Sparse => i % 997 == 0,
            Shape::Clustered => i % 1000 < 100,
        }
    }

    /// Its indices below `end`, in ascending order.
    ///
    /// Errors: `AllocError`.
    pub fn indices(self, alloc: Global, end: Index) -> Result<Vec<Index>, AllocError> {
        let mut indices = Vec::new(alloc);
        for i in 0..end {
            if self.holds(i) {
                indices.push(i)?;
            }
        }
        Ok(indices)
    }
}

/// The set of every `step`-th index below `end`, those past the greatest left out.
///
/// It has none where `step` is 0.
///
/// Errors: `AllocError`.
pub fn every(alloc: Global, end: Index, step: Index) -> Result<BitSet, AllocError> {
    let mut set = BitSet::new(alloc);
    for i in 0..end {
        if step != 0 && i % step == 0 && i < 16_777_216 {
            let _ = set.add(i)?;
        }
    }
    Ok(set)
}

/// The sets of every second, third and fifth index, which the operators are tried with.
#[derive(Drop)]
pub struct Partners {
    pub second: BitSet,
    pub third: BitSet,
    pub fifth: BitSet,
}

impl Partners {
    /// Those below `end`.
    ///
    /// Errors: `AllocError`.
    pub fn below(alloc: Global, end: Index) -> Result<Partners, AllocError> {
        let second = every(alloc, end, 2)?;
        let third = every(alloc, end, 3)?;
        let fifth = every(alloc, end, 5)?;
        Ok(Partners {
            second,
            third,
            fifth,
        })
    }
}
