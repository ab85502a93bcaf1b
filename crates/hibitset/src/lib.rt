//! Sets of indices in four layers of words, their splits, and work over them in several threads.
//!
//! Sets, operators and walks are those of `hibitset_sets`, under the same names. This crate adds
//! producers, which can be split, parallel walks, and `AtomicBitSet`, held by one owner or shared by threads.
#![tactic(auto)]

pub mod atomic;
pub mod atomic_core;
pub mod atomic_ops;
pub mod flat;
pub mod laws;
pub mod par_iter;
pub mod parallel;
pub mod producer;
mod rows;
pub mod shared;
pub mod shared_rule;

pub use atomic::AtomicBitSet;
pub use atomic_ops::AtomicBitSetIter;
pub use flat::map_indices;
pub use hibitset_sets::average_ones::average_ones;
pub use hibitset_sets::count::{Counter, Steps, Uncounted};
pub use hibitset_sets::util::{BITS, LAYERS, MAX, Row, SHIFT0, SHIFT1, SHIFT2, SHIFT3, offsets};
pub use hibitset_sets::{
    BitIter, BitSet, BitSetAll, BitSetAnd, BitSetIter, BitSetLike, BitSetNot, BitSetOr, BitSetXor,
    DrainBitIter, DrainableBitSet, Index, KeptMasks, MAX_EID, take_in_word,
};
pub use par_iter::BitParIter;
pub use parallel::ParBitSetLike;
pub use producer::BitProducer;
pub use shared::{BitSeat, SeatsOut, SharedBitSet};
