//! Sets of indices in four layers of words: members, operators and walks.
//!
//! A set is a predicate on the whole numbers below 4,294,967,296, and its walk is the ascending
//! list of its members below [`MAX_EID`](util::MAX_EID). Operators are the connectives. Names and
//! behaviour are those of the Rust crate `hibitset`.
#![tactic(auto)]

mod assign;
pub mod average_ones;
pub mod bit_set;
pub mod bit_set_like;
pub mod count;
pub mod drain;
mod extend;
pub mod iter;
pub mod kept_masks;
pub mod laws;
mod layers;
pub mod ops;
pub mod util;

pub use bit_set::BitSet;
pub use bit_set_like::BitSetLike;
pub use drain::{DrainBitIter, DrainableBitSet};
pub use iter::{BitIter, take_in_word};
pub use kept_masks::KeptMasks;
pub use ops::{BitSetAll, BitSetAnd, BitSetIter, BitSetNot, BitSetOr, BitSetXor};
pub use util::{Index, MAX_EID};
