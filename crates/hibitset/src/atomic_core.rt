//! The core of a set that several callers add to at once: plain data, without a handle and without threads.
//!
//! A call of `add_atomic` is four steps, one in each layer and the lowest first, and a call of
//! `contains` is one. A run is any list of steps of any number of callers, over layers of any sizes.
//! `laws::every_interleaving_of_a_shared_set` says what holds of every run.
use std::collections::LinkedList;

/// The words of the four layers in one row, the lowest layer first.
pub type Words = LinkedList<u64>;

/// One step of one caller, which is named by its place among the callers.
///
/// A step that its caller can't make changes nothing: a call begins where none is in flight, on an
/// index within layer 0, and rises where one is in flight.
pub enum Step {
    /// A call on an index sets its bit in layer 0: the caller, and the index.
    Begin(u64, u64),
    /// The call in flight sets its bit in the next layer. Above the last it is ended.
    Rise(u64),
    /// A word is loaded: the caller, and the number of the word in the row.
    Look(u64, u64),
}

/// What a caller did, and what it saw.
pub struct Caller {
    /// The index of each ended call, and whether the call found it there.
    pub calls: LinkedList<(u64, bool)>,
    /// For each load the number of its word, and what it found.
    pub seen: LinkedList<(u64, u64)>,
    /// In how many layers the call in flight has set its bit: 0 where no call is in flight.
    pub stage: u64,
    /// The index of the call in flight.
    pub index: u64,
    /// Whether the call in flight found its index there.
    pub found: bool,
}

/// The words and the callers between two steps.
pub struct Run {
    /// The words of all layers.
    pub words: Words,
    /// Each caller, at its place.
    pub callers: LinkedList<Caller>,
}
