//! The core of a phase in which several callers create and delete entities at once: plain data,
//! without a handle and without threads.
//!
//! It has a claim word, and two sets as `hibitset::atomic_core` has them: where entities were raised
//! and where deletions were accepted. A call of `create` is a claim and four steps on the raised set, a
//! call of `delete` four steps on the killed set, and `is_alive` a look at one word of the raised set.
//! The laws of `laws` say what holds of every run.
use hibitset::atomic_core::Run;
use std::collections::LinkedList;

/// One step of one caller, which is named by its place among the callers.
///
/// A step that its caller can't make changes nothing: a claim takes an allowance, and a claim or a
/// deletion begins only where the caller has no call in flight; a deletion begins only on an index
/// where an entity lived at the opening, or that the caller saw raised.
pub enum Event {
    /// The next place of the reserve is claimed.
    Claim(u64),
    /// The index of the claim gets its bit in the next layer of the raised set, the lowest first.
    Raise(u64),
    /// The deletion of the entity at an index begins: the caller, and the index.
    Kill(u64, u64),
    /// The deletion in flight gets its bit in the next layer of the killed set.
    Bury(u64),
    /// A word of the raised set is loaded: the caller, and the number of the word.
    LookUp(u64, u64),
}

/// What a caller has beside its calls on the two sets.
pub struct Claimer {
    /// The places of the reserve that it claimed, in order.
    pub births: LinkedList<u64>,
    /// The last of them, until the first bit of its index is set.
    pub pending: LinkedList<u64>,
    /// How many more it may claim.
    pub allowance: u64,
}

/// A phase between two steps.
pub struct Phase {
    /// How many places of the reserve are claimed.
    pub claim: u64,
    /// The set of the indices that were raised, with its callers.
    pub raised: Run,
    /// The set of the indices whose deletion was accepted, with its callers.
    pub killed: Run,
    /// Each caller, at its place.
    pub claimers: LinkedList<Claimer>,
}
