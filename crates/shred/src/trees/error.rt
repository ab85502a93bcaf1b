//! Why a tree doesn't join a `Par`.
use thiserror::Error;

/// Why a tree doesn't join a `Par`.
#[derive(Clone, Copy, Debug, PartialEq, Eq, Error)]
pub enum ParError {
    /// What one of the two writes, the other reads or writes.
    #[error("the two halves conflict")]
    Conflict,
    /// There was no memory for the lists of ids that are compared.
    #[error("out of memory")]
    Memory,
}
