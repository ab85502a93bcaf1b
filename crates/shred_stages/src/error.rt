//! Why a dispatch ended early.
use crate::{Stop, SystemId};
use thiserror::Error;

/// Why a dispatch ended early.
#[derive(Debug, PartialEq, Eq, Drop, Error)]
pub enum DispatchError {
    /// A staged system refused, the first in the order of the plan.
    #[error("system {number}: {1}", number = .0.0)]
    System(SystemId, Stop),
    /// A local system refused, by its place among them from 0.
    #[error("local system {0}: {1}")]
    Local(usize, Stop),
    /// There was no memory for what the stages are run with or for a worker: no system ran.
    #[error("out of memory for a stage")]
    Memory,
    /// A thread couldn't be started for a worker: no system ran.
    #[error("no thread for a stage")]
    Threads,
}
