//! Why a call of an asynchronous dispatcher gives nothing.
use crate::DispatchError;
use thiserror::Error;

/// Why a call of an asynchronous dispatcher gives nothing.
#[derive(Debug, PartialEq, Eq, Drop, Error)]
pub enum AsyncError {
    /// The dispatch that was waited for, or a local system after it, ended early, also for want of a thread for one of its stages;
    /// dispatcher and world are at hand.
    #[error("the dispatch ended early: {0}")]
    Refused(DispatchError),
    /// There was no memory to start a dispatch or to set systems up.
    #[error("out of memory")]
    Memory,
    /// A thread couldn't be started, now or once before: systems and world were let go with it.
    #[error("a thread couldn't be started: systems and world are lost")]
    Failed,
}
