//! Why a system didn't do its work, and which one.
use std::string::String;
use thiserror::Error;

/// Why a system refused.
#[derive(Debug, PartialEq, Eq, Drop, Error)]
pub enum Stop {
    /// By its own rules, told by a text.
    #[error("refused: {0}")]
    Refused(String),
    /// It found no memory.
    #[error("out of memory")]
    Memory,
    /// A list that it fills is full.
    #[error("a list is full")]
    Full,
}

/// A staged system: its place among them in the order in which they were added, from 0.
#[derive(Clone, Copy, Debug, PartialEq, Eq, PartialOrd, Ord, Hash)]
pub struct SystemId(pub u32);
