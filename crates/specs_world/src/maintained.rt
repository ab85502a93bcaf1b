//! How many jobs ran while a world was maintained.

/// How many jobs ran, and how many of them failed.
#[derive(Clone, Copy, Debug, PartialEq, Eq)]
pub struct Maintained {
    /// All that ran.
    pub jobs: u64,
    /// Those of them that failed.
    pub failed: u64,
}
