//! Components, each kind of which has its storage.
use crate::unprotected::UnprotectedStorage;

/// A type whose values are parts of entities.
pub trait Component: Drop {
    /// The storage that holds the parts of this kind.
    type Storage: UnprotectedStorage<Self> + Drop;
}
