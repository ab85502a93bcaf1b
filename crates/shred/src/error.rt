//! Why a system wasn't added.
use thiserror::Error;

/// Why a system or a batch wasn't added: the first of these that stands.
#[derive(Clone, Copy, Debug, PartialEq, Eq, Error)]
pub enum AddError {
    /// It comes after a system of a name that none has.
    #[error("no system has the name of a dependency")]
    NoSuchSystem,
    /// Its name is that of another.
    #[error("the name is taken")]
    NameTaken,
    /// There are 65,536 staged systems.
    #[error("there are 65536 systems")]
    SystemsFull,
    /// There was no memory for it.
    #[error("out of memory")]
    Memory,
}
