//! Why a shared world doesn't lend a resource.

use crate::cells::InvalidBorrow;
use shred_world::Missing;
use thiserror::Error;

/// Why a shared world doesn't lend a resource.
#[derive(Clone, Copy, Debug, PartialEq, Eq, Drop, Error)]
pub enum FetchError {
    /// No resource of the type stands under its id.
    #[error("the resource is missing")]
    Missing(Missing),
    /// Its cell is borrowed.
    #[error(transparent)]
    Borrowed(InvalidBorrow),
}
