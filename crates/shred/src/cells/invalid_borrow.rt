//! Why a cell isn't lent.

use thiserror::Error;

/// The cell is borrowed the other way, or has as many readers as it can have.
#[derive(Clone, Copy, Debug, PartialEq, Eq, Drop, Error)]
#[error("the cell is already borrowed")]
pub struct InvalidBorrow;
