//! Cells that one may write or several may read, and resources in cells.

pub mod cell_core;
mod fetch_error;
mod guards;
mod invalid_borrow;
mod shared_fetch;
mod shared_world;
mod trust_cell;
mod words;

pub use fetch_error::FetchError;
pub use guards::{LoneMut, Ref, RefMut};
pub use invalid_borrow::InvalidBorrow;
pub use shared_fetch::{SharedFetch, SharedFetchMut};
pub use shared_world::SharedWorld;
pub use trust_cell::TrustCell;
