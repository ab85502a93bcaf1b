//! Layouts of storages, from vectors to tables: parts under a mask, storages that tell of each change, and the channels in
//! which they tell it.
#![tactic(auto)]

pub mod any_storage;
mod blocks;
pub mod channel;
pub mod comp;
pub mod flagged;
pub mod index_event;
pub mod laws;
pub mod masked;
pub mod slices;
pub mod storages;
pub mod track;
pub mod tracked;
pub mod unprotected;

pub use any_storage::AnyStorage;
pub use channel::{EventChannel, ReaderId};
pub use comp::Component;
pub use flagged::FlaggedStorage;
pub use index_event::IndexEvent;
pub use masked::MaskedStorage;
pub use slices::SliceAccess;
pub use storages::{
    BTreeStorage, DefaultVecStorage, DenseVecStorage, HashMapStorage, NullStorage, Single,
    VecStorage,
};
pub use track::ComponentEvent;
pub use tracked::Tracked;
pub use unprotected::{DistinctStorage, TryDefault, UnprotectedStorage};
