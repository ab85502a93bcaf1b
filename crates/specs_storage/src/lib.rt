//! Storages lent together with the entities: what is reached by an entity is reached only while it lives.
#![tactic(auto)]

pub mod builder;
pub mod drain;
pub mod entries;
pub mod entry;
pub mod generic;
mod joins;
pub mod loan;
pub mod restrict;
pub mod storage;

pub use builder::BuildWith;
pub use drain::Drain;
pub use entries::{Entries, EntryCursor, Place};
pub use entry::{EntryError, OccupiedEntry, StorageEntry, VacantEntry, entry_at};
pub use generic::{GenericReadStorage, GenericWriteStorage};
pub use loan::Loan;
pub use restrict::cursor::PairCursor;
pub use restrict::pair::{PairedStorage, PairedStorageMut};
pub use restrict::{
    ImmutableAliasing, ImmutableParallelRestriction, MutableParallelRestriction, Restrict,
    RestrictMut, RestrictedStorage, RestrictedStorageMut, SequentialRestriction,
};
pub use storage::{InsertResult, LendError, LentStorage, LentStorageMut, Storage};
