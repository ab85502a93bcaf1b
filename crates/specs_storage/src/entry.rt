//! The place of an entity's part, with a part or without.
ghost use Rattle.std.specs.Prelude.{◌≡◌, ◌<◌, IsSome, IsTrue, is_some, false};

mod fill;
mod occupied;
mod open;
mod replace;
mod vacant;

use hibitset::Index;
pub use open::entry_at;
use specs_entity::{Entity, Generation};
use specs_layouts::{Component, MaskedStorage, UnprotectedStorage};
use std::alloc::{AllocError, AllocFailed};
pub(crate) use vacant::fill;

/// What is known of an entity whose place is asked for.
#[derive(Drop)]
struct EntryOf<'a, T: Component> {
    store: &'a mut MaskedStorage<T>,
    entity: Entity,
    is_alive: bool,
    last: Generation,
    ghost range: { IsTrue is_alive → entity.id < 16777216 },
}

/// The place of a part that is there.
#[derive(Drop)]
pub struct OccupiedEntry<'a, T: Component> {
    /// The storage.
    pub store: &'a mut MaskedStorage<T>,
    /// The index.
    pub id: Index,
    ghost there: { IsSome (T.Storage.part_at store.now.inner id) },
    ghost range: { id < 16777216 },
}

/// The place of a part that isn't there.
#[derive(Drop)]
pub struct VacantEntry<'a, T: Component> {
    /// The storage.
    pub store: &'a mut MaskedStorage<T>,
    /// The index.
    pub id: Index,
    ghost lacking: { is_some (T.Storage.part_at store.now.inner id) ≡ false },
    ghost range: { id < 16777216 },
}

/// The place of an entity's part.
#[derive(Drop)]
pub enum StorageEntry<'a, T: Component> {
    /// The part is there.
    Occupied(OccupiedEntry<'a, T>),
    /// The part isn't there.
    Vacant(VacantEntry<'a, T>),
}

/// The storage and the index of a place.
#[derive(Drop)]
struct Spot<'a, T: Component> {
    store: &'a mut MaskedStorage<T>,
    id: Index,
    ghost range: { id < 16777216 },
}

/// Why a place doesn't lend its part for writing. Each index has the part that it had.
#[derive(Debug, Drop)]
pub enum EntryError<T> {
    /// There was no memory to put this part there.
    Refused(T),
    /// A part was there, and there was no memory to tell that it is lent.
    NotLent,
}

impl<T> From<AllocError> for EntryError<T> {
    ghost use Rattle.specs_storage.specs.declared.entry.EntryError.TheVariants as variant;

    ghost from_gives = { λ _ error. error ≡ variant.NotLent };

    fn from(_refusal: AllocError) -> EntryError<T> {
        EntryError::NotLent
    }
}

impl<T> From<AllocFailed<T>> for EntryError<T> {
    ghost use Rattle.specs_storage.specs.declared.entry.EntryError.TheVariants as variant;

    ghost from_gives = { λ refused error. error ≡ variant.Refused refused.value };

    fn from(refused: AllocFailed<T>) -> EntryError<T> {
        EntryError::Refused(refused.value)
    }
}
