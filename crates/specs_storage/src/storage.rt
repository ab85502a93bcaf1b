//! A storage that is lent together with the entities.
ghost use Rattle.std.specs.Prelude.{◌≡◌, ◌↔◌, length, IsTrue, option_copied};
ghost use Rattle.hibitset_sets.specs.Walk.{walk};
ghost use Rattle.specs_layouts.specs.Parts.{HasNone};
ghost use Rattle.specs_layouts.specs.Masked.{Agrees};
ghost use Rattle.specs_storage.specs.Found.{Finds, HasPart, has_some};

mod track;
mod write;

use crate::loan::Loan;
use hibitset::{BitSet, BitSetLike};
use specs_entity::{Entities, EntitiesRes, Entity, Error};
use specs_layouts::{Component, MaskedStorage, SliceAccess, UnprotectedStorage};
use std::alloc::AllocError;
use std::marker::PhantomData;
pub(crate) use write::not_alive;

/// What an insertion answers: the part that was there, or a refusal with the part that was to be put.
pub type InsertResult<T> = Result<Option<T>, (Error, T)>;

/// Why a part isn't lent for writing.
#[derive(Clone, Copy, Debug, PartialEq, Eq)]
pub enum LendError {
    /// The entity isn't alive, or has no part.
    Absent,
    /// There was no memory to tell that the part is lent.
    Memory,
}

impl From<AllocError> for LendError {
    ghost use Rattle.specs_storage.specs.declared.storage.LendError.TheVariants as variant;

    ghost from_gives = { λ _ error. error ≡ variant.Memory };

    fn from(_refusal: AllocError) -> LendError {
        LendError::Memory
    }
}

/// The parts of one kind, and the entities that have them.
#[derive(Drop)]
pub struct Storage<'e, T, D> {
    /// The entities.
    pub entities: Entities<'e>,
    /// The parts.
    pub store: D,
    kind: PhantomData<T>,
}

/// Parts that are lent for reading.
pub type LentStorage<'e, T> = Storage<'e, T, &'e MaskedStorage<T>>;

/// Parts that are lent for writing.
pub type LentStorageMut<'e, T> = Storage<'e, T, &'e mut MaskedStorage<T>>;

impl<'e, T, D> Storage<'e, T, D> {
    /// The storage of these entities' parts.
    pub fn new(entities: Entities<'e>, store: D) -> Self
        ensures entities { result.entities ≡ entities.entry }
        ensures store { result.store ≡ store }
    {
        Storage {
            entities,
            store,
            kind: PhantomData,
        }
    }

    /// The entities.
    pub fn fetched_entities(&self) -> &EntitiesRes
        ensures { result.now ≡ self.now.entities.now }
    {
        self.entities
    }
}

impl<'e, T: Component, D: Loan<T>> Storage<'e, T, D> {
    /// The layout that holds the parts.
    pub fn unprotected_storage(&self) -> &T::Storage
        ensures { result.now ≡ (D.lent self.now.store).inner }
    {
        self.store.storage().inner()
    }

    /// The indices that have a part, also those of entities that aren't alive.
    pub fn mask(&self) -> &BitSet
        ensures { Agrees result.now (T.Storage.part_at (D.lent self.now.store).inner) }
    {
        self.store.storage().mask()
    }

    /// The part of an entity, or none where the entity isn't alive or has none.
    pub fn get(&self, e: Entity) -> Option<&T>
        ensures { Finds self.now.entities.now (T.Storage.part_at (D.lent self.now.store).inner) e
            (option_copied result) }
    {
        if self.contains(e) {
            Some(self.store.storage().get(e.id()))
        } else {
            None
        }
    }

    /// Whether an entity is alive and has a part.
    pub fn contains(&self, e: Entity) -> bool
        ensures { IsTrue result ↔ HasPart self.now.entities.now (T.Storage.part_at (D.lent self.now.store).inner) e }
    {
        self.store.storage().contains(e.id()) && self.entities.is_alive(e)
    }

    /// How many indices have a part. It costs a walk over them.
    pub fn count(&self) -> usize
        ensures { result ≡ length (walk (has_some (T.Storage.part_at (D.lent self.now.store).inner))) }
    {
        self.mask().iter().count()
    }

    /// Whether no index has a part.
    pub fn is_empty(&self) -> bool
        ensures { IsTrue result ↔ HasNone (T.Storage.part_at (D.lent self.now.store).inner) }
    {
        self.mask().is_empty()
    }
}

impl<'e, T: Component, D: Loan<T>> Storage<'e, T, D>
where
    T::Storage: SliceAccess<T>,
{
    /// The layout of the parts, as a slice.
    pub fn as_slice(&self) -> &[<T::Storage as SliceAccess<T>>::Element]
        ensures { result.now ≡ T.Storage.shown (D.lent self.now.store).inner }
    {
        self.store.storage().inner().as_slice()
    }
}
