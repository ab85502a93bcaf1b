//! Sets of changes of parts.
ghost use Rattle.std.specs.Prelude.{◌≡◌, IsSome, None, Some, OnOk, OnErr, IfErr};
ghost use Rattle.std.specs.Iterator.{IsFiniteIterable};
ghost use Rattle.specs_layouts.specs.Parts.{Puts, SameParts, HasNone};
ghost use Rattle.specs_join.specs.Changes.{change_at, with_change, FitsChange, Adds, RefusesChange, Extends, Makes};

mod joins;
pub mod taking;

use crate::accumulate::{Accumulate, Overflow};
use hibitset::{Index, MAX_EID};
use specs_entity::Entity;
use specs_layouts::{Component, DenseVecStorage, MaskedStorage, TryDefault};
use std::alloc::Global;
use thiserror::Error;

/// What a change is refused for.
#[derive(Debug, Drop, Error)]
pub enum ChangeError {
    /// The sum of the changes has no place in its type.
    #[error("the sum of the changes has no place in its type")]
    Overflow,
    /// The entity's index is `MAX_EID` or above, where no entity ever lives.
    #[error("the index of the entity is out of range")]
    OutOfRange,
    /// There was no memory for it.
    #[error("out of memory")]
    Memory,
}

impl From<Overflow> for ChangeError {
    ghost use Rattle.std.specs.Prelude.{◌≡◌};
    ghost use Rattle.specs_join.specs.declared.changeset.ChangeError.TheVariants as variant;

    ghost from_gives = { λ _ error. error ≡ variant.Overflow };

    fn from(_refusal: Overflow) -> ChangeError {
        ChangeError::Overflow
    }
}

/// The component under which a change set keeps its changes.
#[derive(Drop)]
pub struct Change<T>(pub T);

impl<T: Drop> Component for Change<T> {
    type Storage = DenseVecStorage<Change<T>>;
}

/// Changes of parts, at most one for each index: what is added to an index that has one is added to it.
#[derive(Drop)]
pub struct ChangeSet<T: Drop> {
    /// The changes with their mask, to be joined by a cursor that changes them.
    pub storage: MaskedStorage<Change<T>>,
}

impl<T: Drop> ChangeSet<T> {
    /// No change. Takes no memory.
    pub fn new(alloc: Global) -> ChangeSet<T>
        ensures { HasNone (change_at result) }
    {
        ChangeSet {
            storage: MaskedStorage::new(alloc, DenseVecStorage::unwrap_default(alloc)),
        }
    }

    /// Takes out all changes. Takes no memory.
    pub fn clear(&mut self)
        ensures { HasNone (change_at self.new) }
    {
        self.storage.clear();
    }

    /// Takes out the change at an index, or answers none where it has none. Takes no memory.
    pub fn take(&mut self, id: Index) -> Option<T>
        ensures value { result ≡ change_at self.old id }
        ensures taken { Puts (change_at self.old) id None (change_at self.new) }
    {
        match self.storage.remove(id) {
            Ok(Some(Change(value))) => Some(value),
            Ok(None) => None,
            Err(_) => unreachable!(),
        }
    }
}

impl<T: Accumulate + Drop> ChangeSet<T> {
    /// Adds a change to the one that an index has.
    fn add_to(&mut self, id: Index, value: T) -> Result<(), Overflow>
        requires { IsSome (change_at self.old id) }
        ensures ok { OnOk result (Puts (change_at self.old) id
            (Some (with_change T.sum (change_at self.old id) value)) (change_at self.new)) }
        ensures fits { OnOk result (FitsChange T.fits (change_at self.old id) value) }
        ensures err { OnErr result (SameParts (change_at self.old) (change_at self.new)) }
        ensures overflow { OnErr result (¬ (FitsChange T.fits (change_at self.old id) value)) }
    {
        match self.storage.get_mut(id) {
            Ok(change) => change.0.add_in(value),
            Err(_) => unreachable!(),
        }
    }

    /// Adds a change at the index of an entity: to the change that is there, or where none is.
    ///
    /// Errors: `Overflow`, where the sum has no place in its type; `OutOfRange`, from index `MAX_EID` on;
    /// `Memory`, only where the index has no change. Each index has the change that it had.
    pub fn add(&mut self, entity: Entity, value: T) -> Result<(), ChangeError>
        ensures ok { OnOk result (Adds T.sum T.fits (change_at self.old) entity.id value (change_at self.new)) }
        ensures err { OnErr result (SameParts (change_at self.old) (change_at self.new)) }
        ensures refused { IfErr result (λ error. RefusesChange T.fits (change_at self.old) entity.id value error) }
    {
        let id = entity.id();
        if id as usize >= MAX_EID {
            return Err(ChangeError::OutOfRange);
        }
        if self.storage.contains(id) {
            self.add_to(id, value)?;
            Ok(())
        } else {
            match self.storage.insert(id, Change(value)) {
                Ok(_) => Ok(()),
                Err(_) => Err(ChangeError::Memory),
            }
        }
    }

    /// Adds the changes of pairs in, in the order in which they come, as `add` does.
    ///
    /// Errors: those of `add` at some pair, and the pairs before it are added.
    pub fn extend_pairs<U: IntoIterator<Item = (Entity, T)>>(
        &mut self,
        pairs: U,
    ) -> Result<(), ChangeError>
        requires { IsFiniteIterable U.into_iter_gives U.IntoIter.can_next U.IntoIter.remaining pairs }
        ensures { Extends T.sum T.fits U.into_iter_gives U.IntoIter.next_gives pairs (change_at self.old)
            (change_at self.new) result }
    {
        for (entity, value) in pairs {
            self.add(entity, value)?;
        }
        Ok(())
    }

    /// The change set of pairs, added in the order in which they come.
    ///
    /// Errors: those of `add` at some pair.
    pub fn from_pairs<U: IntoIterator<Item = (Entity, T)>>(
        alloc: Global,
        pairs: U,
    ) -> Result<ChangeSet<T>, ChangeError>
        requires { IsFiniteIterable U.into_iter_gives U.IntoIter.can_next U.IntoIter.remaining pairs }
        ensures { Makes T.sum T.fits U.into_iter_gives U.IntoIter.next_gives change_at pairs result }
    {
        let mut changes = ChangeSet::new(alloc);
        changes.extend_pairs(pairs)?;
        Ok(changes)
    }
}
