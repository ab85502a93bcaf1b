//! Storages behind a trait, for callers that take any.
ghost use Rattle.std.specs.Prelude.{◌≡◌, ◌↔◌, ◌<◌, ℕ, Bool, false, IsOk};
ghost use Rattle.std.specs.Prelude.{Option, Some, None, IsSome, is_some, option_copied};
ghost use Rattle.std.specs.Prelude.{IfOk, IfErr, IsErrOf, OnOk, OnErr, if◌then◌else◌};
ghost use Rattle.std.specs.Borrow.{sem, LendsIfOk, LendsSoOk};
ghost use Rattle.std.specs.Option.{UnwrapsOrElse};
ghost use Rattle.specs_layouts.specs.Channels.{Log};
ghost use Rattle.specs_layouts.specs.Parts.{Puts, SameParts, told};
ghost use Rattle.specs_layouts.specs.declared.track.ComponentEvent.{ComponentEvent};
ghost use Rattle.specs_layouts.specs.declared.track.ComponentEvent.TheVariants as event;
ghost use Rattle.specs_entity.specs.Births.{Births, IsAlive};
ghost use Rattle.specs_storage.specs.EntryLends.{lends_or, SettlesAt, IsLeftAs};
ghost use Rattle.specs_storage.specs.Found.{Finds, HasPart, RefusesInsert};
ghost use Rattle.specs_storage.specs.declared.storage.LendError.TheVariants as lending;

use crate::entry::fill;
use crate::loan::Loan;
use crate::storage::{InsertResult, LendError, Storage};
use hibitset::Index;
use specs_entity::Entity;
use specs_layouts::{Component, MaskedStorage, UnprotectedStorage};
use std::alloc::AllocError;

/// A storage that is lent for reading.
pub trait GenericReadStorage {
    /// The parts.
    type Component;

    /// The births of the entities.
    ghost births: { Self → Births };

    /// The part at each index.
    ghost parts: { Self → ℕ → Option Self.Component };

    /// The part of an entity, or none where the entity isn't alive or has none.
    fn get(&self, entity: Entity) -> Option<&Self::Component>
        ensures { Finds (births self.now) (parts self.now) entity (option_copied result) };
}

impl<'e, T: Component, D: Loan<T>> GenericReadStorage for Storage<'e, T, D> {
    type Component = T;

    ghost births = { λ s. s.entities.now };

    ghost parts = { λ s. T.Storage.part_at (D.lent s.store).inner };

    fn get(&self, entity: Entity) -> Option<&T> {
        Storage::get(self, entity)
    }
}

/// A storage that is lent for writing.
pub trait GenericWriteStorage: GenericReadStorage {
    /// The storage after a part was written at an index through what `get_mut` lent.
    ghost written: { Self → ℕ → Self.Component → Self };

    /// Whether a change writes an event, for which memory may be wanting.
    ghost emits: { Self → Bool };

    /// The events held, the oldest first, and how many of them each reader has read.
    ghost events: { Self → Log ComponentEvent };

    /// The part of an entity for writing.
    ///
    /// Errors: those of `Storage::get_mut`.
    fn get_mut(&mut self, entity: Entity) -> Result<&mut Self::Component, LendError>
        ensures* writes_back { sem 𝓛 (LendsIfOk Self.row Self.Component.row self.entry result
            (written self.old entity.id) self.old) }
        ensures value { IfOk result (λ part. Self.parts self.old entity.id ≡ Some part.now) }
        ensures absent { IsErrOf result lending.Absent
            ↔ ¬ (HasPart (Self.births self.old) (Self.parts self.old) entity) }
        ensures succeeds { HasPart (Self.births self.old) (Self.parts self.old) entity → emits self.old ≡ false
            → IsOk result };

    /// The part of an entity for writing, which is put by default where the entity has none.
    ///
    /// Errors: `Absent` if the entity isn't alive, and `Memory`. Each index has the part that it had.
    fn get_mut_or_default(&mut self, entity: Entity) -> Result<&mut Self::Component, LendError>
    where
        Self::Component: Default,
        ensures* writes_back { sem 𝓛 (LendsSoOk Self.row Self.Component.row self.entry result
            (λ after part. SettlesAt Self.births Self.parts emits events self.old entity.id part after)
            (IsLeftAs Self.births Self.parts emits events self.old)) }
        ensures value { IfOk result (λ part. UnwrapsOrElse
            (Self.parts self.old entity.id) Self.Component.is_default part.now) }
        ensures absent { IsErrOf result lending.Absent ↔ ¬ (IsAlive (Self.births self.old) entity) }
        ensures succeeds { HasPart (Self.births self.old) (Self.parts self.old) entity → emits self.old ≡ false
            → IsOk result };

    /// Puts `part` at an entity, and answers the part that it had.
    ///
    /// Errors: those of `Storage::insert`.
    fn insert(&mut self, entity: Entity, part: Self::Component) -> InsertResult<Self::Component>
        ensures value { IfOk result (λ old. old ≡ Self.parts self.old entity.id) }
        ensures ok { OnOk result (Puts (Self.parts self.old) entity.id (Some part) (Self.parts self.new)) }
        ensures err { OnErr result (SameParts (Self.parts self.old) (Self.parts self.new)) }
        ensures handed_back { IfErr result (λ refused. refused.1 ≡ part) }
        ensures alive { OnOk result (IsAlive (Self.births self.old) entity) }
        ensures refused { IfErr result (λ refused. RefusesInsert (Self.births self.old) entity refused.0) }
        ensures succeeds { HasPart (Self.births self.old) (Self.parts self.old) entity → emits self.old ≡ false
            → IsOk result }
        ensures births { Self.births self.new ≡ Self.births self.old }

        // One event tells of it, and a refusal writes none.
        ensures events { IfOk result (λ old. events self.new ≡ told (emits self.old) (events self.old)
            (if is_some old then event.Modified entity.id else event.Inserted entity.id)) }
        ensures silent { OnErr result (events self.new ≡ events self.old) }
        ensures emission { emits self.new ≡ emits self.old };

    /// Takes out the part of an entity, or answers none where the entity isn't alive or has none.
    ///
    /// Errors: those of `Storage::remove`.
    fn remove(&mut self, entity: Entity) -> Result<Option<Self::Component>, AllocError>
        ensures value { IfOk result (Finds (Self.births self.old) (Self.parts self.old) entity) }
        ensures ok { OnOk result (IsAlive (Self.births self.old) entity
            → Puts (Self.parts self.old) entity.id None (Self.parts self.new)) }
        ensures dead { ¬ (IsAlive (Self.births self.old) entity)
            → SameParts (Self.parts self.old) (Self.parts self.new) }
        ensures err { OnErr result (SameParts (Self.parts self.old) (Self.parts self.new)) }
        ensures succeeds { emits self.old ≡ false → IsOk result }
        ensures births { Self.births self.new ≡ Self.births self.old }

        // One event tells of a part that was taken out, and a refusal writes none.
        ensures events { IfOk result (λ part. events self.new ≡ (if is_some part
            then told (emits self.old) (events self.old) (event.Removed entity.id) else events self.old)) }
        ensures silent { OnErr result (events self.new ≡ events self.old) }
        ensures emission { emits self.new ≡ emits self.old };

    /// What was written is there, and no other part changed.
    ghost written_puts: { (s : Self) (index : ℕ) (part : Self.Component) → IsSome (Self.parts s index)
        → Puts (Self.parts s) index (Some part) (Self.parts (written s index part)) };

    /// Writing leaves the entities.
    ghost written_leaves: { (s : Self) (index : ℕ) (part : Self.Component)
        → Self.births (written s index part) ≡ Self.births s };

    /// Writing is told.
    ghost written_tells: { (s : Self) (index : ℕ) (part : Self.Component)
        → events (written s index part) ≡ told (emits s) (events s) (event.Modified index) };

    /// Writing leaves the emission.
    ghost written_emits: { (s : Self) (index : ℕ) (part : Self.Component) → emits (written s index part) ≡ emits s };
}

impl<'e, T: Component> GenericWriteStorage for Storage<'e, T, &'e mut MaskedStorage<T>> {
    ghost use Rattle.std.specs.Prelude.{refl};
    ghost use Rattle.specs_storage.specs.StorageLends.{with_part};

    ghost written = { with_part T.Storage.written };

    ghost emits = { λ s. T.Storage.emits s.store.now.inner };

    ghost events = { λ s. T.Storage.events s.store.now.inner };

    fn get_mut(&mut self, entity: Entity) -> Result<&mut T, LendError> {
        Storage::get_mut(self, entity)
    }

    fn get_mut_or_default(&mut self, entity: Entity) -> Result<&mut T, LendError>
    where
        T: Default,
    {
        if !self.entities.is_alive(entity) {
            return Err(LendError::Absent);
        }
        lend_or_put(self.store, entity.id())
    }

    fn insert(&mut self, entity: Entity, part: T) -> InsertResult<T> {
        Storage::insert(self, entity, part)
    }

    fn remove(&mut self, entity: Entity) -> Result<Option<T>, AllocError> {
        Storage::remove(self, entity)
    }

    ghost written_puts = { λ s index part there. T.Storage.written_puts s.store.now.inner index part there };

    ghost written_leaves = { λ s index part. refl };

    ghost written_tells = { λ s index part. T.Storage.written_tells s.store.now.inner index part };

    ghost written_emits = { λ s index part. T.Storage.written_emits s.store.now.inner index part };
}

/// The part at an index, which is put by default where it has none.
fn lend_or_put<T: Component + Default>(
    store: &mut MaskedStorage<T>,
    id: Index,
) -> Result<&mut T, LendError>
    requires { id < 16777216 }
    ensures* writes_back { sem 𝓛 (lends_or T.row T.Storage.row T.Storage.UnprotectedStorage store.entry id result) }
    ensures value { IfOk result (λ lent. UnwrapsOrElse (T.Storage.part_at store.old.inner id) T.is_default lent.now) }
    ensures refused { IfErr result (λ refused. refused ≡ lending.Memory) }
    ensures succeeds { IsSome (T.Storage.part_at store.old.inner id) → T.Storage.emits store.old.inner ≡ false
        → IsOk result }
{
    if store.contains(id) {
        let place = store.get_mut(id)?;
        return Ok(place);
    }
    match fill(store, id, T::default()) {
        Ok(place) => Ok(place),
        Err(_refused) => Err(LendError::Memory),
    }
}
