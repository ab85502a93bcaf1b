//! Storages that are lent for writing.
ghost use Rattle.std.specs.Prelude.{◌≡◌, ◌↔◌, false, Some, None, IsSome, is_some, IsOk, IfOk, IfErr, IsErrOf, OnOk};
ghost use Rattle.std.specs.Prelude.{OnErr, if◌then◌else◌};
ghost use Rattle.std.specs.Borrow.{sem};
ghost use Rattle.specs_layouts.specs.Parts.{HasNone};
ghost use Rattle.specs_layouts.specs.MaskedChanges.{PutsIn, KeepsParts, told_in};
ghost use Rattle.specs_layouts.specs.declared.track.ComponentEvent.TheVariants as event;
ghost use Rattle.specs_entity.specs.Births.{IsAlive, latest};
ghost use Rattle.specs_storage.specs.declared.storage.LendError.TheVariants as lending;
ghost use Rattle.specs_storage.specs.Found.{Finds, HasPart, RefusesInsert, KeepsLoans};

use super::{InsertResult, LendError, Storage};
use specs_entity::{EntitiesRes, Entity, Error, WrongGeneration};
use specs_layouts::{Component, MaskedStorage, UnprotectedStorage};
use std::alloc::AllocError;

impl<'e, T: Component> Storage<'e, T, &'e mut MaskedStorage<T>> {
    ghost use Rattle.specs_storage.specs.StorageLends.{lends_part};

    /// The part of an entity for writing.
    ///
    /// Errors: `Absent` if the entity isn't alive or has no part, and `Memory`, where the storage emits. Nothing changed.
    pub fn get_mut(&mut self, e: Entity) -> Result<&mut T, LendError>
        ensures* writes_back { sem 𝓛 (lends_part T.row T.Storage.row T.Storage.UnprotectedStorage self.entry e.id
            result) }
        ensures value { IfOk result (λ part. T.Storage.part_at self.old.store.now.inner e.id ≡ Some part.now) }
        ensures absent { IsErrOf result lending.Absent
            ↔ ¬ (HasPart self.old.entities.now (T.Storage.part_at self.old.store.now.inner) e) }
        ensures succeeds { T.Storage.emits self.old.store.now.inner ≡ false
            → HasPart self.old.entities.now (T.Storage.part_at self.old.store.now.inner) e → IsOk result }
    {
        if !self.contains(e) {
            return Err(LendError::Absent);
        }
        let part = self.store.get_mut(e.id())?;
        Ok(part)
    }

    /// Puts `part` at an entity, and answers the part that it had.
    ///
    /// A storage that emits writes `Modified` where a part was, else `Inserted`.
    ///
    /// Errors: `WrongGeneration`, with the generation of the entity that `EntitiesRes::entity` gives for the index, if the
    /// entity isn't alive; `Memory`. Both hand `part` back, and each index has the part that it had.
    pub fn insert(&mut self, e: Entity, part: T) -> InsertResult<T>
        ensures value { IfOk result (λ old. old ≡ T.Storage.part_at self.old.store.now.inner e.id) }
        ensures ok { OnOk result (PutsIn T.Storage.part_at self.old.store.now e.id (Some part) self.new.store.now) }
        ensures err { OnErr result (KeepsParts T.Storage.part_at self.old.store.now self.new.store.now) }
        ensures handed_back { IfErr result (λ refused. refused.1 ≡ part) }
        ensures alive { OnOk result (IsAlive self.old.entities.now e) }
        ensures refused { IfErr result (λ refused. RefusesInsert self.old.entities.now e refused.0) }
        ensures succeeds { IsAlive self.old.entities.now e
            → IsSome (T.Storage.part_at self.old.store.now.inner e.id)
            → T.Storage.emits self.old.store.now.inner ≡ false → IsOk result }

        // One event tells of it, and a refusal writes none.
        ensures events { IfOk result (λ old. T.Storage.events self.new.store.now.inner
            ≡ told_in T.Storage.emits T.Storage.events self.old.store.now
            (if is_some old then event.Modified e.id else event.Inserted e.id)) }
        ensures silent { OnErr result (T.Storage.events self.new.store.now.inner
            ≡ T.Storage.events self.old.store.now.inner) }
        ensures emission { T.Storage.emits self.new.store.now.inner ≡ T.Storage.emits self.old.store.now.inner }
        ensures loans { KeepsLoans self.old self.new }
    {
        if !self.entities.is_alive(e) {
            return Err((Error::WrongGeneration(not_alive(self.entities, e)), part));
        }
        match self.store.insert(e.id(), part) {
            Ok(old) => Ok(old),
            Err(refused) => Err((Error::Memory, refused.value)),
        }
    }

    /// Takes out the part of an entity, or answers none where the entity isn't alive or has none.
    ///
    /// Errors: `AllocError`, where the storage emits and has no room, and each index has the part that it had.
    pub fn remove(&mut self, e: Entity) -> Result<Option<T>, AllocError>
        ensures value { IfOk result (Finds self.old.entities.now (T.Storage.part_at self.old.store.now.inner) e) }
        ensures ok { OnOk result (IsAlive self.old.entities.now e
            → PutsIn T.Storage.part_at self.old.store.now e.id None self.new.store.now) }
        ensures dead { ¬ (IsAlive self.old.entities.now e) → self.new.store.now ≡ self.old.store.now }
        ensures err { OnErr result (KeepsParts T.Storage.part_at self.old.store.now self.new.store.now) }
        ensures succeeds { T.Storage.emits self.old.store.now.inner ≡ false → IsOk result }

        // One event tells of a part that was taken out, and a refusal writes none.
        ensures events { IfOk result (λ part. T.Storage.events self.new.store.now.inner ≡ (if is_some part
            then told_in T.Storage.emits T.Storage.events self.old.store.now (event.Removed e.id)
            else T.Storage.events self.old.store.now.inner)) }
        ensures silent { OnErr result (T.Storage.events self.new.store.now.inner
            ≡ T.Storage.events self.old.store.now.inner) }
        ensures emission { T.Storage.emits self.new.store.now.inner ≡ T.Storage.emits self.old.store.now.inner }
        ensures loans { KeepsLoans self.old self.new }
    {
        if !self.entities.is_alive(e) {
            return Ok(None);
        }
        self.store.remove(e.id())
    }

    /// Takes out all parts, also those of entities that aren't alive. Takes no memory, and writes no event.
    pub fn clear(&mut self)
        ensures none { HasNone (T.Storage.part_at self.new.store.now.inner) }
        ensures events { T.Storage.events self.new.store.now.inner ≡ T.Storage.events self.old.store.now.inner }
        ensures emission { T.Storage.emits self.new.store.now.inner ≡ T.Storage.emits self.old.store.now.inner }
        ensures loans { KeepsLoans self.old self.new }
    {
        self.store.clear();
    }
}

/// The refusal of an insertion at an entity that isn't alive.
pub(crate) fn not_alive(entities: &EntitiesRes, e: Entity) -> WrongGeneration
    ensures entity { result.entity ≡ e }
    ensures generation { result.actual_gen ≡ latest entities.now e.id }
{
    WrongGeneration {
        action: "insert a part",
        actual_gen: entities.entity(e.id()).generation(),
        entity: e,
    }
}
