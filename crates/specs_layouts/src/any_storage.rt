//! Storages of any kind, for callers that drop the parts of entities.
ghost use Rattle.std.specs.Prelude.{◌≡◌, ℕ, ◌==◌, ◌&&◌, not, Bool, List, [], ◌++◌, length, is_some, IsOk, OnOk, OnErr};
ghost use Rattle.std.specs.List.{list_any};
ghost use Rattle.specs_layouts.specs.Drops.{ids_of};

use crate::comp::Component;
use crate::masked::MaskedStorage;
use specs_entity::Entity;
use std::alloc::AllocError;

/// A storage of any kind.
pub trait AnyStorage {
    /// Whether an index has a part.
    ghost has_part: { Self → ℕ → Bool };

    /// Whether so many changes find the memory for their events.
    ghost has_room: { Self → ℕ → Type 0 };

    /// The parts of these indices are dropped, one after the other, and nothing else changed.
    ghost drops: { Self → List ℕ → Self → Type 0 };

    /// Drops the parts of entities, by their indices, in their order.
    ///
    /// Errors: `AllocError`, and all parts are there.
    fn drop(&mut self, entities: &[Entity]) -> Result<(), AllocError>
        ensures ok { OnOk result (drops self.old (ids_of entities.now) self.new) }
        ensures err { OnErr result (drops self.old [] self.new) }
        ensures within_room { has_room self.old (length entities.now) → IsOk result };

    /// Makes room for the events of so many changes: then a `drop` of so many isn't refused.
    ///
    /// Errors: `AllocError`.
    fn make_room(&mut self, count: usize) -> Result<(), AllocError>
        ensures ok { OnOk result (has_room self.new count) }
        ensures same { drops self.old [] self.new };

    /// After a drop the indices of the list have no part, and each other has one where it had one.
    ghost drops_parts: { (before after : Self) (indices : List ℕ) → drops before indices after → (index : ℕ)
        → has_part after index ≡ (not (list_any (λ other. index == other) indices) && has_part before index) };

    /// Dropping nothing leaves a storage as it is.
    ghost drops_none: { (s : Self) → drops s [] s };

    /// Drops of one list and then of another are those of both lists, one behind the other.
    ghost drops_append: { (first second third : Self) (indices others : List ℕ) → drops first indices second
        → drops second others third → drops first (indices ++ others) third };
}

impl<T: Component> AnyStorage for MaskedStorage<T> {
    ghost use Rattle.std.specs.Prelude.{is_some};
    ghost use Rattle.specs_layouts.specs.Drops.{DropsAll};
    ghost use Rattle.specs_layouts.specs.DropLemmas.{dropped-parts, drops-none, drops-append};

    ghost has_part = { λ s index. is_some (T.Storage.part_at s.inner index) };

    ghost has_room = { λ s. T.Storage.has_room s.inner };

    ghost drops = { λ before indices after.
        DropsAll (T.Storage.part_at before.inner) (T.Storage.events before.inner) (T.Storage.emits before.inner)
        indices (T.Storage.part_at after.inner) (T.Storage.events after.inner) (T.Storage.emits after.inner) };

    ghost drops_parts = { λ before after indices dropped.
        dropped-parts (T.Storage.part_at before.inner) (T.Storage.part_at after.inner) indices dropped.parts };

    ghost drops_none = { λ s. drops-none (T.Storage.part_at s.inner) (T.Storage.events s.inner)
        (T.Storage.emits s.inner) };

    ghost drops_append = { λ first second third indices others one other.
        drops-append _ _ _ _ _ _ _ _ _ indices others one other };

    fn drop(&mut self, entities: &[Entity]) -> Result<(), AllocError> {
        MaskedStorage::make_room(self, entities.len())?;
        for entity in entities {
            match MaskedStorage::drop(self, entity.id()) {
                Ok(()) => {}
                Err(_) => unreachable!(),
            }
        }
        Ok(())
    }

    fn make_room(&mut self, count: usize) -> Result<(), AllocError> {
        MaskedStorage::make_room(self, count)
    }
}
