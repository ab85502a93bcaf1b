//! Kinds of parts that a world may register, by what the values that hold their storages do.
ghost use Rattle.std.specs.Prelude.{◌≡◌, is_some};
ghost use Rattle.specs_layouts.specs.Masked.{Masked};
ghost use Rattle.specs_world.specs.Variants.{DropsWithin, drops_of};

use crate::held::Held;
use shred_world::Resource;
use specs_layouts::{AnyStorage, Component, MaskedStorage, UnprotectedStorage};

/// A kind of parts whose storage the values of a world hold as what it is: the value in which it is wrapped has its
/// parts, and drops them as it does.
///
/// A world registers such kinds alone, so that no part of an entity that dies stays in their storages. It has no call,
/// and an impl for a kind says both by what `AnyStorage` of the values computes: values that forget the kind have none.
pub trait Registrable<V: AnyStorage>: Component
where
    MaskedStorage<Self>: Resource<V>,
{
    ghost use Rattle.std.specs.Prelude.{ℕ, List};

    /// The value has a part at an index exactly where the storage in it has one.
    ghost parts_within: { (storage : Masked Self.Storage) (index : ℕ)
        → V.has_part (⟦<MaskedStorage<Self> as Held<V>>⟧.stands_at.wrapped storage) index
        ≡ is_some (Self.Storage.part_at storage.inner index) };

    /// Where the value drops the parts of these indices the storage in it does, and the value holds it still.
    ghost drops_within: { (storage : Masked Self.Storage) (indices : List ℕ) (after : V)
        → V.drops (⟦<MaskedStorage<Self> as Held<V>>⟧.stands_at.wrapped storage) indices after
        → DropsWithin ⟦<MaskedStorage<Self> as Held<V>>⟧.stands_at.wrapped
        (drops_of Self.Storage.part_at Self.Storage.events Self.Storage.emits) storage indices after };
}
