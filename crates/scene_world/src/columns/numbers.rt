//! Parts that are a number, or a reference to an entity, and what a system reads of them.
ghost use Rattle.std.specs.Prelude.{◌≡◌, ◌<◌, IfSome};
ghost use Rattle.scene_world.specs.Columns.{column_in, column_held, storing_by};
ghost use Rattle.scene_world.specs.Numbers.{number_at, entity_at};

use super::PlainPart;
use shred_world::{Holder, Resource, ResourceId};
use specs_entity::Entity;
use specs_layouts::MaskedStorage;

/// A part that is a natural number of 64 bits.
pub trait NumberPart: PlainPart {
    ghost use Rattle.std.specs.Prelude.{◌≡◌};
    ghost use Rattle.scene_world.specs.Numbers.{counting, number_stored};

    /// The number that a part is.
    fn number(&self) -> u64
        ensures { Self.stored self.now ≡ number_stored result };

    /// The datum of a number.
    fn datum(number: u64) -> Self::Data
        ensures { Self.part_of result ≡ counting number };
}

/// A part that is a reference to an entity.
pub trait ReferencePart: PlainPart {
    ghost use Rattle.std.specs.Prelude.{◌≡◌};
    ghost use Rattle.scene_world.specs.Numbers.{reference_stored};

    /// The entity to which a part refers.
    fn entity(&self) -> Entity
        ensures { Self.stored self.now ≡ reference_stored result };
}

/// The number at an index of the storage that a value holds, if it holds one with a part there.
pub fn number_in<T: NumberPart, V>(value: &V, index: u32) -> Option<u64>
where
    MaskedStorage<T>: Resource<V>,
    ensures value { result ≡ number_at (column_in ⟦<MaskedStorage<T> as Resource<V>>⟧.part
        (storing_by T.Storage.part_at T.stored) value.now) index }
    ensures range { IfSome result (λ _. index < 16777216) }
{
    let parts = <MaskedStorage<T> as Resource<V>>::view(value)?;
    if parts.mask().contains(index) {
        Some(parts.get(index).number())
    } else {
        None
    }
}

/// The entity to which the part at an index refers of the storage that a value holds, if it holds one with a part there.
fn entity_in<T: ReferencePart, V>(value: &V, index: u32) -> Option<Entity>
where
    MaskedStorage<T>: Resource<V>,
    ensures { result ≡ entity_at (column_in ⟦<MaskedStorage<T> as Resource<V>>⟧.part
        (storing_by T.Storage.part_at T.stored) value.now) index }
{
    let parts = <MaskedStorage<T> as Resource<V>>::view(value)?;
    if parts.contains(index) {
        Some(parts.get(index).entity())
    } else {
        None
    }
}

/// The number at an index, as a system sees it, if a part is seen there.
pub fn number_at<T: NumberPart, V, W: Holder<V>>(view: &W, index: u32) -> Option<u64>
where
    MaskedStorage<T>: Resource<V>,
    ensures { result ≡ number_at (column_held (column_in ⟦<MaskedStorage<T> as Resource<V>>⟧.part
        (storing_by T.Storage.part_at T.stored)) ⟦<MaskedStorage<T> as Resource<V>>⟧.kind_number
        (W.slots view.now)) index }
{
    let value = view.value(ResourceId::new::<V, MaskedStorage<T>>())?;
    number_in::<T, V>(value, index)
}

/// The entity to which the part at an index refers, as a system sees it, if a part is seen there.
pub fn entity_at<T: ReferencePart, V, W: Holder<V>>(view: &W, index: u32) -> Option<Entity>
where
    MaskedStorage<T>: Resource<V>,
    ensures { result ≡ entity_at (column_held (column_in ⟦<MaskedStorage<T> as Resource<V>>⟧.part
        (storing_by T.Storage.part_at T.stored)) ⟦<MaskedStorage<T> as Resource<V>>⟧.kind_number
        (W.slots view.now)) index }
{
    let value = view.value(ResourceId::new::<V, MaskedStorage<T>>())?;
    entity_in::<T, V>(value, index)
}
