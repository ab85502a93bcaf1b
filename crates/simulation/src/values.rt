//! What a world holds beside entities and a table of kinds: what values.list names, of which tools/values wrote this.
ghost use Rattle.std.specs.Prelude.{◌≡◌, Some, None, refl};
ghost use Rattle.std.proofs.Common.{rules};
ghost use Rattle.specs.specs.ForStorages.{dropped-parts, drops-none, drops-append};
ghost use Rattle.simulation.specs.Values.{value_has_part, value_has_room, value_drops, value-parts, value-none};
ghost use Rattle.simulation.specs.Values.{value-append};
ghost use Rattle.simulation.specs.declared.values.Value.TheVariants.{EntitiesValue};
ghost use Rattle.simulation.specs.declared.values.Value.TheVariants.{TableValue};
ghost use Rattle.simulation.specs.declared.values.Value.TheVariants.{PositionValue};
ghost use Rattle.simulation.specs.declared.values.Value.TheVariants.{VelocityValue};

use crate::parts::{Position, Velocity};
use specs::{
    AnyStorage, Component, DenseVecStorage, EntitiesRes, Entity, MaskedStorage, MetaTable,
    Registrable, Resource, VecStorage,
};
use std::alloc::AllocError;

impl Component for Position {
    type Storage = VecStorage<Position>;
}

impl Component for Velocity {
    type Storage = DenseVecStorage<Velocity>;
}

/// The values of a world, of one kind each.
#[derive(Drop)]
pub enum Value {
    EntitiesValue(EntitiesRes),
    TableValue(MetaTable),
    PositionValue(MaskedStorage<Position>),
    VelocityValue(MaskedStorage<Velocity>),
}

impl Resource<Value> for EntitiesRes {
    ghost kind_number = { 0 };

    ghost wrapped = { EntitiesValue };

    ghost part = { elim [
      | EntitiesValue x ↦ Some x
      | TableValue x ↦ None
      | PositionValue x ↦ None
      | VelocityValue x ↦ None
    ] };

    ghost seen = { λ _. refl };

    ghost only_wrapped = { Prim.search rules };

    fn kind() -> u32 {
        0
    }

    fn wrap(self) -> Value {
        Value::EntitiesValue(self)
    }

    fn unwrap(value: Value) -> Result<Self, Value> {
        match value {
            Value::EntitiesValue(resource) => Ok(resource),
            other => Err(other),
        }
    }

    fn view(value: &Value) -> Option<&Self> {
        match value {
            Value::EntitiesValue(resource) => Some(resource),
            _ => None,
        }
    }

    fn view_mut(value: &mut Value) -> Option<&mut Self> {
        match value {
            Value::EntitiesValue(resource) => Some(resource),
            _ => None,
        }
    }
}

impl Resource<Value> for MetaTable {
    ghost kind_number = { 1 };

    ghost wrapped = { TableValue };

    ghost part = { elim [
      | EntitiesValue x ↦ None
      | TableValue x ↦ Some x
      | PositionValue x ↦ None
      | VelocityValue x ↦ None
    ] };

    ghost seen = { λ _. refl };

    ghost only_wrapped = { Prim.search rules };

    fn kind() -> u32 {
        1
    }

    fn wrap(self) -> Value {
        Value::TableValue(self)
    }

    fn unwrap(value: Value) -> Result<Self, Value> {
        match value {
            Value::TableValue(resource) => Ok(resource),
            other => Err(other),
        }
    }

    fn view(value: &Value) -> Option<&Self> {
        match value {
            Value::TableValue(resource) => Some(resource),
            _ => None,
        }
    }

    fn view_mut(value: &mut Value) -> Option<&mut Self> {
        match value {
            Value::TableValue(resource) => Some(resource),
            _ => None,
        }
    }
}

impl Resource<Value> for MaskedStorage<Position> {
    ghost kind_number = { 2 };

    ghost wrapped = { PositionValue };

    ghost part = { elim [
      | EntitiesValue x ↦ None
      | TableValue x ↦ None
      | PositionValue x ↦ Some x
      | VelocityValue x ↦ None
    ] };

    ghost seen = { λ _. refl };

    ghost only_wrapped = { Prim.search rules };

    fn kind() -> u32 {
        2
    }

    fn wrap(self) -> Value {
        Value::PositionValue(self)
    }

    fn unwrap(value: Value) -> Result<Self, Value> {
        match value {
            Value::PositionValue(resource) => Ok(resource),
            other => Err(other),
        }
    }

    fn view(value: &Value) -> Option<&Self> {
        match value {
            Value::PositionValue(resource) => Some(resource),
            _ => None,
        }
    }

    fn view_mut(value: &mut Value) -> Option<&mut Self> {
        match value {
            Value::PositionValue(resource) => Some(resource),
            _ => None,
        }
    }
}

impl Resource<Value> for MaskedStorage<Velocity> {
    ghost kind_number = { 3 };

    ghost wrapped = { VelocityValue };

    ghost part = { elim [
      | EntitiesValue x ↦ None
      | TableValue x ↦ None
      | PositionValue x ↦ None
      | VelocityValue x ↦ Some x
    ] };

    ghost seen = { λ _. refl };

    ghost only_wrapped = { Prim.search rules };

    fn kind() -> u32 {
        3
    }

    fn wrap(self) -> Value {
        Value::VelocityValue(self)
    }

    fn unwrap(value: Value) -> Result<Self, Value> {
        match value {
            Value::VelocityValue(resource) => Ok(resource),
            other => Err(other),
        }
    }

    fn view(value: &Value) -> Option<&Self> {
        match value {
            Value::VelocityValue(resource) => Some(resource),
            _ => None,
        }
    }

    fn view_mut(value: &mut Value) -> Option<&mut Self> {
        match value {
            Value::VelocityValue(resource) => Some(resource),
            _ => None,
        }
    }
}

impl AnyStorage for Value {
    ghost has_part = { value_has_part
        ⟦<MaskedStorage<Position> as AnyStorage>⟧.has_part
        ⟦<MaskedStorage<Velocity> as AnyStorage>⟧.has_part };

    ghost has_room = { value_has_room
        ⟦<MaskedStorage<Position> as AnyStorage>⟧.has_room
        ⟦<MaskedStorage<Velocity> as AnyStorage>⟧.has_room };

    ghost drops = { value_drops
        ⟦<MaskedStorage<Position> as AnyStorage>⟧.drops
        ⟦<MaskedStorage<Velocity> as AnyStorage>⟧.drops };

    ghost drops_parts = { value-parts
        ⟦<MaskedStorage<Position> as AnyStorage>⟧.has_part
        ⟦<MaskedStorage<Velocity> as AnyStorage>⟧.has_part
        ⟦<MaskedStorage<Position> as AnyStorage>⟧.drops
        ⟦<MaskedStorage<Velocity> as AnyStorage>⟧.drops
        (λ _ _ indices dropped. dropped-parts _ _ indices dropped.parts)
        (λ _ _ indices dropped. dropped-parts _ _ indices dropped.parts) };

    ghost drops_none = { value-none
        ⟦<MaskedStorage<Position> as AnyStorage>⟧.drops
        ⟦<MaskedStorage<Velocity> as AnyStorage>⟧.drops
        (λ _. drops-none _ _ _)
        (λ _. drops-none _ _ _) };

    ghost drops_append = { value-append
        ⟦<MaskedStorage<Position> as AnyStorage>⟧.drops
        ⟦<MaskedStorage<Velocity> as AnyStorage>⟧.drops
        (λ _ _ _ indices others one other.
        drops-append _ _ _ _ _ _ _ _ _ indices others one other)
        (λ _ _ _ indices others one other.
        drops-append _ _ _ _ _ _ _ _ _ indices others one other) };

    fn drop(&mut self, entities: &[Entity]) -> Result<(), AllocError> {
        match self {
            Value::EntitiesValue(_) => Ok(()),
            Value::TableValue(_) => Ok(()),
            Value::PositionValue(storage) => AnyStorage::drop(storage, entities),
            Value::VelocityValue(storage) => AnyStorage::drop(storage, entities),
        }
    }

    fn make_room(&mut self, count: usize) -> Result<(), AllocError> {
        match self {
            Value::EntitiesValue(_) => Ok(()),
            Value::TableValue(_) => Ok(()),
            Value::PositionValue(storage) => AnyStorage::make_room(storage, count),
            Value::VelocityValue(storage) => AnyStorage::make_room(storage, count),
        }
    }
}

impl Registrable<Value> for Position {
    ghost parts_within = { λ _ _. refl };

    ghost drops_within = { λ _ _ _ dropped. dropped };
}

impl Registrable<Value> for Velocity {
    ghost parts_within = { λ _ _. refl };

    ghost drops_within = { λ _ _ _ dropped. dropped };
}
