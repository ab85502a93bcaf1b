//! The values of the tests: entities, a table of kinds, and storages of two kinds.
ghost use Rattle.std.specs.Prelude.{◌≡◌, Some, None, refl};
ghost use Rattle.std.proofs.Common.{rules};
ghost use Rattle.specs_layouts.specs.DropLemmas.{dropped-parts, drops-none, drops-append};
ghost use Rattle.world_cases.specs.Values.{value_has_part, value_has_room, value_drops, value-parts, value-none};
ghost use Rattle.world_cases.specs.Values.{value-append};
ghost use Rattle.world_cases.specs.declared.values.Value.TheVariants.{EntitiesValue, TableValue, HealthValue};
ghost use Rattle.world_cases.specs.declared.values.Value.TheVariants.{SpeedValue};

use shred_world::{MetaTable, Resource};
use specs_entity::{EntitiesRes, Entity};
use specs_layouts::{AnyStorage, Component, DenseVecStorage, MaskedStorage, VecStorage};
use specs_world::Registrable;
use std::alloc::AllocError;

/// How much an entity can bear.
#[derive(Clone, Copy, Debug, PartialEq, Eq)]
pub struct Health(pub u32);

impl Component for Health {
    type Storage = VecStorage<Health>;
}

/// Steps a turn.
#[derive(Clone, Copy, Debug, PartialEq, Eq)]
pub struct Speed(pub u32);

impl Component for Speed {
    type Storage = DenseVecStorage<Speed>;
}

/// What the worlds of the tests hold.
#[derive(Drop)]
pub enum Value {
    EntitiesValue(EntitiesRes),
    TableValue(MetaTable),
    HealthValue(MaskedStorage<Health>),
    SpeedValue(MaskedStorage<Speed>),
}

impl Resource<Value> for EntitiesRes {
    ghost kind_number = { 0 };

    ghost wrapped = { EntitiesValue };

    ghost part = { elim [
      | EntitiesValue x ↦ Some x
      | TableValue x ↦ None
      | HealthValue x ↦ None
      | SpeedValue x ↦ None
    ] };

    ghost seen = { λ _. refl };

    ghost only_wrapped = { Prim.search rules };

    fn kind() -> u32 {
        0
    }

    fn wrap(self) -> Value {
        Value::EntitiesValue(self)
    }

    fn unwrap(value: Value) -> Result<Self, Value> {
        match value {
            Value::EntitiesValue(resource) => Ok(resource),
            other => Err(other),
        }
    }

    fn view(value: &Value) -> Option<&Self> {
        match value {
            Value::EntitiesValue(resource) => Some(resource),
            _ => None,
        }
    }

    fn view_mut(value: &mut Value) -> Option<&mut Self> {
        match value {
            Value::EntitiesValue(resource) => Some(resource),
            _ => None,
        }
    }
}

impl Resource<Value> for MetaTable {
    ghost kind_number = { 1 };

    ghost wrapped = { TableValue };

    ghost part = { elim [
      | EntitiesValue x ↦ None
      | TableValue x ↦ Some x
      | HealthValue x ↦ None
      | SpeedValue x ↦ None
    ] };

    ghost seen = { λ _. refl };

    ghost only_wrapped = { Prim.search rules };

    fn kind() -> u32 {
        1
    }

    fn wrap(self) -> Value {
        Value::TableValue(self)
    }

    fn unwrap(value: Value) -> Result<Self, Value> {
        match value {
            Value::TableValue(resource) => Ok(resource),
            other => Err(other),
        }
    }

    fn view(value: &Value) -> Option<&Self> {
        match value {
            Value::TableValue(resource) => Some(resource),
            _ => None,
        }
    }

    fn view_mut(value: &mut Value) -> Option<&mut Self> {
        match value {
            Value::TableValue(resource) => Some(resource),
            _ => None,
        }
    }
}

impl Resource<Value> for MaskedStorage<Health> {
    ghost kind_number = { 2 };

    ghost wrapped = { HealthValue };

    ghost part = { elim [
      | EntitiesValue x ↦ None
      | TableValue x ↦ None
      | HealthValue x ↦ Some x
      | SpeedValue x ↦ None
    ] };

    ghost seen = { λ _. refl };

    ghost only_wrapped = { Prim.search rules };

    fn kind() -> u32 {
        2
    }

    fn wrap(self) -> Value {
        Value::HealthValue(self)
    }

    fn unwrap(value: Value) -> Result<Self, Value> {
        match value {
            Value::HealthValue(resource) => Ok(resource),
            other => Err(other),
        }
    }

    fn view(value: &Value) -> Option<&Self> {
        match value {
            Value::HealthValue(resource) => Some(resource),
            _ => None,
        }
    }

    fn view_mut(value: &mut Value) -> Option<&mut Self> {
        match value {
            Value::HealthValue(resource) => Some(resource),
            _ => None,
        }
    }
}

impl Resource<Value> for MaskedStorage<Speed> {
    ghost kind_number = { 3 };

    ghost wrapped = { SpeedValue };

    ghost part = { elim [
      | EntitiesValue x ↦ None
      | TableValue x ↦ None
      | HealthValue x ↦ None
      | SpeedValue x ↦ Some x
    ] };

    ghost seen = { λ _. refl };

    ghost only_wrapped = { Prim.search rules };

    fn kind() -> u32 {
        3
    }

    fn wrap(self) -> Value {
        Value::SpeedValue(self)
    }

    fn unwrap(value: Value) -> Result<Self, Value> {
        match value {
            Value::SpeedValue(resource) => Ok(resource),
            other => Err(other),
        }
    }

    fn view(value: &Value) -> Option<&Self> {
        match value {
            Value::SpeedValue(resource) => Some(resource),
            _ => None,
        }
    }

    fn view_mut(value: &mut Value) -> Option<&mut Self> {
        match value {
            Value::SpeedValue(resource) => Some(resource),
            _ => None,
        }
    }
}

impl AnyStorage for Value {
    ghost has_part = { value_has_part ⟦<MaskedStorage<Health> as AnyStorage>⟧.has_part
        ⟦<MaskedStorage<Speed> as AnyStorage>⟧.has_part };

    ghost has_room = { value_has_room ⟦<MaskedStorage<Health> as AnyStorage>⟧.has_room
        ⟦<MaskedStorage<Speed> as AnyStorage>⟧.has_room };

    ghost drops = { value_drops ⟦<MaskedStorage<Health> as AnyStorage>⟧.drops
        ⟦<MaskedStorage<Speed> as AnyStorage>⟧.drops };

    ghost drops_parts = { value-parts
        ⟦<MaskedStorage<Health> as AnyStorage>⟧.has_part ⟦<MaskedStorage<Speed> as AnyStorage>⟧.has_part
        ⟦<MaskedStorage<Health> as AnyStorage>⟧.drops ⟦<MaskedStorage<Speed> as AnyStorage>⟧.drops
        (λ _ _ indices dropped. dropped-parts _ _ indices dropped.parts)
        (λ _ _ indices dropped. dropped-parts _ _ indices dropped.parts) };

    ghost drops_none = { value-none
        ⟦<MaskedStorage<Health> as AnyStorage>⟧.drops ⟦<MaskedStorage<Speed> as AnyStorage>⟧.drops
        (λ _. drops-none _ _ _) (λ _. drops-none _ _ _) };

    ghost drops_append = { value-append
        ⟦<MaskedStorage<Health> as AnyStorage>⟧.drops ⟦<MaskedStorage<Speed> as AnyStorage>⟧.drops
        (λ _ _ _ indices others one other. drops-append _ _ _ _ _ _ _ _ _ indices others one other)
        (λ _ _ _ indices others one other. drops-append _ _ _ _ _ _ _ _ _ indices others one other) };

    fn drop(&mut self, entities: &[Entity]) -> Result<(), AllocError> {
        match self {
            Value::EntitiesValue(_) => Ok(()),
            Value::TableValue(_) => Ok(()),
            Value::HealthValue(storage) => AnyStorage::drop(storage, entities),
            Value::SpeedValue(storage) => AnyStorage::drop(storage, entities),
        }
    }

    fn make_room(&mut self, count: usize) -> Result<(), AllocError> {
        match self {
            Value::EntitiesValue(_) => Ok(()),
            Value::TableValue(_) => Ok(()),
            Value::HealthValue(storage) => AnyStorage::make_room(storage, count),
            Value::SpeedValue(storage) => AnyStorage::make_room(storage, count),
        }
    }
}

impl Registrable<Value> for Health {
    ghost parts_within = { λ _ _. refl };

    ghost drops_within = { λ _ _ _ dropped. dropped };
}

impl Registrable<Value> for Speed {
    ghost parts_within = { λ _ _. refl };

    ghost drops_within = { λ _ _ _ dropped. dropped };
}
