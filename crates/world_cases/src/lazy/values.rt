//! The values of the tests: entities, a table of kinds, a storage of healths, queues of tasks, and notes.
ghost use Rattle.std.specs.Prelude.{◌≡◌, Some, None, refl};
ghost use Rattle.std.proofs.Common.{rules};
ghost use Rattle.specs_layouts.specs.DropLemmas.{dropped-parts, drops-none, drops-append};
ghost use Rattle.world_cases.specs.LazyValues.{value_has_part, value_has_room, value_drops, value-parts, value-none};
ghost use Rattle.world_cases.specs.LazyValues.{value-append};
ghost use Rattle.world_cases.specs.declared.lazy.values.Value.TheVariants.{EntitiesValue, TableValue, HealthValue};
ghost use Rattle.world_cases.specs.declared.lazy.values.Value.TheVariants.{QueueValue, SharedValue, NotesValue};

use crate::lazy::tasks::{Health, Notes, Task};
use shred_world::{MetaTable, Resource};
use specs_entity::{EntitiesRes, Entity};
use specs_layouts::{AnyStorage, MaskedStorage};
use specs_world::{LazyUpdate, Registrable, SharedLazy};
use std::alloc::AllocError;

/// What the worlds of the tests hold.
#[derive(Drop)]
pub enum Value {
    EntitiesValue(EntitiesRes),
    TableValue(MetaTable),
    HealthValue(MaskedStorage<Health>),
    QueueValue(LazyUpdate<Task>),
    SharedValue(SharedLazy<Task>),
    NotesValue(Notes),
}

impl Resource<Value> for EntitiesRes {
    ghost kind_number = { 0 };

    ghost wrapped = { EntitiesValue };

    ghost part = { elim [
      | EntitiesValue x ↦ Some x
      | TableValue x ↦ None
      | HealthValue x ↦ None
      | QueueValue x ↦ None
      | SharedValue x ↦ None
      | NotesValue x ↦ None
    ] };

    ghost seen = { λ _. refl };

    ghost only_wrapped = { Prim.search rules };

    fn kind() -> u32 {
        0
    }

    fn wrap(self) -> Value {
        Value::EntitiesValue(self)
    }

    fn unwrap(value: Value) -> Result<Self, Value> {
        match value {
            Value::EntitiesValue(resource) => Ok(resource),
            other => Err(other),
        }
    }

    fn view(value: &Value) -> Option<&Self> {
        match value {
            Value::EntitiesValue(resource) => Some(resource),
            _ => None,
        }
    }

    fn view_mut(value: &mut Value) -> Option<&mut Self> {
        match value {
            Value::EntitiesValue(resource) => Some(resource),
            _ => None,
        }
    }
}

impl Resource<Value> for MetaTable {
    ghost kind_number = { 1 };

    ghost wrapped = { TableValue };

    ghost part = { elim [
      | EntitiesValue x ↦ None
      | TableValue x ↦ Some x
      | HealthValue x ↦ None
      | QueueValue x ↦ None
      | SharedValue x ↦ None
      | NotesValue x ↦ None
    ] };

    ghost seen = { λ _. refl };

    ghost only_wrapped = { Prim.search rules };

    fn kind() -> u32 {
        1
    }

    fn wrap(self) -> Value {
        Value::TableValue(self)
    }

    fn unwrap(value: Value) -> Result<Self, Value> {
        match value {
            Value::TableValue(resource) => Ok(resource),
            other => Err(other),
        }
    }

    fn view(value: &Value) -> Option<&Self> {
        match value {
            Value::TableValue(resource) => Some(resource),
            _ => None,
        }
    }

    fn view_mut(value: &mut Value) -> Option<&mut Self> {
        match value {
            Value::TableValue(resource) => Some(resource),
            _ => None,
        }
    }
}

impl Resource<Value> for MaskedStorage<Health> {
    ghost kind_number = { 2 };

    ghost wrapped = { HealthValue };

    ghost part = { elim [
      | EntitiesValue x ↦ None
      | TableValue x ↦ None
      | HealthValue x ↦ Some x
      | QueueValue x ↦ None
      | SharedValue x ↦ None
      | NotesValue x ↦ None
    ] };

    ghost seen = { λ _. refl };

    ghost only_wrapped = { Prim.search rules };

    fn kind() -> u32 {
        2
    }

    fn wrap(self) -> Value {
        Value::HealthValue(self)
    }

    fn unwrap(value: Value) -> Result<Self, Value> {
        match value {
            Value::HealthValue(resource) => Ok(resource),
            other => Err(other),
        }
    }

    fn view(value: &Value) -> Option<&Self> {
        match value {
            Value::HealthValue(resource) => Some(resource),
            _ => None,
        }
    }

    fn view_mut(value: &mut Value) -> Option<&mut Self> {
        match value {
            Value::HealthValue(resource) => Some(resource),
            _ => None,
        }
    }
}

impl Resource<Value> for LazyUpdate<Task> {
    ghost kind_number = { 3 };

    ghost wrapped = { QueueValue };

    ghost part = { elim [
      | EntitiesValue x ↦ None
      | TableValue x ↦ None
      | HealthValue x ↦ None
      | QueueValue x ↦ Some x
      | SharedValue x ↦ None
      | NotesValue x ↦ None
    ] };

    ghost seen = { λ _. refl };

    ghost only_wrapped = { Prim.search rules };

    fn kind() -> u32 {
        3
    }

    fn wrap(self) -> Value {
        Value::QueueValue(self)
    }

    fn unwrap(value: Value) -> Result<Self, Value> {
        match value {
            Value::QueueValue(resource) => Ok(resource),
            other => Err(other),
        }
    }

    fn view(value: &Value) -> Option<&Self> {
        match value {
            Value::QueueValue(resource) => Some(resource),
            _ => None,
        }
    }

    fn view_mut(value: &mut Value) -> Option<&mut Self> {
        match value {
            Value::QueueValue(resource) => Some(resource),
            _ => None,
        }
    }
}

impl Resource<Value> for SharedLazy<Task> {
    ghost kind_number = { 4 };

    ghost wrapped = { SharedValue };

    ghost part = { elim [
      | EntitiesValue x ↦ None
      | TableValue x ↦ None
      | HealthValue x ↦ None
      | QueueValue x ↦ None
      | SharedValue x ↦ Some x
      | NotesValue x ↦ None
    ] };

    ghost seen = { λ _. refl };

    ghost only_wrapped = { Prim.search rules };

    fn kind() -> u32 {
        4
    }

    fn wrap(self) -> Value {
        Value::SharedValue(self)
    }

    fn unwrap(value: Value) -> Result<Self, Value> {
        match value {
            Value::SharedValue(resource) => Ok(resource),
            other => Err(other),
        }
    }

    fn view(value: &Value) -> Option<&Self> {
        match value {
            Value::SharedValue(resource) => Some(resource),
            _ => None,
        }
    }

    fn view_mut(value: &mut Value) -> Option<&mut Self> {
        match value {
            Value::SharedValue(resource) => Some(resource),
            _ => None,
        }
    }
}

impl Resource<Value> for Notes {
    ghost kind_number = { 5 };

    ghost wrapped = { NotesValue };

    ghost part = { elim [
      | EntitiesValue x ↦ None
      | TableValue x ↦ None
      | HealthValue x ↦ None
      | QueueValue x ↦ None
      | SharedValue x ↦ None
      | NotesValue x ↦ Some x
    ] };

    ghost seen = { λ _. refl };

    ghost only_wrapped = { Prim.search rules };

    fn kind() -> u32 {
        5
    }

    fn wrap(self) -> Value {
        Value::NotesValue(self)
    }

    fn unwrap(value: Value) -> Result<Self, Value> {
        match value {
            Value::NotesValue(resource) => Ok(resource),
            other => Err(other),
        }
    }

    fn view(value: &Value) -> Option<&Self> {
        match value {
            Value::NotesValue(resource) => Some(resource),
            _ => None,
        }
    }

    fn view_mut(value: &mut Value) -> Option<&mut Self> {
        match value {
            Value::NotesValue(resource) => Some(resource),
            _ => None,
        }
    }
}

impl AnyStorage for Value {
    ghost has_part = { value_has_part ⟦<MaskedStorage<Health> as AnyStorage>⟧.has_part };

    ghost has_room = { value_has_room ⟦<MaskedStorage<Health> as AnyStorage>⟧.has_room };

    ghost drops = { value_drops ⟦<MaskedStorage<Health> as AnyStorage>⟧.drops };

    ghost drops_parts = { value-parts
        ⟦<MaskedStorage<Health> as AnyStorage>⟧.has_part ⟦<MaskedStorage<Health> as AnyStorage>⟧.drops
        (λ _ _ indices dropped. dropped-parts _ _ indices dropped.parts) };

    ghost drops_none = { value-none ⟦<MaskedStorage<Health> as AnyStorage>⟧.drops (λ _. drops-none _ _ _) };

    ghost drops_append = { value-append ⟦<MaskedStorage<Health> as AnyStorage>⟧.drops
        (λ _ _ _ indices others one other. drops-append _ _ _ _ _ _ _ _ _ indices others one other) };

    fn drop(&mut self, entities: &[Entity]) -> Result<(), AllocError> {
        match self {
            Value::HealthValue(storage) => AnyStorage::drop(storage, entities),
            _ => Ok(()),
        }
    }

    fn make_room(&mut self, count: usize) -> Result<(), AllocError> {
        match self {
            Value::HealthValue(storage) => AnyStorage::make_room(storage, count),
            _ => Ok(()),
        }
    }
}

impl Registrable<Value> for Health {
    ghost parts_within = { λ _ _. refl };

    ghost drops_within = { λ _ _ _ dropped. dropped };
}
