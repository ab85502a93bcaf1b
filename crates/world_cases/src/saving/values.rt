//! The values of the tests: entities, a table of kinds, two kinds of markers with what gives each, and queues of tasks.
ghost use Rattle.std.specs.Prelude.{◌≡◌, Some, None, refl};
ghost use Rattle.std.proofs.Common.{rules};
ghost use Rattle.specs_layouts.specs.DropLemmas.{dropped-parts, drops-none, drops-append};
ghost use Rattle.world_cases.specs.SavedValues.{value_has_part, value_has_room, value_drops, value-parts, value-none};
ghost use Rattle.world_cases.specs.SavedValues.{value-append};
ghost use Rattle.world_cases.specs.declared.saving.values.Value.TheVariants.{EntitiesValue, TableValue, PlainMarksValue};
ghost use Rattle.world_cases.specs.declared.saving.values.Value.TheVariants.{PlainGiverValue, RandomMarksValue};
ghost use Rattle.world_cases.specs.declared.saving.values.Value.TheVariants.{RandomGiverValue, QueueValue, SharedValue};

use crate::saving::tasks::Task;
use rand_pcg::Pcg32;
use shred_world::{MetaTable, Resource};
use specs_entity::{EntitiesRes, Entity};
use specs_layouts::{AnyStorage, MaskedStorage};
use specs_markers::{SimpleMarker, SimpleMarkerAllocator, UuidMarker, UuidMarkerAllocator};
use specs_world::{LazyUpdate, Registrable, SharedLazy};
use std::alloc::AllocError;

/// What the markers are for.
pub struct Net;

/// Markers with whole numbers.
pub type Plain = SimpleMarker<Net>;

/// Markers with random UUIDs.
pub type Random = UuidMarker<Pcg32>;

/// What the worlds of the tests hold.
#[derive(Drop)]
pub enum Value {
    EntitiesValue(EntitiesRes),
    TableValue(MetaTable),
    PlainMarksValue(MaskedStorage<Plain>),
    PlainGiverValue(SimpleMarkerAllocator<Net>),
    RandomMarksValue(MaskedStorage<Random>),
    RandomGiverValue(UuidMarkerAllocator<Pcg32>),
    QueueValue(LazyUpdate<Task>),
    SharedValue(SharedLazy<Task>),
}

impl Resource<Value> for EntitiesRes {
    ghost kind_number = { 0 };

    ghost wrapped = { EntitiesValue };

    ghost part = { elim [
      | EntitiesValue x ↦ Some x
      | TableValue x ↦ None
      | PlainMarksValue x ↦ None
      | PlainGiverValue x ↦ None
      | RandomMarksValue x ↦ None
      | RandomGiverValue x ↦ None
      | QueueValue x ↦ None
      | SharedValue x ↦ None
    ] };

    ghost seen = { λ _. refl };

    ghost only_wrapped = { Prim.search rules };

    fn kind() -> u32 {
        0
    }

    fn wrap(self) -> Value {
        Value::EntitiesValue(self)
    }

    fn unwrap(value: Value) -> Result<Self, Value> {
        match value {
            Value::EntitiesValue(resource) => Ok(resource),
            other => Err(other),
        }
    }

    fn view(value: &Value) -> Option<&Self> {
        match value {
            Value::EntitiesValue(resource) => Some(resource),
            _ => None,
        }
    }

    fn view_mut(value: &mut Value) -> Option<&mut Self> {
        match value {
            Value::EntitiesValue(resource) => Some(resource),
            _ => None,
        }
    }
}

impl Resource<Value> for MetaTable {
    ghost kind_number = { 1 };

    ghost wrapped = { TableValue };

    ghost part = { elim [
      | EntitiesValue x ↦ None
      | TableValue x ↦ Some x
      | PlainMarksValue x ↦ None
      | PlainGiverValue x ↦ None
      | RandomMarksValue x ↦ None
      | RandomGiverValue x ↦ None
      | QueueValue x ↦ None
      | SharedValue x ↦ None
    ] };

    ghost seen = { λ _. refl };

    ghost only_wrapped = { Prim.search rules };

    fn kind() -> u32 {
        1
    }

    fn wrap(self) -> Value {
        Value::TableValue(self)
    }

    fn unwrap(value: Value) -> Result<Self, Value> {
        match value {
            Value::TableValue(resource) => Ok(resource),
            other => Err(other),
        }
    }

    fn view(value: &Value) -> Option<&Self> {
        match value {
            Value::TableValue(resource) => Some(resource),
            _ => None,
        }
    }

    fn view_mut(value: &mut Value) -> Option<&mut Self> {
        match value {
            Value::TableValue(resource) => Some(resource),
            _ => None,
        }
    }
}

impl Resource<Value> for MaskedStorage<Plain> {
    ghost kind_number = { 2 };

    ghost wrapped = { PlainMarksValue };

    ghost part = { elim [
      | EntitiesValue x ↦ None
      | TableValue x ↦ None
      | PlainMarksValue x ↦ Some x
      | PlainGiverValue x ↦ None
      | RandomMarksValue x ↦ None
      | RandomGiverValue x ↦ None
      | QueueValue x ↦ None
      | SharedValue x ↦ None
    ] };

    ghost seen = { λ _. refl };

    ghost only_wrapped = { Prim.search rules };

    fn kind() -> u32 {
        2
    }

    fn wrap(self) -> Value {
        Value::PlainMarksValue(self)
    }

    fn unwrap(value: Value) -> Result<Self, Value> {
        match value {
            Value::PlainMarksValue(resource) => Ok(resource),
            other => Err(other),
        }
    }

    fn view(value: &Value) -> Option<&Self> {
        match value {
            Value::PlainMarksValue(resource) => Some(resource),
            _ => None,
        }
    }

    fn view_mut(value: &mut Value) -> Option<&mut Self> {
        match value {
            Value::PlainMarksValue(resource) => Some(resource),
            _ => None,
        }
    }
}

impl Resource<Value> for SimpleMarkerAllocator<Net> {
    ghost kind_number = { 3 };

    ghost wrapped = { PlainGiverValue };

    ghost part = { elim [
      | EntitiesValue x ↦ None
      | TableValue x ↦ None
      | PlainMarksValue x ↦ None
      | PlainGiverValue x ↦ Some x
      | RandomMarksValue x ↦ None
      | RandomGiverValue x ↦ None
      | QueueValue x ↦ None
      | SharedValue x ↦ None
    ] };

    ghost seen = { λ _. refl };

    ghost only_wrapped = { Prim.search rules };

    fn kind() -> u32 {
        3
    }

    fn wrap(self) -> Value {
        Value::PlainGiverValue(self)
    }

    fn unwrap(value: Value) -> Result<Self, Value> {
        match value {
            Value::PlainGiverValue(resource) => Ok(resource),
            other => Err(other),
        }
    }

    fn view(value: &Value) -> Option<&Self> {
        match value {
            Value::PlainGiverValue(resource) => Some(resource),
            _ => None,
        }
    }

    fn view_mut(value: &mut Value) -> Option<&mut Self> {
        match value {
            Value::PlainGiverValue(resource) => Some(resource),
            _ => None,
        }
    }
}

impl Resource<Value> for MaskedStorage<Random> {
    ghost kind_number = { 4 };

    ghost wrapped = { RandomMarksValue };

    ghost part = { elim [
      | EntitiesValue x ↦ None
      | TableValue x ↦ None
      | PlainMarksValue x ↦ None
      | PlainGiverValue x ↦ None
      | RandomMarksValue x ↦ Some x
      | RandomGiverValue x ↦ None
      | QueueValue x ↦ None
      | SharedValue x ↦ None
    ] };

    ghost seen = { λ _. refl };

    ghost only_wrapped = { Prim.search rules };

    fn kind() -> u32 {
        4
    }

    fn wrap(self) -> Value {
        Value::RandomMarksValue(self)
    }

    fn unwrap(value: Value) -> Result<Self, Value> {
        match value {
            Value::RandomMarksValue(resource) => Ok(resource),
            other => Err(other),
        }
    }

    fn view(value: &Value) -> Option<&Self> {
        match value {
            Value::RandomMarksValue(resource) => Some(resource),
            _ => None,
        }
    }

    fn view_mut(value: &mut Value) -> Option<&mut Self> {
        match value {
            Value::RandomMarksValue(resource) => Some(resource),
            _ => None,
        }
    }
}

impl Resource<Value> for UuidMarkerAllocator<Pcg32> {
    ghost kind_number = { 5 };

    ghost wrapped = { RandomGiverValue };

    ghost part = { elim [
      | EntitiesValue x ↦ None
      | TableValue x ↦ None
      | PlainMarksValue x ↦ None
      | PlainGiverValue x ↦ None
      | RandomMarksValue x ↦ None
      | RandomGiverValue x ↦ Some x
      | QueueValue x ↦ None
      | SharedValue x ↦ None
    ] };

    ghost seen = { λ _. refl };

    ghost only_wrapped = { Prim.search rules };

    fn kind() -> u32 {
        5
    }

    fn wrap(self) -> Value {
        Value::RandomGiverValue(self)
    }

    fn unwrap(value: Value) -> Result<Self, Value> {
        match value {
            Value::RandomGiverValue(resource) => Ok(resource),
            other => Err(other),
        }
    }

    fn view(value: &Value) -> Option<&Self> {
        match value {
            Value::RandomGiverValue(resource) => Some(resource),
            _ => None,
        }
    }

    fn view_mut(value: &mut Value) -> Option<&mut Self> {
        match value {
            Value::RandomGiverValue(resource) => Some(resource),
            _ => None,
        }
    }
}

impl Resource<Value> for LazyUpdate<Task> {
    ghost kind_number = { 6 };

    ghost wrapped = { QueueValue };

    ghost part = { elim [
      | EntitiesValue x ↦ None
      | TableValue x ↦ None
      | PlainMarksValue x ↦ None
      | PlainGiverValue x ↦ None
      | RandomMarksValue x ↦ None
      | RandomGiverValue x ↦ None
      | QueueValue x ↦ Some x
      | SharedValue x ↦ None
    ] };

    ghost seen = { λ _. refl };

    ghost only_wrapped = { Prim.search rules };

    fn kind() -> u32 {
        6
    }

    fn wrap(self) -> Value {
        Value::QueueValue(self)
    }

    fn unwrap(value: Value) -> Result<Self, Value> {
        match value {
            Value::QueueValue(resource) => Ok(resource),
            other => Err(other),
        }
    }

    fn view(value: &Value) -> Option<&Self> {
        match value {
            Value::QueueValue(resource) => Some(resource),
            _ => None,
        }
    }

    fn view_mut(value: &mut Value) -> Option<&mut Self> {
        match value {
            Value::QueueValue(resource) => Some(resource),
            _ => None,
        }
    }
}

impl Resource<Value> for SharedLazy<Task> {
    ghost kind_number = { 7 };

    ghost wrapped = { SharedValue };

    ghost part = { elim [
      | EntitiesValue x ↦ None
      | TableValue x ↦ None
      | PlainMarksValue x ↦ None
      | PlainGiverValue x ↦ None
      | RandomMarksValue x ↦ None
      | RandomGiverValue x ↦ None
      | QueueValue x ↦ None
      | SharedValue x ↦ Some x
    ] };

    ghost seen = { λ _. refl };

    ghost only_wrapped = { Prim.search rules };

    fn kind() -> u32 {
        7
    }

    fn wrap(self) -> Value {
        Value::SharedValue(self)
    }

    fn unwrap(value: Value) -> Result<Self, Value> {
        match value {
            Value::SharedValue(resource) => Ok(resource),
            other => Err(other),
        }
    }

    fn view(value: &Value) -> Option<&Self> {
        match value {
            Value::SharedValue(resource) => Some(resource),
            _ => None,
        }
    }

    fn view_mut(value: &mut Value) -> Option<&mut Self> {
        match value {
            Value::SharedValue(resource) => Some(resource),
            _ => None,
        }
    }
}

impl AnyStorage for Value {
    ghost has_part = { value_has_part ⟦<MaskedStorage<Plain> as AnyStorage>⟧.has_part
        ⟦<MaskedStorage<Random> as AnyStorage>⟧.has_part };

    ghost has_room = { value_has_room ⟦<MaskedStorage<Plain> as AnyStorage>⟧.has_room
        ⟦<MaskedStorage<Random> as AnyStorage>⟧.has_room };

    ghost drops = { value_drops ⟦<MaskedStorage<Plain> as AnyStorage>⟧.drops
        ⟦<MaskedStorage<Random> as AnyStorage>⟧.drops };

    ghost drops_parts = { value-parts
        ⟦<MaskedStorage<Plain> as AnyStorage>⟧.has_part ⟦<MaskedStorage<Random> as AnyStorage>⟧.has_part
        ⟦<MaskedStorage<Plain> as AnyStorage>⟧.drops ⟦<MaskedStorage<Random> as AnyStorage>⟧.drops
        (λ _ _ indices dropped. dropped-parts _ _ indices dropped.parts)
        (λ _ _ indices dropped. dropped-parts _ _ indices dropped.parts) };

    ghost drops_none = { value-none
        ⟦<MaskedStorage<Plain> as AnyStorage>⟧.drops ⟦<MaskedStorage<Random> as AnyStorage>⟧.drops
        (λ _. drops-none _ _ _) (λ _. drops-none _ _ _) };

    ghost drops_append = { value-append
        ⟦<MaskedStorage<Plain> as AnyStorage>⟧.drops ⟦<MaskedStorage<Random> as AnyStorage>⟧.drops
        (λ _ _ _ indices others one other. drops-append _ _ _ _ _ _ _ _ _ indices others one other)
        (λ _ _ _ indices others one other. drops-append _ _ _ _ _ _ _ _ _ indices others one other) };

    fn drop(&mut self, entities: &[Entity]) -> Result<(), AllocError> {
        match self {
            Value::EntitiesValue(_) => Ok(()),
            Value::TableValue(_) => Ok(()),
            Value::PlainMarksValue(storage) => AnyStorage::drop(storage, entities),
            Value::PlainGiverValue(_) => Ok(()),
            Value::RandomMarksValue(storage) => AnyStorage::drop(storage, entities),
            Value::RandomGiverValue(_) => Ok(()),
            Value::QueueValue(_) => Ok(()),
            Value::SharedValue(_) => Ok(()),
        }
    }

    fn make_room(&mut self, count: usize) -> Result<(), AllocError> {
        match self {
            Value::EntitiesValue(_) => Ok(()),
            Value::TableValue(_) => Ok(()),
            Value::PlainMarksValue(storage) => AnyStorage::make_room(storage, count),
            Value::PlainGiverValue(_) => Ok(()),
            Value::RandomMarksValue(storage) => AnyStorage::make_room(storage, count),
            Value::RandomGiverValue(_) => Ok(()),
            Value::QueueValue(_) => Ok(()),
            Value::SharedValue(_) => Ok(()),
        }
    }
}

impl Registrable<Value> for Plain {
    ghost parts_within = { λ _ _. refl };

    ghost drops_within = { λ _ _ _ dropped. dropped };
}

impl Registrable<Value> for Random {
    ghost parts_within = { λ _ _. refl };

    ghost drops_within = { λ _ _ _ dropped. dropped };
}
