//! What a world of the test's scene holds: entities, their markers, the allocator of ids, queues, and the parts of two kinds.
ghost use Rattle.std.specs.Prelude.{◌≡◌, Some, None, refl};
ghost use Rattle.std.proofs.Common.{rules};
ghost use Rattle.scene_cases.specs.declared.turns.values.Value.TheVariants.{EntitiesValue, MarkersValue, AllocatorValue, QueueValue, PositionValue, VelocityValue};

use scene_model::Queue;
use scene_world::{QueueValue, SceneMarker, SceneMarkerAllocator, SceneStorage};
use shred_world::Resource;
use specs_entity::EntitiesRes;
use specs_layouts::{Component, MaskedStorage};

/// How far along its way an entity is, in steps.
#[derive(Clone, Copy, Debug, PartialEq, Eq)]
pub struct Position(pub u64);

impl Component for Position {
    type Storage = SceneStorage<Position>;
}

/// Steps a frame.
#[derive(Clone, Copy, Debug, PartialEq, Eq)]
pub struct Velocity(pub u64);

impl Component for Velocity {
    type Storage = SceneStorage<Velocity>;
}

/// What a world of the scene holds.
#[derive(Drop)]
pub enum Value {
    EntitiesValue(EntitiesRes),
    MarkersValue(MaskedStorage<SceneMarker>),
    AllocatorValue(SceneMarkerAllocator),
    QueueValue(Queue<u64>),
    PositionValue(MaskedStorage<Position>),
    VelocityValue(MaskedStorage<Velocity>),
}

impl Resource<Value> for EntitiesRes {
    ghost kind_number = { 0 };

    ghost wrapped = { EntitiesValue };

    ghost part = { elim [
      | EntitiesValue x ↦ Some x
      | MarkersValue x ↦ None
      | AllocatorValue x ↦ None
      | QueueValue x ↦ None
      | PositionValue x ↦ None
      | VelocityValue x ↦ None
    ] };

    ghost seen = { λ _. refl };

    ghost only_wrapped = { Prim.search rules };

    fn kind() -> u32 {
        0
    }

    fn wrap(self) -> Value {
        Value::EntitiesValue(self)
    }

    fn unwrap(value: Value) -> Result<Self, Value> {
        match value {
            Value::EntitiesValue(resource) => Ok(resource),
            other => Err(other),
        }
    }

    fn view(value: &Value) -> Option<&Self> {
        match value {
            Value::EntitiesValue(resource) => Some(resource),
            _ => None,
        }
    }

    fn view_mut(value: &mut Value) -> Option<&mut Self> {
        match value {
            Value::EntitiesValue(resource) => Some(resource),
            _ => None,
        }
    }
}

impl Resource<Value> for MaskedStorage<SceneMarker> {
    ghost kind_number = { 1 };

    ghost wrapped = { MarkersValue };

    ghost part = { elim [
      | EntitiesValue x ↦ None
      | MarkersValue x ↦ Some x
      | AllocatorValue x ↦ None
      | QueueValue x ↦ None
      | PositionValue x ↦ None
      | VelocityValue x ↦ None
    ] };

    ghost seen = { λ _. refl };

    ghost only_wrapped = { Prim.search rules };

    fn kind() -> u32 {
        1
    }

    fn wrap(self) -> Value {
        Value::MarkersValue(self)
    }

    fn unwrap(value: Value) -> Result<Self, Value> {
        match value {
            Value::MarkersValue(resource) => Ok(resource),
            other => Err(other),
        }
    }

    fn view(value: &Value) -> Option<&Self> {
        match value {
            Value::MarkersValue(resource) => Some(resource),
            _ => None,
        }
    }

    fn view_mut(value: &mut Value) -> Option<&mut Self> {
        match value {
            Value::MarkersValue(resource) => Some(resource),
            _ => None,
        }
    }
}

impl Resource<Value> for SceneMarkerAllocator {
    ghost kind_number = { 2 };

    ghost wrapped = { AllocatorValue };

    ghost part = { elim [
      | EntitiesValue x ↦ None
      | MarkersValue x ↦ None
      | AllocatorValue x ↦ Some x
      | QueueValue x ↦ None
      | PositionValue x ↦ None
      | VelocityValue x ↦ None
    ] };

    ghost seen = { λ _. refl };

    ghost only_wrapped = { Prim.search rules };

    fn kind() -> u32 {
        2
    }

    fn wrap(self) -> Value {
        Value::AllocatorValue(self)
    }

    fn unwrap(value: Value) -> Result<Self, Value> {
        match value {
            Value::AllocatorValue(resource) => Ok(resource),
            other => Err(other),
        }
    }

    fn view(value: &Value) -> Option<&Self> {
        match value {
            Value::AllocatorValue(resource) => Some(resource),
            _ => None,
        }
    }

    fn view_mut(value: &mut Value) -> Option<&mut Self> {
        match value {
            Value::AllocatorValue(resource) => Some(resource),
            _ => None,
        }
    }
}

impl QueueValue<u64> for Value {
    ghost kind_number = { 3 };

    ghost wrapped = { QueueValue };

    ghost part = { elim [
      | EntitiesValue x ↦ None
      | MarkersValue x ↦ None
      | AllocatorValue x ↦ None
      | QueueValue x ↦ Some x
      | PositionValue x ↦ None
      | VelocityValue x ↦ None
    ] };

    ghost seen = { λ _. refl };

    fn kind() -> u32 {
        3
    }

    fn wrap_queue(queue: Queue<u64>) -> Value
        ensures { result ≡ QueueValue queue }
    {
        Value::QueueValue(queue)
    }

    fn unwrap_queue(value: Value) -> Result<Queue<u64>, Value> {
        match value {
            Value::QueueValue(queue) => Ok(queue),
            other => Err(other),
        }
    }
}

impl Resource<Value> for MaskedStorage<Position> {
    ghost kind_number = { 4 };

    ghost wrapped = { PositionValue };

    ghost part = { elim [
      | EntitiesValue x ↦ None
      | MarkersValue x ↦ None
      | AllocatorValue x ↦ None
      | QueueValue x ↦ None
      | PositionValue x ↦ Some x
      | VelocityValue x ↦ None
    ] };

    ghost seen = { λ _. refl };

    ghost only_wrapped = { Prim.search rules };

    fn kind() -> u32 {
        4
    }

    fn wrap(self) -> Value {
        Value::PositionValue(self)
    }

    fn unwrap(value: Value) -> Result<Self, Value> {
        match value {
            Value::PositionValue(resource) => Ok(resource),
            other => Err(other),
        }
    }

    fn view(value: &Value) -> Option<&Self> {
        match value {
            Value::PositionValue(resource) => Some(resource),
            _ => None,
        }
    }

    fn view_mut(value: &mut Value) -> Option<&mut Self> {
        match value {
            Value::PositionValue(resource) => Some(resource),
            _ => None,
        }
    }
}

impl Resource<Value> for MaskedStorage<Velocity> {
    ghost kind_number = { 5 };

    ghost wrapped = { VelocityValue };

    ghost part = { elim [
      | EntitiesValue x ↦ None
      | MarkersValue x ↦ None
      | AllocatorValue x ↦ None
      | QueueValue x ↦ None
      | PositionValue x ↦ None
      | VelocityValue x ↦ Some x
    ] };

    ghost seen = { λ _. refl };

    ghost only_wrapped = { Prim.search rules };

    fn kind() -> u32 {
        5
    }

    fn wrap(self) -> Value {
        Value::VelocityValue(self)
    }

    fn unwrap(value: Value) -> Result<Self, Value> {
        match value {
            Value::VelocityValue(resource) => Ok(resource),
            other => Err(other),
        }
    }

    fn view(value: &Value) -> Option<&Self> {
        match value {
            Value::VelocityValue(resource) => Some(resource),
            _ => None,
        }
    }

    fn view_mut(value: &mut Value) -> Option<&mut Self> {
        match value {
            Value::VelocityValue(resource) => Some(resource),
            _ => None,
        }
    }
}
