//! What a world of the program's scenes holds: entities, their markers, the allocator of ids, queues, and the parts and the global of
//! the program's rules.
ghost use Rattle.std.specs.Prelude.{◌≡◌, refl};
ghost use Rattle.std.proofs.Common.{rules};
ghost use Rattle.scene_basics.specs.Values.{births_in, markers_in, noting_in, queue_in};
ghost use Rattle.scene_basics.specs.declared.values.Value.TheVariants.{EntitiesValue, MarkersValue, AllocatorValue};
ghost use Rattle.scene_basics.specs.declared.values.Value.TheVariants.{QueueValue};

use crate::data::Datum;
use scene_model::Queue;
use scene_world::{QueueValue, SceneMarker, SceneMarkerAllocator, SceneStorage};
use shred_world::Resource;
use specs_entity::{EntitiesRes, Entity};
use specs_layouts::{Component, MaskedStorage};

/// The whole number of an entity under one of the kinds `hp`, `pos` and `vel`.
#[derive(Clone, Copy, Debug, PartialEq, Eq)]
pub struct Whole(pub i64);

impl Component for Whole {
    type Storage = SceneStorage<Whole>;
}

/// The entity that owns an entity, or to which it is bound.
#[derive(Clone, Copy, Debug, PartialEq, Eq)]
pub struct Owner(pub Entity);

impl Component for Owner {
    type Storage = SceneStorage<Owner>;
}

/// What a world of the program's scenes holds.
///
/// Each of the kinds `hp`, `pos` and `vel` has numbers of its own, under an id of its own, and `bond` and `owner` have owners so.
#[derive(Drop)]
pub enum Value {
    /// The entities.
    EntitiesValue(EntitiesRes),
    /// The id of each entity.
    MarkersValue(MaskedStorage<SceneMarker>),
    /// What gives ids.
    AllocatorValue(SceneMarkerAllocator),
    /// The commands of a system.
    QueueValue(Queue<Datum>),
    /// The numbers of one kind.
    NumbersValue(MaskedStorage<Whole>),
    /// The owners of one kind.
    OwnersValue(MaskedStorage<Owner>),
    /// The global.
    GlobalValue(i64),
}

/// A value that is none of what was asked for, as it came.
#[cold]
#[inline(never)]
fn hand_back<T>(value: Value) -> Result<T, Value>
    ensures { result ≡ Err value }
{
    Err(value)
}

impl Resource<Value> for EntitiesRes {
    ghost kind_number = { 0 };

    ghost wrapped = { EntitiesValue };

    ghost part = { births_in };

    ghost seen = { λ _. refl };

    ghost only_wrapped = { Prim.search rules };

    fn kind() -> u32 {
        0
    }

    fn wrap(self) -> Value {
        Value::EntitiesValue(self)
    }

    fn unwrap(value: Value) -> Result<Self, Value> {
        match value {
            Value::EntitiesValue(resource) => Ok(resource),
            other => hand_back(other),
        }
    }

    fn view(value: &Value) -> Option<&Self> {
        match value {
            Value::EntitiesValue(resource) => Some(resource),
            _ => None,
        }
    }

    fn view_mut(value: &mut Value) -> Option<&mut Self> {
        match value {
            Value::EntitiesValue(resource) => Some(resource),
            _ => None,
        }
    }
}

impl Resource<Value> for MaskedStorage<SceneMarker> {
    ghost kind_number = { 1 };

    ghost wrapped = { MarkersValue };

    ghost part = { markers_in };

    ghost seen = { λ _. refl };

    ghost only_wrapped = { Prim.search rules };

    fn kind() -> u32 {
        1
    }

    fn wrap(self) -> Value {
        Value::MarkersValue(self)
    }

    fn unwrap(value: Value) -> Result<Self, Value> {
        match value {
            Value::MarkersValue(resource) => Ok(resource),
            other => hand_back(other),
        }
    }

    fn view(value: &Value) -> Option<&Self> {
        match value {
            Value::MarkersValue(resource) => Some(resource),
            _ => None,
        }
    }

    fn view_mut(value: &mut Value) -> Option<&mut Self> {
        match value {
            Value::MarkersValue(resource) => Some(resource),
            _ => None,
        }
    }
}

impl Resource<Value> for SceneMarkerAllocator {
    ghost kind_number = { 2 };

    ghost wrapped = { AllocatorValue };

    ghost part = { noting_in };

    ghost seen = { λ _. refl };

    ghost only_wrapped = { Prim.search rules };

    fn kind() -> u32 {
        2
    }

    fn wrap(self) -> Value {
        Value::AllocatorValue(self)
    }

    fn unwrap(value: Value) -> Result<Self, Value> {
        match value {
            Value::AllocatorValue(resource) => Ok(resource),
            other => hand_back(other),
        }
    }

    fn view(value: &Value) -> Option<&Self> {
        match value {
            Value::AllocatorValue(resource) => Some(resource),
            _ => None,
        }
    }

    fn view_mut(value: &mut Value) -> Option<&mut Self> {
        match value {
            Value::AllocatorValue(resource) => Some(resource),
            _ => None,
        }
    }
}

impl QueueValue<Datum> for Value {
    ghost kind_number = { 3 };

    ghost wrapped = { QueueValue };

    ghost part = { queue_in };

    ghost seen = { λ _. refl };

    fn kind() -> u32 {
        3
    }

    fn wrap_queue(queue: Queue<Datum>) -> Value
        ensures { result ≡ QueueValue queue }
    {
        Value::QueueValue(queue)
    }

    fn unwrap_queue(value: Value) -> Result<Queue<Datum>, Value> {
        match value {
            Value::QueueValue(queue) => Ok(queue),
            other => hand_back(other),
        }
    }
}
