//! What a world of the test's scene holds, and the parts of its two kinds.
ghost use Rattle.std.specs.Prelude.{◌≡◌, refl};
ghost use Rattle.std.proofs.Common.{rules};
ghost use Rattle.scene_cases.specs.Holdings.{births_in, markers_in, noting_in, queue_in, owners_in, ranks_in};
ghost use Rattle.scene_cases.specs.declared.commands.values.Value.TheVariants.{EntitiesValue, MarkersValue, AllocatorValue, QueueValue, OwnerValue, RankValue};

use crate::commands::datum::Datum;
use scene_model::Queue;
use scene_world::{QueueValue, SceneMarker, SceneMarkerAllocator, SceneStorage};
use shred_world::Resource;
use specs_entity::{EntitiesRes, Entity};
use specs_layouts::{Component, MaskedStorage};

/// The entity to which an entity belongs.
#[derive(Clone, Copy, Debug, PartialEq, Eq)]
pub struct Owner(pub Entity);

impl Component for Owner {
    type Storage = SceneStorage<Owner>;
}

/// Where an entity stands among others.
#[derive(Clone, Copy, Debug, PartialEq, Eq)]
pub struct Rank(pub u64);

impl Component for Rank {
    type Storage = SceneStorage<Rank>;
}

/// What a world of the scene holds.
#[derive(Drop)]
pub enum Value {
    EntitiesValue(EntitiesRes),
    MarkersValue(MaskedStorage<SceneMarker>),
    AllocatorValue(SceneMarkerAllocator),
    QueueValue(Queue<Datum>),
    OwnerValue(MaskedStorage<Owner>),
    RankValue(MaskedStorage<Rank>),
    EraValue(u64),
}

impl Resource<Value> for EntitiesRes {
    ghost kind_number = { 0 };

    ghost wrapped = { EntitiesValue };

    ghost part = { births_in };

    ghost seen = { λ _. refl };

    ghost only_wrapped = { Prim.search rules };

    fn kind() -> u32 {
        0
    }

    fn wrap(self) -> Value {
        Value::EntitiesValue(self)
    }

    fn unwrap(value: Value) -> Result<Self, Value> {
        match value {
            Value::EntitiesValue(resource) => Ok(resource),
            other => Err(other),
        }
    }

    fn view(value: &Value) -> Option<&Self> {
        match value {
            Value::EntitiesValue(resource) => Some(resource),
            _ => None,
        }
    }

    fn view_mut(value: &mut Value) -> Option<&mut Self> {
        match value {
            Value::EntitiesValue(resource) => Some(resource),
            _ => None,
        }
    }
}

impl Resource<Value> for MaskedStorage<SceneMarker> {
    ghost kind_number = { 1 };

    ghost wrapped = { MarkersValue };

    ghost part = { markers_in };

    ghost seen = { λ _. refl };

    ghost only_wrapped = { Prim.search rules };

    fn kind() -> u32 {
        1
    }

    fn wrap(self) -> Value {
        Value::MarkersValue(self)
    }

    fn unwrap(value: Value) -> Result<Self, Value> {
        match value {
            Value::MarkersValue(resource) => Ok(resource),
            other => Err(other),
        }
    }

    fn view(value: &Value) -> Option<&Self> {
        match value {
            Value::MarkersValue(resource) => Some(resource),
            _ => None,
        }
    }

    fn view_mut(value: &mut Value) -> Option<&mut Self> {
        match value {
            Value::MarkersValue(resource) => Some(resource),
            _ => None,
        }
    }
}

impl Resource<Value> for SceneMarkerAllocator {
    ghost kind_number = { 2 };

    ghost wrapped = { AllocatorValue };

    ghost part = { noting_in };

    ghost seen = { λ _. refl };

    ghost only_wrapped = { Prim.search rules };

    fn kind() -> u32 {
        2
    }

    fn wrap(self) -> Value {
        Value::AllocatorValue(self)
    }

    fn unwrap(value: Value) -> Result<Self, Value> {
        match value {
            Value::AllocatorValue(resource) => Ok(resource),
            other => Err(other),
        }
    }

    fn view(value: &Value) -> Option<&Self> {
        match value {
            Value::AllocatorValue(resource) => Some(resource),
            _ => None,
        }
    }

    fn view_mut(value: &mut Value) -> Option<&mut Self> {
        match value {
            Value::AllocatorValue(resource) => Some(resource),
            _ => None,
        }
    }
}

impl QueueValue<Datum> for Value {
    ghost kind_number = { 3 };

    ghost wrapped = { QueueValue };

    ghost part = { queue_in };

    ghost seen = { λ _. refl };

    fn kind() -> u32 {
        3
    }

    fn wrap_queue(queue: Queue<Datum>) -> Value
        ensures { result ≡ QueueValue queue }
    {
        Value::QueueValue(queue)
    }

    fn unwrap_queue(value: Value) -> Result<Queue<Datum>, Value> {
        match value {
            Value::QueueValue(queue) => Ok(queue),
            other => Err(other),
        }
    }
}

impl Resource<Value> for MaskedStorage<Owner> {
    ghost kind_number = { 4 };

    ghost wrapped = { OwnerValue };

    ghost part = { owners_in };

    ghost seen = { λ _. refl };

    ghost only_wrapped = { Prim.search rules };

    fn kind() -> u32 {
        4
    }

    fn wrap(self) -> Value {
        Value::OwnerValue(self)
    }

    fn unwrap(value: Value) -> Result<Self, Value> {
        match value {
            Value::OwnerValue(resource) => Ok(resource),
            other => Err(other),
        }
    }

    fn view(value: &Value) -> Option<&Self> {
        match value {
            Value::OwnerValue(resource) => Some(resource),
            _ => None,
        }
    }

    fn view_mut(value: &mut Value) -> Option<&mut Self> {
        match value {
            Value::OwnerValue(resource) => Some(resource),
            _ => None,
        }
    }
}

impl Resource<Value> for MaskedStorage<Rank> {
    ghost kind_number = { 5 };

    ghost wrapped = { RankValue };

    ghost part = { ranks_in };

    ghost seen = { λ _. refl };

    ghost only_wrapped = { Prim.search rules };

    fn kind() -> u32 {
        5
    }

    fn wrap(self) -> Value {
        Value::RankValue(self)
    }

    fn unwrap(value: Value) -> Result<Self, Value> {
        match value {
            Value::RankValue(resource) => Ok(resource),
            other => Err(other),
        }
    }

    fn view(value: &Value) -> Option<&Self> {
        match value {
            Value::RankValue(resource) => Some(resource),
            _ => None,
        }
    }

    fn view_mut(value: &mut Value) -> Option<&mut Self> {
        match value {
            Value::RankValue(resource) => Some(resource),
            _ => None,
        }
    }
}
