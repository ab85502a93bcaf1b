//! What a world of the scene holds: what values.list names, of which tools/values wrote this.
ghost use Rattle.std.specs.Prelude.{◌≡◌, refl};
ghost use Rattle.std.proofs.Common.{rules};
ghost use Rattle.scene_world.specs.Numbers.{number_stored};
ghost use Rattle.scene_world.specs.Numbers.{reference_stored};
ghost use Rattle.duel.specs.Names.{part_of};
ghost use Rattle.duel.specs.Values.{entities_in};
ghost use Rattle.duel.specs.Values.{markers_in};
ghost use Rattle.duel.specs.Values.{allocator_in};
ghost use Rattle.duel.specs.Values.{attack_in};
ghost use Rattle.duel.specs.Values.{hp_in};
ghost use Rattle.duel.specs.Values.{target_in};
ghost use Rattle.duel.specs.Values.{queue_in};
ghost use Rattle.duel.specs.declared.values.Value.TheVariants.{EntitiesValue};
ghost use Rattle.duel.specs.declared.values.Value.TheVariants.{MarkersValue};
ghost use Rattle.duel.specs.declared.values.Value.TheVariants.{AllocatorValue};
ghost use Rattle.duel.specs.declared.values.Value.TheVariants.{AttackValue};
ghost use Rattle.duel.specs.declared.values.Value.TheVariants.{HpValue};
ghost use Rattle.duel.specs.declared.values.Value.TheVariants.{TargetValue};
ghost use Rattle.duel.specs.declared.values.Value.TheVariants.{QueueValue};

use crate::data::{Attack, Datum, Hp, Target};
use scene_model::Queue;
use scene_world::{
    NumberPart, PlainPart, QueueValue, ReferencePart, SceneMarker, SceneMarkerAllocator,
    SceneStorage, Store, scene_storage,
};
use shred_world::Resource;
use specs_entity::{EntitiesRes, Entity};
use specs_layouts::{Component, MaskedStorage};
use std::alloc::Global;

impl Component for Attack {
    type Storage = SceneStorage<Attack>;
}

impl Component for Hp {
    type Storage = SceneStorage<Hp>;
}

impl Component for Target {
    type Storage = SceneStorage<Target>;
}

impl PlainPart for Attack {
    type Data = Datum;

    ghost part_of = { part_of };

    ghost stored = { λ part. number_stored part.0 };

    fn storage(alloc: Global, store: Store) -> SceneStorage<Attack> {
        scene_storage(alloc, store)
    }

    fn from_data(datum: &Datum, named: Option<Entity>) -> Option<Attack> {
        match (*datum, named) {
            (Datum::Number(number), None) => Some(Attack(number)),
            _ => None,
        }
    }

    fn to_data(&self, id: Option<u64>) -> Option<Datum> {
        match id {
            None => Some(Datum::Number(self.0)),
            Some(_) => None,
        }
    }

    fn named(&self) -> Option<Entity> {
        None
    }

    fn refers() -> bool {
        false
    }
}

impl NumberPart for Attack {
    fn number(&self) -> u64 {
        self.0
    }

    fn datum(number: u64) -> Datum {
        Datum::Number(number)
    }
}

impl PlainPart for Hp {
    type Data = Datum;

    ghost part_of = { part_of };

    ghost stored = { λ part. number_stored part.0 };

    fn storage(alloc: Global, store: Store) -> SceneStorage<Hp> {
        scene_storage(alloc, store)
    }

    fn from_data(datum: &Datum, named: Option<Entity>) -> Option<Hp> {
        match (*datum, named) {
            (Datum::Number(number), None) => Some(Hp(number)),
            _ => None,
        }
    }

    fn to_data(&self, id: Option<u64>) -> Option<Datum> {
        match id {
            None => Some(Datum::Number(self.0)),
            Some(_) => None,
        }
    }

    fn named(&self) -> Option<Entity> {
        None
    }

    fn refers() -> bool {
        false
    }
}

impl NumberPart for Hp {
    fn number(&self) -> u64 {
        self.0
    }

    fn datum(number: u64) -> Datum {
        Datum::Number(number)
    }
}

impl PlainPart for Target {
    type Data = Datum;

    ghost part_of = { part_of };

    ghost stored = { λ part. reference_stored part.0 };

    fn storage(alloc: Global, store: Store) -> SceneStorage<Target> {
        scene_storage(alloc, store)
    }

    fn from_data(datum: &Datum, named: Option<Entity>) -> Option<Target> {
        match (*datum, named) {
            (Datum::Target(_), Some(entity)) => Some(Target(entity)),
            _ => None,
        }
    }

    fn to_data(&self, id: Option<u64>) -> Option<Datum> {
        id.map(Datum::Target)
    }

    fn named(&self) -> Option<Entity> {
        Some(self.0)
    }

    fn refers() -> bool {
        true
    }
}

impl ReferencePart for Target {
    fn entity(&self) -> Entity {
        self.0
    }
}

/// The values of a world, of one kind each.
#[derive(Drop)]
pub enum Value {
    EntitiesValue(EntitiesRes),
    MarkersValue(MaskedStorage<SceneMarker>),
    AllocatorValue(SceneMarkerAllocator),
    QueueValue(Queue<Datum>),
    AttackValue(MaskedStorage<Attack>),
    HpValue(MaskedStorage<Hp>),
    TargetValue(MaskedStorage<Target>),
    TurnValue(u64),
}

/// A value that is none of what was asked for, as it came.
fn hand_back<T>(value: Value) -> Result<T, Value>
    ensures { result ≡ Err value }
{
    Err(value)
}

impl QueueValue<Datum> for Value {
    ghost kind_number = { 3 };

    ghost wrapped = { QueueValue };

    ghost part = { queue_in };

    ghost seen = { λ _. refl };

    fn kind() -> u32 {
        3
    }

    fn wrap_queue(queue: Queue<Datum>) -> Value
        ensures { result ≡ QueueValue queue }
    {
        Value::QueueValue(queue)
    }

    fn unwrap_queue(value: Value) -> Result<Queue<Datum>, Value> {
        match value {
            Value::QueueValue(queue) => Ok(queue),
            other => hand_back(other),
        }
    }
}

impl Resource<Value> for EntitiesRes {
    ghost kind_number = { 0 };

    ghost wrapped = { EntitiesValue };

    ghost part = { entities_in };

    ghost seen = { λ _. refl };

    ghost only_wrapped = { Prim.search rules };

    fn kind() -> u32 {
        0
    }

    fn wrap(self) -> Value {
        Value::EntitiesValue(self)
    }

    fn unwrap(value: Value) -> Result<Self, Value> {
        match value {
            Value::EntitiesValue(resource) => Ok(resource),
            other => hand_back(other),
        }
    }

    fn view(value: &Value) -> Option<&Self> {
        match value {
            Value::EntitiesValue(resource) => Some(resource),
            _ => None,
        }
    }

    fn view_mut(value: &mut Value) -> Option<&mut Self> {
        match value {
            Value::EntitiesValue(resource) => Some(resource),
            _ => None,
        }
    }
}

impl Resource<Value> for MaskedStorage<SceneMarker> {
    ghost kind_number = { 1 };

    ghost wrapped = { MarkersValue };

    ghost part = { markers_in };

    ghost seen = { λ _. refl };

    ghost only_wrapped = { Prim.search rules };

    fn kind() -> u32 {
        1
    }

    fn wrap(self) -> Value {
        Value::MarkersValue(self)
    }

    fn unwrap(value: Value) -> Result<Self, Value> {
        match value {
            Value::MarkersValue(resource) => Ok(resource),
            other => hand_back(other),
        }
    }

    fn view(value: &Value) -> Option<&Self> {
        match value {
            Value::MarkersValue(resource) => Some(resource),
            _ => None,
        }
    }

    fn view_mut(value: &mut Value) -> Option<&mut Self> {
        match value {
            Value::MarkersValue(resource) => Some(resource),
            _ => None,
        }
    }
}

impl Resource<Value> for SceneMarkerAllocator {
    ghost kind_number = { 2 };

    ghost wrapped = { AllocatorValue };

    ghost part = { allocator_in };

    ghost seen = { λ _. refl };

    ghost only_wrapped = { Prim.search rules };

    fn kind() -> u32 {
        2
    }

    fn wrap(self) -> Value {
        Value::AllocatorValue(self)
    }

    fn unwrap(value: Value) -> Result<Self, Value> {
        match value {
            Value::AllocatorValue(resource) => Ok(resource),
            other => hand_back(other),
        }
    }

    fn view(value: &Value) -> Option<&Self> {
        match value {
            Value::AllocatorValue(resource) => Some(resource),
            _ => None,
        }
    }

    fn view_mut(value: &mut Value) -> Option<&mut Self> {
        match value {
            Value::AllocatorValue(resource) => Some(resource),
            _ => None,
        }
    }
}

impl Resource<Value> for MaskedStorage<Attack> {
    ghost kind_number = { 4 };

    ghost wrapped = { AttackValue };

    ghost part = { attack_in };

    ghost seen = { λ _. refl };

    ghost only_wrapped = { Prim.search rules };

    fn kind() -> u32 {
        4
    }

    fn wrap(self) -> Value {
        Value::AttackValue(self)
    }

    fn unwrap(value: Value) -> Result<Self, Value> {
        match value {
            Value::AttackValue(resource) => Ok(resource),
            other => hand_back(other),
        }
    }

    fn view(value: &Value) -> Option<&Self> {
        match value {
            Value::AttackValue(resource) => Some(resource),
            _ => None,
        }
    }

    fn view_mut(value: &mut Value) -> Option<&mut Self> {
        match value {
            Value::AttackValue(resource) => Some(resource),
            _ => None,
        }
    }
}

impl Resource<Value> for MaskedStorage<Hp> {
    ghost kind_number = { 5 };

    ghost wrapped = { HpValue };

    ghost part = { hp_in };

    ghost seen = { λ _. refl };

    ghost only_wrapped = { Prim.search rules };

    fn kind() -> u32 {
        5
    }

    fn wrap(self) -> Value {
        Value::HpValue(self)
    }

    fn unwrap(value: Value) -> Result<Self, Value> {
        match value {
            Value::HpValue(resource) => Ok(resource),
            other => hand_back(other),
        }
    }

    fn view(value: &Value) -> Option<&Self> {
        match value {
            Value::HpValue(resource) => Some(resource),
            _ => None,
        }
    }

    fn view_mut(value: &mut Value) -> Option<&mut Self> {
        match value {
            Value::HpValue(resource) => Some(resource),
            _ => None,
        }
    }
}

impl Resource<Value> for MaskedStorage<Target> {
    ghost kind_number = { 6 };

    ghost wrapped = { TargetValue };

    ghost part = { target_in };

    ghost seen = { λ _. refl };

    ghost only_wrapped = { Prim.search rules };

    fn kind() -> u32 {
        6
    }

    fn wrap(self) -> Value {
        Value::TargetValue(self)
    }

    fn unwrap(value: Value) -> Result<Self, Value> {
        match value {
            Value::TargetValue(resource) => Ok(resource),
            other => hand_back(other),
        }
    }

    fn view(value: &Value) -> Option<&Self> {
        match value {
            Value::TargetValue(resource) => Some(resource),
            _ => None,
        }
    }

    fn view_mut(value: &mut Value) -> Option<&mut Self> {
        match value {
            Value::TargetValue(resource) => Some(resource),
            _ => None,
        }
    }
}
