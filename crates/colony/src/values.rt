//! What a world holds beside entities and a table of kinds: what values.list names, of which tools/values wrote this.
ghost use Rattle.std.specs.Prelude.{◌≡◌, Some, None, refl};
ghost use Rattle.std.proofs.Common.{rules};
ghost use Rattle.specs.specs.ForStorages.{dropped-parts, drops-none, drops-append};
ghost use Rattle.colony.specs.Values.{value_has_part, value_has_room, value_drops, value-parts, value-none};
ghost use Rattle.colony.specs.Values.{value-append};
ghost use Rattle.colony.specs.declared.values.Value.TheVariants.{EntitiesValue};
ghost use Rattle.colony.specs.declared.values.Value.TheVariants.{TableValue};
ghost use Rattle.colony.specs.declared.values.Value.TheVariants.{PositionValue};
ghost use Rattle.colony.specs.declared.values.Value.TheVariants.{VelocityValue};
ghost use Rattle.colony.specs.declared.values.Value.TheVariants.{GoalValue};
ghost use Rattle.colony.specs.declared.values.Value.TheVariants.{MarkValue};
ghost use Rattle.colony.specs.declared.values.Value.TheVariants.{GiverValue};
ghost use Rattle.colony.specs.declared.values.Value.TheVariants.{AskedValue};
ghost use Rattle.colony.specs.declared.values.Value.TheVariants.{SharedValue};

use crate::parts::{Goal, Position, Settler, Velocity};
use specs::saveload::{
    ConvertSaveload, MarkerAllocator, Names, SavedMarker, SimpleMarker, SimpleMarkerAllocator,
    plain_into,
};
use specs::{
    AnyStorage, Component, DenseVecStorage, EntitiesRes, Entity, Error, FlaggedStorage, LazyUpdate,
    MaskedStorage, MetaTable, Registrable, Resource, SharedLazy, VecStorage,
};
use std::alloc::{AllocError, Global};

impl Component for Position {
    type Storage = FlaggedStorage<Position, VecStorage<Position>>;
}

impl Component for Velocity {
    type Storage = DenseVecStorage<Velocity>;
}

impl Component for Goal {
    type Storage = VecStorage<Goal>;
}

impl<M: SavedMarker> ConvertSaveload<M> for Position {
    type Data = u64;

    ghost use Rattle.std.specs.Prelude.{[]};
    ghost use Rattle.std.specs.Option.{option_map};
    ghost use Rattle.std.proofs.Common.{ap, sym};
    ghost use Rattle.colony.specs.declared.parts.Position.{Position};

    ghost refers_to = { λ _. [] };

    ghost markers_of = { λ _. [] };

    ghost plain = { λ _ part. Some part.0 };

    ghost loaded = { λ _ saved. Some (record { 0 = saved }) };

    fn references(&self, _list: &mut Vec<Entity>) -> Result<(), AllocError> {
        Ok(())
    }

    fn convert_into<N: Names<M>>(&self, _alloc: Global, _names: &N) -> Result<u64, Error> {
        plain_into(&self.0)
    }

    fn convert_from<A: MarkerAllocator<M>>(
        saved: u64,
        _alloc: Global,
        _entities: &mut EntitiesRes,
        _markers: &mut MaskedStorage<M>,
        _allocator: &mut A,
    ) -> Result<Position, Error> {
        Ok(Position(saved))
    }

    ghost named = { λ _ _. (λ _ _ none. absurd none, λ _. refl) };

    ghost stands = { λ _ _ _ _ _ among. absurd among };

    ghost kept = { λ _ _ _ _ _ is. is };

    ghost back = { λ _ _ _ _ _ same. ap (option_map (λ (part : Position). part.0)) (sym same) };
}

/// The values of a world, of one kind each.
#[derive(Drop)]
pub enum Value {
    EntitiesValue(EntitiesRes),
    TableValue(MetaTable),
    PositionValue(MaskedStorage<Position>),
    VelocityValue(MaskedStorage<Velocity>),
    GoalValue(MaskedStorage<Goal>),
    MarkValue(MaskedStorage<SimpleMarker<Settler>>),
    GiverValue(SimpleMarkerAllocator<Settler>),
    AskedValue(LazyUpdate<Settler>),
    SharedValue(SharedLazy<Settler>),
}

impl Resource<Value> for EntitiesRes {
    ghost kind_number = { 0 };

    ghost wrapped = { EntitiesValue };

    ghost part = { elim [
      | EntitiesValue x ↦ Some x
      | TableValue x ↦ None
      | PositionValue x ↦ None
      | VelocityValue x ↦ None
      | GoalValue x ↦ None
      | MarkValue x ↦ None
      | GiverValue x ↦ None
      | AskedValue x ↦ None
      | SharedValue x ↦ None
    ] };

    ghost seen = { λ _. refl };

    ghost only_wrapped = { Prim.search rules };

    fn kind() -> u32 {
        0
    }

    fn wrap(self) -> Value {
        Value::EntitiesValue(self)
    }

    fn unwrap(value: Value) -> Result<Self, Value> {
        match value {
            Value::EntitiesValue(resource) => Ok(resource),
            other => Err(other),
        }
    }

    fn view(value: &Value) -> Option<&Self> {
        match value {
            Value::EntitiesValue(resource) => Some(resource),
            _ => None,
        }
    }

    fn view_mut(value: &mut Value) -> Option<&mut Self> {
        match value {
            Value::EntitiesValue(resource) => Some(resource),
            _ => None,
        }
    }
}

impl Resource<Value> for MetaTable {
    ghost kind_number = { 1 };

    ghost wrapped = { TableValue };

    ghost part = { elim [
      | EntitiesValue x ↦ None
      | TableValue x ↦ Some x
      | PositionValue x ↦ None
      | VelocityValue x ↦ None
      | GoalValue x ↦ None
      | MarkValue x ↦ None
      | GiverValue x ↦ None
      | AskedValue x ↦ None
      | SharedValue x ↦ None
    ] };

    ghost seen = { λ _. refl };

    ghost only_wrapped = { Prim.search rules };

    fn kind() -> u32 {
        1
    }

    fn wrap(self) -> Value {
        Value::TableValue(self)
    }

    fn unwrap(value: Value) -> Result<Self, Value> {
        match value {
            Value::TableValue(resource) => Ok(resource),
            other => Err(other),
        }
    }

    fn view(value: &Value) -> Option<&Self> {
        match value {
            Value::TableValue(resource) => Some(resource),
            _ => None,
        }
    }

    fn view_mut(value: &mut Value) -> Option<&mut Self> {
        match value {
            Value::TableValue(resource) => Some(resource),
            _ => None,
        }
    }
}

impl Resource<Value> for MaskedStorage<Position> {
    ghost kind_number = { 2 };

    ghost wrapped = { PositionValue };

    ghost part = { elim [
      | EntitiesValue x ↦ None
      | TableValue x ↦ None
      | PositionValue x ↦ Some x
      | VelocityValue x ↦ None
      | GoalValue x ↦ None
      | MarkValue x ↦ None
      | GiverValue x ↦ None
      | AskedValue x ↦ None
      | SharedValue x ↦ None
    ] };

    ghost seen = { λ _. refl };

    ghost only_wrapped = { Prim.search rules };

    fn kind() -> u32 {
        2
    }

    fn wrap(self) -> Value {
        Value::PositionValue(self)
    }

    fn unwrap(value: Value) -> Result<Self, Value> {
        match value {
            Value::PositionValue(resource) => Ok(resource),
            other => Err(other),
        }
    }

    fn view(value: &Value) -> Option<&Self> {
        match value {
            Value::PositionValue(resource) => Some(resource),
            _ => None,
        }
    }

    fn view_mut(value: &mut Value) -> Option<&mut Self> {
        match value {
            Value::PositionValue(resource) => Some(resource),
            _ => None,
        }
    }
}

impl Resource<Value> for MaskedStorage<Velocity> {
    ghost kind_number = { 3 };

    ghost wrapped = { VelocityValue };

    ghost part = { elim [
      | EntitiesValue x ↦ None
      | TableValue x ↦ None
      | PositionValue x ↦ None
      | VelocityValue x ↦ Some x
      | GoalValue x ↦ None
      | MarkValue x ↦ None
      | GiverValue x ↦ None
      | AskedValue x ↦ None
      | SharedValue x ↦ None
    ] };

    ghost seen = { λ _. refl };

    ghost only_wrapped = { Prim.search rules };

    fn kind() -> u32 {
        3
    }

    fn wrap(self) -> Value {
        Value::VelocityValue(self)
    }

    fn unwrap(value: Value) -> Result<Self, Value> {
        match value {
            Value::VelocityValue(resource) => Ok(resource),
            other => Err(other),
        }
    }

    fn view(value: &Value) -> Option<&Self> {
        match value {
            Value::VelocityValue(resource) => Some(resource),
            _ => None,
        }
    }

    fn view_mut(value: &mut Value) -> Option<&mut Self> {
        match value {
            Value::VelocityValue(resource) => Some(resource),
            _ => None,
        }
    }
}

impl Resource<Value> for MaskedStorage<Goal> {
    ghost kind_number = { 4 };

    ghost wrapped = { GoalValue };

    ghost part = { elim [
      | EntitiesValue x ↦ None
      | TableValue x ↦ None
      | PositionValue x ↦ None
      | VelocityValue x ↦ None
      | GoalValue x ↦ Some x
      | MarkValue x ↦ None
      | GiverValue x ↦ None
      | AskedValue x ↦ None
      | SharedValue x ↦ None
    ] };

    ghost seen = { λ _. refl };

    ghost only_wrapped = { Prim.search rules };

    fn kind() -> u32 {
        4
    }

    fn wrap(self) -> Value {
        Value::GoalValue(self)
    }

    fn unwrap(value: Value) -> Result<Self, Value> {
        match value {
            Value::GoalValue(resource) => Ok(resource),
            other => Err(other),
        }
    }

    fn view(value: &Value) -> Option<&Self> {
        match value {
            Value::GoalValue(resource) => Some(resource),
            _ => None,
        }
    }

    fn view_mut(value: &mut Value) -> Option<&mut Self> {
        match value {
            Value::GoalValue(resource) => Some(resource),
            _ => None,
        }
    }
}

impl Resource<Value> for MaskedStorage<SimpleMarker<Settler>> {
    ghost kind_number = { 5 };

    ghost wrapped = { MarkValue };

    ghost part = { elim [
      | EntitiesValue x ↦ None
      | TableValue x ↦ None
      | PositionValue x ↦ None
      | VelocityValue x ↦ None
      | GoalValue x ↦ None
      | MarkValue x ↦ Some x
      | GiverValue x ↦ None
      | AskedValue x ↦ None
      | SharedValue x ↦ None
    ] };

    ghost seen = { λ _. refl };

    ghost only_wrapped = { Prim.search rules };

    fn kind() -> u32 {
        5
    }

    fn wrap(self) -> Value {
        Value::MarkValue(self)
    }

    fn unwrap(value: Value) -> Result<Self, Value> {
        match value {
            Value::MarkValue(resource) => Ok(resource),
            other => Err(other),
        }
    }

    fn view(value: &Value) -> Option<&Self> {
        match value {
            Value::MarkValue(resource) => Some(resource),
            _ => None,
        }
    }

    fn view_mut(value: &mut Value) -> Option<&mut Self> {
        match value {
            Value::MarkValue(resource) => Some(resource),
            _ => None,
        }
    }
}

impl Resource<Value> for SimpleMarkerAllocator<Settler> {
    ghost kind_number = { 6 };

    ghost wrapped = { GiverValue };

    ghost part = { elim [
      | EntitiesValue x ↦ None
      | TableValue x ↦ None
      | PositionValue x ↦ None
      | VelocityValue x ↦ None
      | GoalValue x ↦ None
      | MarkValue x ↦ None
      | GiverValue x ↦ Some x
      | AskedValue x ↦ None
      | SharedValue x ↦ None
    ] };

    ghost seen = { λ _. refl };

    ghost only_wrapped = { Prim.search rules };

    fn kind() -> u32 {
        6
    }

    fn wrap(self) -> Value {
        Value::GiverValue(self)
    }

    fn unwrap(value: Value) -> Result<Self, Value> {
        match value {
            Value::GiverValue(resource) => Ok(resource),
            other => Err(other),
        }
    }

    fn view(value: &Value) -> Option<&Self> {
        match value {
            Value::GiverValue(resource) => Some(resource),
            _ => None,
        }
    }

    fn view_mut(value: &mut Value) -> Option<&mut Self> {
        match value {
            Value::GiverValue(resource) => Some(resource),
            _ => None,
        }
    }
}

impl Resource<Value> for LazyUpdate<Settler> {
    ghost kind_number = { 7 };

    ghost wrapped = { AskedValue };

    ghost part = { elim [
      | EntitiesValue x ↦ None
      | TableValue x ↦ None
      | PositionValue x ↦ None
      | VelocityValue x ↦ None
      | GoalValue x ↦ None
      | MarkValue x ↦ None
      | GiverValue x ↦ None
      | AskedValue x ↦ Some x
      | SharedValue x ↦ None
    ] };

    ghost seen = { λ _. refl };

    ghost only_wrapped = { Prim.search rules };

    fn kind() -> u32 {
        7
    }

    fn wrap(self) -> Value {
        Value::AskedValue(self)
    }

    fn unwrap(value: Value) -> Result<Self, Value> {
        match value {
            Value::AskedValue(resource) => Ok(resource),
            other => Err(other),
        }
    }

    fn view(value: &Value) -> Option<&Self> {
        match value {
            Value::AskedValue(resource) => Some(resource),
            _ => None,
        }
    }

    fn view_mut(value: &mut Value) -> Option<&mut Self> {
        match value {
            Value::AskedValue(resource) => Some(resource),
            _ => None,
        }
    }
}

impl Resource<Value> for SharedLazy<Settler> {
    ghost kind_number = { 8 };

    ghost wrapped = { SharedValue };

    ghost part = { elim [
      | EntitiesValue x ↦ None
      | TableValue x ↦ None
      | PositionValue x ↦ None
      | VelocityValue x ↦ None
      | GoalValue x ↦ None
      | MarkValue x ↦ None
      | GiverValue x ↦ None
      | AskedValue x ↦ None
      | SharedValue x ↦ Some x
    ] };

    ghost seen = { λ _. refl };

    ghost only_wrapped = { Prim.search rules };

    fn kind() -> u32 {
        8
    }

    fn wrap(self) -> Value {
        Value::SharedValue(self)
    }

    fn unwrap(value: Value) -> Result<Self, Value> {
        match value {
            Value::SharedValue(resource) => Ok(resource),
            other => Err(other),
        }
    }

    fn view(value: &Value) -> Option<&Self> {
        match value {
            Value::SharedValue(resource) => Some(resource),
            _ => None,
        }
    }

    fn view_mut(value: &mut Value) -> Option<&mut Self> {
        match value {
            Value::SharedValue(resource) => Some(resource),
            _ => None,
        }
    }
}

impl AnyStorage for Value {
    ghost has_part = { value_has_part
        ⟦<MaskedStorage<Position> as AnyStorage>⟧.has_part
        ⟦<MaskedStorage<Velocity> as AnyStorage>⟧.has_part
        ⟦<MaskedStorage<Goal> as AnyStorage>⟧.has_part
        ⟦<MaskedStorage<SimpleMarker<Settler>> as AnyStorage>⟧.has_part };

    ghost has_room = { value_has_room
        ⟦<MaskedStorage<Position> as AnyStorage>⟧.has_room
        ⟦<MaskedStorage<Velocity> as AnyStorage>⟧.has_room
        ⟦<MaskedStorage<Goal> as AnyStorage>⟧.has_room
        ⟦<MaskedStorage<SimpleMarker<Settler>> as AnyStorage>⟧.has_room };

    ghost drops = { value_drops
        ⟦<MaskedStorage<Position> as AnyStorage>⟧.drops
        ⟦<MaskedStorage<Velocity> as AnyStorage>⟧.drops
        ⟦<MaskedStorage<Goal> as AnyStorage>⟧.drops
        ⟦<MaskedStorage<SimpleMarker<Settler>> as AnyStorage>⟧.drops };

    ghost drops_parts = { value-parts
        ⟦<MaskedStorage<Position> as AnyStorage>⟧.has_part
        ⟦<MaskedStorage<Velocity> as AnyStorage>⟧.has_part
        ⟦<MaskedStorage<Goal> as AnyStorage>⟧.has_part
        ⟦<MaskedStorage<SimpleMarker<Settler>> as AnyStorage>⟧.has_part
        ⟦<MaskedStorage<Position> as AnyStorage>⟧.drops
        ⟦<MaskedStorage<Velocity> as AnyStorage>⟧.drops
        ⟦<MaskedStorage<Goal> as AnyStorage>⟧.drops
        ⟦<MaskedStorage<SimpleMarker<Settler>> as AnyStorage>⟧.drops
        (λ _ _ indices dropped. dropped-parts _ _ indices dropped.parts)
        (λ _ _ indices dropped. dropped-parts _ _ indices dropped.parts)
        (λ _ _ indices dropped. dropped-parts _ _ indices dropped.parts)
        (λ _ _ indices dropped. dropped-parts _ _ indices dropped.parts) };

    ghost drops_none = { value-none
        ⟦<MaskedStorage<Position> as AnyStorage>⟧.drops
        ⟦<MaskedStorage<Velocity> as AnyStorage>⟧.drops
        ⟦<MaskedStorage<Goal> as AnyStorage>⟧.drops
        ⟦<MaskedStorage<SimpleMarker<Settler>> as AnyStorage>⟧.drops
        (λ _. drops-none _ _ _)
        (λ _. drops-none _ _ _)
        (λ _. drops-none _ _ _)
        (λ _. drops-none _ _ _) };

    ghost drops_append = { value-append
        ⟦<MaskedStorage<Position> as AnyStorage>⟧.drops
        ⟦<MaskedStorage<Velocity> as AnyStorage>⟧.drops
        ⟦<MaskedStorage<Goal> as AnyStorage>⟧.drops
        ⟦<MaskedStorage<SimpleMarker<Settler>> as AnyStorage>⟧.drops
        (λ _ _ _ indices others one other.
        drops-append _ _ _ _ _ _ _ _ _ indices others one other)
        (λ _ _ _ indices others one other.
        drops-append _ _ _ _ _ _ _ _ _ indices others one other)
        (λ _ _ _ indices others one other.
        drops-append _ _ _ _ _ _ _ _ _ indices others one other)
        (λ _ _ _ indices others one other.
        drops-append _ _ _ _ _ _ _ _ _ indices others one other) };

    fn drop(&mut self, entities: &[Entity]) -> Result<(), AllocError> {
        match self {
            Value::EntitiesValue(_) => Ok(()),
            Value::TableValue(_) => Ok(()),
            Value::PositionValue(storage) => AnyStorage::drop(storage, entities),
            Value::VelocityValue(storage) => AnyStorage::drop(storage, entities),
            Value::GoalValue(storage) => AnyStorage::drop(storage, entities),
            Value::MarkValue(storage) => AnyStorage::drop(storage, entities),
            Value::GiverValue(_) => Ok(()),
            Value::AskedValue(_) => Ok(()),
            Value::SharedValue(_) => Ok(()),
        }
    }

    fn make_room(&mut self, count: usize) -> Result<(), AllocError> {
        match self {
            Value::EntitiesValue(_) => Ok(()),
            Value::TableValue(_) => Ok(()),
            Value::PositionValue(storage) => AnyStorage::make_room(storage, count),
            Value::VelocityValue(storage) => AnyStorage::make_room(storage, count),
            Value::GoalValue(storage) => AnyStorage::make_room(storage, count),
            Value::MarkValue(storage) => AnyStorage::make_room(storage, count),
            Value::GiverValue(_) => Ok(()),
            Value::AskedValue(_) => Ok(()),
            Value::SharedValue(_) => Ok(()),
        }
    }
}

impl Registrable<Value> for Position {
    ghost parts_within = { λ _ _. refl };

    ghost drops_within = { λ _ _ _ dropped. dropped };
}

impl Registrable<Value> for Velocity {
    ghost parts_within = { λ _ _. refl };

    ghost drops_within = { λ _ _ _ dropped. dropped };
}

impl Registrable<Value> for Goal {
    ghost parts_within = { λ _ _. refl };

    ghost drops_within = { λ _ _ _ dropped. dropped };
}

impl Registrable<Value> for SimpleMarker<Settler> {
    ghost parts_within = { λ _ _. refl };

    ghost drops_within = { λ _ _ _ dropped. dropped };
}
