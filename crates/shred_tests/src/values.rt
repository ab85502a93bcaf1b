//! The values of the tests: numbers of three kinds, and a value of none of them.
ghost use Rattle.std.specs.Prelude.{◌≡◌, Some, None, refl};
ghost use Rattle.std.proofs.Common.{rules};
ghost use Rattle.shred_world.specs.ResourceIds.{id_of};
ghost use Rattle.shred_tests.specs.declared.values.Value.TheVariants.{NumberValue, SpeedValue, ScoreValue, Idle};
ghost use Rattle.shred_tests.specs.Values.{count_of, raised_by};

use shred_world::{Holder, Resource, ResourceId, World};
use std::alloc::{AllocError, Global};

/// A number.
#[derive(Clone, Copy, Default)]
pub struct Number(pub u64);

/// Steps a turn.
#[derive(Clone, Copy, Default)]
pub struct Speed(pub u64);

/// Points won.
#[derive(Clone, Copy, Default)]
pub struct Score(pub u64);

/// What the worlds of the tests hold.
#[derive(Clone, Copy)]
pub enum Value {
    NumberValue(Number),
    SpeedValue(Speed),
    ScoreValue(Score),
    Idle,
}

impl Resource<Value> for Number {
    ghost kind_number = { 1 };

    ghost wrapped = { NumberValue };

    ghost part = { elim [ NumberValue x ↦ Some x | SpeedValue x ↦ None | ScoreValue x ↦ None | Idle ↦ None ] };

    ghost seen = { λ _. refl };

    ghost only_wrapped = { Prim.search rules };

    fn kind() -> u32 {
        1
    }

    fn wrap(self) -> Value {
        Value::NumberValue(self)
    }

    fn unwrap(value: Value) -> Result<Self, Value> {
        match value {
            Value::NumberValue(number) => Ok(number),
            other => Err(other),
        }
    }

    fn view(value: &Value) -> Option<&Self> {
        match value {
            Value::NumberValue(number) => Some(number),
            _ => None,
        }
    }

    fn view_mut(value: &mut Value) -> Option<&mut Self> {
        match value {
            Value::NumberValue(number) => Some(number),
            _ => None,
        }
    }
}

impl Resource<Value> for Speed {
    ghost kind_number = { 2 };

    ghost wrapped = { SpeedValue };

    ghost part = { elim [ NumberValue x ↦ None | SpeedValue x ↦ Some x | ScoreValue x ↦ None | Idle ↦ None ] };

    ghost seen = { λ _. refl };

    ghost only_wrapped = { Prim.search rules };

    fn kind() -> u32 {
        2
    }

    fn wrap(self) -> Value {
        Value::SpeedValue(self)
    }

    fn unwrap(value: Value) -> Result<Self, Value> {
        match value {
            Value::SpeedValue(speed) => Ok(speed),
            other => Err(other),
        }
    }

    fn view(value: &Value) -> Option<&Self> {
        match value {
            Value::SpeedValue(speed) => Some(speed),
            _ => None,
        }
    }

    fn view_mut(value: &mut Value) -> Option<&mut Self> {
        match value {
            Value::SpeedValue(speed) => Some(speed),
            _ => None,
        }
    }
}

impl Resource<Value> for Score {
    ghost kind_number = { 3 };

    ghost wrapped = { ScoreValue };

    ghost part = { elim [ NumberValue x ↦ None | SpeedValue x ↦ None | ScoreValue x ↦ Some x | Idle ↦ None ] };

    ghost seen = { λ _. refl };

    ghost only_wrapped = { Prim.search rules };

    fn kind() -> u32 {
        3
    }

    fn wrap(self) -> Value {
        Value::ScoreValue(self)
    }

    fn unwrap(value: Value) -> Result<Self, Value> {
        match value {
            Value::ScoreValue(score) => Ok(score),
            other => Err(other),
        }
    }

    fn view(value: &Value) -> Option<&Self> {
        match value {
            Value::ScoreValue(score) => Some(score),
            _ => None,
        }
    }

    fn view_mut(value: &mut Value) -> Option<&mut Self> {
        match value {
            Value::ScoreValue(score) => Some(score),
            _ => None,
        }
    }
}

/// What a value counts, of whatever kind it is.
pub(crate) fn count_in(value: &Value) -> u64
    ensures { result ≡ count_of value.now }
{
    match value {
        Value::NumberValue(Number(count)) => *count,
        Value::SpeedValue(Speed(count)) => *count,
        Value::ScoreValue(Score(count)) => *count,
        Value::Idle => 0,
    }
}

/// The value, raised by an amount.
pub(crate) fn raised(value: Value, amount: u64) -> Value
    ensures { result ≡ raised_by value amount }
{
    match value {
        Value::NumberValue(Number(count)) => Value::NumberValue(Number(count.wrapping_add(amount))),
        Value::SpeedValue(Speed(count)) => Value::SpeedValue(Speed(count.wrapping_add(amount))),
        Value::ScoreValue(Score(count)) => Value::ScoreValue(Score(count.wrapping_add(amount))),
        Value::Idle => Value::Idle,
    }
}

/// The id of a number under a dynamic number.
pub(crate) fn number_under(dynamic: u64) -> ResourceId
    ensures { result ≡ id_of 1 dynamic }
{
    ResourceId::new_with_dynamic_id::<Value, Number>(dynamic)
}

/// The count under an id, where a value stands there.
fn count_under(world: &World<Value>, id: ResourceId) -> Option<u64> {
    Some(count_in(world.get_raw(id)?))
}

/// The counts of a number, a speed and a score, where they stand.
pub(crate) type Kinds = (Option<u64>, Option<u64>, Option<u64>);

/// The counts of a world's number, speed and score.
pub(crate) fn kinds_in(world: &World<Value>) -> Kinds {
    (
        count_under(world, ResourceId::new::<Value, Number>()),
        count_under(world, ResourceId::new::<Value, Speed>()),
        count_under(world, ResourceId::new::<Value, Score>()),
    )
}

/// Puts a number, a speed and a score in, where their counts are given.
pub(crate) fn put_kinds(world: &mut World<Value>, kinds: Kinds) -> Result<(), AllocError> {
    let (number, speed, score) = kinds;
    if let Some(count) = number {
        world.insert(Number(count))?;
    }
    if let Some(count) = speed {
        world.insert(Speed(count))?;
    }
    if let Some(count) = score {
        world.insert(Score(count))?;
    }
    Ok(())
}

/// Puts a number in under a dynamic number, and tells whether there was memory.
pub(crate) fn put_number(world: &mut World<Value>, dynamic: u64, count: u64) -> bool {
    world
        .insert_by_id(number_under(dynamic), Number(count))
        .is_ok()
}
