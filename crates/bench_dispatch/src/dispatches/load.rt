//! The systems that are measured, and what they work on.
ghost use Rattle.std.specs.Prelude.{◌≡◌, [], ◌∷◌, Some, refl};
ghost use Rattle.std.proofs.Common.{rules};
ghost use Rattle.bench_dispatch.specs.declared.dispatches.load.Value.TheVariants.{NumberValue};
ghost use Rattle.shred_stages.specs.Views.{Leaves};
ghost use Rattle.shred_plan.specs.Plan.{units_of};

use shred::{BatchAccessor, Holder, Resource, ResourceId, RunningTime, Stop, System, World};
use std::alloc::{AllocError, Global};

/// A number.
#[derive(Debug, PartialEq, Eq, Clone, Copy)]
pub(crate) struct Number(pub(crate) u64);

/// What the world holds.
#[derive(Debug, PartialEq, Eq, Clone, Copy)]
pub(crate) enum Value {
    NumberValue(Number),
}

impl Resource<Value> for Number {
    ghost kind_number = { 1 };

    ghost wrapped = { NumberValue };

    ghost part = { elim [ NumberValue x ↦ Some x ] };

    ghost seen = { λ x. refl };

    ghost only_wrapped = { Prim.search rules };

    fn kind() -> u32 {
        1
    }

    fn wrap(self) -> Value {
        Value::NumberValue(self)
    }

    fn unwrap(value: Value) -> Result<Self, Value> {
        match value {
            Value::NumberValue(number) => Ok(number),
        }
    }

    fn view(value: &Value) -> Option<&Self> {
        match value {
            Value::NumberValue(number) => Some(number),
        }
    }

    fn view_mut(value: &mut Value) -> Option<&mut Self> {
        match value {
            Value::NumberValue(number) => Some(number),
        }
    }
}

/// Makes 31 times a number and an amount of it, so that the order of two shows, for a number of rounds.
#[derive(Clone, Copy, Debug)]
pub(crate) struct Mixer {
    pub(crate) id: ResourceId,
    pub(crate) amount: u64,
    pub(crate) time: RunningTime,
    pub(crate) rounds: u32,
}

/// 31 times the number and the amount, which go round at 2 ^ 64.
pub(crate) fn mixed(number: u64, amount: u64) -> u64 {
    number.wrapping_mul(31).wrapping_add(amount)
}

/// The number, so many times mixed with the amount.
fn mixed_often(number: u64, amount: u64, rounds: u32) -> u64 {
    let mut number = number;
    for _ in 0..rounds {
        number = mixed(number, amount);
    }
    number
}

fn mixed_value(value: Value, amount: u64, rounds: u32) -> Value {
    match value {
        Value::NumberValue(Number(number)) => {
            Value::NumberValue(Number(mixed_often(number, amount, rounds)))
        }
    }
}

impl System<Value> for Mixer {
    ghost meets = { λ _ _ _ _ _. Unit {0} };

    ghost read_list = { λ _. [] };

    ghost write_list = { λ mixer. mixer.id ∷ [] };

    ghost said_time = { λ mixer. units_of mixer.time };

    ghost sets_up = { λ _ _ _ _ _. Unit {0} };

    ghost disposes = { λ _ _ _ _. Unit {0} };

    fn run<H: AllocGlobal, W: Holder<Value>>(&mut self, _rt: &H, view: &mut W) -> Result<(), Stop> {
        match view.take(self.id) {
            Some(value) => {
                view.put(self.id, mixed_value(value, self.amount, self.rounds));
                Ok(())
            }
            None => Err(Stop::Full),
        }
    }

    fn running_time(&self) -> RunningTime {
        self.time
    }

    fn accessor(&self, alloc: Global) -> Result<BatchAccessor, AllocError> {
        let writes = Vec::from_slice(alloc, &[self.id])?;
        Ok(BatchAccessor::new(Vec::new(alloc), writes))
    }

    fn setup(&mut self, _world: &mut World<Value>) -> Result<(), AllocError> {
        Ok(())
    }

    fn dispose(self, _world: &mut World<Value>) -> Result<(), Stop> {
        Ok(())
    }
}
