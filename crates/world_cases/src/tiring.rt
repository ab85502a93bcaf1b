//! A system over the storages of a world, by its bundles alone.
ghost use Rattle.std.specs.Prelude.{◌≡◌, OnOk};
ghost use Rattle.shred_world.specs.Leaving.{Leaves};
ghost use Rattle.world_cases.specs.Tiring.{Tires, tired};

use crate::values::{Health, Speed, Value};
use shred_world::{Holder, SystemData};
use specs_join::{Change, change_each};
use specs_layouts::MaskedStorage;
use specs_world::{ReadStorage, WriteStorage};

/// Takes its speed from a health.
pub struct Tiring;

/// A health that is less than a speed.
#[derive(Clone, Copy, Debug, PartialEq, Eq)]
pub struct TooTired;

impl<'a> Change<Health, &'a MaskedStorage<Speed>> for Tiring {
    ghost use Rattle.world_cases.specs.Tiring.{tired};

    type Refusal = TooTired;

    ghost changed = { λ _ health speed. tired health speed };

    fn change(&self, health: &mut Health, speed: &'a Speed) -> Result<(), TooTired> {
        match health.0.checked_sub(speed.0) {
            Some(left) => {
                health.0 = left;
                Ok(())
            }
            None => Err(TooTired),
        }
    }
}

/// What a step of tiring fetches.
type Tired = (ReadStorage<Speed>, WriteStorage<Health>);

/// Takes from each health the speed at its index, in a world or in a view of one.
///
/// Errors: `TooTired`, where a storage is wanting, and nothing changed; or where a health is less than its speed, and those at lesser
/// indices have lost theirs.
pub fn tire<H: Holder<Value>>(holder: &mut H) -> Result<(), TooTired>
    ensures tires { OnOk result (Tires (H.slots holder.old) (H.slots holder.new)) }
    ensures leaves { Leaves (H.slots holder.old) (H.slots holder.new) }
{
    let Ok((speeds, mut healths)) = <Tired as SystemData<Value>>::fetch(holder) else {
        return Err(TooTired);
    };
    let outcome = change_each(&mut healths.parts.value, speeds.get(holder), &Tiring);
    SystemData::give_back((speeds, healths), holder);
    match outcome {
        Ok(()) => Ok(()),
        Err(_) => Err(TooTired),
    }
}
