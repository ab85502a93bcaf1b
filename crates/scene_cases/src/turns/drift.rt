//! Drift: each position gains the velocity of its entity.
ghost use Rattle.std.specs.Prelude.{◌≡◌, OnOk, IfErr};
ghost use Rattle.shred_world.specs.Leaving.{Leaves};
ghost use Rattle.shred_stages.specs.declared.stop.Stop.TheVariants as stop;
ghost use Rattle.scene_cases.specs.Drifts.{Moves};

use crate::turns::values::{Position, Value, Velocity};
use shred_stages::Stop;
use shred_world::{Holder, ReadExpect, SystemData, WriteExpect};
use specs_join::{Change, change_each};
use specs_layouts::MaskedStorage;

/// Adds a velocity to a position; a sum goes round at 2 ^ 64.
pub struct Moving;

impl<'a> Change<Position, &'a MaskedStorage<Velocity>> for Moving {
    ghost use Rattle.scene_cases.specs.Drifts.{moved};

    type Refusal = ();

    ghost changed = { λ _ position velocity. moved position velocity };

    fn change(&self, position: &mut Position, velocity: &'a Velocity) -> Result<(), ()> {
        position.0 = position.0.wrapping_add(velocity.0);
        Ok(())
    }
}

/// What drift fetches.
pub type Drifters = (
    ReadExpect<MaskedStorage<Velocity>>,
    WriteExpect<MaskedStorage<Position>>,
);

/// Adds its velocity to each position.
///
/// Errors: `Memory`, where a storage or memory is wanting.
pub fn drift_all<H: Holder<Value>>(holder: &mut H) -> Result<(), Stop>
    ensures moves { OnOk result (Moves (H.slots holder.old) (H.slots holder.new)) }
    ensures refused { IfErr result (λ why. why ≡ stop.Memory) }
    ensures leaves { Leaves (H.slots holder.old) (H.slots holder.new) }
{
    let Ok((velocities, mut positions)) = <Drifters as SystemData<Value>>::fetch(holder) else {
        return Err(Stop::Memory);
    };
    let outcome = change_each(&mut positions.value, velocities.get(holder), &Moving);
    SystemData::give_back((velocities, positions), holder);
    match outcome {
        Ok(()) => Ok(()),
        Err(_) => Err(Stop::Memory),
    }
}
