//! Movement: each position gains the velocity of its entity.
ghost use Rattle.std.specs.Prelude.{◌≡◌};
ghost use Rattle.specs.specs.ForWorlds.{Leaves};
ghost use Rattle.specs.specs.ForSystems.{error_of};
ghost use Rattle.simulation.specs.Steps.{Accepted, Moves};

use crate::parts::{Position, Velocity};
use crate::values::Value;
use specs::{
    Change, Holder, MaskedStorage, ReadStorage, Stop, SystemData, WriteStorage, change_each,
};

/// Adds a velocity to a position; a sum goes round at 2 ^ 64.
pub struct Moving;

impl<'a> Change<Position, &'a MaskedStorage<Velocity>> for Moving {
    ghost use Rattle.simulation.specs.Steps.{moved};

    type Refusal = ();

    ghost changed = { λ _ position velocity. moved position velocity };

    fn change(&self, position: &mut Position, velocity: &'a Velocity) -> Result<(), ()> {
        position.0 = position.0.wrapping_add(velocity.0);
        Ok(())
    }
}

/// What movement fetches.
pub type Movable = (ReadStorage<Velocity>, WriteStorage<Position>);

/// Adds its velocity to each position.
///
/// Errors: `Full`, where a storage is wanting.
pub fn move_all<H: Holder<Value>>(holder: &mut H) -> Result<(), Stop>
    ensures moves { Accepted Moves (H.slots holder.old) (error_of result) (H.slots holder.new) }
    ensures leaves { Leaves (H.slots holder.old) (H.slots holder.new) }
{
    let Ok((velocities, mut positions)) = <Movable as SystemData<Value>>::fetch(holder) else {
        return Err(Stop::Full);
    };
    let outcome = change_each(&mut positions.parts.value, velocities.get(holder), &Moving);
    SystemData::give_back((velocities, positions), holder);
    match outcome {
        Ok(()) => Ok(()),
        Err(_) => Err(Stop::Full),
    }
}
