//! How a colony grows: its system holds a seat of the phase as a written resource under a number of its own.
ghost use Rattle.std.specs.Prelude.{◌≡◌, ◌∷◌, [], OnOk, IfOk};
ghost use Rattle.specs.specs.ForWorlds.{Leaves};
ghost use Rattle.specs.specs.ForSystems.{error_of};
ghost use Rattle.specs.specs.ForSeats.{StaysIn};
ghost use Rattle.simulation.specs.Colonies.{HasGrown, Grows, seat_id};
ghost use Rattle.simulation.specs.Steps.{Accepted};

use crate::colonies::values::Held;
use specs::{BatchAccessor, Holder, PhaseSeat, ResourceId, RunningTime, Stop, System, World};
use std::alloc::{AllocError, Global};

/// Where the seat of a colony stands.
pub fn seat_of(colony: u64) -> ResourceId
    ensures { result ≡ seat_id colony }
{
    ResourceId::new_with_dynamic_id::<Held, PhaseSeat>(colony)
}

/// Two entities are created, and the first of them is to die.
///
/// Errors: `Full`, where the seat's allowance is spent.
pub fn grow(seat: &mut PhaseSeat) -> Result<(), Stop>
    ensures phase { StaysIn seat.old seat.new }
    ensures grown { OnOk result (HasGrown seat.old seat.new) }
{
    let (Ok(first), Ok(_second)) = (seat.create(), seat.create()) else {
        return Err(Stop::Full);
    };
    match seat.delete(first) {
        Ok(()) => Ok(()),
        Err(_) => Err(Stop::Full),
    }
}

/// A colony grows by the seat that stands under its number.
///
/// Errors: `Full`, where there is none, or its allowance is spent.
pub fn grow_in<H: Holder<Held>>(holder: &mut H, colony: u64) -> Result<(), Stop>
    ensures grows { Accepted (Grows colony) (H.slots holder.old) (error_of result) (H.slots holder.new) }
    ensures leaves { Leaves (H.slots holder.old) (H.slots holder.new) }
{
    let Some(value) = holder.take(seat_of(colony)) else {
        return Err(Stop::Full);
    };
    match value {
        Held::SeatHeld(mut seat) => {
            let outcome = grow(&mut seat);
            holder.put(seat_of(colony), Held::SeatHeld(seat));
            outcome
        }
        other => {
            holder.put(seat_of(colony), other);
            Err(Stop::Full)
        }
    }
}

/// The system of a colony.
#[derive(Clone, Copy)]
pub struct Growth {
    pub colony: u64,
}

impl System<Held> for Growth {
    ghost use Rattle.std.specs.Prelude.{◌∷◌, []};
    ghost use Rattle.simulation.specs.Colonies.{GrowthMeets, seat_id};

    ghost meets = { GrowthMeets };

    ghost read_list = { λ _. [] };

    ghost write_list = { λ growth. seat_id growth.colony ∷ [] };

    ghost said_time = { λ _. 3 };

    ghost sets_up = { λ _ _ _ _ _. Unit {0} };

    ghost disposes = { λ _ _ _ _. Unit {0} };

    fn run<H: AllocGlobal, W: Holder<Held>>(&mut self, _rt: &H, view: &mut W) -> Result<(), Stop> {
        grow_in(view, self.colony)
    }

    fn running_time(&self) -> RunningTime {
        RunningTime::Average
    }

    fn accessor(&self, alloc: Global) -> Result<BatchAccessor, AllocError> {
        let mut writes = Vec::with_capacity(alloc, 1)?;
        writes.push(seat_of(self.colony))?;
        Ok(BatchAccessor::new(Vec::new(alloc), writes))
    }

    fn setup(&mut self, _world: &mut World<Held>) -> Result<(), AllocError> {
        Ok(())
    }

    fn dispose(self, _world: &mut World<Held>) -> Result<(), Stop> {
        Ok(())
    }
}
