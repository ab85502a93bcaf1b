//! Setting up systems that are staged, and letting them go.
ghost use Rattle.std.specs.Prelude.{◌≡◌, ◌≤◌, length, map, is_ok};
ghost use Rattle.std.specs.Option.{option_map};
ghost use Rattle.shred_stages.specs.Views.{error_of};
ghost use Rattle.shred_stages.specs.Setups.{SetsUpEach, DisposesEach};
ghost use Rattle.shred_stages.specs.Seats.{refusal_of, stop_of, SeatsKept, systems_of};

use crate::run::{Refusal, first_of};
use crate::turn::Staged;
use crate::{System, SystemId};
use shred_world::World;
use std::alloc::AllocError;

/// Sets some systems up, one after the other, up to the first that finds no memory.
pub(crate) fn set_up_each<V, S: System<V>>(
    staged: &mut [Staged<V, S>],
    world: &mut World<V>,
) -> Result<(), AllocError>
    ensures sets_up { SetsUpEach S.sets_up (systems_of staged.old) (is_ok result) world.old
        (systems_of staged.new) world.new }
    ensures seats { map (λ one. one.seat) staged.new ≡ map (λ one. one.seat) staged.old }
{
    match staged {
        [] => Ok(()),
        [one] => one.system.setup(world),
        _ => {
            let middle = staged.len() / 2;
            let (first, others) = staged.split_at_mut(middle);
            match set_up_each(first, world) {
                Ok(()) => set_up_each(others, world),
                Err(error) => Err(error),
            }
        }
    }
}

/// Sets the staged systems up, one after the other, up to the first that finds no memory; each keeps its seat.
pub(crate) fn set_up_staged<V, S: System<V>>(
    staged: &mut [Staged<V, S>],
    world: &mut World<V>,
) -> Result<(), AllocError>
    ensures sets_up { SetsUpEach S.sets_up (systems_of staged.old) (is_ok result) world.old
        (systems_of staged.new) world.new }
    ensures seats { SeatsKept staged.old staged.new }
{
    set_up_each(staged, world)
}

/// Lets a system go.
fn dispose_one<V, S: System<V>>(system: S, number: u32, world: &mut World<V>) -> Result<(), Refusal>
    ensures disposes { S.disposes system (stop_of result) world.old world.new }
    ensures number { refusal_of result ≡ option_map (λ why. (number, why)) (stop_of result) }
{
    match system.dispose(world) {
        Ok(()) => Ok(()),
        Err(stop) => Err(Refusal {
            system: SystemId(number),
            stop,
        }),
    }
}

/// Lets the staged systems go, each in its turn, and tells the first that refuses.
pub(crate) fn dispose_staged<V: Drop, S: System<V> + Drop>(
    staged: Vec<Staged<V, S>>,
    world: &mut World<V>,
) -> Result<(), Refusal>
    requires few { length staged.items ≤ 65536 }
    ensures { DisposesEach S.disposes 0 (systems_of staged.items) (refusal_of result) world.old world.new }
{
    let mut outcome = Ok(());
    let mut number = 0;
    let mut rest = staged.into_iter();
    while let Some(Staged { system, seat: _ }) = rest.next() {
        outcome = first_of(outcome, dispose_one(system, number, world));
        number += 1;
    }
    outcome
}
