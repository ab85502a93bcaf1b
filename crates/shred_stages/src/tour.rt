//! A run of stages while workers stand by.
ghost use Rattle.std.specs.Prelude.{◌≡◌, length};
ghost use Rattle.std.specs.List.{All};
ghost use Rattle.shred_world.specs.Bundles.{holding_of};
ghost use Rattle.shred_stages.specs.Runs.{StagesRun};
ghost use Rattle.shred_stages.specs.Seats.{StagesAreSeated, SeatsKept, state_of, refusal_of};
ghost use Rattle.shred_stages.specs.Away.{systems_in, AreIn};
ghost use Rattle.shred_stages.specs.Free.{AreFree};

use crate::System;
use crate::berth::{Berth, run_berth};
use crate::pack::Pack;
use crate::run::Refusal;
use crate::turn::Staged;
use shred_crew::{Crew, Shift};
use shred_world::World;
use std::marker::Model;
use std::mem;
use std::sync::Wait;

/// Runs some stages, one after the other, up to the first in which a system refuses; the world comes back.
fn run_berths<V: Drop, S: System<V> + Drop, R: AllocGlobal + Wait>(
    rt: &R,
    crew: &mut Crew<World<V>, Pack<V, S>>,
    world: World<V>,
    slots: &mut Vec<Option<Staged<V, S>>>,
    berths: &mut [Berth<V, S>],
) -> (Result<(), Refusal>, World<V>)
    requires free { All AreFree berths.old }
    requires there { AreIn slots.old.items }
    requires seated { StagesAreSeated berths.old (systems_in slots.old.items) }
    ensures runs { StagesRun S.meets berths.old (state_of (systems_in slots.old.items) (holding_of world))
        (refusal_of result.0) (state_of (systems_in slots.new.items) (holding_of result.1)) }
    ensures there { AreIn slots.new.items }
    ensures seats { SeatsKept (systems_in slots.old.items) (systems_in slots.new.items) }
    ensures count { length (systems_in slots.new.items) ≡ length (systems_in slots.old.items) }
    ensures berths { berths.new ≡ berths.old }
{
    let mut world = world;
    for index in 0..berths.len() {
        let (told, back) = run_berth(rt, crew, world, slots, &mut berths[index]);
        world = back;
        if let Err(refusal) = told {
            return (Err(refusal), world);
        }
    }
    (Ok(()), world)
}

/// Runs a list of stages, as `run_berths` does.
fn run_berth_list<V: Drop, S: System<V> + Drop, R: AllocGlobal + Wait>(
    rt: &R,
    crew: &mut Crew<World<V>, Pack<V, S>>,
    world: World<V>,
    slots: &mut Vec<Option<Staged<V, S>>>,
    berths: &mut Vec<Berth<V, S>>,
) -> (Result<(), Refusal>, World<V>)
    requires free { All AreFree berths.old.items }
    requires there { AreIn slots.old.items }
    requires seated { StagesAreSeated berths.old.items (systems_in slots.old.items) }
    ensures runs { StagesRun S.meets berths.old.items (state_of (systems_in slots.old.items) (holding_of world))
        (refusal_of result.0) (state_of (systems_in slots.new.items) (holding_of result.1)) }
    ensures there { AreIn slots.new.items }
    ensures seats { SeatsKept (systems_in slots.old.items) (systems_in slots.new.items) }
    ensures count { length (systems_in slots.new.items) ≡ length (systems_in slots.old.items) }
    ensures berths { berths.new.items ≡ berths.old.items }
{
    run_berths(rt, crew, world, slots, berths.as_mut_slice())
}

/// A run of stages of systems over a world, and how it ended.
#[derive(Drop)]
pub(crate) struct Tour<V, S> {
    pub(crate) world: World<V>,
    pub(crate) slots: Vec<Option<Staged<V, S>>>,
    pub(crate) berths: Vec<Berth<V, S>>,
    pub(crate) outcome: Result<(), Refusal>,
}

impl<V, S> Model for Tour<V, S> {
    ghost use Rattle.std.specs.Coded.{codes, coded_option};
    ghost use Rattle.std.specs.FinMap as map;
    ghost use Rattle.std.specs.List.{All};
    ghost use Rattle.shred_world.specs.ResourceIds.{id_cmp, coded_id};
    ghost use Rattle.shred_stages.specs.Seats.{StagesAreSeated, refusal_of};
    ghost use Rattle.shred_stages.specs.Away.{systems_in, AreIn};
    ghost use Rattle.shred_stages.specs.Free.{AreFree};
    ghost use Rattle.shred_stages.specs.Touring.{Touring};

    ghost Value = { Touring V S };

    ghost coded = { Prim.hlevel (codes, map.code {R = id_cmp} coded_id (coded_option V.code)) };

    ghost view = { λ tour. record {
      stages = tour.berths.items;
      staged = systems_in tour.slots.items;
      world = tour.world;
      refused = refusal_of tour.outcome;
    } };

    ghost invariant = { λ tour. All AreFree tour.berths.items × AreIn tour.slots.items
        × StagesAreSeated tour.berths.items (systems_in tour.slots.items) };
}

impl<V: Drop, S: System<V> + Drop> Shift<World<V>, Pack<V, S>> for Tour<V, S> {
    ghost use Rattle.shred_stages.specs.Touring.{Tours};

    ghost may = { λ _. Unit {0} };

    ghost does = { Tours S.meets };

    fn run<R: AllocGlobal + Wait>(&mut self, rt: &R, crew: &mut Crew<World<V>, Pack<V, S>>) {
        let world = mem::replace(&mut self.world, World::empty(rt.alloc()));
        let (outcome, world) = run_berth_list(rt, crew, world, &mut self.slots, &mut self.berths);
        self.world = world;
        self.outcome = outcome;
    }
}
