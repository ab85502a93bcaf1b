//! What stages are run with on threads, kept from one run to the next.
ghost use Rattle.std.specs.Prelude.{◌≡◌, IfOk, OnOk, OnErr, length, map};
ghost use Rattle.shred_plan.specs.Plan.{time_of};
ghost use Rattle.shred_world.specs.Bundles.{holding_of};
ghost use Rattle.shred_stages.specs.Runs.{StageRuns};
ghost use Rattle.shred_stages.specs.Seats.{StageIsSeated, SeatsKept, state_of, refusal_of};
ghost use Rattle.shred_stages.specs.Away.{systems_in, AreIn};
ghost use Rattle.shred_stages.specs.Free.{AreFree};
ghost use Rattle.shred_stages.specs.Touring.{IsKept};

use crate::System;
use crate::kit::{Kit, make_kits};
use crate::pack::Pack;
use crate::packing::{give_back_all, lend_all};
use crate::run::Refusal;
use crate::turn::Staged;
use crate::worth::worth_of;
use shred_crew::{Crew, Room};
use shred_plan::{Group, Stage};
use shred_world::{ResourceId, World};
use std::alloc::{AllocError, Global};
use std::marker::Model;
use std::sync::Wait;

/// What the groups of a stage are run with, and the share of each worker of them.
#[derive(Drop)]
pub(crate) struct Berth<V, S> {
    kits: Vec<Kit<V, S>>,
    packs: Vec<Pack<V, S>>,
    workers: usize,
    room: Room<Pack<V, S>>,
}

impl<V, S> Model for Berth<V, S> {
    ghost use Rattle.std.specs.Prelude.{◌≡◌, ◌≤◌, [], length, map, vec_capacity};
    ghost use Rattle.shred_crew.specs.Cuts.{cut};
    ghost use Rattle.shred_world.specs.declared.resource_id.ResourceId.{ResourceId};
    ghost use Rattle.shred_plan.specs.Plan.{Stage, time_of};

    ghost Value = { Stage ResourceId };

    ghost view = { λ berth. berth.kits.items };

    ghost invariant = { λ berth. (berth.packs.items ≡ []) × (length berth.kits.items ≤ vec_capacity berth.packs)
        × (berth.room ≡ record {
          count = length berth.kits.items;
          shares = cut (map time_of berth.kits.items) berth.workers;
        }) };
}

/// How long the groups of a stage are said to run.
///
/// Errors: want of memory.
fn times_of(alloc: Global, stage: &[Group<ResourceId>]) -> Result<Vec<u32>, AllocError>
    ensures { IfOk result (λ times. times.items ≡ map time_of stage.now) }
{
    let mut times = Vec::with_capacity(alloc, stage.len())?;
    for group in stage {
        times.push_reserved(group.time());
    }
    Ok(times)
}

/// What a stage is run with by some workers, or as many of them as it is worth, its groups cut by their times.
///
/// Errors: want of memory.
fn make_berth<V: Drop, S: Drop>(
    alloc: Global,
    stage: &[Group<ResourceId>],
    workers: usize,
) -> Result<Berth<V, S>, AllocError>
    ensures { IfOk result (λ berth. berth ≡ stage.now) }
{
    let times = times_of(alloc, stage)?;
    let workers = workers.min(worth_of(stage)).max(1);
    let room = Room::new(alloc, &times, workers)?;
    let kits = make_kits(alloc, stage)?;
    let packs = Vec::with_capacity(alloc, stage.len())?;
    Ok(Berth {
        kits,
        packs,
        workers,
        room,
    })
}

/// What some stages are run with by some workers.
///
/// Errors: want of memory.
pub(crate) fn make_berths<V: Drop, S: Drop>(
    alloc: Global,
    stages: &[Stage<ResourceId>],
    workers: usize,
) -> Result<Vec<Berth<V, S>>, AllocError>
    ensures { IfOk result (λ berths. berths.items ≡ stages.now) }
{
    let mut berths = Vec::with_capacity(alloc, stages.len())?;
    for stage in stages {
        berths.push_reserved(make_berth(alloc, stage.groups(), workers)?);
    }
    Ok(berths)
}

/// Sees to it that there is what the stages of a plan are run with by so many workers.
///
/// Errors: want of memory, which leaves what there was.
pub(crate) fn make_ready<V: Drop, S: Drop>(
    alloc: Global,
    stages: &[Stage<ResourceId>],
    workers: usize,
    cut_for: &mut usize,
    berths: &mut Vec<Berth<V, S>>,
) -> Result<(), AllocError>
    requires { IsKept stages.now berths.old.items }
    ensures ok { OnOk result (berths.new.items ≡ stages.now) }
    ensures err { OnErr result (berths.new.items ≡ berths.old.items) }
{
    if *cut_for == workers && berths.len() == stages.len() {
        return Ok(());
    }
    *berths = make_berths(alloc, stages, workers)?;
    *cut_for = workers;
    Ok(())
}

/// Runs the groups of a stage, each to its end, by the workers that stand by, and tells the first refusal; the world comes back.
pub(crate) fn run_berth<V: Drop, S: System<V> + Drop, R: AllocGlobal + Wait>(
    rt: &R,
    crew: &mut Crew<World<V>, Pack<V, S>>,
    world: World<V>,
    slots: &mut Vec<Option<Staged<V, S>>>,
    berth: &mut Berth<V, S>,
) -> (Result<(), Refusal>, World<V>)
    requires free { AreFree berth.old }
    requires there { AreIn slots.old.items }
    requires seated { StageIsSeated berth.old (systems_in slots.old.items) }
    ensures runs { StageRuns S.meets berth.old (state_of (systems_in slots.old.items) (holding_of world))
        (refusal_of result.0) (state_of (systems_in slots.new.items) (holding_of result.1)) }
    ensures there { AreIn slots.new.items }
    ensures seats { SeatsKept (systems_in slots.old.items) (systems_in slots.new.items) }
    ensures count { length (systems_in slots.new.items) ≡ length (systems_in slots.old.items) }
    ensures berth { berth.new ≡ berth.old }
{
    let mut lent = world;
    lend_all(&mut lent, slots, &mut berth.kits, &mut berth.packs);
    let mut back = crew.work(rt, lent, &mut berth.room, &mut berth.packs);
    let outcome = give_back_all(&mut back, slots, &mut berth.packs, &mut berth.kits);
    (outcome, back)
}
