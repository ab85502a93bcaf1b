//! Runs of groups, stages and plans on the caller's thread.
ghost use Rattle.std.specs.Prelude.{◌≡◌, IfErr};
ghost use Rattle.std.specs.Option.{option_or};
ghost use Rattle.shred_stages.specs.Runs.{Turn, GroupRuns, StageRuns, StagesRun};
ghost use Rattle.shred_stages.specs.Seats.{IsSeated, AreSeated, StageIsSeated, StagesAreSeated, SeatsKept, state_of};
ghost use Rattle.shred_stages.specs.Seats.{refusal_of, stop_of};

use crate::turn::{Staged, run_system};
use crate::{Stop, System, SystemId};
use shred_plan::{Adding, Group, Stage};
use shred_world::{Holder, ResourceId};

/// A staged system that refused, and why.
#[derive(Debug, PartialEq, Eq, Drop)]
pub struct Refusal {
    /// The system.
    pub system: SystemId,
    /// Why it refused.
    pub stop: Stop,
}

/// Lets a system of the plan take its turn.
fn run_turn<V: Drop, S: System<V>, H: AllocGlobal, W: Holder<V>>(
    rt: &H,
    world: &mut W,
    staged: &mut [Staged<V, S>],
    adding: &Adding<ResourceId>,
) -> Result<(), Refusal>
    requires seated { IsSeated staged.old adding.now }
    ensures runs { Turn S.meets adding.now (state_of staged.old (W.slots world.old)) (stop_of result)
        (state_of staged.new (W.slots world.new)) }
    ensures number { IfErr result (λ refusal. refusal.system.0 ≡ adding.now.number) }
    ensures seats { SeatsKept staged.old staged.new }
{
    let number = adding.number();
    let index = number as usize;
    prove!(index < staged.len());
    let one = &mut staged[index];
    match run_system(rt, world, one, adding.reads(), adding.writes()) {
        Ok(()) => Ok(()),
        Err(stop) => Err(Refusal {
            system: SystemId(number),
            stop,
        }),
    }
}

/// Runs the systems of a group, one after the other, up to the first that refuses.
pub(crate) fn run_group<V: Drop, S: System<V>, H: AllocGlobal, W: Holder<V>>(
    rt: &H,
    world: &mut W,
    staged: &mut [Staged<V, S>],
    group: &[Adding<ResourceId>],
) -> Result<(), Refusal>
    requires seated { AreSeated group.now staged.old }
    ensures runs { GroupRuns S.meets group.now (state_of staged.old (W.slots world.old)) (refusal_of result)
        (state_of staged.new (W.slots world.new)) }
    ensures seats { SeatsKept staged.old staged.new }
{
    for adding in group {
        match run_turn(rt, world, staged, adding) {
            Ok(()) => {}
            Err(refusal) => return Err(refusal),
        }
    }
    Ok(())
}

/// The first of two refusals.
pub(crate) fn first_of(one: Result<(), Refusal>, other: Result<(), Refusal>) -> Result<(), Refusal>
    ensures { refusal_of result ≡ option_or (refusal_of one) (refusal_of other) }
{
    match one {
        Ok(()) => other,
        Err(refusal) => Err(refusal),
    }
}

/// Runs the groups of a stage, each to its end, and tells the first refusal.
pub(crate) fn run_stage<V: Drop, S: System<V>, H: AllocGlobal, W: Holder<V>>(
    rt: &H,
    world: &mut W,
    staged: &mut [Staged<V, S>],
    stage: &[Group<ResourceId>],
) -> Result<(), Refusal>
    requires seated { StageIsSeated stage.now staged.old }
    ensures runs { StageRuns S.meets stage.now (state_of staged.old (W.slots world.old)) (refusal_of result)
        (state_of staged.new (W.slots world.new)) }
    ensures seats { SeatsKept staged.old staged.new }
{
    let mut outcome = Ok(());
    for group in stage {
        outcome = first_of(outcome, run_group(rt, world, staged, group.systems()));
    }
    outcome
}

/// Runs the stages, one after the other, up to the first in which a system refuses.
pub(crate) fn run_stages<V: Drop, S: System<V>, H: AllocGlobal, W: Holder<V>>(
    rt: &H,
    world: &mut W,
    staged: &mut [Staged<V, S>],
    stages: &[Stage<ResourceId>],
) -> Result<(), Refusal>
    requires seated { StagesAreSeated stages.now staged.old }
    ensures runs { StagesRun S.meets stages.now (state_of staged.old (W.slots world.old)) (refusal_of result)
        (state_of staged.new (W.slots world.new)) }
    ensures seats { SeatsKept staged.old staged.new }
{
    for stage in stages {
        match run_stage(rt, world, staged, stage.groups()) {
            Ok(()) => {}
            Err(refusal) => return Err(refusal),
        }
    }
    Ok(())
}
