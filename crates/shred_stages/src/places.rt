//! Runs of a group's systems by their places in it.
ghost use Rattle.std.specs.Prelude.{◌≡◌, map};
ghost use Rattle.shred_stages.specs.Apart.{PlacesRun};
ghost use Rattle.shred_stages.specs.Seats.{refusal_of, systems_of};
ghost use Rattle.shred_stages.specs.Packs.{ArePlaced};

use crate::run::Refusal;
use crate::turn::{Staged, run_system};
use crate::{System, SystemId};
use shred_plan::Adding;
use shred_world::{Holder, ResourceId};

/// Runs the systems of a group, each at its place in it, one after the other, up to the first that refuses.
pub(crate) fn run_places<V: Drop, S: System<V>, H: AllocGlobal, W: Holder<V>>(
    rt: &H,
    view: &mut W,
    staged: &mut [Staged<V, S>],
    group: &[Adding<ResourceId>],
) -> Result<(), Refusal>
    requires placed { ArePlaced group.now staged.old }
    ensures runs { PlacesRun S.meets group.now (systems_of staged.old) (W.slots view.old) (refusal_of result)
        (systems_of staged.new) (W.slots view.new) }
    ensures placed { ArePlaced group.now staged.new }
{
    let Some((adding, later)) = group.split_first() else {
        return Ok(());
    };
    let Some((one, others)) = staged.split_first_mut() else {
        unreachable!()
    };
    match run_system(rt, view, one, adding.reads(), adding.writes()) {
        Ok(()) => run_places(rt, view, others, later),
        Err(stop) => Err(Refusal {
            system: SystemId(adding.number()),
            stop,
        }),
    }
}
