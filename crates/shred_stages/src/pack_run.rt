//! What a thread does with what it is lent.
ghost use Rattle.std.specs.Prelude.{◌≡◌, [], ◌∷◌, map};
ghost use Rattle.std.specs.Option.{option_map};
ghost use Rattle.shred_world.specs.Bundles.{holding_of};
ghost use Rattle.shred_stages.specs.Views.{view_slots, FitsSeat, error_of};
ghost use Rattle.shred_stages.specs.Apart.{group_reads, group_writes};
ghost use Rattle.shred_stages.specs.Seats.{refusal_of, systems_of};
ghost use Rattle.shred_stages.specs.Packs.{ArePlaced, PlacesInView, PackRuns};

use crate::pack::Pack;
use crate::run::Refusal;
use crate::turn::Staged;
use crate::view::{run_group_in_view, run_in_view};
use crate::{Stop, System, SystemId};
use shred_crew::Load;
use shred_plan::Adding;
use shred_world::{ResourceId, World};
use std::mem;

/// The answer that tells which system refused.
fn refused_by(outcome: Result<(), Stop>, number: u32) -> Result<(), Refusal>
    ensures { refusal_of result ≡ option_map (λ stop. (number, stop)) (error_of outcome) }
{
    match outcome {
        Ok(()) => Ok(()),
        Err(stop) => Err(Refusal {
            system: SystemId(number),
            stop,
        }),
    }
}

/// Runs the system of a group of one over the values that it reads in a world and those in the group's seat: none of them moves.
fn run_single<V: Drop, S: System<V>, H: AllocGlobal>(
    rt: &H,
    one: &mut Staged<V, S>,
    adding: &Adding<ResourceId>,
    world: &World<V>,
    reads: &[ResourceId],
    writes: &[ResourceId],
    seat: World<V>,
) -> (Result<(), Refusal>, World<V>)
    requires seated { FitsSeat writes.now seat }
    requires reads { reads.now ≡ adding.now.reads }
    requires writes { writes.now ≡ adding.now.writes }
    ensures runs { PlacesInView S.meets (adding.now ∷ []) (one.old.system ∷ [])
        (view_slots reads.now writes.now (holding_of world.now) seat) (refusal_of result.0) (one.new.system ∷ [])
        result.1 }
    ensures kept { one.new.seat ≡ one.old.seat }
    ensures fits { FitsSeat writes.now result.1 }
{
    let (outcome, seat) = run_in_view(rt, &mut one.system, world, reads, writes, seat);
    (refused_by(outcome, adding.number()), seat)
}

/// Runs the systems of a group, kept in a list, over the values that it reads in a world and those in a seat.
fn run_list<V: Drop, S: System<V>, H: AllocGlobal>(
    rt: &H,
    staged: &mut Vec<Staged<V, S>>,
    group: &[Adding<ResourceId>],
    world: &World<V>,
    reads: &[ResourceId],
    writes: &[ResourceId],
    seat: World<V>,
) -> (Result<(), Refusal>, World<V>)
    requires reads { reads.now ≡ group_reads group.now }
    requires writes { writes.now ≡ group_writes group.now }
    requires seated { FitsSeat writes.now seat }
    requires placed { ArePlaced group.now staged.old.items }
    ensures runs { PlacesInView S.meets group.now (systems_of staged.old.items)
        (view_slots reads.now writes.now (holding_of world.now) seat) (refusal_of result.0)
        (systems_of staged.new.items) result.1 }
    ensures placed { ArePlaced group.now staged.new.items }
    ensures fits { FitsSeat writes.now result.1 }
{
    if group.len() == 1 && staged.len() == 1 {
        let one = &mut staged[0];
        return run_single(rt, one, &group[0], world, reads, writes, seat);
    }
    run_group_in_view(rt, staged.as_mut_slice(), group, world, reads, writes, seat)
}

impl<V: Drop, S: System<V>> Load<World<V>> for Pack<V, S> {
    ghost does = { PackRuns S.meets };

    fn work<H: AllocGlobal>(&mut self, rt: &H, shared: &World<V>) {
        let seat = mem::replace(&mut self.seat, World::empty(rt.alloc()));
        let (outcome, seat) = run_list(
            rt,
            &mut self.staged,
            &self.group,
            shared,
            &self.reads,
            &self.writes,
            seat,
        );
        self.seat = seat;
        self.outcome = outcome;
    }
}
