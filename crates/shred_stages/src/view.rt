//! What a system is lent.
ghost use Rattle.std.specs.Prelude.{◌≡◌, IfSome, IfNone, option_copied, map};
ghost use Rattle.shred_world.specs.Bundles.{Holding, is_listed};
ghost use Rattle.shred_stages.specs.Views.{view_slots, FitsSeat, error_of};
ghost use Rattle.shred_stages.specs.Runs.{RunsInView};
ghost use Rattle.shred_stages.specs.Seats.{refusal_of, systems_of};
ghost use Rattle.shred_stages.specs.Packs.{ArePlaced, PlacesInView};

use crate::places::run_places;
use crate::run::Refusal;
use crate::turn::Staged;
use crate::{Stop, System};
use shred_plan::Adding;
use shred_world::{Holder, ResourceId, World};

/// The values that a system declares, and no others: those that it reads where they are, those that it writes out of there.
///
/// The world is what the system runs over: a `World`, or the view of a batch.
pub struct View<'w, V, W> {
    pub(crate) world: &'w W,
    pub(crate) reads: &'w [ResourceId],
    pub(crate) writes: &'w [ResourceId],
    pub(crate) seat: World<V>,
    ghost seated: { FitsSeat writes.now seat },
}

impl<V, W: Holder<V>> Holder<V> for View<'_, V, W> {
    ghost use Rattle.shred_stages.specs.ViewParts.{world_of, reads_of, writes_of, seat_of};

    ghost slots = { λ view. view_slots (reads_of view).now (writes_of view).now (W.slots (world_of view).now)
        (seat_of view) };

    fn value(&self, id: ResourceId) -> Option<&V> {
        if is_among(id, self.writes) {
            return self.seat.get_raw(id);
        }
        if is_among(id, self.reads) {
            return self.world.value(id);
        }
        None
    }

    fn take(&mut self, id: ResourceId) -> Option<V> {
        self.seat.take_raw(id)
    }

    fn put(&mut self, id: ResourceId, value: V) {
        self.seat.put_back(id, value)
    }
}

/// Runs a system over the values that it reads in a world and those in a seat, and hands the seat back.
pub(crate) fn run_in_view<V, S: System<V>, H: AllocGlobal, W: Holder<V>>(
    rt: &H,
    system: &mut S,
    world: &W,
    reads: &[ResourceId],
    writes: &[ResourceId],
    seat: World<V>,
) -> (Result<(), Stop>, World<V>)
    requires seated { FitsSeat writes.now seat }
    ensures { RunsInView S.meets system.old (view_slots reads.now writes.now (W.slots world.now) seat)
        (error_of result.0) system.new result.1 }
{
    let mut view = View {
        world,
        reads,
        writes,
        seat,
    };
    let outcome = system.run(rt, &mut view);
    let View {
        world: _,
        reads: _,
        writes: _,
        seat,
    } = view;
    (outcome, seat)
}

/// Runs the systems of a group over the values that it reads in a world and those in a seat, and hands the seat back.
pub(crate) fn run_group_in_view<V: Drop, S: System<V>, H: AllocGlobal, W: Holder<V>>(
    rt: &H,
    staged: &mut [Staged<V, S>],
    group: &[Adding<ResourceId>],
    world: &W,
    reads: &[ResourceId],
    writes: &[ResourceId],
    seat: World<V>,
) -> (Result<(), Refusal>, World<V>)
    requires seated { FitsSeat writes.now seat }
    requires placed { ArePlaced group.now staged.old }
    ensures runs { PlacesInView S.meets group.now (systems_of staged.old)
        (view_slots reads.now writes.now (W.slots world.now) seat) (refusal_of result.0) (systems_of staged.new)
        result.1 }
    ensures placed { ArePlaced group.now staged.new }
    ensures fits { FitsSeat writes.now result.1 }
{
    let mut view = View {
        world,
        reads,
        writes,
        seat,
    };
    let outcome = run_places(rt, &mut view, staged, group);
    let View {
        world: _,
        reads: _,
        writes: _,
        seat,
    } = view;
    (outcome, seat)
}

/// Whether the id is in the list.
fn is_among(id: ResourceId, ids: &[ResourceId]) -> bool
    ensures { result ≡ is_listed ids.now id }
{
    for other in ids {
        if id == *other {
            return true;
        }
    }
    false
}
