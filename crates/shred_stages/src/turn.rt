//! A system's turn.
ghost use Rattle.std.specs.Prelude.{◌≡◌};
ghost use Rattle.std.specs.FinMap as map;
ghost use Rattle.shred_world.specs.declared.resource_id.ResourceId.{ResourceId as Id};
ghost use Rattle.shred_stages.specs.Views.{error_of};
ghost use Rattle.shred_stages.specs.Moves.{IsSeat};
ghost use Rattle.shred_stages.specs.Runs.{Step};

use crate::moves::move_values;
use crate::view::run_in_view;
use crate::{Stop, System};
use shred_world::{Holder, ResourceId, World};
use std::mem;

/// A system, and an empty slot for each value that it writes.
#[derive(Drop)]
pub(crate) struct Staged<V, S> {
    pub(crate) system: S,
    pub(crate) seat: World<V>,
}

/// Runs a system over what it declares of a world, with a seat for what it writes, which is handed back.
///
/// What it wrote comes back into the world.
pub(crate) fn run_seated<V: Drop, S: System<V>, H: AllocGlobal, W: Holder<V>>(
    rt: &H,
    system: &mut S,
    world: &mut W,
    reads: &[ResourceId],
    writes: &[ResourceId],
    seat: World<V>,
) -> (Result<(), Stop>, World<V>)
    requires seat { IsSeat writes.now seat }
    ensures step { Step S.meets reads.now writes.now system.old (W.slots world.old) (error_of result.0)
        system.new (W.slots world.new) }
    ensures seat { (id : Id) → map.get result.1 id ≡ map.get seat id }
{
    let mut lent = seat;
    move_values(world, &mut lent, writes);
    let (outcome, left) = run_in_view(rt, system, world, reads, writes, lent);
    let mut back = left;
    move_values(&mut back, world, writes);
    (outcome, back)
}

/// Runs a staged system over what it declares of a world; what it wrote comes back into the world.
pub(crate) fn run_system<V: Drop, S: System<V>, H: AllocGlobal, W: Holder<V>>(
    rt: &H,
    world: &mut W,
    staged: &mut Staged<V, S>,
    reads: &[ResourceId],
    writes: &[ResourceId],
) -> Result<(), Stop>
    requires seat { IsSeat writes.now staged.old.seat }
    ensures step { Step S.meets reads.now writes.now staged.old.system (W.slots world.old) (error_of result)
        staged.new.system (W.slots world.new) }
    ensures seat { (id : Id) → map.get staged.new.seat id ≡ map.get staged.old.seat id }
{
    let seat = mem::replace(&mut staged.seat, World::empty(rt.alloc()));
    let (outcome, seat) = run_seated(rt, &mut staged.system, world, reads, writes, seat);
    staged.seat = seat;
    outcome
}
