//! Systems as trees.
ghost use Rattle.std.specs.Prelude.{◌≡◌, IfOk, IfErr};
ghost use Rattle.std.specs.FinMap as map;
ghost use Rattle.shred_world.specs.declared.resource_id.ResourceId.{ResourceId as Id};
ghost use Rattle.shred_stages.specs.Views.{FitsSeat, view_slots, error_of};
ghost use Rattle.shred_stages.specs.Moves.{IsSeat};
ghost use Rattle.shred_stages.specs.Runs.{Step, RunsInView};
ghost use Rattle.shred.specs.TreeLaws.{leaf-within, leaf-sees};

use crate::trees::RunWithPool;
use shred_stages::{Stop, System, View, make_seat, move_values};
use shred_world::{Holder, ResourceId, World};
use std::alloc::{AllocError, AllocFailed, Global};
use std::marker::Model;
use std::mem;

/// A system as a tree, with the lists of its ids and an empty slot for each value that it writes.
#[derive(Drop)]
pub struct Leaf<V, S: System<V>> {
    system: S,
    reads: Vec<ResourceId>,
    writes: Vec<ResourceId>,
    seat: World<V>,
}

impl<V, S: System<V>> Model for Leaf<V, S> {
    ghost use Rattle.std.specs.Prelude.{◌≡◌};
    ghost use Rattle.shred_stages.specs.Moves.{IsSeat};

    ghost Value = { S };

    ghost view = { λ leaf. leaf.system };

    ghost invariant = { λ leaf. (leaf.reads.items ≡ S.read_list leaf.system)
        × (leaf.writes.items ≡ S.write_list leaf.system) × IsSeat leaf.writes.items leaf.seat };
}

impl<V: Drop, S: System<V>> Leaf<V, S> {
    /// The tree of a system.
    ///
    /// Errors: want of memory, which hands the system back.
    pub fn new(alloc: Global, system: S) -> Result<Leaf<V, S>, AllocFailed<S>>
        ensures ok { IfOk result (λ leaf. leaf ≡ system) }
        ensures handed_back { IfErr result (λ refused. refused.value ≡ system) }
    {
        let Ok(access) = system.accessor(alloc) else {
            return Err(AllocFailed { value: system });
        };
        let (reads, writes) = access.into_lists();
        let Ok(seat) = make_seat(alloc, &writes) else {
            return Err(AllocFailed { value: system });
        };
        Ok(Leaf {
            system,
            reads,
            writes,
            seat,
        })
    }
}

/// Runs a system over a view, and hands the seat back.
fn run_over<V, S: System<V>, H: AllocGlobal, W: Holder<V>>(
    rt: &H,
    system: &mut S,
    world: &W,
    reads: &[ResourceId],
    writes: &[ResourceId],
    seat: World<V>,
) -> (Result<(), Stop>, World<V>)
    requires seated { FitsSeat writes.now seat }
    ensures runs { RunsInView S.meets system.old (view_slots reads.now writes.now (W.slots world.now) seat)
        (error_of result.0) system.new result.1 }
    ensures reads { S.read_list system.new ≡ S.read_list system.old }
    ensures writes { S.write_list system.new ≡ S.write_list system.old }
{
    let mut view = View::over(world, reads, writes, seat);
    let outcome = system.run(rt, &mut view);
    (outcome, view.into_seat())
}

/// Runs a system over what it declares of a world; what it wrote comes back into the world.
fn run_seated<V: Drop, S: System<V>, H: AllocGlobal, W: Holder<V>>(
    rt: &H,
    system: &mut S,
    seat: &mut World<V>,
    world: &mut W,
    reads: &[ResourceId],
    writes: &[ResourceId],
) -> Result<(), Stop>
    requires seat { IsSeat writes.now seat.old }
    ensures step { Step S.meets reads.now writes.now system.old (W.slots world.old) (error_of result) system.new
        (W.slots world.new) }
    ensures seat { (id : Id) → map.get seat.new id ≡ map.get seat.old id }
    ensures reads { S.read_list system.new ≡ S.read_list system.old }
    ensures writes { S.write_list system.new ≡ S.write_list system.old }
{
    move_values(world, seat, writes);
    let lent = mem::replace(seat, World::empty(rt.alloc()));
    let (outcome, back) = run_over(rt, system, world, reads, writes, lent);
    *seat = back;
    move_values(seat, world, writes);
    outcome
}

impl<V: Drop, S: System<V>> Leaf<V, S> {
    /// Runs the system.
    fn run_system<H: AllocGlobal, W: Holder<V>>(
        &mut self,
        rt: &H,
        world: &mut W,
    ) -> Result<(), Stop>
        ensures step { Step S.meets (S.read_list self.old) (S.write_list self.old) self.old (W.slots world.old)
            (error_of result) self.new (W.slots world.new) }
        ensures reads { S.read_list self.new ≡ S.read_list self.old }
        ensures writes { S.write_list self.new ≡ S.write_list self.old }
    {
        run_seated(
            rt,
            &mut self.system,
            &mut self.seat,
            world,
            &self.reads,
            &self.writes,
        )
    }
}

impl<V, S: System<V>> RunWithPool<V> for Leaf<V, S> {
    ghost meets = { λ system. Step S.meets (S.read_list system) (S.write_list system) system };

    ghost read_list = { S.read_list };

    ghost write_list = { S.write_list };

    ghost sets_up = { S.sets_up };

    ghost stays_within = { leaf-within S.meets S.read_list S.write_list };

    ghost sees_what_it_declares = { leaf-sees S.meets S.read_list S.write_list };

    fn setup(&mut self, world: &mut World<V>) -> Result<(), AllocError> {
        self.system.setup(world)
    }

    fn run<H: AllocGlobal, W: Holder<V>>(&mut self, rt: &H, world: &mut W) -> Result<(), Stop>
    where
        V: Drop,
    {
        self.run_system(rt, world)
    }

    fn reads(&self, ids: &mut Vec<ResourceId>) -> Result<(), AllocError> {
        ids.extend_from_slice(&self.reads)
    }

    fn writes(&self, ids: &mut Vec<ResourceId>) -> Result<(), AllocError> {
        ids.extend_from_slice(&self.writes)
    }
}
