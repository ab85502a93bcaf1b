//! Runs of local systems.
ghost use Rattle.std.specs.Prelude.{◌≡◌, ◌+◌, ◌<◌, ℕ, Option, length, is_ok, IfOk};
ghost use Rattle.std.specs.Option.{option_or, option_map};
ghost use Rattle.shred_stages.specs.Views.{Leaves};
ghost use Rattle.shred.specs.Locals.{LocalsRun};
ghost use Rattle.shred_stages.specs.Setups.{SetsUpEach, DisposesEach};
ghost use Rattle.shred.specs.Dispatching.{local_refusal, local_stop};

use crate::{RunNow, Stop};
use shred_world::{Holder, World};
use std::alloc::AllocError;

/// A local system that refused, by its place, and why.
#[derive(Debug, PartialEq, Eq, Drop)]
pub(crate) struct LocalRefusal {
    pub(crate) place: usize,
    pub(crate) stop: Stop,
}

/// Runs a local system, which is told by its place.
fn run_local<V, L: RunNow<V>, H: AllocGlobal, W: Holder<V>>(
    rt: &H,
    world: &mut W,
    local: &mut L,
    place: usize,
) -> Result<(), LocalRefusal>
    ensures meets { L.meets local.old (W.slots world.old) (local_stop result) local.new (W.slots world.new) }
    ensures leaves { Leaves (W.slots world.old) (W.slots world.new) }
    ensures place { local_refusal result ≡ option_map (λ why. (place, why)) (local_stop result) }
{
    match local.run_now(rt, world) {
        Ok(()) => Ok(()),
        Err(stop) => Err(LocalRefusal { place, stop }),
    }
}

/// Runs local systems, one after the other, up to the first that refuses; each is told by its place, counted from `place` on.
///
/// It goes by halves, so that it takes little of the stack.
pub(crate) fn run_locals<V, L: RunNow<V>, H: AllocGlobal, W: Holder<V>>(
    rt: &H,
    world: &mut W,
    locals: &mut [L],
    place: usize,
) -> Result<(), LocalRefusal>
    requires place { place + length locals.old < 18446744073709551616 }
    ensures runs { LocalsRun L.meets place locals.old (W.slots world.old) (local_refusal result) locals.new
        (W.slots world.new) }
{
    match locals {
        [] => Ok(()),
        [local] => run_local(rt, world, local, place),
        _ => {
            let middle = locals.len() / 2;
            let (first, others) = locals.split_at_mut(middle);
            match run_locals(rt, world, first, place) {
                Ok(()) => run_locals(rt, world, others, place + middle),
                Err(refusal) => Err(refusal),
            }
        }
    }
}

/// Sets local systems up, one after the other, up to the first that finds no memory. It goes by halves.
fn set_up_locals<V, L: RunNow<V>>(locals: &mut [L], world: &mut World<V>) -> Result<(), AllocError>
    ensures { SetsUpEach L.sets_up locals.old (is_ok result) world.old locals.new world.new }
{
    match locals {
        [] => Ok(()),
        [local] => local.setup(world),
        _ => {
            let middle = locals.len() / 2;
            let (first, others) = locals.split_at_mut(middle);
            match set_up_locals(first, world) {
                Ok(()) => set_up_locals(others, world),
                Err(error) => Err(error),
            }
        }
    }
}

/// Sets a list of local systems up.
pub(crate) fn set_up_list<V, L: RunNow<V>>(
    locals: &mut Vec<L>,
    world: &mut World<V>,
) -> Result<(), AllocError>
    ensures { SetsUpEach L.sets_up locals.old.items (is_ok result) world.old locals.new.items world.new }
{
    set_up_locals(locals.as_mut_slice(), world)
}

/// The first of two refusals.
fn first_local(
    one: Result<(), LocalRefusal>,
    other: Result<(), LocalRefusal>,
) -> Result<(), LocalRefusal>
    ensures { local_refusal result ≡ option_or (local_refusal one) (local_refusal other) }
{
    match one {
        Ok(()) => other,
        Err(refusal) => Err(refusal),
    }
}

/// Lets a local system go.
fn dispose_local<V, L: RunNow<V>>(
    local: L,
    place: usize,
    world: &mut World<V>,
) -> Result<(), LocalRefusal>
    ensures disposes { L.disposes local (local_stop result) world.old world.new }
    ensures place { local_refusal result ≡ option_map (λ why. (place, why)) (local_stop result) }
{
    match local.dispose(world) {
        Ok(()) => Ok(()),
        Err(stop) => Err(LocalRefusal { place, stop }),
    }
}

/// Lets local systems go, each in its turn, and tells the first that refuses.
pub(crate) fn dispose_locals<V, L: RunNow<V> + Drop>(
    locals: Vec<L>,
    world: &mut World<V>,
) -> Result<(), LocalRefusal>
    ensures { DisposesEach L.disposes 0 locals.items (local_refusal result) world.old world.new }
{
    let mut outcome = Ok(());
    let mut place = 0;
    let mut rest = locals.into_iter();
    while let Some(local) = rest.next() {
        outcome = first_local(outcome, dispose_local(local, place, world));
        place += 1;
    }
    outcome
}
