//! Two turns of drift a frame.
ghost use Rattle.std.specs.Prelude.{◌≡◌, [], All, OnOk, IfOk, IfErr};
ghost use Rattle.shred_world.specs.Bundles.{holding_of};
ghost use Rattle.shred.specs.Building.{nothing_built};
ghost use Rattle.shred.specs.Dispatchers.{dispatcher_of};
ghost use Rattle.scene_world.specs.Standing.{seen_in, plain_of};
ghost use Rattle.scene_world.specs.Turns.{IsOfBook};
ghost use Rattle.scene_cases.specs.Drifting.{drifting_book};
ghost use Rattle.scene_dispatch.specs.Orders.{turn_order};
ghost use Rattle.scene_dispatch.specs.Frames.{AreReady};
ghost use Rattle.scene_cases.specs.Twice.{drifting_kinds, drift_meaning, two_drifts, DriftsTwice, IsWant};

use crate::turns::{Drift, Drifting, Value};
use scene_dispatch::{SceneDispatcher, SceneDispatcherBuilder};
use scene_model::FrameRefusal;
use shred_world::World;
use std::alloc::{AllocError, Global};
use std::sync::Wait;
use std::thread::Threads;

/// Adds drift to an empty builder: staged at position 1, and local at position 2.
fn add_both(builder: &mut SceneDispatcherBuilder<Drifting>) -> Result<(), AllocError>
    requires building { builder.old.building ≡ nothing_built }
    requires locals { builder.old.locals ≡ [] }
    ensures order { OnOk result
        (turn_order (drift_meaning (λ placed. placed.position)).plain (dispatcher_of builder.new) ≡ two_drifts) }
    ensures staged { OnOk result (All (IsOfBook (drift_meaning (λ placed. placed.position)) drifting_book)
        builder.new.building.staging.systems) }
    ensures local { OnOk result (All (IsOfBook (drift_meaning (λ placed. placed.position)) drifting_book)
        builder.new.locals) }
    ensures workers { OnOk result (builder.new.workers ≡ builder.old.workers) }
{
    match builder.add(1, Drift, "drift", &[]) {
        Ok(_) => {}
        Err(_) => return Err(AllocError),
    }
    match builder.add_local(2, Drift) {
        Ok(()) => Ok(()),
        Err(_) => Err(AllocError),
    }
}

/// The dispatcher of drift at two positions: staged at position 1, and local at position 2.
///
/// Errors: want of memory.
pub fn drift_twice(alloc: Global, workers: usize) -> Result<SceneDispatcher<Drifting>, AllocError>
    ensures order { IfOk result (λ systems.
        turn_order (drift_meaning (λ placed. placed.position)).plain systems ≡ two_drifts) }
    ensures staged { IfOk result (λ systems.
        All (IsOfBook (drift_meaning (λ placed. placed.position)) drifting_book) systems.staging.systems) }
    ensures local { IfOk result (λ systems.
        All (IsOfBook (drift_meaning (λ placed. placed.position)) drifting_book) systems.locals) }
    ensures workers { IfOk result (λ systems. systems.workers ≡ workers) }
{
    let mut builder = SceneDispatcherBuilder::new(alloc, workers);
    match add_both(&mut builder) {
        Ok(()) => Ok(builder.build()),
        Err(error) => {
            drop(builder);
            Err(error)
        }
    }
}

/// Both turns of drift over a world, in which its scene then has drifted twice.
///
/// Errors: only want of memory or of a thread.
pub fn run_frame<H: AllocGlobal + Threads + Wait + Sync>(
    rt: &H,
    systems: &mut SceneDispatcher<Drifting>,
    world: &mut World<Value>,
) -> Result<(), FrameRefusal>
    ensures ok { turn_order (drift_meaning (λ placed. placed.position)).plain systems.old ≡ two_drifts
        → AreReady drifting_kinds (drift_meaning (λ placed. placed.position)) drifting_book systems.old
        (holding_of world.old)
        → OnOk result (DriftsTwice (plain_of drifting_kinds (seen_in (holding_of world.old)))
        (plain_of drifting_kinds (seen_in (holding_of world.new)))) }
    ensures ready { turn_order (drift_meaning (λ placed. placed.position)).plain systems.old ≡ two_drifts
        → AreReady drifting_kinds (drift_meaning (λ placed. placed.position)) drifting_book systems.old
        (holding_of world.old)
        → OnOk result (AreReady drifting_kinds (drift_meaning (λ placed. placed.position)) drifting_book
        systems.new (holding_of world.new)) }
    ensures refused { turn_order (drift_meaning (λ placed. placed.position)).plain systems.old ≡ two_drifts
        → AreReady drifting_kinds (drift_meaning (λ placed. placed.position)) drifting_book systems.old
        (holding_of world.old)
        → IfErr result IsWant }
    ensures order { turn_order (drift_meaning (λ placed. placed.position)).plain systems.new
        ≡ turn_order (drift_meaning (λ placed. placed.position)).plain systems.old }
{
    systems.run_systems(rt, &Drifting, world)
}
