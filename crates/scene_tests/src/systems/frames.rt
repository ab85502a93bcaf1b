//! Frames of drift over a small world, with any number of workers.
use crate::systems::world::{Failure, position_at, small_world};
use scene_cases::systems::{bare_frames, drift_twice, run_frame};
use scene_cases::turns::{Drifting, Value};
use scene_dispatch::SceneDispatcher;
use scene_model::FrameRefusal;
use shred_world::World;
use std::alloc::Global;
use std::sync::Wait;
use std::thread::Threads;

/// Some frames of drift over a world.
fn frames<H: AllocGlobal + Threads + Wait + Sync>(
    rt: &H,
    systems: &mut SceneDispatcher<Drifting>,
    world: &mut World<Value>,
    count: u8,
) -> Result<(), Failure> {
    for _ in 0..count {
        match run_frame(rt, systems, world) {
            Ok(()) => {}
            Err(_) => return Err(Failure::Refused),
        }
    }
    Ok(())
}

/// The positions of both entities after two frames: the first went on by 2 at each turn.
fn drifted<H: AllocGlobal + Threads + Wait + Sync>(
    rt: &H,
    alloc: Global,
    workers: usize,
) -> Result<(Option<u64>, Option<u64>), Failure> {
    let mut world = small_world(alloc)?;
    let mut systems = drift_twice(alloc, workers)?;
    let outcome = frames(rt, &mut systems, &mut world, 2);
    drop(systems);
    outcome?;
    Ok((position_at(&world, 0), position_at(&world, 1)))
}

/// Whether a frame over a world without storages wants memory.
fn wants_memory<H: AllocGlobal + Threads + Wait + Sync>(
    rt: &H,
    alloc: Global,
    workers: usize,
) -> Result<bool, Failure> {
    let (mut systems, mut world) = bare_frames(alloc, workers)?;
    let outcome = run_frame(rt, &mut systems, &mut world);
    drop(systems);
    Ok(matches!(outcome, Err(FrameRefusal::Memory)))
}

#[test]
fn each_turn_moves_the_first(rt: HostRuntime) {
    assert_eq!(rt; drifted(&rt, rt.alloc(), 0), Ok((Some(13), Some(1))));
}

#[test]
fn with_two_workers_it_is_the_same(rt: HostRuntime) {
    assert_eq!(rt; drifted(&rt, rt.alloc(), 2), Ok((Some(13), Some(1))));
}

#[test]
fn a_frame_without_storages_wants_memory(rt: HostRuntime) {
    assert_eq!(rt; wants_memory(&rt, rt.alloc(), 0), Ok(true));
    assert_eq!(rt; wants_memory(&rt, rt.alloc(), 2), Ok(true));
}
