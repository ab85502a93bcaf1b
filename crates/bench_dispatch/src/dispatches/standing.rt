//! The times of dispatches while workers stand by.
use crate::dispatches::load::{Mixer, Value};
use crate::dispatches::stages::{LAYERS, Stages, WORKERS, chain_of, world_of};
use shred::World;
use shred_crew::{Crew, Shift, with_crew};
use shred_stages::Pack;
use std::io;
use std::sync::Wait;
use std::thread::Threads;
use std::time::{Clock, Instant};

/// How many dispatches are timed, while the same workers stand by.
const DISPATCHES: u32 = 10_000;

/// The chains of stages that are timed: how many stages, and of how many groups each.
const CHAINS: [(u32, u32); 4] = [(1, 2), (1, 8), (LAYERS, 2), (LAYERS, 4)];

/// Stages that are dispatched over a world, with so many workers.
#[derive(Drop)]
struct Rounds {
    stages: Stages,
    world: World<Value>,
    workers: usize,
}

impl Shift<World<Value>, Pack<Value, Mixer>> for Rounds {
    ghost may = { λ _. Unit {0} };

    ghost does = { λ _ _. Unit {0} };

    fn run<R: AllocGlobal + Wait>(
        &mut self,
        rt: &R,
        crew: &mut Crew<World<Value>, Pack<Value, Mixer>>,
    ) {
        for _ in 0..DISPATCHES {
            let _ = self
                .stages
                .execute_with(rt, self.workers, crew, &mut self.world);
        }
    }
}

/// How many nanoseconds a dispatch of a chain of stages takes, with so many workers that stand by.
fn time_of_chain<R: AllocGlobal + Threads + Wait + Sync + Clock>(
    rt: &R,
    (layers, groups): (u32, u32),
    workers: usize,
) -> io::Result<u128> {
    let stages = chain_of(rt.alloc(), layers, groups, 1)?;
    let world = world_of(rt.alloc(), groups)?;
    let rounds = Rounds {
        stages,
        world,
        workers,
    };
    let start = Instant::now(rt)?;
    let _ = with_crew(rt, workers, rounds);
    Ok(start.elapsed(rt)?.as_nanos() / u128::from(DISPATCHES))
}

/// Prints the time of a dispatch of each chain with each number of workers.
///
/// Errors: those of printing and of the clock, and want of memory.
pub(crate) fn times<R: Print + AllocGlobal + Threads + Wait + Sync + Clock>(
    rt: &R,
) -> io::Result<()> {
    for (layers, groups) in CHAINS {
        for workers in WORKERS {
            let taken = time_of_chain(rt, (layers, groups), workers)?;
            println!(rt;
                "{layers} stages of {groups} groups of 1 round, {workers} workers that stand by: {taken} ns"
            )?;
        }
    }
    Ok(())
}
