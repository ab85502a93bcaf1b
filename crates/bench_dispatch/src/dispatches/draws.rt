//! Plans of systems that are drawn at random, always the same.

use shred::RunningTime;
use shred_plan::{Adding, Planner};
use smallvec::SmallVec;
use std::alloc::{AllocError, Global};
use std::io;
use std::time::{Clock, Instant};

/// How many systems are planned.
const PLANNED: u32 = 4096;

/// How many ids there are.
const IDS: u64 = 64;

/// What is drawn next comes of.
#[derive(Clone, Copy)]
struct Draws {
    state: u64,
}

impl Draws {
    /// A number below one that isn't 0: shifts and exclusive ors of Marsaglia, by 13, 7 and 17.
    fn below(&mut self, end: u64) -> u64 {
        let mut state = self.state;
        state ^= state << 13;
        state ^= state >> 7;
        state ^= state << 17;
        self.state = state;
        (state >> 11) % end.max(1)
    }

    /// So many ids.
    fn ids(&mut self, alloc: Global, count: u32) -> Result<Vec<u64>, AllocError> {
        let mut ids = Vec::with_capacity(alloc, count as usize)?;
        for _ in 0..count {
            ids.push(self.below(IDS))?;
        }
        Ok(ids)
    }

    /// A running time.
    fn time(&mut self) -> RunningTime {
        match self.below(5) {
            0 => RunningTime::VeryShort,
            1 => RunningTime::Short,
            2 => RunningTime::Average,
            3 => RunningTime::Long,
            _ => RunningTime::VeryLong,
        }
    }

    /// A system that reads three ids and writes two.
    fn system(&mut self, alloc: Global, number: u32) -> Result<Adding<u64>, AllocError> {
        let reads = self.ids(alloc, 3)?;
        let writes = self.ids(alloc, 2)?;
        let time = self.time();
        Ok(Adding::new(number, reads, writes, SmallVec::new(alloc), time))
    }
}

/// The systems.
fn systems(alloc: Global) -> Result<Vec<Adding<u64>>, AllocError> {
    let mut draws = Draws {
        state: 88_172_645_463_325_252,
    };
    let mut systems = Vec::with_capacity(alloc, PLANNED as usize)?;
    for number in 0..PLANNED {
        systems.push(draws.system(alloc, number)?)?;
    }
    Ok(systems)
}

/// The plan of some systems.
fn plan(alloc: Global, systems: Vec<Adding<u64>>) -> Result<Planner<u64>, AllocError> {
    let mut planner = Planner::new(alloc);
    for adding in systems {
        if planner.add(adding).is_err() {
            return Err(AllocError);
        }
    }
    Ok(planner)
}

/// The checksum of the order in which a plan's systems run.
fn checksum_of(alloc: Global, planner: &Planner<u64>) -> Result<u64, AllocError> {
    let order = planner.order(alloc)?;
    let mut checksum: u64 = 0;
    for number in order.as_slice() {
        checksum = checksum.wrapping_mul(31).wrapping_add(u64::from(*number));
    }
    Ok(checksum)
}

/// How many stages the systems take, and the checksum of their order.
fn outcome(alloc: Global) -> Result<(usize, u64), AllocError> {
    let planner = plan(alloc, systems(alloc)?)?;
    let checksum = checksum_of(alloc, &planner)?;
    Ok((planner.stage_count(), checksum))
}

/// Prints how many stages the systems take, and the checksum of their order.
pub fn print_plan<R: Print + AllocGlobal>(rt: &R) -> io::Result<()> {
    let (stages, checksum) = outcome(rt.alloc())?;
    println!(rt;
        "plan of {PLANNED} systems drawn over {IDS} ids: {stages} stages, order {checksum}"
    )
}

/// How many microseconds the plan of some systems takes, and how many stages it has.
fn time_of<R: Clock>(
    rt: &R,
    alloc: Global,
    systems: Vec<Adding<u64>>,
) -> io::Result<(u128, usize)> {
    let start = Instant::now(rt)?;
    let planner = plan(alloc, systems)?;
    let taken = start.elapsed(rt)?.as_micros();
    Ok((taken, planner.stage_count()))
}

/// Prints how long the plan takes.
pub fn print_time<R: Print + AllocGlobal + Clock>(rt: &R) -> io::Result<()> {
    let (taken, stages) = time_of(rt, rt.alloc(), systems(rt.alloc())?)?;
    println!(rt; "plan of {PLANNED} systems drawn over {IDS} ids: {taken} us, {stages} stages")
}
