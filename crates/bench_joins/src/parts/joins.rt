//! Joins of two and of four storages.
use crate::parts::kinds::{Fuel, Heat, Mass, Numbered, Rank, Speed, empty, fill};
use crate::timed::each;
use specs_join::Join;
use specs_layouts::MaskedStorage;
use std::alloc::{AllocError, Global};
use std::io;
use std::time::{Clock, Instant};

/// Two storages: one with a part at each index below an end, the other at every so manieth.
#[derive(Drop)]
pub struct Pair {
    pub masses: MaskedStorage<Mass>,
    pub speeds: MaskedStorage<Speed>,
}

/// Three storages with a part at every so manieth index below an end.
#[derive(Drop)]
struct Others {
    heats: MaskedStorage<Heat>,
    fuels: MaskedStorage<Fuel>,
    ranks: MaskedStorage<Rank>,
}

/// The storages that are joined.
#[derive(Drop)]
struct Scene {
    pair: Pair,
    others: Others,
}

/// What a join gave.
#[derive(Clone, Copy)]
pub struct Joined {
    /// How many items came.
    pub count: u64,
    /// A sum over the items in their order, which goes round at 2 ^ 64.
    pub sum: u64,
}

impl Joined {
    /// Counts an item that shows this number.
    pub fn add(&mut self, number: u64) {
        self.count = self.count.wrapping_add(1);
        self.sum = self.sum.wrapping_mul(31).wrapping_add(number);
    }
}

/// A storage with a part at every `step`-th index below `end`.
///
/// Errors: `AllocError`.
pub fn filled<C: Numbered>(
    alloc: Global,
    end: u32,
    step: u32,
) -> Result<MaskedStorage<C>, AllocError> {
    let mut storage = empty(alloc)?;
    let _ = fill(&mut storage, end, step)?;
    Ok(storage)
}

/// The storages of a pair.
///
/// Errors: `AllocError`.
pub fn make_pair(alloc: Global, end: u32, step: u32) -> Result<Pair, AllocError> {
    let masses = filled(alloc, end, 1)?;
    let speeds = filled(alloc, end, step)?;
    Ok(Pair { masses, speeds })
}

/// The other storages.
///
/// Errors: `AllocError`.
fn make_others(alloc: Global, end: u32, step: u32) -> Result<Others, AllocError> {
    let heats = filled(alloc, end, step)?;
    let fuels = filled(alloc, end, step)?;
    let ranks = filled(alloc, end, step)?;
    Ok(Others {
        heats,
        fuels,
        ranks,
    })
}

/// The storages of a scene.
///
/// Errors: `AllocError`.
fn make_scene(alloc: Global, end: u32, step: u32) -> Result<Scene, AllocError> {
    let pair = make_pair(alloc, end, step)?;
    let others = make_others(alloc, end, step)?;
    Ok(Scene { pair, others })
}

/// Parts that stand at one index, which show a number together.
pub trait Numbers: Drop {
    /// The sum of their numbers.
    fn sum(self) -> u64;
}

impl<'a, A: Numbered, B: Numbered> Numbers for (&'a A, &'a B) {
    fn sum(self) -> u64 {
        u64::from(self.0.number()) + u64::from(self.1.number())
    }
}

impl<'a, A: Numbered, B: Numbered, C: Numbered, D: Numbered> Numbers
    for (&'a A, &'a B, &'a C, &'a D) {
    fn sum(self) -> u64 {
        let first = u64::from(self.0.number()) + u64::from(self.1.number());
        let second = u64::from(self.2.number()) + u64::from(self.3.number());
        first + second
    }
}

/// What a join gives.
fn walk<J: Join>(join: J) -> Joined
where
    J::Type: Numbers,
{
    let mut joined = Joined { count: 0, sum: 0 };
    for parts in join.join() {
        joined.add(parts.sum());
    }
    joined
}

/// The join of the first two storages.
fn join_two(scene: &Scene) -> Joined {
    walk((&scene.pair.masses, &scene.pair.speeds))
}

/// The join of four storages, of which none is a tree.
fn join_four_flat(scene: &Scene) -> Joined {
    let Scene { pair, others } = scene;
    walk((&pair.masses, &pair.speeds, &others.heats, &others.fuels))
}

/// The join of four storages, of which the last is a tree.
fn join_four(scene: &Scene) -> Joined {
    let Scene { pair, others } = scene;
    walk((&pair.masses, &pair.speeds, &others.heats, &others.ranks))
}

/// The line of checksums of a join.
fn print_joined<R: Print>(rt: &R, name: &str, step: u32, joined: Joined) -> io::Result<()> {
    let Joined { count, sum } = joined;
    println!(rt; "{name}, every {step} of 1000: {count} items, sum {sum}")
}

/// The lines of checksums of one scene.
fn check<R: Print>(rt: &R, scene: &Scene, step: u32) -> io::Result<()> {
    print_joined(rt, "join of two", step, join_two(scene))?;
    print_joined(rt, "join of four", step, join_four(scene))?;
    print_joined(
        rt,
        "join of four without a tree",
        step,
        join_four_flat(scene),
    )
}

/// Lines of checksums, with all, a tenth and a hundredth of 1000 entities in both or in all four.
///
/// Errors: those of printing, and want of memory.
pub fn checksums<R: Print>(rt: &R, alloc: Global) -> io::Result<()> {
    for step in [1u32, 10, 100] {
        let scene = make_scene(alloc, 1000, step)?;
        check(rt, &scene, step)?;
    }
    Ok(())
}

/// The nanoseconds of an item of the join of two.
fn time_two<R: Clock>(rt: &R, scene: &Scene) -> io::Result<u128> {
    let start = Instant::now(rt)?;
    each(rt, start, join_two(scene).count)
}

/// The nanoseconds of an item of the join of four.
fn time_four<R: Clock>(rt: &R, scene: &Scene) -> io::Result<u128> {
    let start = Instant::now(rt)?;
    each(rt, start, join_four(scene).count)
}

/// The nanoseconds of an item of the join of four without a tree, and how many came.
fn time_four_flat<R: Clock>(rt: &R, scene: &Scene) -> io::Result<(u128, u64)> {
    let start = Instant::now(rt)?;
    let items = join_four_flat(scene).count;
    Ok((each(rt, start, items)?, items))
}

/// The line of times of the joins of one scene.
fn time<R: Clock + Print>(rt: &R, scene: &Scene, end: u32, step: u32) -> io::Result<()> {
    let two = time_two(rt, scene)?;
    let four = time_four(rt, scene)?;
    let (flat, items) = time_four_flat(rt, scene)?;
    println!(rt;
        "joins, every {step} of {end}: {items} items, of two {two} ns each, of four {four} ns each, without a tree {flat} ns each"
    )
}

/// Lines of times at 1,000 to 1,000,000 entities with all, a tenth and a hundredth of them in the join.
///
/// Errors: those of printing and of the clock, and want of memory.
pub fn times<R: Clock + Print>(rt: &R, alloc: Global) -> io::Result<()> {
    for end in [1000u32, 10_000, 100_000, 1_000_000] {
        for step in [1u32, 10, 100] {
            let scene = make_scene(alloc, end, step)?;
            time(rt, &scene, end, step)?;
        }
    }
    Ok(())
}
