//! The ways in which systems write parts, each beside the same over plain vectors.
//!
//! The small runs are of 1000 places and print checksums. The timed ones are of 1,000,000, and print the time of a place that is written.

mod parts;
mod telling;
mod ways;

use crate::timed::each;
use parts::{Place, Plain, Scene, make_plain, make_scene, sum_of, sum_of_plain};
use specs_entity::EntitiesRes;
use specs_join::store_all;
use specs_storage::Storage;
use std::alloc::{AllocError, Global};
use std::io;
use std::thread::Threads;
use std::time::{Clock, Instant};
use ways::{by_change_each, by_cursor, by_entries, further, plainly, store_plainly};

/// How many places are timed.
const PLACES: u64 = 1_000_000;

/// The end of their indices.
const END: u32 = 1_000_000;

/// Drifts stand at every so manieth index.
const STEPS: [u32; 3] = [1, 10, 100];

/// The line of checksums of the ways beside drifts.
fn check<R: Print>(rt: &R, alloc: Global, scene: &mut Scene, step: u32) -> io::Result<()> {
    by_cursor(&mut scene.places, &scene.drifts);
    let cursor = sum_of(scene);
    by_change_each(&mut scene.places, &scene.drifts)?;
    let changed = sum_of(scene);
    drift_entries(alloc, scene);
    let entries = sum_of(scene);
    println!(rt; "every {step}: cursor {cursor}, change_each {changed}, entries {entries}")
}

/// The entries of a storage that is lent with entities of whom none is born.
fn drift_entries(alloc: Global, scene: &mut Scene) {
    let entities = EntitiesRes::new(alloc);
    let mut storage = Storage::new(&entities, &mut scene.places);
    by_entries(&mut storage, &scene.drifts);
}

/// The line of checksums of values that are stored at once.
fn check_store<R: Print + Threads + Sync>(
    rt: &R,
    alloc: Global,
    scene: &mut Scene,
) -> io::Result<()> {
    let values = further(rt, alloc, &scene.places)?;
    store_all(&mut scene.places, values)?;
    let stored = sum_of(scene);
    println!(rt; "store_all {stored}")
}

/// The line of checksums of the same over plain vectors.
fn check_plain<R: Print>(rt: &R, alloc: Global, step: u32) -> io::Result<()> {
    let (once, twice, thrice) = plain_sums(alloc, step)?;
    println!(rt; "plain, every {step}: {once}, {twice}, {thrice}")
}

/// The sums of plain places after each of three times that their drifts are added.
fn plain_sums(alloc: Global, step: u32) -> Result<(u64, u64, u64), AllocError> {
    let mut plain = make_plain(alloc, 1000, step)?;
    let once = plain_sum(&mut plain);
    let twice = plain_sum(&mut plain);
    Ok((once, twice, plain_sum(&mut plain)))
}

/// The sum of plain places once more drifts are added.
fn plain_sum(plain: &mut Plain) -> u64 {
    plainly(plain);
    sum_of_plain(plain)
}

/// The nanoseconds of one of so many places, by a cursor.
fn time_cursor<R: Clock>(rt: &R, scene: &mut Scene, places: u64) -> io::Result<u128> {
    let start = Instant::now(rt)?;
    by_cursor(&mut scene.places, &scene.drifts);
    each(rt, start, places)
}

/// The nanoseconds of one of so many places, by `change_each`.
fn time_change_each<R: Clock>(rt: &R, scene: &mut Scene, places: u64) -> io::Result<u128> {
    let start = Instant::now(rt)?;
    by_change_each(&mut scene.places, &scene.drifts)?;
    each(rt, start, places)
}

/// The nanoseconds of one of so many places, by entries.
fn time_entries<R: Clock>(
    rt: &R,
    alloc: Global,
    scene: &mut Scene,
    places: u64,
) -> io::Result<u128> {
    let start = Instant::now(rt)?;
    drift_entries(alloc, scene);
    each(rt, start, places)
}

/// The times of cursors, `change_each` and entries, of one place.
fn time_ways<R: Clock + Print>(
    rt: &R,
    alloc: Global,
    scene: &mut Scene,
    places: u64,
) -> io::Result<()> {
    let cursor = time_cursor(rt, scene, places)?;
    let changed = time_change_each(rt, scene, places)?;
    let entries = time_entries(rt, alloc, scene, places)?;
    println!(rt;
        "{places} places: cursor {cursor} ns, change_each {changed} ns, entries {entries} ns"
    )
}

/// The time of the same over plain vectors.
fn time_plain<R: Clock + Print>(rt: &R, plain: &mut Plain, places: u64) -> io::Result<()> {
    let start = Instant::now(rt)?;
    plainly(plain);
    let nanos = each(rt, start, places)?;
    println!(rt; "{places} plain places: {nanos} ns")
}

/// The nanoseconds of a value that is stored in the storage, with all others at once.
fn time_store<R: Clock + Threads + Sync>(
    rt: &R,
    alloc: Global,
    scene: &mut Scene,
) -> io::Result<u128> {
    let values = further(rt, alloc, &scene.places)?;
    let start = Instant::now(rt)?;
    store_all(&mut scene.places, values)?;
    each(rt, start, PLACES)
}

/// The nanoseconds of a value that is stored in plain places, with all others.
fn time_plain_store<R: Clock>(rt: &R, plain: &mut Plain, values: Vec<Place>) -> io::Result<u128> {
    let start = Instant::now(rt)?;
    store_plainly(plain, values);
    each(rt, start, PLACES)
}

/// The times of a list that is stored in the storage, and in plain places.
fn time_stores<R: Clock + Print + Threads + Sync>(
    rt: &R,
    alloc: Global,
    scene: &mut Scene,
    plain: &mut Plain,
) -> io::Result<()> {
    let stored = time_store(rt, alloc, scene)?;
    let values = further(rt, alloc, &scene.places)?;
    let plainly = time_plain_store(rt, plain, values)?;
    println!(rt; "{PLACES} values: store_all {stored} ns, plain {plainly} ns")
}

/// The lines of times of a scene, and of the same in plain vectors.
fn time_both<R: Clock + Print + Threads + Sync>(
    rt: &R,
    alloc: Global,
    scene: &mut Scene,
    plain: &mut Plain,
    places: u64,
) -> io::Result<()> {
    time_ways(rt, alloc, scene, places)?;
    time_plain(rt, plain, places)?;
    time_stores(rt, alloc, scene, plain)
}

/// The lines of times at one share of drifts.
fn time<R: Clock + Print + Threads + Sync>(rt: &R, alloc: Global, step: u32) -> io::Result<()> {
    let mut scene = make_scene(alloc, END, step)?;
    let mut plain = make_plain(alloc, END, step)?;
    let places = if step != 0 {
        PLACES / u64::from(step)
    } else {
        0
    };
    time_both(rt, alloc, &mut scene, &mut plain, places)
}

/// The lines of times.
///
/// Errors: those of printing and of the clock, and want of memory.
pub fn times<R: Clock + Print + Threads + Sync>(rt: &R, alloc: Global) -> io::Result<()> {
    for step in STEPS {
        time(rt, alloc, step)?;
    }
    telling::time(rt, alloc, END)
}

/// The lines of checksums of a scene.
fn check_scene<R: Print + Threads + Sync>(
    rt: &R,
    alloc: Global,
    scene: &mut Scene,
    step: u32,
) -> io::Result<()> {
    check(rt, alloc, scene, step)?;
    check_store(rt, alloc, scene)
}

/// The lines of checksums at one share of drifts.
fn check_at<R: Print + Threads + Sync>(rt: &R, alloc: Global, step: u32) -> io::Result<()> {
    let mut scene = make_scene(alloc, 1000, step)?;
    check_scene(rt, alloc, &mut scene, step)
}

/// The lines of checksums.
///
/// Errors: those of printing, and want of memory.
pub fn checksums<R: Print + Threads + Sync>(rt: &R, alloc: Global) -> io::Result<()> {
    for step in STEPS {
        check_at(rt, alloc, step)?;
        check_plain(rt, alloc, step)?;
    }
    telling::check(rt, alloc)
}
