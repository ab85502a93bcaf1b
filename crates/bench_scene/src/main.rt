//! Measures scenes: a document loaded, its frames, and its text.
//!
//! Without an argument it runs 1000 entities in each way and prints what comes of them. With the argument `times` it prints, for 1,000
//! to 1,000,000 entities, the time of an entity loaded, in a frame and printed. With a way (`drift`, `five`, `sparse`, `commands`,
//! `chains`, `star`, `bonds`), a number of entities and one of frames it runs that alone and prints the length of the text, so that
//! a tool may count its work.
#![tactic(auto)]

mod documents;

use documents::{Work, document};
use scene::{Limits, Rules, Scene, run_to_end};
use scene_basics::Basics;
use std::alloc::{AllocError, Global};
use std::sync::Wait;
use std::thread::Threads;
use std::time::{Clock, Instant};
use std::{env, io};

/// The ways, by their names.
const WORKS: [(&str, Work); 7] = [
    ("drift", Work::Drift),
    ("five", Work::Five),
    ("sparse", Work::Sparse),
    ("commands", Work::Commands),
    ("chains", Work::Chains),
    ("star", Work::Star),
    ("bonds", Work::Bonds),
];

/// The numbers of entities that are timed.
const COUNTS: [u32; 4] = [1000, 10_000, 100_000, 1_000_000];

/// How many frames are timed.
const FRAMES: u32 = 10;

/// How many bytes the text of a scene has after its frames, and how many of these were accepted.
fn outcome<R: Rules + Drop + Send + Sync, H: AllocGlobal + Threads + Wait + Sync>(
    rt: &H,
    rules: R,
    text: &str,
) -> Result<(usize, u32), AllocError>
where
    R::Value: Drop + Send + Sync,
    R::Data: Send + Sync,
    R::Global: Send + Sync,
    R::System: Send + Sync,
{
    let Ok(scene) = Scene::open(rt.alloc(), rules, Limits::FULL, text.as_bytes()) else {
        return Err(AllocError);
    };
    let scene = run_to_end(rt, scene);
    let written = scene.snapshot(rt.alloc())?;
    let (_, report) = scene.into_parts();
    Ok((written.len(), report.frames))
}

/// How many bytes the text of a document of so many entities has after its frames, and how many of these were accepted.
fn outcome_of<H: AllocGlobal + Threads + Wait + Sync>(
    rt: &H,
    work: Work,
    count: u32,
    frames: u32,
) -> Result<(usize, u32), AllocError> {
    let text = document(rt.alloc(), work, count, frames, 0, "vec")?;
    outcome(rt, Basics, text.as_str())
}

/// The nanoseconds of one of so many, which began at `start`.
fn each<R: Clock>(rt: &R, start: Instant, count: u32) -> io::Result<u128> {
    let nanos = start.elapsed(rt)?.as_nanos();
    Ok(if count != 0 { nanos / count as u128 } else { 0 })
}

/// The times of a scene: the nanoseconds of an entity loaded, in a frame, and printed, and the bytes of its text.
fn times<R: Rules + Drop + Send + Sync, H: AllocGlobal + Clock + Threads + Wait + Sync>(
    rt: &H,
    rules: R,
    text: &str,
    count: u32,
) -> io::Result<(u128, u128, u128, usize)>
where
    R::Value: Drop + Send + Sync,
    R::Data: Send + Sync,
    R::Global: Send + Sync,
    R::System: Send + Sync,
{
    let start = Instant::now(rt)?;
    let Ok(scene) = Scene::open(rt.alloc(), rules, Limits::FULL, text.as_bytes()) else {
        return Err(AllocError.into());
    };
    let loading = each(rt, start, count)?;
    let start = Instant::now(rt)?;
    let scene = run_to_end(rt, scene);
    let running = each(rt, start, count.saturating_mul(FRAMES))?;
    let start = Instant::now(rt)?;
    let written = scene.snapshot(rt.alloc())?;
    let printing = each(rt, start, count)?;
    let _ = scene.into_parts();
    Ok((loading, running, printing, written.len()))
}

/// The line of times of a way.
fn time_work<H: AllocGlobal + Clock + Print + Threads + Wait + Sync>(
    rt: &H,
    name: &str,
    work: Work,
    count: u32,
    workers: u32,
    store: &str,
) -> io::Result<()> {
    let text = document(rt.alloc(), work, count, FRAMES, workers, store)?;
    let (loading, running, printing, bytes) = times(rt, Basics, text.as_str(), count)?;
    println!(rt;
        "{name}, {count}, {workers} workers, {store}: loaded {loading} ns, a frame {running} ns, printed {printing} ns each ({bytes} bytes)"
    )
}

/// The lines of times.
fn time_all<R: AllocGlobal + Clock + Print + Threads + Wait + Sync>(rt: &R) -> io::Result<()> {
    for (name, work) in WORKS {
        for count in COUNTS {
            time_work(rt, name, work, count, 0, "vec")?;
        }
    }
    for workers in [1, 2, 4] {
        time_work(rt, "five", Work::Five, 100_000, workers, "vec")?;
    }
    for store in ["dense", "hash", "btree"] {
        time_work(rt, "five", Work::Five, 100_000, 0, store)?;
    }
    Ok(())
}

/// The lines of what comes of each way.
fn check_all<R: AllocGlobal + Print + Threads + Wait + Sync>(rt: &R) -> io::Result<()> {
    for (name, work) in WORKS {
        let (bytes, frames) = outcome_of(rt, work, 1000, 3)?;
        println!(rt; "{name}: {frames} frames, {bytes} bytes")?;
    }
    Ok(())
}

/// The number that a word is, or none.
fn number(word: &str) -> u32 {
    word.parse().unwrap_or(0)
}

/// The way of a name, or drift.
fn named(name: &str) -> Work {
    for (other, work) in WORKS {
        if other == name {
            return work;
        }
    }
    Work::Drift
}

/// The line of one way, so many entities and frames.
fn run_one<R: AllocGlobal + Print + Threads + Wait + Sync>(
    rt: &R,
    words: &[String],
) -> io::Result<()> {
    let [name, count, frames] = words else {
        return Ok(());
    };
    let (bytes, accepted) = outcome_of(
        rt,
        named(name.as_str()),
        number(count.as_str()),
        number(frames.as_str()),
    )?;
    println!(rt; "{accepted} frames, {bytes} bytes")
}

fn main(rt: HostRuntime) -> io::Result<()> {
    let words: Vec<String> = env::args(&rt)?.skip(1).collect(rt.alloc())?;
    match words.len() {
        0 => check_all(&rt),
        1 => time_all(&rt),
        _ => run_one(&rt, words.as_slice()),
    }
}
