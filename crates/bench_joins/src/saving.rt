//! Entities that are saved as JSON text and loaded again, beside the same JSON made of plain vectors.
//!
//! The small runs are of 1000 entities and print sums. The timed ones are of 100,000, and print the time of one in each step.

mod goals;
mod plain;
mod saved;

use crate::timed::each;
use plain::Plain;
use saved::{Entries, Scene, entries_of, value_of};
use serde_json::Value;
use std::alloc::{AllocError, Global};
use std::io;
use std::time::{Clock, Instant};

/// How many entities are timed.
const ENTITIES: u32 = 100_000;

/// How many these are.
const COUNT: u64 = 100_000;

/// A scene of so many entities, of which the first so many are marked.
fn scene_of(alloc: Global, count: u32, marked: u32) -> Result<Scene, AllocError> {
    match Scene::new(alloc, count, marked) {
        Ok(scene) => Ok(scene),
        Err(_) => Err(AllocError),
    }
}

/// What is saved of the marked ones of a scene.
fn entries_in(alloc: Global, scene: &Scene) -> Result<Entries, AllocError> {
    match scene.entries(alloc) {
        Ok(entries) => Ok(entries),
        Err(_) => Err(AllocError),
    }
}

/// What is saved of a scene, of its marked ones and all that they name.
fn reached_in(alloc: Global, scene: &mut Scene) -> Result<Entries, AllocError> {
    match scene.reached(alloc) {
        Ok(entries) => Ok(entries),
        Err(_) => Err(AllocError),
    }
}

/// The entries that a JSON is.
fn entries_read(alloc: Global, json: &Value) -> Result<Entries, AllocError> {
    match entries_of(alloc, json) {
        Ok(entries) => Ok(entries),
        Err(_) => Err(AllocError),
    }
}

/// A scene into which entries are loaded.
fn loaded(alloc: Global, entries: Entries) -> Result<Scene, AllocError> {
    match Scene::loaded(alloc, entries) {
        Ok(scene) => Ok(scene),
        Err(_) => Err(AllocError),
    }
}

/// The JSON of a text.
fn parsed(alloc: Global, text: &str) -> Result<Value, AllocError> {
    match Value::from_str(alloc, text) {
        Ok(json) => Ok(json),
        Err(_) => Err(AllocError),
    }
}

/// The text that a scene is saved as.
fn text_of(alloc: Global, scene: &Scene) -> Result<String, AllocError> {
    let entries = entries_in(alloc, scene)?;
    let json = value_of(alloc, &entries)?;
    json.to_string(alloc)
}

/// The text that a scene of 1000 marked entities is saved as.
fn saved_text(alloc: Global) -> Result<String, AllocError> {
    let scene = scene_of(alloc, 1000, 1000)?;
    text_of(alloc, &scene)
}

/// Bytes of a text, and the sums of healths, of goals and of owners that are read from it.
type Sums = (usize, i64, i64, u64);

/// The sums of a scene that is loaded from a JSON.
fn loaded_sums(alloc: Global, json: &Value) -> Result<(i64, i64, u64), AllocError> {
    let entries = entries_read(alloc, json)?;
    let scene = loaded(alloc, entries)?;
    Ok(scene.sums())
}

/// The sums of a scene that is loaded from a text.
fn sums_of_text(alloc: Global, text: &str) -> Result<Sums, AllocError> {
    let json = parsed(alloc, text)?;
    let (healths, goals, owners) = loaded_sums(alloc, &json)?;
    Ok((text.len(), healths, goals, owners))
}

/// The sums of entities that are saved and loaded.
fn saved_sums(alloc: Global) -> Result<Sums, AllocError> {
    let text = saved_text(alloc)?;
    sums_of_text(alloc, text.as_str())
}

/// The text that plain vectors are saved as.
fn plain_text(alloc: Global, plain: &Plain) -> Result<String, AllocError> {
    let json = plain.value(alloc)?;
    json.to_string(alloc)
}

/// The sums of plain vectors that are read from a text.
fn plain_sums_of_text(alloc: Global, text: &str) -> Result<Sums, AllocError> {
    let json = parsed(alloc, text)?;
    let (healths, goals, owners) = Plain::read(alloc, &json)?.sums();
    Ok((text.len(), healths, goals, owners))
}

/// The sums of plain vectors that are saved and loaded.
fn plain_sums(alloc: Global) -> Result<Sums, AllocError> {
    let plain = Plain::new(alloc, 1000)?;
    let text = plain_text(alloc, &plain)?;
    plain_sums_of_text(alloc, text.as_str())
}

/// How many of 1000 entities are saved because others name them.
fn reached_count(alloc: Global) -> Result<usize, AllocError> {
    let mut scene = scene_of(alloc, 1000, 1)?;
    Ok(reached_in(alloc, &mut scene)?.len())
}

/// The line of sums of a way.
fn print_sums<R: Print>(rt: &R, name: &str, sums: Sums) -> io::Result<()> {
    let (bytes, healths, goals, owners) = sums;
    println!(rt; "{name}: {bytes} bytes, healths {healths}, goals {goals}, owners {owners}")
}

/// The line of entities that are saved because others name them.
fn check_reached<R: Print>(rt: &R, alloc: Global) -> io::Result<()> {
    let count = reached_count(alloc)?;
    println!(rt; "reached: {count}")
}

/// The lines of times of entities that are saved and loaded.
fn time_saved<R: Clock + Print>(rt: &R, alloc: Global) -> io::Result<()> {
    let scene = scene_of(alloc, ENTITIES, ENTITIES)?;
    time_scene(rt, alloc, &scene)
}

/// The lines of times of a scene that is saved and loaded.
fn time_scene<R: Clock + Print>(rt: &R, alloc: Global, scene: &Scene) -> io::Result<()> {
    let start = Instant::now(rt)?;
    let entries = entries_in(alloc, scene)?;
    print_listed(rt, start)?;
    time_entries(rt, alloc, &entries)
}

/// The line of the time of entities that are listed.
fn print_listed<R: Clock + Print>(rt: &R, start: Instant) -> io::Result<()> {
    let listing = each(rt, start, COUNT)?;
    println!(rt; "saved: listed {listing} ns each")
}

/// The lines of times of entries that are made into JSON and loaded.
fn time_entries<R: Clock + Print>(rt: &R, alloc: Global, entries: &Entries) -> io::Result<()> {
    let start = Instant::now(rt)?;
    let json = value_of(alloc, entries)?;
    let making = each(rt, start, COUNT)?;
    let (text, printing) = time_text(rt, alloc, &json)?;
    print_made(rt, making, printing)?;
    time_loaded(rt, alloc, text.as_str())
}

/// The text of a JSON, and the nanoseconds of an entity in it.
fn time_text<R: Clock>(rt: &R, alloc: Global, json: &Value) -> io::Result<(String, u128)> {
    let start = Instant::now(rt)?;
    let text = json.to_string(alloc)?;
    Ok((text, each(rt, start, COUNT)?))
}

/// The line of times of a JSON that is made and printed.
fn print_made<R: Print>(rt: &R, making: u128, printing: u128) -> io::Result<()> {
    println!(rt; "JSON: made {making} ns, printed {printing} ns each")
}

/// The line of times of a text that is loaded.
fn time_loaded<R: Clock + Print>(rt: &R, alloc: Global, text: &str) -> io::Result<()> {
    let (json, parsing) = time_parsing(rt, alloc, text)?;
    let (entries, reading) = time_reading(rt, alloc, &json)?;
    let (healths, loading) = time_loading(rt, alloc, entries)?;
    println!(rt;
        "loaded: parsed {parsing} ns, JSON read {reading} ns, made {loading} ns each ({healths})"
    )
}

/// The JSON of a text, and the nanoseconds of an entity in it.
fn time_parsing<R: Clock>(rt: &R, alloc: Global, text: &str) -> io::Result<(Value, u128)> {
    let start = Instant::now(rt)?;
    let json = parsed(alloc, text)?;
    Ok((json, each(rt, start, COUNT)?))
}

/// The entries of a JSON, and the nanoseconds of one.
fn time_reading<R: Clock>(rt: &R, alloc: Global, json: &Value) -> io::Result<(Entries, u128)> {
    let start = Instant::now(rt)?;
    let entries = entries_read(alloc, json)?;
    Ok((entries, each(rt, start, COUNT)?))
}

/// The sum of healths of a scene into which entries are loaded, and the nanoseconds of one.
fn time_loading<R: Clock>(rt: &R, alloc: Global, entries: Entries) -> io::Result<(i64, u128)> {
    let start = Instant::now(rt)?;
    let scene = loaded(alloc, entries)?;
    let loading = each(rt, start, COUNT)?;
    let (healths, _, _) = scene.sums();
    Ok((healths, loading))
}

/// The line of times of plain vectors.
fn time_plain<R: Clock + Print>(rt: &R, alloc: Global) -> io::Result<()> {
    let plain = Plain::new(alloc, ENTITIES)?;
    time_plain_value(rt, alloc, &plain)
}

/// The line of times of plain vectors that are made into JSON and read again.
fn time_plain_value<R: Clock + Print>(rt: &R, alloc: Global, plain: &Plain) -> io::Result<()> {
    let start = Instant::now(rt)?;
    let json = plain.value(alloc)?;
    let making = each(rt, start, COUNT)?;
    let (text, printing) = time_text(rt, alloc, &json)?;
    time_plain_text(rt, alloc, text.as_str(), making, printing)
}

/// The line of times of plain vectors whose text is read again.
fn time_plain_text<R: Clock + Print>(
    rt: &R,
    alloc: Global,
    text: &str,
    making: u128,
    printing: u128,
) -> io::Result<()> {
    let (json, parsing) = time_parsing(rt, alloc, text)?;
    let (healths, reading) = time_plain_reading(rt, alloc, &json)?;
    println!(rt;
        "plain: JSON made {making} ns, printed {printing} ns, parsed {parsing} ns, read {reading} ns each ({healths})"
    )
}

/// The sum of healths of plain vectors that a JSON is read to, and the nanoseconds of an entity.
fn time_plain_reading<R: Clock>(rt: &R, alloc: Global, json: &Value) -> io::Result<(i64, u128)> {
    let start = Instant::now(rt)?;
    let again = Plain::read(alloc, json)?;
    let reading = each(rt, start, COUNT)?;
    let (healths, _, _) = again.sums();
    Ok((healths, reading))
}

/// How many entities are saved because others name them, each by the one before, and the nanoseconds of one.
fn reached_in_time<R: Clock>(rt: &R, alloc: Global) -> io::Result<(usize, u128)> {
    let mut scene = scene_of(alloc, ENTITIES, 1)?;
    time_reaching(rt, alloc, &mut scene)
}

/// How many entities of a scene are saved because others name them, and the nanoseconds of one.
fn time_reaching<R: Clock>(rt: &R, alloc: Global, scene: &mut Scene) -> io::Result<(usize, u128)> {
    let start = Instant::now(rt)?;
    let entries = reached_in(alloc, scene)?;
    let listing = each(rt, start, COUNT)?;
    Ok((entries.len(), listing))
}

/// The line of times of entities that are saved because others name them.
fn time_reached<R: Clock + Print>(rt: &R, alloc: Global) -> io::Result<()> {
    let (count, listing) = reached_in_time(rt, alloc)?;
    println!(rt; "reached: listed {listing} ns each ({count})")
}

/// The lines of sums.
///
/// Errors: those of printing, and want of memory.
pub fn checksums<R: Print>(rt: &R, alloc: Global) -> io::Result<()> {
    print_sums(rt, "saved", saved_sums(alloc)?)?;
    print_sums(rt, "plain", plain_sums(alloc)?)?;
    check_reached(rt, alloc)
}

/// The lines of times, of saving and of plain vectors twice in turn: the first round finds no page of memory
/// in use.
///
/// Errors: those of printing and of the clock, and want of memory.
pub fn times<R: Clock + Print>(rt: &R, alloc: Global) -> io::Result<()> {
    for _ in 0..2 {
        time_saved(rt, alloc)?;
        time_plain(rt, alloc)?;
    }
    time_reached(rt, alloc)
}
