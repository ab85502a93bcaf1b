//! Measures dispatches and plans of systems, and worlds of entities with their jobs.
//!
//! Without an argument it runs small loads and prints checksums. With the argument `times` it prints the times of all, with
//! `dispatches` or `worlds` those of that subject alone.
#![tactic(auto)]

mod dispatches;
mod worlds;

use std::sync::Wait;
use std::thread::Threads;
use std::time::Clock;
use std::{env, io};

/// What a word asks for.
#[derive(Clone, Copy)]
enum Wish {
    /// The checksums of all.
    Checksums,
    /// The times of all.
    Times,
    /// The times of dispatches and plans.
    Dispatches,
    /// The times of worlds.
    Worlds,
}

/// What a word asks for; one that is none of these, for the checksums.
fn wish_of(word: &str) -> Wish {
    match word {
        "times" => Wish::Times,
        "dispatches" => Wish::Dispatches,
        "worlds" => Wish::Worlds,
        _ => Wish::Checksums,
    }
}

/// The lines of checksums.
fn checksums<R: Print + AllocGlobal + Threads + Wait + Sync>(rt: &R) -> io::Result<()> {
    dispatches::checksums(rt)?;
    worlds::checksums(rt, rt.alloc())
}

/// The lines of times of all.
fn times<R: Print + AllocGlobal + Threads + Wait + Sync + Clock>(rt: &R) -> io::Result<()> {
    dispatches::times(rt)?;
    worlds::times(rt, rt.alloc())
}

fn main(rt: HostRuntime) -> io::Result<()> {
    let mut wish = Wish::Checksums;
    for word in env::args(&rt)?.skip(1) {
        wish = wish_of(word.as_str());
    }
    match wish {
        Wish::Checksums => checksums(&rt),
        Wish::Times => times(&rt),
        Wish::Dispatches => dispatches::times(&rt),
        Wish::Worlds => worlds::times(&rt, rt.alloc()),
    }
}
