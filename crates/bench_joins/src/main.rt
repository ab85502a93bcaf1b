//! Measures sets of indices, entities and their parts, changes of parts, saving, and phases.
//!
//! Without an argument it runs small numbers and prints checksums. With the argument `times` it prints the times of all,
//! with `sets`, `parts`, `changes`, `saving` or `phases` those of that subject alone. With a number it makes so many runs
//! of phases.
#![tactic(auto)]

mod changes;
mod parts;
mod phases;
mod saving;
mod sets;
mod timed;

use std::alloc::Global;
use std::sync::Wait;
use std::thread::Threads;
use std::time::Clock;
use std::{env, io};

/// What is measured, in the order of the lines.
#[derive(Clone, Copy)]
enum Subject {
    Sets,
    Parts,
    Changes,
    Saving,
    Phases,
}

/// What a word asks for.
#[derive(Clone, Copy)]
enum Wish {
    /// The checksums of all.
    Checksums,
    /// The times of all.
    Times,
    /// The times of one.
    TimesOf(Subject),
    /// So many runs of phases.
    Phases(u32),
}

/// All subjects.
const SUBJECTS: [Subject; 5] = [
    Subject::Sets,
    Subject::Parts,
    Subject::Changes,
    Subject::Saving,
    Subject::Phases,
];

/// What a word asks for: one that is none of these and no number, for the checksums.
fn wish_of(word: &str) -> Wish {
    match word {
        "times" => Wish::Times,
        "sets" => Wish::TimesOf(Subject::Sets),
        "parts" => Wish::TimesOf(Subject::Parts),
        "changes" => Wish::TimesOf(Subject::Changes),
        "saving" => Wish::TimesOf(Subject::Saving),
        "phases" => Wish::TimesOf(Subject::Phases),
        _ => match word.parse::<u32>() {
            Ok(runs) => Wish::Phases(runs),
            Err(_) => Wish::Checksums,
        },
    }
}

/// The lines of checksums of a subject.
fn checksums<R: Print + Threads + Sync>(rt: &R, alloc: Global, subject: Subject) -> io::Result<()> {
    match subject {
        Subject::Sets => sets::checksums(rt, alloc),
        Subject::Parts => parts::checksums(rt, alloc),
        Subject::Changes => changes::checksums(rt, alloc),
        Subject::Saving => saving::checksums(rt, alloc),
        Subject::Phases => phases::checksums(rt, alloc),
    }
}

/// The lines of times of a subject.
fn times<R: Clock + Print + Threads + Wait + Sync>(
    rt: &R,
    alloc: Global,
    subject: Subject,
) -> io::Result<()> {
    match subject {
        Subject::Sets => sets::times(rt, alloc),
        Subject::Parts => parts::times(rt, alloc),
        Subject::Changes => changes::times(rt, alloc),
        Subject::Saving => saving::times(rt, alloc),
        Subject::Phases => phases::times(rt, alloc),
    }
}

/// The lines of checksums of all.
fn all_checksums<R: Print + Threads + Sync>(rt: &R, alloc: Global) -> io::Result<()> {
    for subject in SUBJECTS {
        checksums(rt, alloc, subject)?;
    }
    Ok(())
}

/// The lines of times of all.
fn all_times<R: Clock + Print + Threads + Wait + Sync>(rt: &R, alloc: Global) -> io::Result<()> {
    for subject in SUBJECTS {
        times(rt, alloc, subject)?;
    }
    Ok(())
}

fn main(rt: HostRuntime) -> io::Result<()> {
    let mut wish = Wish::Checksums;
    for word in env::args(&rt)?.skip(1) {
        wish = wish_of(word.as_str());
    }
    match wish {
        Wish::Checksums => all_checksums(&rt, rt.alloc()),
        Wish::Times => all_times(&rt, rt.alloc()),
        Wish::TimesOf(subject) => times(&rt, rt.alloc(), subject),
        Wish::Phases(runs) => phases::counts(&rt, rt.alloc(), runs),
    }
}
