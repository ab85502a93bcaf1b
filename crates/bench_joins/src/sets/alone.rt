//! Measures of one worker: insertion, look-up, removal and walks.
use crate::sets::shape::{Partners, Shape};
use crate::sets::taken::{Taken, insertion, look_up, removal, walk};
use crate::sets::work;
use crate::sets::work::Walked;
use hibitset::{BitSet, BitSetAnd, BitSetLike, Index};
use std::alloc::{AllocError, Global};
use std::io;
use std::time::Clock;

/// The shapes, in the order of the lines.
const SHAPES: [Shape; 3] = [Shape::Dense, Shape::Sparse, Shape::Clustered];

/// A shape below an end, and in how many rounds it is timed.
#[derive(Clone, Copy)]
struct Case<'a> {
    name: &'a str,
    end: Index,
    rounds: u32,
}

/// The lines of checksums, for each shape below 1000 and below 100,000.
///
/// Errors: those of printing, and want of memory.
pub fn checksums<R: Print>(rt: &R, alloc: Global) -> io::Result<()> {
    for end in [1000u32, 100_000] {
        let partners = Partners::below(alloc, end)?;
        check_below(rt, alloc, end, &partners)?;
    }
    Ok(())
}

/// The lines of checksums of each shape below an end.
fn check_below<R: Print>(rt: &R, alloc: Global, end: Index, partners: &Partners) -> io::Result<()> {
    for shape in SHAPES {
        let indices = shape.indices(alloc, end)?;
        let mut set = BitSet::new(alloc);
        check_set(rt, alloc, (shape.name(), end), &mut set, &indices, partners)?;
    }
    Ok(())
}

/// The lines of checksums of a set into which indices are put, and out of which they are taken.
fn check_set<R: Print>(
    rt: &R,
    alloc: Global,
    (name, end): (&str, Index),
    set: &mut BitSet,
    indices: &[Index],
    partners: &Partners,
) -> io::Result<()> {
    check_insertion(rt, name, end, set, indices)?;
    check_look_up(rt, alloc, name, end, set)?;
    check_walks(rt, name, end, set, partners)?;
    check_removal(rt, name, end, set, indices)
}

/// The line of indices that are put in.
fn check_insertion<R: Print>(
    rt: &R,
    name: &str,
    end: Index,
    set: &mut BitSet,
    indices: &[Index],
) -> io::Result<()> {
    let new = work::insert(set, indices)?;
    println!(rt; "insertion, {name} below {end}: {new} new")
}

/// The line of how many of all indices below an end are found.
fn check_look_up<R: Print>(
    rt: &R,
    alloc: Global,
    name: &str,
    end: Index,
    set: &BitSet,
) -> io::Result<()> {
    let found = found_below(alloc, set, end)?;
    println!(rt; "look-up, {name} below {end}: {found} found")
}

/// How many of all indices below an end are found.
fn found_below(alloc: Global, set: &BitSet, end: Index) -> Result<u64, AllocError> {
    let all = Shape::Dense.indices(alloc, end)?;
    Ok(work::look_up(set, &all))
}

/// The line of indices that are taken out.
fn check_removal<R: Print>(
    rt: &R,
    name: &str,
    end: Index,
    set: &mut BitSet,
    indices: &[Index],
) -> io::Result<()> {
    let removed = work::remove(set, indices);
    let left = work::walk(&*set).members;
    println!(rt; "removal, {name} below {end}: {removed} removed, {left} left")
}

/// The lines of checksums of the walks over one set, alone and with others.
fn check_walks<R: Print>(
    rt: &R,
    name: &str,
    end: Index,
    set: &BitSet,
    partners: &Partners,
) -> io::Result<()> {
    check_walk(rt, "walk", name, end, set)?;
    check_walk_of_two(rt, name, end, set, partners)?;
    check_walk_of_four(rt, name, end, set, partners)
}

/// The line of checksums of a walk over a set and every second index.
fn check_walk_of_two<R: Print>(
    rt: &R,
    name: &str,
    end: Index,
    set: &BitSet,
    partners: &Partners,
) -> io::Result<()> {
    let two = BitSetAnd(set, &partners.second);
    check_walk(rt, "walk of two", name, end, &two)
}

/// The line of checksums of a walk over a set and every second, third and fifth index.
fn check_walk_of_four<R: Print>(
    rt: &R,
    name: &str,
    end: Index,
    set: &BitSet,
    partners: &Partners,
) -> io::Result<()> {
    let two = BitSetAnd(set, &partners.second);
    let others = BitSetAnd(&partners.third, &partners.fifth);
    let four = BitSetAnd(&two, &others);
    check_walk(rt, "walk of four", name, end, &four)
}

/// The line of checksums of one walk.
fn check_walk<R: Print, T: BitSetLike>(
    rt: &R,
    call: &str,
    name: &str,
    end: Index,
    set: &T,
) -> io::Result<()> {
    let walked = work::walk(set);
    let words = work::words_read(set);
    print_checked(rt, call, name, end, walked, words)
}

/// The line of a walk that gave so much.
fn print_checked<R: Print>(
    rt: &R,
    call: &str,
    name: &str,
    end: Index,
    walked: Walked,
    words: u64,
) -> io::Result<()> {
    let Walked { members, sum } = walked;
    println!(rt; "{call}, {name} below {end}: {members} members, sum {sum}, {words} words")
}

/// The lines of times, for each shape below 1000, 100,000 and 10,000,000.
///
/// Errors: those of printing and of the clock, and want of memory.
pub fn times<R: Clock + Print>(rt: &R, alloc: Global) -> io::Result<()> {
    for (end, rounds) in [(1000u32, 10_000u32), (100_000, 100), (10_000_000, 1)] {
        let partners = Partners::below(alloc, end)?;
        time_below(rt, alloc, end, rounds, &partners)?;
    }
    Ok(())
}

/// The lines of times of each shape below an end.
fn time_below<R: Clock + Print>(
    rt: &R,
    alloc: Global,
    end: Index,
    rounds: u32,
    partners: &Partners,
) -> io::Result<()> {
    for shape in SHAPES {
        let indices = shape.indices(alloc, end)?;
        let case = Case {
            name: shape.name(),
            end,
            rounds,
        };
        time_case(rt, alloc, case, &indices, partners)?;
    }
    Ok(())
}

/// The lines of times of one case, whose indices are put into a set first.
fn time_case<R: Clock + Print>(
    rt: &R,
    alloc: Global,
    case: Case<'_>,
    indices: &[Index],
    partners: &Partners,
) -> io::Result<()> {
    let mut set = BitSet::new(alloc);
    let _ = work::insert(&mut set, indices)?;
    time_set(rt, alloc, case, &set, indices, partners)
}

/// The lines of times of one case, over the set of its indices.
fn time_set<R: Clock + Print>(
    rt: &R,
    alloc: Global,
    case: Case<'_>,
    set: &BitSet,
    indices: &[Index],
    partners: &Partners,
) -> io::Result<()> {
    time_calls(rt, alloc, case, set, indices)?;
    time_walks(rt, case, set, partners)
}

/// The lines of times of the calls at one index.
fn time_calls<R: Clock + Print>(
    rt: &R,
    alloc: Global,
    case: Case<'_>,
    set: &BitSet,
    indices: &[Index],
) -> io::Result<()> {
    let rounds = case.rounds;
    print_taken(
        rt,
        "insertion",
        case,
        insertion(rt, alloc, indices, rounds)?,
    )?;
    print_taken(rt, "look-up", case, look_up(rt, set, indices, rounds)?)?;
    print_taken(rt, "removal", case, removal(rt, set, indices, rounds)?)
}

/// The line of a call that was measured.
fn print_taken<R: Print>(rt: &R, call: &str, case: Case<'_>, taken: Taken) -> io::Result<()> {
    let Case { name, end, .. } = case;
    let nanos = taken.nanos_each();
    println!(rt; "{call}, {name} below {end}: {nanos} ns an operation")
}

/// The lines of times of the walks over one set, alone and with others.
fn time_walks<R: Clock + Print>(
    rt: &R,
    case: Case<'_>,
    set: &BitSet,
    partners: &Partners,
) -> io::Result<()> {
    time_walk(rt, "walk", case, set)?;
    time_walk_of_two(rt, case, set, partners)?;
    time_walk_of_four(rt, case, set, partners)
}

/// The line of times of a walk over a set and every second index.
fn time_walk_of_two<R: Clock + Print>(
    rt: &R,
    case: Case<'_>,
    set: &BitSet,
    partners: &Partners,
) -> io::Result<()> {
    let two = BitSetAnd(set, &partners.second);
    time_walk(rt, "walk of two", case, &two)
}

/// The line of times of a walk over a set and every second, third and fifth index.
fn time_walk_of_four<R: Clock + Print>(
    rt: &R,
    case: Case<'_>,
    set: &BitSet,
    partners: &Partners,
) -> io::Result<()> {
    let two = BitSetAnd(set, &partners.second);
    let others = BitSetAnd(&partners.third, &partners.fifth);
    let four = BitSetAnd(&two, &others);
    time_walk(rt, "walk of four", case, &four)
}

/// The line of a walk that is measured.
fn time_walk<R: Clock + Print, T: BitSetLike>(
    rt: &R,
    call: &str,
    case: Case<'_>,
    set: &T,
) -> io::Result<()> {
    let taken = walk(rt, set, case.rounds)?;
    print_walk(rt, call, case, taken)
}

/// The line of a walk that was measured.
fn print_walk<R: Print>(rt: &R, call: &str, case: Case<'_>, taken: Taken) -> io::Result<()> {
    let Case { name, end, .. } = case;
    let nanos = taken.nanos_each();
    let words = taken.words_each();
    println!(rt; "{call}, {name} below {end}: {nanos} ns a member, {words} words a member")
}
