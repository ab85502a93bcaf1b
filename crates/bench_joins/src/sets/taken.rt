//! Times of calls that are made in rounds.
use crate::sets::work;
use hibitset::{BitSet, BitSetLike, Index};
use std::alloc::Global;
use std::time::{Clock, Instant};
use std::{fmt, io};

/// What the rounds of a call took together.
#[derive(Clone, Copy)]
pub struct Taken {
    nanos: u128,
    words: u128,
    done: u128,
}

impl Taken {
    /// No round yet.
    fn nothing() -> Taken {
        Taken {
            nanos: 0,
            words: 0,
            done: 0,
        }
    }

    /// With a round.
    fn with(self, round: Round) -> Taken {
        Taken {
            nanos: self.nanos.saturating_add(round.nanos),
            words: self.words,
            done: self.done.saturating_add(round.done as u128),
        }
    }

    /// The nanoseconds of one operation. Of a walk these are those of one member that came.
    pub fn nanos_each(self) -> Share {
        Share {
            total: self.nanos,
            count: self.done,
        }
    }

    /// The words that were read for one member that came.
    pub fn words_each(self) -> Share {
        Share {
            total: self.words,
            count: self.done,
        }
    }
}

/// What one round took, and how many operations were done in it.
#[derive(Clone, Copy)]
struct Round {
    nanos: u128,
    done: u64,
}

/// The round that began at `start`.
fn round_from<R: Clock>(rt: &R, start: Instant, done: u64) -> io::Result<Round> {
    let nanos = start.elapsed(rt)?.as_nanos();
    Ok(Round { nanos, done })
}

/// A total over a count, printed with three places, the rest cut off.
#[derive(Clone, Copy)]
pub struct Share {
    total: u128,
    count: u128,
}

impl fmt::Display for Share {
    fn fmt<W: fmt::Write>(&self, f: &mut fmt::Formatter<W>) -> fmt::Result {
        let parts = if self.count != 0 {
            self.total.saturating_mul(1000) / self.count
        } else {
            0
        };
        let whole = parts / 1000;
        let rest = parts % 1000;
        write!(f, "{whole}.{rest:03}")
    }
}

/// A round of insertion.
fn insert<R: Clock>(rt: &R, set: &mut BitSet, indices: &[Index]) -> io::Result<Round> {
    let start = Instant::now(rt)?;
    let new = work::insert(set, indices)?;
    round_from(rt, start, new)
}

/// Puts the indices into a new set, in each round.
///
/// Errors: those of the clock, and want of memory.
pub fn insertion<R: Clock>(
    rt: &R,
    alloc: Global,
    indices: &[Index],
    rounds: u32,
) -> io::Result<Taken> {
    let mut taken = Taken::nothing();
    for _ in 0..rounds {
        let mut set = BitSet::new(alloc);
        taken = taken.with(insert(rt, &mut set, indices)?);
    }
    Ok(taken)
}

/// A round of look-ups.
fn look_ups<R: Clock>(rt: &R, set: &BitSet, indices: &[Index]) -> io::Result<Round> {
    let start = Instant::now(rt)?;
    round_from(rt, start, work::look_up(set, indices))
}

/// Looks the indices up, in each round.
///
/// Errors: those of the clock.
pub fn look_up<R: Clock>(
    rt: &R,
    set: &BitSet,
    indices: &[Index],
    rounds: u32,
) -> io::Result<Taken> {
    let mut taken = Taken::nothing();
    for _ in 0..rounds {
        taken = taken.with(look_ups(rt, set, indices)?);
    }
    Ok(taken)
}

/// A round of removal.
fn remove<R: Clock>(rt: &R, set: &mut BitSet, indices: &[Index]) -> io::Result<Round> {
    let start = Instant::now(rt)?;
    round_from(rt, start, work::remove(set, indices))
}

/// Takes the indices out of a copy of the set, in each round.
///
/// Errors: those of the clock, and want of memory.
pub fn removal<R: Clock>(
    rt: &R,
    set: &BitSet,
    indices: &[Index],
    rounds: u32,
) -> io::Result<Taken> {
    let mut taken = Taken::nothing();
    for _ in 0..rounds {
        let mut rest = set.clone()?;
        taken = taken.with(remove(rt, &mut rest, indices)?);
    }
    Ok(taken)
}

/// A walk to the end of a set.
fn walk_once<R: Clock, T: BitSetLike>(rt: &R, set: &T) -> io::Result<Round> {
    let start = Instant::now(rt)?;
    round_from(rt, start, work::walk(set).members)
}

/// Walks the set to its end in each round, and counts the words once for all rounds.
///
/// Errors: those of the clock.
pub fn walk<R: Clock, T: BitSetLike>(rt: &R, set: &T, rounds: u32) -> io::Result<Taken> {
    let mut taken = Taken::nothing();
    for _ in 0..rounds {
        taken = taken.with(walk_once(rt, set)?);
    }
    taken.words = (work::words_read(set) as u128).saturating_mul(rounds as u128);
    Ok(taken)
}
