//! What the planner is told of a system.
ghost use Rattle.std.specs.Prelude.{◌≡◌, ◌≤◌, ℕ, IfOk};
ghost use Rattle.std.specs.List.{list_any};
ghost use Rattle.shred_plan.specs.Plan.{units_of, share, touches, conflict};

use crate::RunningTime;
use smallvec::SmallVec;
use std::alloc::{AllocError, Global};
use std::marker::Model;

/// A system as the planner sees it: its number, the ids that it reads and writes, the numbers of those that it comes after,
/// and how long it is said to run.
#[derive(Drop)]
pub struct Adding<K> {
    number: u32,
    reads: Vec<K>,
    writes: Vec<K>,
    after: SmallVec<u32, 4>,
    time: RunningTime,
}

impl<K> Model for Adding<K> {
    ghost use Rattle.shred_plan.specs.Plan.{Placing, units_of};

    ghost Value = { Placing K };

    ghost view = { λ adding. record {
      number = adding.number;
      reads = adding.reads.items;
      writes = adding.writes.items;
      after = adding.after.items;
      time = units_of adding.time;
    } };
}

impl<K: PartialEq + Drop> Adding<K> {
    /// A system of this number, which comes after those of the numbers in `after`.
    ///
    /// A number that stands twice in `after` can't be taken off twice: such a system opens a later stage.
    pub fn new(
        number: u32,
        reads: Vec<K>,
        writes: Vec<K>,
        after: SmallVec<u32, 4>,
        time: RunningTime,
    ) -> Adding<K>
        ensures { result ≡ record {
          number = number;
          reads = reads.items;
          writes = writes.items;
          after = after.items;
          time = units_of time;
        } }
    {
        Adding {
            number,
            reads,
            writes,
            after,
            time,
        }
    }

    /// The same system once more.
    ///
    /// Errors: want of memory.
    pub fn copied(&self, alloc: Global) -> Result<Adding<K>, AllocError>
    where
        K: Copy,
        ensures { IfOk result (λ copy. copy ≡ self.now) }
    {
        Ok(Adding {
            number: self.number,
            reads: Vec::from_slice(alloc, self.reads())?,
            writes: Vec::from_slice(alloc, self.writes())?,
            after: SmallVec::from_slice(alloc, self.after())?,
            time: self.time,
        })
    }

    /// The number that it was given.
    pub fn number(&self) -> u32
        ensures { result ≡ self.now.number }
    {
        self.number
    }

    /// The ids that it reads.
    pub fn reads(&self) -> &[K]
        ensures { result.now ≡ self.now.reads }
    {
        self.reads.as_slice()
    }

    /// The ids that it writes.
    pub fn writes(&self) -> &[K]
        ensures { result.now ≡ self.now.writes }
    {
        self.writes.as_slice()
    }

    /// The numbers of those that it comes after.
    pub fn after(&self) -> &[u32]
        ensures { result.now ≡ self.now.after }
    {
        self.after.as_slice()
    }

    /// How many units of time it takes, from 1 to 5.
    pub fn units(&self) -> u32
        ensures value { result ≡ self.now.time }
        ensures range { result ≤ 5 }
    {
        self.time.units()
    }

    /// Whether one of the two writes an id that the other reads or writes.
    pub fn conflicts_with(&self, other: &Adding<K>) -> bool
        ensures { result ≡ conflict K.eq self.now other.now }
    {
        self.touches(other) || other.touches(self)
    }

    /// Whether it writes an id that the other reads or writes.
    fn touches(&self, other: &Adding<K>) -> bool
        ensures { result ≡ touches K.eq self.now other.now }
    {
        do_share(self.writes(), other.reads()) || do_share(self.writes(), other.writes())
    }
}

/// Whether two lists share an id.
fn do_share<K: PartialEq>(ids: &[K], others: &[K]) -> bool
    ensures { result ≡ share K.eq ids.now others.now }
{
    for id in ids {
        if is_among(id, others) {
            return true;
        }
    }
    false
}

/// Whether the id is in the list.
fn is_among<K: PartialEq>(id: &K, ids: &[K]) -> bool
    ensures { result ≡ list_any (K.eq id.now) ids.now }
{
    for other in ids {
        if *id == *other {
            return true;
        }
    }
    false
}
