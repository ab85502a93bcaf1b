//! A set that threads add to at once, each call by single atomic steps and without a lock.
ghost use Rattle.std.specs.Prelude.{◌≡◌, ◌<◌, ◌≤◌, ℕ, []};
ghost use Rattle.hibitset_sets.specs.BitSet.{has_member};

mod calls;
mod words;

use crate::shared_rule::{SeatView, SharedRule};
use atomic_table::{Seat, Table};
use hibitset_sets::BitSet;
use std::alloc::Global;

/// A set that threads share, from `AtomicBitSet::share` to `settle`.
///
/// It lies in an `Arc`, and each thread has a seat of its own. Its calls take no lock, no memory and
/// no second try.
#[derive(Drop)]
pub struct SharedBitSet {
    pub(crate) table: Table<(), SeatView, BitSet, SharedRule, Global>,
    pub(crate) bits: BitSet,
    ghost counted: { (table.shared.table_id.words ≡ 266305) × (table.shared.table_id.slots ≡ 0) },
    ghost roomy: { 16777216 ≤ bits.room },
    ghost same: { (index : ℕ) → has_member bits index ≡ has_member table.shared.key index },
}

/// Parts of a shared set, and what their holder did and saw. Whoever holds all parts may settle.
///
/// A seat that is dropped keeps its parts, so the set can't be settled any more.
#[derive(Drop)]
pub struct BitSeat {
    pub(crate) seat: Seat<(), SeatView>,
    pub(crate) parts: u32,
    ghost counted: { parts ≡ seat.me.0.parts },
    ghost few: { parts < 65537 },
    ghost bare: { seat.me.1 ≡ [] },
    ghost idle: { seat.me.0.caller.stage ≡ 0 },
}

/// Another seat holds some of the parts.
#[derive(Clone, Copy, Debug, PartialEq, Eq)]
pub struct SeatsOut;
