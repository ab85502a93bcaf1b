//! Where loads are dealt to workers.
ghost use Rattle.std.specs.Prelude.{◌≡◌, ◌<◌, length, IfOk};
ghost use Rattle.shred_crew.specs.Deals.{AreRoomy};
ghost use Rattle.shred_crew.specs.Cuts.{cut as shares};

use crate::cut;
use crate::deal::make_rows;
use crate::numbered::Numbered;
use std::alloc::{AllocError, Global};
use std::marker::Model;

/// The share of each worker of so many loads, and lists by which these are dealt, kept from one work to the next.
#[derive(Drop)]
pub struct Room<T> {
    pub(crate) count: usize,
    pub(crate) shares: Vec<Vec<usize>>,
    pub(crate) rows: Vec<Vec<Numbered<T>>>,
    pub(crate) slots: Vec<Option<T>>,
}

impl<T> Model for Room<T> {
    ghost use Rattle.std.specs.Prelude.{◌≡◌, ◌≤◌, [], vec_capacity};
    ghost use Rattle.shred_crew.specs.Deals.{Sharing, lists, AreRoomy};
    ghost use Rattle.shred_crew.specs.Cuts.{IsShared};

    ghost Value = { Sharing };

    ghost view = { λ room. record { count = room.count; shares = lists room.shares.items } };

    ghost invariant = { λ room. IsShared room.count (lists room.shares.items)
        × AreRoomy room.shares.items room.rows.items × (room.slots.items ≡ [])
        × (room.count ≤ vec_capacity room.slots) };
}

impl<T: Drop> Room<T> {
    /// Room for as many loads as there are times, cut for some workers by the units of time that each load takes.
    ///
    /// Errors: want of memory.
    pub fn new(alloc: Global, times: &[u32], workers: usize) -> Result<Room<T>, AllocError>
        requires { 0 < workers }
        ensures { IfOk result (λ room. room ≡ record { count = length times.now; shares = shares times.now workers }) }
    {
        let shares = cut(alloc, times, workers)?;
        let rows = make_rows(alloc, &shares)?;
        let slots = Vec::with_capacity(alloc, times.len())?;
        Ok(Room {
            count: times.len(),
            shares,
            rows,
            slots,
        })
    }
}
