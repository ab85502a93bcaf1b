//! Loads dealt from their slots to rows, by shares of their numbers.
ghost use Rattle.std.specs.Prelude.{◌≡◌, ◌≤◌, ◌+◌, ◌++◌, [], Some, None, length, map, vec_capacity, slice_set, IfOk};
ghost use Rattle.std.specs.List.{concat};
ghost use Rattle.shred_crew.specs.Deals.{lists, slot_at, vacated, standing, all_of, AreRoomy, KeepTheirRoom};

use crate::numbered::Numbered;
use std::alloc::{AllocError, Global};

/// An empty row for each share, with room for it.
///
/// Errors: want of memory.
pub(crate) fn make_rows<T: Drop>(
    alloc: Global,
    shares: &[Vec<usize>],
) -> Result<Vec<Vec<Numbered<T>>>, AllocError>
    ensures { IfOk result (λ rows. AreRoomy shares.now rows.items) }
{
    let mut rows = Vec::with_capacity(alloc, shares.len())?;
    for share in shares {
        rows.push_reserved(Vec::with_capacity(alloc, share.len())?);
    }
    Ok(rows)
}

/// Puts each load into a slot of its own, in order.
pub(crate) fn fill_slots<T: Drop>(loads: &mut Vec<T>, slots: &mut Vec<Option<T>>)
    requires none { slots.old.items ≡ [] }
    requires room { length loads.old.items ≤ vec_capacity slots.old }
    ensures slots { slots.new.items ≡ map Some loads.old.items }
    ensures slots_room { vec_capacity slots.new ≡ vec_capacity slots.old }
    ensures loads { loads.new.items ≡ [] }
    ensures loads_room { vec_capacity loads.new ≡ vec_capacity loads.old }
{
    let mut rest = loads.drain(..);
    while let Some(load) = rest.next() {
        slots.push_reserved(Some(load));
    }
}

/// Takes what is in the slot of a number; past the last slot there is nothing.
fn take_one<T>(slots: &mut Vec<Option<T>>, number: usize) -> Option<T>
    ensures value { result ≡ slot_at slots.old.items number }
    ensures slots { slots.new.items ≡ slice_set slots.old.items number None }
    ensures room { vec_capacity slots.new ≡ vec_capacity slots.old }
{
    if number < slots.len() {
        slots[number].take()
    } else {
        None
    }
}

/// Takes the loads of a share out of their slots, and puts them at the end of a row, each with its number.
fn deal_share<T: Drop>(slots: &mut Vec<Option<T>>, share: &[usize], row: &mut Vec<Numbered<T>>)
    requires room { length row.old.items + length share.now ≤ vec_capacity row.old }
    ensures slots { slots.new.items ≡ vacated share.now slots.old.items }
    ensures slots_room { vec_capacity slots.new ≡ vec_capacity slots.old }
    ensures row { row.new.items ≡ row.old.items ++ standing share.now slots.old.items }
    ensures row_room { vec_capacity row.new ≡ vec_capacity row.old }
{
    for number in share {
        if let Some(load) = take_one(slots, *number) {
            row.push_reserved(Numbered {
                number: *number,
                load,
            });
        }
    }
}

/// Takes the loads of each share out of their slots, and puts them into the row of the share.
fn deal<T: Drop>(slots: &mut Vec<Option<T>>, shares: &[Vec<usize>], rows: &mut [Vec<Numbered<T>>])
    requires room { AreRoomy shares.now rows.old }
    ensures slots { slots.new.items ≡ vacated (concat (lists shares.now)) slots.old.items }
    ensures slots_room { vec_capacity slots.new ≡ vec_capacity slots.old }
    ensures rows { all_of rows.new ≡ standing (concat (lists shares.now)) slots.old.items }
    ensures rows_room { KeepTheirRoom rows.old rows.new }
{
    let Some((share, later)) = shares.split_first() else {
        return;
    };
    let Some((row, others)) = rows.split_first_mut() else {
        return;
    };
    deal_share(slots, share, row);
    deal(slots, later, others);
}

/// Deals the loads of each share to the row of the share, as `deal` does.
pub(crate) fn deal_list<T: Drop>(
    slots: &mut Vec<Option<T>>,
    shares: &[Vec<usize>],
    rows: &mut Vec<Vec<Numbered<T>>>,
)
    requires room { AreRoomy shares.now rows.old.items }
    ensures slots { slots.new.items ≡ vacated (concat (lists shares.now)) slots.old.items }
    ensures slots_room { vec_capacity slots.new ≡ vec_capacity slots.old }
    ensures rows { all_of rows.new.items ≡ standing (concat (lists shares.now)) slots.old.items }
    ensures rows_room { KeepTheirRoom rows.old.items rows.new.items }
{
    deal(slots, shares, rows.as_mut_slice());
}
