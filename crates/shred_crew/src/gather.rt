//! Loads put back from rows into the slots of their numbers.
ghost use Rattle.std.specs.Prelude.{◌≡◌, ◌≤◌, ◌↔◌, [], None, Some, length, vec_capacity, slice_get, IsOk, OnErr, IfErr};
ghost use Rattle.shred_crew.specs.Deals.{slot_at, with_load, returned, loads_in, all_of, AreEmpty, KeepTheirRoom};

use crate::numbered::Numbered;

/// Puts a load into the slot of its number, where that is empty.
///
/// Errors: the load, where the slot has one already, or none has the number; the slots stay as they were.
fn put_back<T: Drop>(slots: &mut Vec<Option<T>>, one: Numbered<T>) -> Result<(), Numbered<T>>
    ensures slots { slots.new.items ≡ with_load one (slot_at slots.old.items one.number) slots.old.items }
    ensures room { vec_capacity slots.new ≡ vec_capacity slots.old }
    ensures variant { IsOk result ↔ (slice_get slots.old.items one.number ≡ Some None) }
    ensures err { OnErr result (slots.new.items ≡ slots.old.items) }
    ensures handed_back { IfErr result (λ double. double ≡ one) }
{
    if one.number >= slots.len() || slots[one.number].is_some() {
        return Err(one);
    }
    slots[one.number] = Some(one.load);
    Ok(())
}

/// Puts the loads of a row back into their slots, the last first.
fn gather_row<T: Drop>(row: &mut Vec<Numbered<T>>, slots: &mut Vec<Option<T>>)
    ensures slots { slots.new.items ≡ returned row.old.items slots.old.items }
    ensures slots_room { vec_capacity slots.new ≡ vec_capacity slots.old }
    ensures row { row.new.items ≡ [] }
    ensures row_room { vec_capacity row.new ≡ vec_capacity row.old }
{
    while let Some(one) = row.pop() {
        // No number comes back twice: `cut` put each into one list, once.
        let _ = put_back(slots, one);
    }
}

/// Puts the loads of some rows back into their slots, the last first.
fn gather<T: Drop>(rows: &mut [Vec<Numbered<T>>], slots: &mut Vec<Option<T>>)
    ensures slots { slots.new.items ≡ returned (all_of rows.old) slots.old.items }
    ensures slots_room { vec_capacity slots.new ≡ vec_capacity slots.old }
    ensures rows { AreEmpty rows.new }
    ensures rows_room { KeepTheirRoom rows.old rows.new }
{
    let Some((row, others)) = rows.split_first_mut() else {
        return;
    };
    gather(others, slots);
    gather_row(row, slots);
}

/// Puts the loads of a list of rows back into their slots, as `gather` does.
pub(crate) fn gather_list<T: Drop>(rows: &mut Vec<Vec<Numbered<T>>>, slots: &mut Vec<Option<T>>)
    ensures slots { slots.new.items ≡ returned (all_of rows.old.items) slots.old.items }
    ensures slots_room { vec_capacity slots.new ≡ vec_capacity slots.old }
    ensures rows { AreEmpty rows.new.items }
    ensures rows_room { KeepTheirRoom rows.old.items rows.new.items }
{
    gather(rows.as_mut_slice(), slots);
}

/// Takes the loads that are in their slots out of there, in order.
pub(crate) fn empty_slots<T: Drop>(slots: &mut Vec<Option<T>>, loads: &mut Vec<T>)
    requires none { loads.old.items ≡ [] }
    requires room { length slots.old.items ≤ vec_capacity loads.old }
    ensures loads { loads.new.items ≡ loads_in slots.old.items }
    ensures loads_room { vec_capacity loads.new ≡ vec_capacity loads.old }
    ensures slots { slots.new.items ≡ [] }
    ensures slots_room { vec_capacity slots.new ≡ vec_capacity slots.old }
{
    let mut rest = slots.drain(..);
    while let Some(slot) = rest.next() {
        if let Some(load) = slot {
            loads.push_reserved(load);
        }
    }
}
