//! Systems that go away with their groups, and come back into the slots of their numbers.
ghost use Rattle.std.specs.Prelude.{◌≡◌, ◌≤◌, ◌+◌, ◌++◌, [], Some, None, length, map, vec_capacity, slice_set};
ghost use Rattle.std.specs.Vec.Iter.{drain_items, DrainKeeps};
ghost use Rattle.shred_stages.specs.Away.{slot_at, vacated, standing, returned, systems_in};

use shred_plan::Adding;
use shred_world::ResourceId;
use std::vec::Drain;

/// Takes what is in the slot of a number; past the last slot there is nothing.
fn take_one<A>(slots: &mut Vec<Option<A>>, number: usize) -> Option<A>
    ensures value { result ≡ slot_at slots.old.items number }
    ensures slots { slots.new.items ≡ slice_set slots.old.items number None }
{
    if number < slots.len() {
        slots[number].take()
    } else {
        None
    }
}

/// Puts a system into the slot of a number, where there is one.
fn put_one<A: Drop>(slots: &mut Vec<Option<A>>, number: usize, system: A)
    ensures { slots.new.items ≡ slice_set slots.old.items number (Some system) }
{
    if number < slots.len() {
        slots[number] = Some(system);
    }
}

/// Takes the systems of a group out of their slots, and puts them behind others, in the order of the group.
pub(crate) fn take_group<A: Drop>(
    slots: &mut Vec<Option<A>>,
    group: &[Adding<ResourceId>],
    taken: &mut Vec<A>,
)
    requires room { length taken.old.items + length group.now ≤ vec_capacity taken.old }
    ensures slots { slots.new.items ≡ vacated group.now slots.old.items }
    ensures taken { taken.new.items ≡ taken.old.items ++ standing group.now slots.old.items }
    ensures taken_room { vec_capacity taken.new ≡ vec_capacity taken.old }
{
    let Some((adding, later)) = group.split_first() else {
        return;
    };
    if let Some(system) = take_one(slots, adding.number() as usize) {
        taken.push_reserved(system);
    }
    take_group(slots, later, taken);
}

/// Puts the systems of a group, as they come, into their slots.
fn put_each<A: Drop>(
    slots: &mut Vec<Option<A>>,
    group: &[Adding<ResourceId>],
    systems: &mut Drain<'_, A>,
)
    ensures slots { slots.new.items ≡ returned group.now (drain_items systems.old) slots.old.items }
    ensures keeps { DrainKeeps systems.old systems.new }
{
    let Some((adding, later)) = group.split_first() else {
        return;
    };
    let Some(system) = systems.next() else {
        return;
    };
    put_one(slots, adding.number() as usize, system);
    put_each(slots, later, systems);
}

/// Puts the systems of a group into their slots, and keeps the room that they had.
pub(crate) fn put_group<A: Drop>(
    slots: &mut Vec<Option<A>>,
    group: &[Adding<ResourceId>],
    systems: &mut Vec<A>,
)
    ensures slots { slots.new.items ≡ returned group.now systems.old.items slots.old.items }
    ensures systems { systems.new.items ≡ [] }
    ensures room { vec_capacity systems.new ≡ vec_capacity systems.old }
{
    let mut rest = systems.drain(..);
    put_each(slots, group, &mut rest);
}

/// Puts each system into a slot of its own, in order.
pub(crate) fn fill_slots<A: Drop>(systems: Vec<A>, slots: &mut Vec<Option<A>>)
    requires none { slots.old.items ≡ [] }
    requires room { length systems.items ≤ vec_capacity slots.old }
    ensures { slots.new.items ≡ map Some systems.items }
{
    let mut rest = systems.into_iter();
    while let Some(system) = rest.next() {
        slots.push_reserved(Some(system));
    }
}

/// Takes the systems that are in their slots out of there, in order.
pub(crate) fn empty_slots<A: Drop>(slots: Vec<Option<A>>, systems: &mut Vec<A>)
    requires none { systems.old.items ≡ [] }
    requires room { length slots.items ≤ vec_capacity systems.old }
    ensures { systems.new.items ≡ systems_in slots.items }
{
    let mut rest = slots.into_iter();
    while let Some(slot) = rest.next() {
        if let Some(system) = slot {
            systems.push_reserved(system);
        }
    }
}
