//! A slot for each index.
ghost use Rattle.std.specs.Prelude.{◌≡◌, ℕ, ◌+◌, ◌<◌, ◌≤◌, None, Some, IsSome, OnOk, length};
ghost use Rattle.std.specs.Borrow.{sem};
ghost use Rattle.std.specs.Option.Follows.{option_follows_value};
ghost use Rattle.specs_layouts.specs.Parts.{Puts};
ghost use Rattle.specs_layouts.specs.Slots.{slot_at};

use crate::slices::SliceAccess;
use crate::unprotected::{DistinctStorage, TryDefault, UnprotectedStorage};
use hibitset_sets::count::Uncounted;
use hibitset_sets::{BitSetLike, Index};
use std::alloc::{AllocError, AllocFailed, Global};

/// A storage with a slot for each index up to the greatest that ever had a part.
///
/// Best where most entities have a part. Taking all parts out costs what is there, and keeps the slots.
#[derive(Drop)]
pub struct VecStorage<T> {
    slots: Vec<Option<T>>,
}

/// The part in a slot, for writing.
fn part_mut<T>(slot: &mut Option<T>) -> &mut T
    requires { IsSome slot.old }
    ensures* writes_back { sem 𝓛 (option_follows_value T.row slot.entry result) }
    ensures value { slot.old ≡ Some result.now }
{
    match slot {
        Some(part) => part,
        None => unreachable!(),
    }
}

/// Makes at least so many slots.
fn extend_slots<T: Drop>(slots: &mut Vec<Option<T>>, len: usize) -> Result<(), AllocError>
    ensures same { (i : ℕ) → slot_at slots.new.items i ≡ slot_at slots.old.items i }
    ensures longer { OnOk result (len ≤ length slots.new.items) }
{
    while slots.len() < len {
        slots.push(None)?;
    }
    Ok(())
}

/// Empties the slot of an index.
fn empty_slot<T: Drop>(slots: &mut Vec<Option<T>>, id: Index)
    ensures { Puts (slot_at slots.old.items) id None (slot_at slots.new.items) }
{
    let place = id as usize;
    if place < slots.len() {
        slots[place] = None;
    }
}

impl<T> TryDefault for VecStorage<T> {
    ghost use Rattle.std.specs.Prelude.{◌≡◌, [], true};
    ghost use Rattle.specs_layouts.specs.Slots.{slots_of};

    ghost is_default = { λ s. slots_of s ≡ [] };

    ghost always = { true };

    fn try_default(alloc: Global) -> Result<Self, &'static str> {
        Ok(VecStorage {
            slots: Vec::new(alloc),
        })
    }
}

impl<T: Drop> UnprotectedStorage<T> for VecStorage<T> {
    ghost use Rattle.specs_layouts.specs.Channels.{no_log};
    ghost use Rattle.std.specs.Prelude.{[], false, refl};
    ghost use Rattle.specs_layouts.specs.Slots.{slots_of, slot_at, with_part};
    ghost use Rattle.specs_layouts.specs.SlotLemmas.{with_part-puts, slots-start};

    ghost part_at = { λ s. slot_at (slots_of s) };

    ghost written = { with_part };

    ghost events = { λ _. no_log };

    ghost emits = { λ _. false };

    ghost has_room = { λ _ _. Unit {0} };

    ghost written_puts = { with_part-puts };

    ghost written_tells = { λ _ _ _. refl };

    ghost written_emits = { λ _ _ _. refl };

    ghost written_room = { λ _ _ _ _ room. room };

    ghost room_for_fewer = { λ _ _ room. room };

    ghost starts_empty = { λ s. slots-start (slots_of s) };

    fn clean<B: BitSetLike + Drop>(&mut self, has: B) {
        let mut left = has.iter();
        while let Some(id) = left.next_counted(&mut Uncounted) {
            empty_slot(&mut self.slots, id);
        }
    }

    fn get(&self, id: Index) -> &T {
        match &self.slots[id as usize] {
            Some(part) => part,
            None => unreachable!(),
        }
    }

    fn get_mut(&mut self, id: Index) -> Result<&mut T, AllocError> {
        Ok(part_mut(&mut self.slots[id as usize]))
    }

    fn insert(&mut self, id: Index, part: T) -> Result<(), AllocFailed<T>> {
        let place = id as usize;
        if extend_slots(&mut self.slots, place + 1).is_err() {
            return Err(AllocFailed { value: part });
        }
        self.slots[place] = Some(part);
        Ok(())
    }

    fn remove(&mut self, id: Index) -> Result<T, AllocError> {
        match self.slots[id as usize].take() {
            Some(part) => Ok(part),
            None => unreachable!(),
        }
    }

    fn make_room(&mut self, _count: usize) -> Result<(), AllocError> {
        Ok(())
    }
}

impl<T> SliceAccess<T> for VecStorage<T> {
    ghost use Rattle.specs_layouts.specs.Slots.{slots_of};

    type Element = Option<T>;

    ghost shown = { slots_of };

    fn as_slice(&self) -> &[Option<T>]
        ensures value { result.now ≡ slots_of self.now }
        ensures parts { (index : ℕ) → slot_at result.now index ≡ slot_at (slots_of self.now) index }
    {
        self.slots.as_slice()
    }
}

impl<T: Drop> DistinctStorage<T> for VecStorage<T> {
    ghost use Rattle.std.specs.Prelude.{refl};

    ghost silent = { λ _. refl };
}
