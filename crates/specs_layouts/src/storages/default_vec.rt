//! A slot for each index, with defaults in the gaps.
ghost use Rattle.std.specs.Prelude.{◌≡◌, ◌≢◌, ℕ, ◌+◌, ◌<◌, ◌≤◌, max, None, Some, is_some, IsSome, IfSome, IfOk};
ghost use Rattle.std.specs.Prelude.{IfErr, IsOk, OnOk, OnErr, length, slice_get};
ghost use Rattle.std.specs.Borrow.{sem};
ghost use Rattle.specs_layouts.specs.Parts.{Puts, SameParts, HasNone};
ghost use Rattle.specs_layouts.specs.Defaults.{filled_part};

use crate::slices::SliceAccess;
use crate::unprotected::{DistinctStorage, TryDefault, UnprotectedStorage};
use hibitset_sets::count::Uncounted;
use hibitset_sets::{BitSet, BitSetLike, Index};
use std::alloc::{AllocError, AllocFailed, Global};
use std::marker::Model;
use std::mem;

/// A storage with a slot for each index up to the greatest that ever had a part. Slots before a new
/// index are filled with defaults, and a part that is taken out leaves one.
///
/// Taking all parts out costs what is there, and keeps the slots.
#[derive(Drop)]
pub struct DefaultVecStorage<T: Default> {
    slots: Vec<T>,
    present: BitSet,
}

impl<T: Default> Model for DefaultVecStorage<T> {
    ghost use Rattle.specs_layouts.specs.Defaults.{Slots, slots_code, HasSlots};

    ghost Value = { Slots T };

    ghost coded = { slots_code T.code };

    ghost view = { λ s. record { values = s.slots.items; present = s.present.members } };

    ghost invariant = { λ s. HasSlots s.slots.items s.present.members };
}

/// Makes at least so many slots, the new ones with defaults.
fn extend_defaults<T: Default + Drop>(slots: &mut Vec<T>, len: usize) -> Result<(), AllocError>
    ensures kept { (i : ℕ) → i < length slots.old.items → slice_get slots.new.items i ≡ slice_get slots.old.items i }
    ensures filled { (i : ℕ) → length slots.old.items ≤ i → IfSome (slice_get slots.new.items i) T.is_default }
    ensures longer { length slots.old.items ≤ length slots.new.items }
    ensures ok { OnOk result (length slots.new.items ≡ max (length slots.old.items) len) }
{
    while slots.len() < len {
        slots.push(T::default())?;
    }
    Ok(())
}

impl<T: Default + Drop> DefaultVecStorage<T> {
    /// Takes out the part at `id`, which has one, and leaves a default.
    fn take(&mut self, id: Index) -> T
        requires { IsSome (filled_part self.old id) }
        ensures value { filled_part self.old id ≡ Some result }
        ensures parts { Puts (filled_part self.old) id None (filled_part self.new) }
        ensures len { length self.new.values ≡ length self.old.values }
        ensures gap { IfSome (slice_get self.new.values id) T.is_default }
        ensures slots { (index : ℕ) → index ≢ id → slice_get self.new.values index ≡ slice_get self.old.values index }
    {
        let part = mem::take(&mut self.slots[id as usize]);
        let _ = self.present.remove(id);
        part
    }

    /// Drops the part at `id`, if it has one.
    fn forget(&mut self, id: Index)
        ensures parts { Puts (filled_part self.old) id None (filled_part self.new) }
        ensures len { length self.new.values ≡ length self.old.values }
        ensures gap { IsSome (filled_part self.old id) → IfSome (slice_get self.new.values id) T.is_default }
        ensures slots { (index : ℕ) → index ≢ id → slice_get self.new.values index ≡ slice_get self.old.values index }
        ensures lacks { filled_part self.old id ≡ None → self.new ≡ self.old }
    {
        if self.present.contains(id) {
            let _ = self.take(id);
        }
    }
}

impl<T: Default> DefaultVecStorage<T> {
    ghost use Rattle.specs_layouts.specs.SlotLends.{lends_slots};

    /// The slots for writing. What is written where no part is stays until a part comes there, and no
    /// event is written.
    pub fn as_mut_slice(&mut self) -> &mut [T]
        ensures* writes_back { sem 𝓛 (lends_slots T.row T.Default self.entry result) }
        ensures value { result.now ≡ self.old.values }
    {
        self.slots.as_mut_slice()
    }
}

impl<T: Default> TryDefault for DefaultVecStorage<T> {
    ghost use Rattle.std.specs.Prelude.{◌≡◌, [], true};
    ghost use Rattle.std.specs.FinSet as set;

    ghost is_default = { λ s. (s.present ≡ set.empty) × (s.values ≡ []) };

    ghost always = { true };

    fn try_default(alloc: Global) -> Result<Self, &'static str> {
        Ok(DefaultVecStorage {
            slots: Vec::new(alloc),
            present: BitSet::new(alloc),
        })
    }
}

impl<T: Default + Drop> UnprotectedStorage<T> for DefaultVecStorage<T> {
    ghost use Rattle.specs_layouts.specs.Channels.{no_log};
    ghost use Rattle.std.specs.Prelude.{[], false, refl};
    ghost use Rattle.specs_layouts.specs.Defaults.{filled_part, with_filled_part};
    ghost use Rattle.specs_layouts.specs.FilledLemmas.{with_filled_part-puts, filled-starts};

    ghost part_at = { filled_part };

    ghost written = { with_filled_part };

    ghost events = { λ _. no_log };

    ghost emits = { λ _. false };

    ghost has_room = { λ _ _. Unit {0} };

    ghost written_puts = { with_filled_part-puts };

    ghost written_tells = { λ _ _ _. refl };

    ghost written_emits = { λ _ _ _. refl };

    ghost written_room = { λ _ _ _ _ room. room };

    ghost room_for_fewer = { λ _ _ room. room };

    ghost starts_empty = { λ s is. filled-starts s is.0 };

    fn clean<B: BitSetLike + Drop>(&mut self, has: B)
        requires mask { (index : ℕ) → B.members has index ≡ is_some (filled_part self.old index) }
        requires range { (index : ℕ) → IsSome (filled_part self.old index) → index < 16777216 }
        ensures none { HasNone (filled_part self.new) }

        // Each part leaves a default in its slot.
        ensures len { length self.new.values ≡ length self.old.values }
        ensures gaps { (index : ℕ) → IsSome (filled_part self.old index)
            → IfSome (slice_get self.new.values index) T.is_default }
    {
        let mut left = has.iter();
        while let Some(id) = left.next_counted(&mut Uncounted) {
            self.forget(id);
        }
    }

    fn get(&self, id: Index) -> &T {
        &self.slots[id as usize]
    }

    fn get_mut(&mut self, id: Index) -> Result<&mut T, AllocError> {
        Ok(&mut self.slots[id as usize])
    }

    fn insert(&mut self, id: Index, part: T) -> Result<(), AllocFailed<T>>
        requires range { id < 16777216 }
        requires absent { filled_part self.old id ≡ None }
        ensures ok { OnOk result (Puts (filled_part self.old) id (Some part) (filled_part self.new)) }
        ensures err { OnErr result (SameParts (filled_part self.old) (filled_part self.new)) }
        ensures handed_back { IfErr result (λ refused. refused.value ≡ part) }

        // Slots before a new index get defaults, and the others stay as they were.
        ensures len { OnOk result (length self.new.values ≡ max (length self.old.values) (id + 1)) }
        ensures gaps { OnOk result ((index : ℕ) → index ≢ id → length self.old.values ≤ index
            → IfSome (slice_get self.new.values index) T.is_default) }
        ensures slots { OnOk result ((index : ℕ) → index ≢ id → index < length self.old.values
            → slice_get self.new.values index ≡ slice_get self.old.values index) }
    {
        let place = id as usize;
        if extend_defaults(&mut self.slots, place + 1).is_err() {
            return Err(AllocFailed { value: part });
        }
        if self.present.add(id).is_err() {
            return Err(AllocFailed { value: part });
        }
        self.slots[place] = part;
        Ok(())
    }

    fn remove(&mut self, id: Index) -> Result<T, AllocError>
        requires { IsSome (filled_part self.old id) }
        ensures value { IfOk result (λ part. filled_part self.old id ≡ Some part) }
        ensures ok { OnOk result (Puts (filled_part self.old) id None (filled_part self.new)) }
        ensures succeeds { IsOk result }

        // The part leaves a default, and the other slots stay as they were.
        ensures len { length self.new.values ≡ length self.old.values }
        ensures gap { IfSome (slice_get self.new.values id) T.is_default }
        ensures slots { (index : ℕ) → index ≢ id → slice_get self.new.values index ≡ slice_get self.old.values index }
    {
        Ok(self.take(id))
    }

    fn make_room(&mut self, _count: usize) -> Result<(), AllocError> {
        Ok(())
    }
}

impl<T: Default> SliceAccess<T> for DefaultVecStorage<T> {
    type Element = T;

    ghost shown = { λ s. s.values };

    fn as_slice(&self) -> &[T]
        ensures value { result.now ≡ self.now.values }
        ensures parts { (index : ℕ) → IsSome (filled_part self.now index)
            → slice_get result.now index ≡ filled_part self.now index }
    {
        self.slots.as_slice()
    }
}

impl<T: Default + Drop> DistinctStorage<T> for DefaultVecStorage<T> {
    ghost use Rattle.std.specs.Prelude.{refl};

    ghost silent = { λ _. refl };
}
