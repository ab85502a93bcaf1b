//! What every storage does, and what each call leaves.
ghost use Rattle.std.specs.Prelude.{◌≡◌, ◌≢◌, ℕ, ◌+◌, ◌<◌, Bool, true, false, Option, None, Some, is_some, is_ok};
ghost use Rattle.std.specs.Prelude.{IsSome, IsOk, IfOk, IfErr, OnOk, OnErr, if◌then◌else◌};
ghost use Rattle.std.specs.Borrow.{LendsIfOk, sem};
ghost use Rattle.specs_layouts.specs.Channels.{Log};
ghost use Rattle.specs_layouts.specs.Parts.{Puts, SameParts, HasNone, told};
ghost use Rattle.specs_layouts.specs.declared.track.ComponentEvent.{ComponentEvent};
ghost use Rattle.specs_layouts.specs.declared.track.ComponentEvent.TheVariants as event;

use hibitset_sets::{BitSetLike, Index};
use std::alloc::{AllocError, AllocFailed, Global};

/// A type that may have a default.
pub trait TryDefault {
    /// What holds of each default.
    ghost is_default: { Self → Type 0 };

    /// Whether there always is one.
    ghost always: { Bool };

    /// The default, or a text that says why there is none. Takes no memory.
    fn try_default(alloc: Global) -> Result<Self, &'static str>
    where
        Self: Sized,
        ensures value { IfOk result is_default }
        ensures succeeds { always ≡ true → IsOk result };

    /// The default of a type that always has one.
    final fn unwrap_default(alloc: Global) -> Self
    where
        Self: Sized,
        requires { always ≡ true }
        ensures { is_default result }
    {
        match Self::try_default(alloc) {
            Ok(value) => value,
            Err(_) => unreachable!(),
        }
    }
}

/// A finite map from index to part, for callers that know which indices have one.
///
/// A change of a storage that emits writes an event, and may find no memory for it. Where a call is
/// refused, each index has the part that it had.
pub trait UnprotectedStorage<T: Drop>: TryDefault {
    /// The part at each index.
    ghost part_at: { Self → ℕ → Option T };

    /// The storage after a part was written at an index through what `get_mut` lent.
    ghost written: { Self → ℕ → T → Self };

    /// The events held, the oldest first, and how many of them each reader has read.
    ghost events: { Self → Log ComponentEvent };

    /// Whether a change writes an event.
    ghost emits: { Self → Bool };

    /// Whether so many changes find the memory for their events.
    ghost has_room: { Self → ℕ → Type 0 };

    /// Takes out all parts, whose indices are the members of `has`. No event is written.
    fn clean<B: BitSetLike + Drop>(&mut self, has: B)
        requires mask { (index : ℕ) → B.members has index ≡ is_some (part_at self.old index) }
        requires range { (index : ℕ) → IsSome (part_at self.old index) → index < 16777216 }
        ensures none { HasNone (part_at self.new) }
        ensures events { events self.new ≡ events self.old }
        ensures emission { emits self.new ≡ emits self.old };

    /// The part at `id`, which has one.
    fn get(&self, id: Index) -> &T
        requires { IsSome (part_at self.now id) }
        ensures { part_at self.now id ≡ Some result.now };

    /// The part at `id`, which has one, for writing.
    ///
    /// Errors: `AllocError`, where the storage emits.
    fn get_mut(&mut self, id: Index) -> Result<&mut T, AllocError>
        requires { IsSome (part_at self.old id) }
        ensures* writes_back { sem 𝓛 (LendsIfOk Self.row T.row self.entry result (written self.old id) self.old) }
        ensures value { IfOk result (λ part. part_at self.old id ≡ Some part.now) }
        ensures succeeds { emits self.old ≡ false → IsOk result }
        ensures within_room { has_room self.old 1 → IsOk result };

    /// Puts `part` at `id`, which has none.
    ///
    /// Errors: want of memory, which hands `part` back.
    fn insert(&mut self, id: Index, part: T) -> Result<(), AllocFailed<T>>
        requires range { id < 16777216 }
        requires absent { part_at self.old id ≡ None }
        ensures ok { OnOk result (Puts (part_at self.old) id (Some part) (part_at self.new)) }
        ensures err { OnErr result (SameParts (part_at self.old) (part_at self.new)) }
        ensures handed_back { IfErr result (λ refused. refused.value ≡ part) }
        ensures events { events self.new ≡ (if is_ok result
            then told (emits self.old) (events self.old) (event.Inserted id) else events self.old) }
        ensures emission { emits self.new ≡ emits self.old }
        ensures room { (count : ℕ) → has_room self.old (count + 1) → has_room self.new count };

    /// Takes out the part at `id`, which has one.
    ///
    /// Errors: `AllocError`, where the storage emits and has no room.
    fn remove(&mut self, id: Index) -> Result<T, AllocError>
        requires { IsSome (part_at self.old id) }
        ensures value { IfOk result (λ part. part_at self.old id ≡ Some part) }
        ensures ok { OnOk result (Puts (part_at self.old) id None (part_at self.new)) }
        ensures err { OnErr result (SameParts (part_at self.old) (part_at self.new)) }
        ensures events { events self.new ≡ (if is_ok result
            then told (emits self.old) (events self.old) (event.Removed id) else events self.old) }
        ensures emission { emits self.new ≡ emits self.old }

        // With room for it, or without events, it is never refused, and it uses up the room of one.
        ensures succeeds { emits self.old ≡ false → IsOk result }
        ensures within_room { has_room self.old 1 → IsOk result }
        ensures room { (count : ℕ) → has_room self.old (count + 1) → has_room self.new count };

    /// Drops the part at `id`, which has one.
    ///
    /// Errors: those of `remove`.
    fn drop(&mut self, id: Index) -> Result<(), AllocError>
        requires { IsSome (part_at self.old id) }
        ensures ok { OnOk result (Puts (part_at self.old) id None (part_at self.new)) }
        ensures err { OnErr result (SameParts (part_at self.old) (part_at self.new)) }
        ensures events { events self.new ≡ (if is_ok result
            then told (emits self.old) (events self.old) (event.Removed id) else events self.old) }
        ensures emission { emits self.new ≡ emits self.old }

        // With room for it, or without events, it is never refused, and it uses up the room of one.
        ensures succeeds { emits self.old ≡ false → IsOk result }
        ensures within_room { has_room self.old 1 → IsOk result }
        ensures room { (count : ℕ) → has_room self.old (count + 1) → has_room self.new count }
    {
        match self.remove(id) {
            Ok(_) => Ok(()),
            Err(refused) => Err(refused),
        }
    }

    /// Makes room for the events of so many changes.
    ///
    /// Errors: `AllocError`, where the storage emits.
    fn make_room(&mut self, count: usize) -> Result<(), AllocError>
        ensures ok { OnOk result (has_room self.new count) }
        ensures same { SameParts (part_at self.old) (part_at self.new) }
        ensures events { events self.new ≡ events self.old }
        ensures emission { emits self.new ≡ emits self.old }

        // With room for them, or without events, it is never refused.
        ensures succeeds { emits self.old ≡ false → IsOk result }
        ensures within_room { has_room self.old count → IsOk result };

    /// What was written is there, and no other part changed.
    ghost written_puts: { (s : Self) (index : ℕ) (part : T) → IsSome (part_at s index)
        → Puts (part_at s) index (Some part) (part_at (written s index part)) };

    /// Lending a part for writing is told.
    ghost written_tells: { (s : Self) (index : ℕ) (part : T)
        → events (written s index part) ≡ told (emits s) (events s) (event.Modified index) };

    /// Writing leaves the emission.
    ghost written_emits: { (s : Self) (index : ℕ) (part : T) → emits (written s index part) ≡ emits s };

    /// Lending a part for writing uses up the room of one.
    ghost written_room: { (s : Self) (index : ℕ) (part : T) (count : ℕ) → has_room s (count + 1)
        → has_room (written s index part) count };

    /// Room for one change more is room for these.
    ghost room_for_fewer: { (s : Self) (count : ℕ) → has_room s (count + 1) → has_room s count };

    /// A default has no part.
    ghost starts_empty: { (s : Self) → Self.is_default s → HasNone (part_at s) };
}

/// A mark of storages whose `get_mut` touches the part at its index and nothing else: no other part,
/// and no event.
pub trait DistinctStorage<T: Drop>: UnprotectedStorage<T> {
    /// It never writes an event.
    ghost silent: { (s : Self) → Self.emits s ≡ false };
}
