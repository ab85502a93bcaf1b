//! A storage with the mask that knows which indices have a part.
ghost use Rattle.std.specs.Prelude.{◌≡◌, ◌≢◌, ℕ, ◌+◌, ◌<◌, true, false, Option, None, Some, IsSome, is_some, is_ok};
ghost use Rattle.std.specs.Prelude.{[], ◌∷◌, length, IsOk, IfOk, OnOk, OnErr, IfErr, if◌then◌else◌};
ghost use Rattle.std.specs.FinSet as set;
ghost use Rattle.std.specs.Borrow.{sem};
ghost use Rattle.specs_layouts.specs.Channels.{after_read, unread, with_event, with_more, with_reader};
ghost use Rattle.specs_layouts.specs.Channels.{CaughtUp, IsReader};
ghost use Rattle.specs_layouts.specs.Parts.{HasNone};
ghost use Rattle.specs_layouts.specs.MaskedChanges.{PutsIn, KeepsParts, told_in, told_put, told_taken};
ghost use Rattle.specs_layouts.specs.declared.track.ComponentEvent.TheVariants as event;

use crate::comp::Component;
use crate::track::ComponentEvent;
use crate::tracked::Tracked;
use crate::unprotected::UnprotectedStorage;
use crate::{EventChannel, ReaderId};
use hibitset_sets::{BitSet, Index};
use std::alloc::{AllocError, AllocFailed, Global};
use std::marker::Model;
use std::mem;

/// The parts of one kind, and the mask of the indices that have one.
#[derive(Drop)]
pub struct MaskedStorage<T: Component> {
    mask: BitSet,
    inner: T::Storage,
}

impl<T: Component> Model for MaskedStorage<T> {
    ghost use Rattle.specs_layouts.specs.Masked.{Masked, masked_code, Agrees};

    ghost Value = { Masked T.Storage };

    ghost coded = { masked_code T.Storage.code };

    ghost view = { λ s. record { mask = s.mask; inner = s.inner } };

    ghost invariant = { λ s. Agrees s.mask (T.Storage.part_at s.inner) };
}

impl<T: Component> MaskedStorage<T> {
    ghost use Rattle.specs_layouts.specs.Masked.{Agrees};
    ghost use Rattle.specs_layouts.specs.MaskedLends.{lends_part};

    /// A storage without parts, over a layout that has none. Takes no memory.
    pub fn new(alloc: Global, inner: T::Storage) -> Self
        requires { HasNone (T.Storage.part_at inner) }
        ensures { result.inner ≡ inner }
    {
        MaskedStorage {
            mask: BitSet::new(alloc),
            inner,
        }
    }

    /// A storage of the parts of a layout, beside the mask of the indices that have one.
    pub fn from_parts(mask: BitSet, inner: T::Storage) -> Self
        requires { Agrees mask (T.Storage.part_at inner) }
        ensures mask { result.mask ≡ mask }
        ensures inner { result.inner ≡ inner }
    {
        MaskedStorage { mask, inner }
    }

    /// The indices that have a part.
    pub fn mask(&self) -> &BitSet
        ensures value { result.now ≡ self.now.mask }
        ensures agrees { Agrees self.now.mask (T.Storage.part_at self.now.inner) }
        ensures range { (index : ℕ) → set.contains self.now.mask.members index ≡ true → index < 16777216 }
    {
        let _words = self.mask.layer0_as_slice();
        &self.mask
    }

    /// The indices that have a part, and the layout that holds the parts.
    pub fn into_parts(self) -> (BitSet, T::Storage)
        ensures mask { result.0 ≡ self.mask }
        ensures inner { result.1 ≡ self.inner }
        ensures agrees { Agrees self.mask (T.Storage.part_at self.inner) }
    {
        (self.mask, self.inner)
    }

    /// The layout that holds the parts.
    pub fn inner(&self) -> &T::Storage
        ensures { result.now ≡ self.now.inner }
    {
        &self.inner
    }

    /// Whether an index has a part.
    pub fn contains(&self, id: Index) -> bool
        ensures { result ≡ is_some (T.Storage.part_at self.now.inner id) }
    {
        self.mask.contains(id)
    }

    /// The part at `id`, which has one.
    pub fn get(&self, id: Index) -> &T
        requires { IsSome (T.Storage.part_at self.now.inner id) }
        ensures { T.Storage.part_at self.now.inner id ≡ Some result.now }
    {
        self.inner.get(id)
    }

    /// The part at `id`, which has one, for writing.
    ///
    /// Errors: `AllocError`, where the storage emits, and nothing changed.
    pub fn get_mut(&mut self, id: Index) -> Result<&mut T, AllocError>
        requires { IsSome (T.Storage.part_at self.old.inner id) }
        ensures* writes_back { sem 𝓛 (lends_part T.row T.Storage.row T.Storage.UnprotectedStorage
            self.entry id result) }
        ensures value { IfOk result (λ part. T.Storage.part_at self.old.inner id ≡ Some part.now) }
        ensures succeeds { T.Storage.emits self.old.inner ≡ false → IsOk result }
        ensures within_room { T.Storage.has_room self.old.inner 1 → IsOk result }
    {
        self.inner.get_mut(id)
    }

    /// Takes out all parts. Takes no memory, and writes no event.
    pub fn clear(&mut self)
        ensures none { HasNone (T.Storage.part_at self.new.inner) }
        ensures events { T.Storage.events self.new.inner ≡ T.Storage.events self.old.inner }
        ensures emission { T.Storage.emits self.new.inner ≡ T.Storage.emits self.old.inner }
    {
        let _words = self.mask.layer0_as_slice();
        self.inner.clean(&self.mask);
        self.mask.clear();
    }

    /// Writes `part` over the part at `id`, which has one, and answers the part that was there.
    fn replace(&mut self, id: Index, part: T) -> Result<T, AllocFailed<T>>
        requires { IsSome (T.Storage.part_at self.old.inner id) }
        ensures value { IfOk result (λ old. T.Storage.part_at self.old.inner id ≡ Some old) }
        ensures ok { OnOk result (self.new.inner ≡ T.Storage.written self.old.inner id part) }
        ensures err { OnErr result (self.new ≡ self.old) }
        ensures handed_back { IfErr result (λ refused. refused.value ≡ part) }
        ensures succeeds { T.Storage.emits self.old.inner ≡ false → IsOk result }
    {
        match self.inner.get_mut(id) {
            Ok(place) => Ok(mem::replace(place, part)),
            Err(_) => Err(AllocFailed { value: part }),
        }
    }

    /// Puts `part` at `id`, which has none.
    fn add(&mut self, id: Index, part: T) -> Result<(), AllocFailed<T>>
        requires range { id < 16777216 }
        requires absent { T.Storage.part_at self.old.inner id ≡ None }
        ensures ok { OnOk result (PutsIn T.Storage.part_at self.old id (Some part) self.new) }
        ensures err { OnErr result (KeepsParts T.Storage.part_at self.old self.new) }
        ensures handed_back { IfErr result (λ refused. refused.value ≡ part) }
        ensures events { T.Storage.events self.new.inner
            ≡ (if is_ok result then told_in T.Storage.emits T.Storage.events self.old (event.Inserted id)
            else T.Storage.events self.old.inner) }
        ensures emission { T.Storage.emits self.new.inner ≡ T.Storage.emits self.old.inner }
        ensures room { (count : ℕ) → T.Storage.has_room self.old.inner (count + 1)
            → T.Storage.has_room self.new.inner count }
    {
        if self.mask.reserve(id + 1).is_err() {
            return Err(AllocFailed { value: part });
        }
        self.inner.insert(id, part)?;
        let _ = self.mask.add(id);
        Ok(())
    }

    /// Puts `part` at `id`, and answers the part that was there.
    ///
    /// A storage that emits writes `Modified` where a part was, else `Inserted`.
    ///
    /// Errors: want of memory, which hands `part` back, and each index has the part that it had.
    pub fn insert(&mut self, id: Index, part: T) -> Result<Option<T>, AllocFailed<T>>
        requires { id < 16777216 }
        ensures value { IfOk result (λ old. old ≡ T.Storage.part_at self.old.inner id) }
        ensures ok { OnOk result (PutsIn T.Storage.part_at self.old id (Some part) self.new) }
        ensures err { OnErr result (KeepsParts T.Storage.part_at self.old self.new) }
        ensures handed_back { IfErr result (λ refused. refused.value ≡ part) }
        ensures succeeds { IsSome (T.Storage.part_at self.old.inner id) → T.Storage.emits self.old.inner ≡ false
            → IsOk result }

        // One event tells of it, and a refusal writes none.
        ensures events { OnOk result (T.Storage.events self.new.inner
            ≡ told_put T.Storage.part_at T.Storage.emits T.Storage.events self.old id) }
        ensures silent { OnErr result (T.Storage.events self.new.inner ≡ T.Storage.events self.old.inner) }
        ensures emission { T.Storage.emits self.new.inner ≡ T.Storage.emits self.old.inner }
        ensures room { (count : ℕ) → T.Storage.has_room self.old.inner (count + 1)
            → T.Storage.has_room self.new.inner count }
    {
        if self.mask.contains(id) {
            match self.replace(id, part) {
                Ok(old) => Ok(Some(old)),
                Err(refused) => Err(refused),
            }
        } else {
            match self.add(id, part) {
                Ok(()) => Ok(None),
                Err(refused) => Err(refused),
            }
        }
    }

    /// Takes out the part at `id`, or answers none where it has none.
    ///
    /// Errors: `AllocError`, where the storage emits and has no room, and each index has the part that
    /// it had.
    pub fn remove(&mut self, id: Index) -> Result<Option<T>, AllocError>
        ensures value { IfOk result (λ part. part ≡ T.Storage.part_at self.old.inner id) }
        ensures ok { OnOk result (PutsIn T.Storage.part_at self.old id None self.new) }
        ensures err { OnErr result (KeepsParts T.Storage.part_at self.old self.new) }
        ensures succeeds { T.Storage.emits self.old.inner ≡ false → IsOk result }
        ensures within_room { T.Storage.has_room self.old.inner 1 → IsOk result }
        ensures room { (count : ℕ) → T.Storage.has_room self.old.inner (count + 1)
            → T.Storage.has_room self.new.inner count }

        // One event tells of a part that was taken out, and a refusal writes none.
        ensures events { OnOk result (T.Storage.events self.new.inner
            ≡ told_taken T.Storage.part_at T.Storage.emits T.Storage.events self.old id) }
        ensures silent { OnErr result (T.Storage.events self.new.inner ≡ T.Storage.events self.old.inner) }
        ensures emission { T.Storage.emits self.new.inner ≡ T.Storage.emits self.old.inner }
    {
        if !self.mask.contains(id) {
            return Ok(None);
        }
        let part = self.inner.remove(id)?;
        let _ = self.mask.remove(id);
        Ok(Some(part))
    }

    /// Drops the part at `id`, if it has one.
    ///
    /// Errors: those of `remove`.
    pub fn drop(&mut self, id: Index) -> Result<(), AllocError>
        ensures ok { OnOk result (PutsIn T.Storage.part_at self.old id None self.new) }
        ensures err { OnErr result (KeepsParts T.Storage.part_at self.old self.new) }

        // One event tells of a part that was dropped, and a refusal writes none.
        ensures events { OnOk result (T.Storage.events self.new.inner
            ≡ told_taken T.Storage.part_at T.Storage.emits T.Storage.events self.old id) }
        ensures silent { OnErr result (T.Storage.events self.new.inner ≡ T.Storage.events self.old.inner) }
        ensures emission { T.Storage.emits self.new.inner ≡ T.Storage.emits self.old.inner }

        // With room for it, or without events, it is never refused, and it uses up the room of one.
        ensures succeeds { T.Storage.emits self.old.inner ≡ false → IsOk result }
        ensures within_room { T.Storage.has_room self.old.inner 1 → IsOk result }
        ensures room { (count : ℕ) → T.Storage.has_room self.old.inner (count + 1)
            → T.Storage.has_room self.new.inner count }
    {
        if !self.mask.contains(id) {
            return Ok(());
        }
        self.inner.drop(id)?;
        let _ = self.mask.remove(id);
        Ok(())
    }

    /// Makes room for the events of so many changes.
    ///
    /// Errors: `AllocError`, where the storage emits.
    pub fn make_room(&mut self, count: usize) -> Result<(), AllocError>
        ensures ok { OnOk result (T.Storage.has_room self.new.inner count) }
        ensures mask { self.new.mask ≡ self.old.mask }
        ensures same { KeepsParts T.Storage.part_at self.old self.new }
        ensures events { T.Storage.events self.new.inner ≡ T.Storage.events self.old.inner }
        ensures emission { T.Storage.emits self.new.inner ≡ T.Storage.emits self.old.inner }

        // With room for them, or without events, it is never refused.
        ensures succeeds { T.Storage.emits self.old.inner ≡ false → IsOk result }
        ensures within_room { T.Storage.has_room self.old.inner count → IsOk result }
    {
        self.inner.make_room(count)
    }
}

impl<T: Component> MaskedStorage<T>
where
    T::Storage: Tracked<T>,
{
    ghost use Rattle.specs_layouts.specs.TrackedLends.{lends_masked_channel};

    /// The channel that is told of its changes.
    pub fn channel(&self) -> &EventChannel<ComponentEvent>
        ensures { result.now ≡ T.Storage.channel_of self.now.inner }
    {
        self.inner.channel()
    }

    /// The channel that is told of its changes, for readers to be registered and to read.
    pub fn channel_mut(&mut self) -> &mut EventChannel<ComponentEvent>
        ensures* writes_back { sem 𝓛 (lends_masked_channel T.row T.Storage.row T.Storage.UnprotectedStorage
            T.Storage.with_channel self.entry result) }
        ensures value { result.now ≡ T.Storage.channel_of self.old.inner }
    {
        self.inner.channel_mut()
    }

    /// Whether emission is on.
    pub fn event_emission(&self) -> bool
        ensures { result ≡ T.Storage.emission_of self.now.inner }
    {
        self.inner.event_emission()
    }

    /// Turns emission on or off.
    pub fn set_event_emission(&mut self, emission: bool)
        ensures mask { self.new.mask ≡ self.old.mask }
        ensures inner { self.new.inner ≡ T.Storage.with_emission self.old.inner emission }
    {
        self.inner.set_event_emission(emission);
    }

    /// A reader more of its events, who will read what is written from now on.
    ///
    /// Errors: `AllocError`, and nothing changed.
    pub fn register_reader(&mut self) -> Result<ReaderId, AllocError>
        ensures ok { OnOk result (self.new.inner
            ≡ T.Storage.with_channel self.old.inner (with_reader (T.Storage.channel_of self.old.inner))) }
        ensures number { IfOk result (λ reader. reader ≡ length (T.Storage.channel_of self.old.inner).places) }
        ensures mask { self.new.mask ≡ self.old.mask }
        ensures caught_up { IfOk result (λ reader. CaughtUp (T.Storage.events self.new.inner) reader) }
        ensures emits { OnOk result (T.Storage.emits self.new.inner ≡ T.Storage.emission_of self.old.inner) }
        ensures parts { KeepsParts T.Storage.part_at self.old self.new }
        ensures err { OnErr result (self.new.inner ≡ self.old.inner) }
    {
        self.inner.channel_mut().register_reader()
    }

    /// The reader has read to the end of the channel. Nothing is copied, and no memory is taken; what all readers have
    /// read is let go. No part changes, and the other readers have what they had.
    pub fn catch_up(&mut self, reader: &ReaderId)
        ensures after { self.new.inner ≡ T.Storage.with_channel self.old.inner
            (after_read (T.Storage.channel_of self.old.inner) reader.now) }
        ensures mask { self.new.mask ≡ self.old.mask }
        ensures parts { KeepsParts T.Storage.part_at self.old self.new }
        ensures emission { T.Storage.emits self.new.inner ≡ T.Storage.emits self.old.inner }
        ensures read { unread (T.Storage.events self.new.inner) reader.now ≡ [] }
        ensures others { (other : ℕ) → other ≢ reader.now
            → unread (T.Storage.events self.new.inner) other ≡ unread (T.Storage.events self.old.inner) other }
        ensures caught_up { reader.now < length (T.Storage.events self.old.inner).places
            → CaughtUp (T.Storage.events self.new.inner) reader.now }
        ensures readers { (other : ℕ) → IsReader (T.Storage.events self.old.inner) other
            → IsReader (T.Storage.events self.new.inner) other }
    {
        self.inner.catch_up(reader);
    }

    /// Writes an event by hand, also where emission is off. No part changes.
    ///
    /// Errors: `AllocError`, and nothing changed.
    pub fn flag(&mut self, event: ComponentEvent) -> Result<(), AllocError>
        ensures ok { OnOk result (self.new.inner
            ≡ T.Storage.with_channel self.old.inner (with_event (T.Storage.channel_of self.old.inner) event)) }
        ensures mask { self.new.mask ≡ self.old.mask }
        ensures told { OnOk result (T.Storage.events self.new.inner
            ≡ with_more (T.Storage.events self.old.inner) (event ∷ [])) }
        ensures parts { KeepsParts T.Storage.part_at self.old self.new }
        ensures err { OnErr result (self.new.inner ≡ self.old.inner) }
    {
        self.inner.channel_mut().single_write(event)
    }
}
