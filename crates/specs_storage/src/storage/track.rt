//! Storages whose changes are told through a channel.
ghost use Rattle.std.specs.Prelude.{◌≡◌, ◌≢◌, ◌<◌, ℕ, [], ◌∷◌, length, IfOk, OnOk, OnErr};
ghost use Rattle.specs_layouts.specs.Channels.{after_read, unread, with_event, with_more, with_reader};
ghost use Rattle.specs_layouts.specs.Channels.{CaughtUp, IsReader};
ghost use Rattle.specs_layouts.specs.MaskedChanges.{KeepsParts};
ghost use Rattle.specs_storage.specs.Found.{KeepsLoans};

use super::Storage;
use crate::loan::Loan;
use specs_layouts::{Component, ComponentEvent, EventChannel, MaskedStorage, ReaderId, Tracked};
use std::alloc::AllocError;

impl<'e, T: Component, D: Loan<T>> Storage<'e, T, D>
where
    T::Storage: Tracked<T>,
{
    /// The channel that is told of its changes.
    pub fn channel(&self) -> &EventChannel<ComponentEvent>
        ensures { result.now ≡ T.Storage.channel_of (D.lent self.now.store).inner }
    {
        self.store.storage().channel()
    }

    /// Whether emission is on.
    pub fn event_emission(&self) -> bool
        ensures { result ≡ T.Storage.emission_of (D.lent self.now.store).inner }
    {
        self.store.storage().event_emission()
    }
}

impl<'e, T: Component> Storage<'e, T, &'e mut MaskedStorage<T>>
where
    T::Storage: Tracked<T>,
{
    ghost use Rattle.std.specs.Borrow.{sem};
    ghost use Rattle.specs_storage.specs.StorageLends.{lends_channel};

    /// The channel that is told of its changes, for readers to be registered and to read.
    pub fn channel_mut(&mut self) -> &mut EventChannel<ComponentEvent>
        ensures* writes_back { sem 𝓛 (lends_channel T.row T.Storage.row T.Storage.UnprotectedStorage
            T.Storage.with_channel self.entry result) }
        ensures value { result.now ≡ T.Storage.channel_of self.old.store.now.inner }
    {
        self.store.channel_mut()
    }

    /// A reader more of its events, who will read what is written from now on. An event is kept until all readers
    /// have read it, so a reader has to read now and then.
    ///
    /// Errors: `AllocError`, and nothing changed.
    pub fn register_reader(&mut self) -> Result<ReaderId, AllocError>
        ensures ok { OnOk result (self.new.store.now.inner ≡ T.Storage.with_channel self.old.store.now.inner
            (with_reader (T.Storage.channel_of self.old.store.now.inner))) }
        ensures number { IfOk result (λ reader. reader
            ≡ length (T.Storage.channel_of self.old.store.now.inner).places) }
        ensures mask { self.new.store.now.mask ≡ self.old.store.now.mask }
        ensures caught_up { IfOk result (λ reader. CaughtUp (T.Storage.events self.new.store.now.inner) reader) }
        ensures emits { OnOk result (T.Storage.emits self.new.store.now.inner
            ≡ T.Storage.emission_of self.old.store.now.inner) }
        ensures parts { KeepsParts T.Storage.part_at self.old.store.now self.new.store.now }
        ensures err { OnErr result (self.new.store.now.inner ≡ self.old.store.now.inner) }
        ensures loans { KeepsLoans self.old self.new }
    {
        self.store.register_reader()
    }

    /// The reader has read to the end of the channel. Nothing is copied, and no memory is taken; what all readers have
    /// read is let go. No part changes, and the other readers have what they had.
    pub fn catch_up(&mut self, reader: &ReaderId)
        ensures after { self.new.store.now.inner ≡ T.Storage.with_channel self.old.store.now.inner
            (after_read (T.Storage.channel_of self.old.store.now.inner) reader.now) }
        ensures mask { self.new.store.now.mask ≡ self.old.store.now.mask }
        ensures parts { KeepsParts T.Storage.part_at self.old.store.now self.new.store.now }
        ensures emission { T.Storage.emits self.new.store.now.inner ≡ T.Storage.emits self.old.store.now.inner }
        ensures read { unread (T.Storage.events self.new.store.now.inner) reader.now ≡ [] }
        ensures others { (other : ℕ) → other ≢ reader.now → unread (T.Storage.events self.new.store.now.inner) other
            ≡ unread (T.Storage.events self.old.store.now.inner) other }
        ensures caught_up { reader.now < length (T.Storage.events self.old.store.now.inner).places
            → CaughtUp (T.Storage.events self.new.store.now.inner) reader.now }
        ensures readers { (other : ℕ) → IsReader (T.Storage.events self.old.store.now.inner) other
            → IsReader (T.Storage.events self.new.store.now.inner) other }
        ensures loans { KeepsLoans self.old self.new }
    {
        self.store.catch_up(reader);
    }

    /// Writes an event by hand, also where emission is off. No part changes.
    ///
    /// Errors: `AllocError`, and nothing changed.
    pub fn flag(&mut self, event: ComponentEvent) -> Result<(), AllocError>
        ensures ok { OnOk result (self.new.store.now.inner ≡ T.Storage.with_channel self.old.store.now.inner
            (with_event (T.Storage.channel_of self.old.store.now.inner) event)) }
        ensures mask { self.new.store.now.mask ≡ self.old.store.now.mask }
        ensures told { OnOk result (T.Storage.events self.new.store.now.inner
            ≡ with_more (T.Storage.events self.old.store.now.inner) (event ∷ [])) }
        ensures parts { KeepsParts T.Storage.part_at self.old.store.now self.new.store.now }
        ensures err { OnErr result (self.new.store.now.inner ≡ self.old.store.now.inner) }
        ensures loans { KeepsLoans self.old self.new }
    {
        self.store.flag(event)
    }

    /// Turns emission on or off. While it is off no change is told, only what `flag` writes.
    pub fn set_event_emission(&mut self, emission: bool)
        ensures mask { self.new.store.now.mask ≡ self.old.store.now.mask }
        ensures inner { self.new.store.now.inner ≡ T.Storage.with_emission self.old.store.now.inner emission }
        ensures loans { KeepsLoans self.old self.new }
    {
        self.store.set_event_emission(emission);
    }
}
