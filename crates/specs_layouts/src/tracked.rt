//! Storages with a channel that is told of their changes.
ghost use Rattle.std.specs.Prelude.{◌≡◌, ◌≢◌, ◌<◌, ℕ, Bool, ◌&&◌, [], length};
ghost use Rattle.std.specs.Borrow.{sem};
ghost use Rattle.specs_layouts.specs.Channels.{Channel, CaughtUp, IsReader, after_read, has_readers, log_of, unread};
ghost use Rattle.specs_layouts.specs.Parts.{SameParts};
ghost use Rattle.specs_layouts.specs.TrackedLends.{lends_channel};
ghost use Rattle.specs_layouts.specs.declared.track.ComponentEvent.{ComponentEvent};

use crate::track::ComponentEvent;
use crate::unprotected::UnprotectedStorage;
use crate::{EventChannel, ReaderId};

/// A storage with a channel that is told of its changes, while emission is on and the channel has a reader.
///
/// Turning emission on, and the first reader, end the room that was made for events before.
pub trait Tracked<T: Drop>: UnprotectedStorage<T> {
    /// Its channel.
    ghost channel_of: { Self → Channel ComponentEvent };

    /// Whether emission is on.
    ghost emission_of: { Self → Bool };

    /// The storage with another channel.
    ghost with_channel: { Self → Channel ComponentEvent → Self };

    /// The storage with emission on or off.
    ghost with_emission: { Self → Bool → Self };

    /// Its channel.
    fn channel(&self) -> &EventChannel<ComponentEvent>
        ensures { result.now ≡ channel_of self.now };

    /// Its channel, for readers to be registered and to read.
    fn channel_mut(&mut self) -> &mut EventChannel<ComponentEvent>
        ensures* writes_back { sem 𝓛 (lends_channel Self.row with_channel self.entry result) }
        ensures value { result.now ≡ channel_of self.old };

    /// Whether emission is on.
    fn event_emission(&self) -> bool
        ensures { result ≡ emission_of self.now };

    /// Turns emission on or off.
    fn set_event_emission(&mut self, emission: bool)
        ensures { self.new ≡ with_emission self.old emission };

    /// The reader has read to the end of the channel. Nothing is copied, and no memory is taken; what all readers have
    /// read is let go. No part changes, and the other readers have what they had.
    final fn catch_up(&mut self, reader: &ReaderId)
        ensures after { self.new ≡ with_channel self.old (after_read (channel_of self.old) reader.now) }
        ensures parts { SameParts (Self.part_at self.old) (Self.part_at self.new) }
        ensures emission { Self.emits self.new ≡ Self.emits self.old }
        ensures read { unread (Self.events self.new) reader.now ≡ [] }
        ensures others { (other : ℕ) → other ≢ reader.now
            → unread (Self.events self.new) other ≡ unread (Self.events self.old) other }
        ensures caught_up { reader.now < length (Self.events self.old).places
            → CaughtUp (Self.events self.new) reader.now }
        ensures readers { (other : ℕ) → IsReader (Self.events self.old) other → IsReader (Self.events self.new) other }
    {
        self.channel_mut().catch_up(reader);
    }

    /// What its readers can tell is what the channel tells.
    ghost holds: { (s : Self) → Self.events s ≡ log_of (channel_of s) };

    /// A change is told while emission is on and someone reads.
    ghost tells: { (s : Self) → Self.emits s ≡ (emission_of s && has_readers (channel_of s)) };

    /// Another channel leaves the parts and the emission.
    ghost channel_parts: { (s : Self) (c : Channel ComponentEvent)
        → SameParts (Self.part_at s) (Self.part_at (with_channel s c)) };

    ghost channel_put: { (s : Self) (c : Channel ComponentEvent) → channel_of (with_channel s c) ≡ c };

    ghost channel_emission: { (s : Self) (c : Channel ComponentEvent)
        → emission_of (with_channel s c) ≡ emission_of s };

    ghost channel_kept: { (s : Self) → with_channel s (channel_of s) ≡ s };

    /// Emission turned on or off leaves the parts and the channel.
    ghost emission_parts: { (s : Self) (on : Bool) → SameParts (Self.part_at s) (Self.part_at (with_emission s on)) };

    ghost emission_put: { (s : Self) (on : Bool) → emission_of (with_emission s on) ≡ on };

    ghost emission_channel: { (s : Self) (on : Bool) → channel_of (with_emission s on) ≡ channel_of s };
}
