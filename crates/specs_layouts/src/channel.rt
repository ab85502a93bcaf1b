//! A channel of events.
ghost use Rattle.std.specs.Prelude.{◌≡◌, ◌≢◌, ℕ, ◌∷◌, ◌+◌, ◌-◌, ◌<◌, ◌≤◌, ◌++◌, [], OnOk, OnErr, IfOk, IsOk};
ghost use Rattle.std.specs.Prelude.{List, length, max, map, take, is_ok, if◌then◌else◌, true, ◌&&◌, ◌||◌, nat_lt};
ghost use Rattle.hibitset_sets.specs.BitSet.{has_member};
ghost use Rattle.hibitset_sets.specs.Walk.{walk};
ghost use Rattle.specs_layouts.specs.Blocks.{is_named, same_events, with_events};
ghost use Rattle.specs_layouts.specs.Channels.{with_event, with_room, with_reader, with_more, after_read, let_go};
ghost use Rattle.specs_layouts.specs.Channels.{read_by, since, has_readers, IsChannel, IsReader, CaughtUp, log_of};

use crate::blocks::{Block, Place, append_all, drop_first, index_all, least, lower};
use crate::index_event::IndexEvent;
use hibitset_sets::{BitSet, BitSetLike};
use std::alloc::{AllocError, Global};
use std::marker::Model;

/// A reader of a channel, which is one of the channel's readers by its number. Its value is this number.
#[derive(Drop)]
pub struct ReaderId {
    number: usize,
}

impl Model for ReaderId {
    ghost use Rattle.std.specs.Prelude.{ℕ};
    ghost use Rattle.std.specs.Coded.{coded_ℕ};

    ghost Value = { ℕ };

    ghost coded = { coded_ℕ };

    ghost view = { λ r. r.number };
}

/// Events in the order in which they were written, and how many of them each reader has read.
///
/// An event is kept until all readers have read it; where there is no reader, until the next `read`. The same event of
/// several indices of a word of 64 takes the place of one where it is written by `write_block` or `write_all`.
#[derive(Drop)]
pub struct EventChannel<E: IndexEvent> {
    blocks: Vec<Block<E>>,
    places: Vec<Place>,
    count: usize,
}

impl<E: IndexEvent> Model for EventChannel<E> {
    ghost use Rattle.std.specs.Prelude.{ℕ, ◌-◌, map, vec_capacity};
    ghost use Rattle.specs_layouts.specs.Blocks.{all_events, event_place, IsBlocked};
    ghost use Rattle.specs_layouts.specs.Channels.{Channel, channel_code};

    ghost Value = { Channel E };

    ghost coded = { channel_code E.code };

    ghost view = { λ c. record {
      held = all_events E.index_of E.same_at c.blocks.items;
      room = vec_capacity c.blocks - c.count;
      places = map event_place c.places.items;
    } };

    ghost invariant = { λ c. IsBlocked E.index_of E.same_at c.blocks.items (vec_capacity c.blocks) c.places.items c.count };
}

impl<E: IndexEvent> EventChannel<E> {
    /// A channel without events and readers. Takes no memory.
    pub fn new(alloc: Global) -> Self
        ensures held { result.held ≡ [] }
        ensures places { result.places ≡ [] }
        ensures room { result.room ≡ 0 }
    {
        EventChannel {
            blocks: Vec::new(alloc),
            places: Vec::new(alloc),
            count: 0,
        }
    }

    /// A reader more, who will read what is written from now on.
    ///
    /// Errors: `AllocError`, and nothing changed.
    pub fn register_reader(&mut self) -> Result<ReaderId, AllocError>
        ensures ok { OnOk result (self.new ≡ with_reader self.old) }
        ensures number { IfOk result (λ reader. reader ≡ length self.old.places) }
        ensures caught_up { IfOk result (λ reader. CaughtUp (log_of self.new) reader) }
        ensures err { OnErr result (self.new ≡ self.old) }
    {
        let number = self.places.len();
        let place = Place {
            block: self.blocks.len(),
            event: self.count,
        };
        match self.places.push(place) {
            Ok(()) => Ok(ReaderId { number }),
            Err(_) => Err(AllocError),
        }
    }

    /// Whether there is a reader.
    pub fn has_readers(&self) -> bool
        ensures { result ≡ has_readers self.now }
    {
        !self.places.is_empty()
    }

    /// Makes room for `count` events more.
    ///
    /// Errors: `AllocError`, and nothing changed. It isn't refused where there is room for so many.
    pub fn reserve(&mut self, count: usize) -> Result<(), AllocError>
        ensures ok { OnOk result (self.new.room ≡ max self.old.room count) }
        ensures held { self.new.held ≡ self.old.held }
        ensures places { self.new.places ≡ self.old.places }
        ensures err { OnErr result (self.new ≡ self.old) }
        ensures succeeds { count ≤ self.old.room → IsOk result }
    {
        match self.count.checked_add(count) {
            Some(events) => self.blocks.reserve_exact(events - self.blocks.len()),
            None => Err(AllocError),
        }
    }

    /// Makes room for an event, where there is none. A channel that is full grows to twice its length and one, so events
    /// that are written one after the other cost the same as by `single_write`.
    ///
    /// Errors: `AllocError`, and nothing changed. It isn't refused where there is room.
    pub fn reserve_one(&mut self) -> Result<(), AllocError>
        ensures ok { OnOk result (self.new ≡ with_room self.old) }
        ensures room { OnOk result (0 < self.new.room) }
        ensures err { OnErr result (self.new ≡ self.old) }
        ensures succeeds { 0 < self.old.room → IsOk result }
    {
        if self.count < self.blocks.capacity() {
            return Ok(());
        }
        self.grow()
    }

    /// Makes a channel that is full twice its length and one long.
    fn grow(&mut self) -> Result<(), AllocError>
        requires { self.old.room ≡ 0 }
        ensures ok { OnOk result (self.new ≡ with_room self.old) }
        ensures err { OnErr result (self.new ≡ self.old) }
    {
        if self.count >= 2147483648 {
            return Err(AllocError);
        }
        self.blocks
            .reserve_exact(2 * self.count + 1 - self.blocks.len())
    }

    /// Writes an event for which there is room.
    pub fn write_reserved(&mut self, event: E)
        requires { 0 < self.old.room }
        ensures { self.new ≡ with_event self.old event }
    {
        self.push(event, 0);
    }

    /// Writes an event, and the same of each further index of its word whose bit is set, for which there is room.
    fn push(&mut self, event: E, more: u64)
        requires { length (same_events E.index_of E.same_at event more) ≤ self.old.room }
        ensures { self.new ≡ with_events self.old (same_events E.index_of E.same_at event more) }
    {
        self.count += 1 + more.count_ones() as usize;
        self.blocks.push_reserved(Block { event, more });
    }

    /// Writes an event. A channel that is full grows to twice its length and one.
    ///
    /// Errors: `AllocError`, and nothing changed. It isn't refused where there is room.
    pub fn single_write(&mut self, event: E) -> Result<(), AllocError>
    where
        E: Drop,
        ensures ok { OnOk result (self.new ≡ with_event self.old event) }
        ensures err { OnErr result (self.new ≡ self.old) }
        ensures succeeds { 0 < self.old.room → IsOk result }

        // Each reader has it to read, behind the others.
        ensures told { OnOk result ((reader : ℕ) → reader < length self.old.places
            → since self.new reader ≡ since self.old reader ++ event ∷ []) }
    {
        match self.write(event) {
            Ok(()) => Ok(()),
            Err(refused) => Err(refused),
        }
    }

    /// Writes an event.
    fn write(&mut self, event: E) -> Result<(), AllocError>
    where
        E: Drop,
        ensures ok { OnOk result (self.new ≡ with_event self.old event) }
        ensures err { OnErr result (self.new ≡ self.old) }
        ensures succeeds { 0 < self.old.room → IsOk result }
        ensures was { IsChannel self.old }
    {
        if self.count == self.blocks.capacity() {
            self.grow()?;
        }
        self.write_reserved(event);
        Ok(())
    }

    /// Writes an event, and behind it the same of each further index of its word, ascending, whose bit is set in `more`. It
    /// takes the memory of as many events, and is written and read as one.
    ///
    /// Errors: `AllocError`, and nothing changed. It isn't refused where there is room for the events.
    pub fn write_block(&mut self, event: E, more: u64) -> Result<(), AllocError>
    where
        E: Drop,
        ensures ok { OnOk result (log_of self.new
            ≡ with_more (log_of self.old) (same_events E.index_of E.same_at event more)) }
        ensures err { OnErr result (self.new ≡ self.old) }
        ensures succeeds { length (same_events E.index_of E.same_at event more) ≤ self.old.room → IsOk result }
    {
        self.make_room_for(1 + more.count_ones() as usize)?;
        self.push(event, more);
        Ok(())
    }

    /// Makes room for the events of a word, where there is none. A channel without it grows by as many events as it has and
    /// these.
    fn make_room_for(&mut self, events: usize) -> Result<(), AllocError>
        requires { events ≤ 65 }
        ensures ok { OnOk result (events ≤ self.new.room) }
        ensures log { log_of self.new ≡ log_of self.old }
        ensures err { OnErr result (self.new ≡ self.old) }
        ensures succeeds { events ≤ self.old.room → IsOk result }
    {
        if events <= self.blocks.capacity() - self.count {
            return Ok(());
        }
        if self.count >= 2147483648 {
            return Err(AllocError);
        }
        self.reserve(self.count + events)
    }

    /// Writes the same event of each member of a set below `MAX_EID`, ascending, by the words of the set.
    ///
    /// Errors: `AllocError`, and those of some first members are written.
    pub fn write_all<M: BitSetLike>(&mut self, event: E, set: &M) -> Result<(), AllocError>
    where
        E: Drop,
        ensures ok { OnOk result (log_of self.new
            ≡ with_more (log_of self.old) (map (E.same_at event) (walk (M.members set.now)))) }
        ensures err { OnErr result ((first : ℕ) × (log_of self.new
            ≡ with_more (log_of self.old) (map (E.same_at event) (take first (walk (M.members set.now)))))) }
    {
        let mut walk = set.iter();
        while let Some((index, more)) = walk.next_word() {
            self.write_block(event.at(index), more)?;
        }
        Ok(())
    }

    /// Appends the events that the reader has yet to read to a list, the oldest first, and lets go of what all
    /// readers have read. A reader of another channel whose number no reader of this one has reads nothing.
    ///
    /// Errors: `AllocError`, and nothing changed.
    pub fn read(&mut self, reader: &ReaderId, into: &mut Vec<E>) -> Result<(), AllocError>
    where
        E: Copy + Drop,
        ensures items { into.new.items ≡ (if is_ok result then into.old.items ++ since self.old reader.now
            else into.old.items) }
        ensures ok { OnOk result (self.new ≡ after_read self.old reader.now) }
        ensures err { OnErr result (self.new ≡ self.old) }

        // The reader has nothing left to read, and each other has what it had.
        ensures read { OnOk result (since self.new reader.now ≡ []) }
        ensures others { OnOk result ((other : ℕ) → other ≢ reader.now → since self.new other ≡ since self.old other) }
        ensures caught_up { OnOk result (reader.now < length self.old.places → CaughtUp (log_of self.new) reader.now) }
        ensures readers { OnOk result ((other : ℕ) → IsReader (log_of self.old) other
            → IsReader (log_of self.new) other) }
    {
        match self.give(reader, into) {
            Ok(()) => Ok(()),
            Err(refused) => Err(refused),
        }
    }

    /// Reads for a reader.
    fn give(&mut self, reader: &ReaderId, into: &mut Vec<E>) -> Result<(), AllocError>
    where
        E: Copy + Drop,
        ensures items { into.new.items ≡ (if is_ok result then into.old.items ++ since self.old reader.now
            else into.old.items) }
        ensures ok { OnOk result (self.new ≡ after_read self.old reader.now) }
        ensures err { OnErr result (self.new ≡ self.old) }
    {
        self.copy_unread(reader, into)?;
        self.pass(reader);
        Ok(())
    }

    /// Appends the events that a reader has yet to read to a list.
    fn copy_unread(&self, reader: &ReaderId, into: &mut Vec<E>) -> Result<(), AllocError>
    where
        E: Copy,
        ensures ok { OnOk result (into.new.items ≡ into.old.items ++ since self.now reader.now) }
        ensures err { OnErr result (into.new.items ≡ into.old.items) }
    {
        if reader.number >= self.places.len() {
            return Ok(());
        }
        let place = self.places[reader.number];
        into.reserve(self.count - place.event)?;
        append_all(&self.blocks[place.block..], into);
        Ok(())
    }

    /// Puts the indices below `MAX_EID` of which the reader has yet to read events into a set, a word at a time. Its place
    /// stays: `catch_up` moves it. A reader of another channel whose number no reader of this one has puts in none.
    ///
    /// Errors: `AllocError`, and some of the indices are in.
    pub fn unread_indices(&self, reader: &ReaderId, into: &mut BitSet) -> Result<(), AllocError>
        ensures ok { OnOk result ((i : ℕ) → has_member into.new i ≡ (has_member into.old i
            || (nat_lt i 16777216 && is_named E.index_of (since self.now reader.now) i))) }
        ensures err { OnErr result ((i : ℕ) → has_member into.new i ≡ true → (has_member into.old i
            || (nat_lt i 16777216 && is_named E.index_of (since self.now reader.now) i)) ≡ true) }
        ensures kept { (i : ℕ) → has_member into.old i ≡ true → has_member into.new i ≡ true }
    {
        if reader.number >= self.places.len() {
            return Ok(());
        }
        let place = self.places[reader.number];
        index_all(&self.blocks[place.block..], into)
    }

    /// The reader has read to the end. Nothing is copied, and no memory is taken; what all readers have read is let go.
    /// For a reader of another channel whose number no reader of this one has, only that.
    pub fn catch_up(&mut self, reader: &ReaderId)
    where
        E: Drop,
        ensures after { self.new ≡ after_read self.old reader.now }

        // The reader has nothing left to read, and each other has what it had.
        ensures read { since self.new reader.now ≡ [] }
        ensures others { (other : ℕ) → other ≢ reader.now → since self.new other ≡ since self.old other }
        ensures caught_up { reader.now < length self.old.places → CaughtUp (log_of self.new) reader.now }
        ensures readers { (other : ℕ) → IsReader (log_of self.old) other → IsReader (log_of self.new) other }
    {
        self.pass(reader);
    }

    /// Moves a reader to the end.
    fn pass(&mut self, reader: &ReaderId)
    where
        E: Drop,
        ensures { self.new ≡ after_read self.old reader.now }
    {
        self.move_to_end(reader);
        self.let_go();
    }

    /// Moves a reader behind the events, and lets go of none.
    fn move_to_end(&mut self, reader: &ReaderId)
        ensures { self.new ≡ read_by self.old reader.now }
    {
        if reader.number < self.places.len() {
            self.places[reader.number] = Place {
                block: self.blocks.len(),
                event: self.count,
            };
        }
    }

    /// Lets go of the events that all readers have read.
    fn let_go(&mut self)
    where
        E: Drop,
        ensures { self.new ≡ let_go self.old }
    {
        let end = Place {
            block: self.blocks.len(),
            event: self.count,
        };
        let read = least(self.places.as_slice(), end);
        if read.block > 0 {
            drop_first(&mut self.blocks, read.block);
            lower(&mut self.places, read);
            self.count -= read.event;
        }
    }
}
