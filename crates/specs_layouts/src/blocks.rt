//! Events as blocks, and the places of readers between them. No public clause cites this file.
ghost use Rattle.std.specs.Prelude.{◌≡◌, ℕ, ◌+◌, ◌<◌, ◌≤◌, Bool, true, ◌&&◌, ◌||◌, nat_lt, OnOk, OnErr};
ghost use Rattle.std.specs.Prelude.{◌++◌, length, drop, map, slice_index_or, vec_len, vec_capacity};
ghost use Rattle.specs_layouts.specs.Blocks.{block_events, all_events, event_place, less, is_named};
ghost use Rattle.specs_layouts.specs.Channels.{least_of};
ghost use Rattle.specs_layouts.specs.declared.blocks.Place.{Place};
ghost use Rattle.hibitset_sets.specs.BitSet.{has_member};

use crate::index_event::IndexEvent;
use hibitset_sets::util::take_bit;
use hibitset_sets::{BitSet, MAX_EID};
use std::alloc::AllocError;

/// An event, and the same at each further index of its word whose bit is set.
#[derive(Drop)]
pub(crate) struct Block<E> {
    pub(crate) event: E,
    pub(crate) more: u64,
}

/// How far a reader has read: so many blocks, with so many events.
#[derive(Clone, Copy, Drop)]
pub(crate) struct Place {
    pub(crate) block: usize,
    pub(crate) event: usize,
}

impl<E: IndexEvent> Block<E> {
    /// Appends its events to a list that has room for them.
    fn append_to(&self, into: &mut Vec<E>)
    where
        E: Copy,
        requires { vec_len into.old + length (block_events E.index_of E.same_at self.now) ≤ vec_capacity into.old }
        ensures items { into.new.items ≡ into.old.items ++ block_events E.index_of E.same_at self.now }
        ensures capacity { vec_capacity into.new ≡ vec_capacity into.old }
    {
        into.push_reserved(self.event);
        let first = self.event.index() / 64 * 64;
        let mut left = self.more;
        while left != 0 {
            let (place, rest) = take_bit(left);
            left = rest;
            into.push_reserved(self.event.at(first + place));
        }
    }

    /// Puts the indices of its events below `MAX_EID` into a set.
    ///
    /// Errors: `AllocError`, and the set is as it was.
    fn index_into(&self, into: &mut BitSet) -> Result<(), AllocError>
        ensures ok { OnOk result ((i : ℕ) → has_member into.new i ≡ (has_member into.old i
            || (nat_lt i 16777216 && is_named E.index_of (block_events E.index_of E.same_at self.now) i))) }
        ensures err { OnErr result (into.new ≡ into.old) }
    {
        let index = self.event.index() as usize;
        if index >= MAX_EID {
            return Ok(());
        }
        into.add_word(index / 64, self.more | 1 << (index % 64))
    }
}

/// Appends the events of blocks to a list that has room for them.
pub(crate) fn append_all<E: IndexEvent + Copy>(blocks: &[Block<E>], into: &mut Vec<E>)
    requires { vec_len into.old + length (all_events E.index_of E.same_at blocks.now) ≤ vec_capacity into.old }
    ensures { into.new.items ≡ into.old.items ++ all_events E.index_of E.same_at blocks.now }
{
    for block in blocks {
        block.append_to(into);
    }
}

/// Puts the indices of the events of blocks below `MAX_EID` into a set.
///
/// Errors: `AllocError`, and the indices of the events that came before are in.
pub(crate) fn index_all<E: IndexEvent>(
    blocks: &[Block<E>],
    into: &mut BitSet,
) -> Result<(), AllocError>
    ensures ok { OnOk result ((i : ℕ) → has_member into.new i ≡ (has_member into.old i
        || (nat_lt i 16777216 && is_named E.index_of (all_events E.index_of E.same_at blocks.now) i))) }
    ensures err { OnErr result ((i : ℕ) → has_member into.new i ≡ true → (has_member into.old i
        || (nat_lt i 16777216 && is_named E.index_of (all_events E.index_of E.same_at blocks.now) i)) ≡ true) }
    ensures kept { (i : ℕ) → has_member into.old i ≡ true → has_member into.new i ≡ true }
{
    for block in blocks {
        block.index_into(into)?;
    }
    Ok(())
}

/// Takes the first blocks out.
pub(crate) fn drop_first<E: Drop>(blocks: &mut Vec<Block<E>>, count: usize)
    requires { count ≤ length blocks.old.items }
    ensures items { blocks.new.items ≡ drop count blocks.old.items }
    ensures capacity { vec_capacity blocks.new ≡ vec_capacity blocks.old }
{
    let left = blocks.len() - count;
    if left > 0 {
        blocks.rotate_left(count);
    }
    blocks.truncate(left);
}

/// The place behind the fewest events, of some and `most`.
pub(crate) fn least(places: &[Place], most: Place) -> Place
    ensures value { result.event ≡ least_of most.event (map event_place places.now) }
    ensures one { (test : Place → Bool) → test most ≡ true
        → ((k : ℕ) → k < length places.now → test (slice_index_or places.now k most) ≡ true) → test result ≡ true }
{
    let mut least = most;
    for place in places {
        if place.event < least.event {
            least = *place;
        }
    }
    least
}

/// Makes each place less by another.
pub(crate) fn lower(places: &mut Vec<Place>, by: Place)
    ensures { places.new.items ≡ map (less by) places.old.items }
{
    for i in 0..places.len() {
        let place = places[i];
        places[i] = Place {
            block: place.block.saturating_sub(by.block),
            event: place.event.saturating_sub(by.event),
        };
    }
}
