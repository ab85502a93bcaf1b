//! What a shared set and its seats are asked.
ghost use Rattle.std.specs.Prelude.{◌≡◌, ℕ, ◌<◌, ◌≤◌, ◌++◌, ◌∷◌, [], true, false, IfOk, MatchResult};
ghost use Rattle.hibitset.specs.SeatViews.{whole_view, kept_view, given_view, joined_view};
ghost use Rattle.hibitset.specs.SeatViews.{Knows, HasSeen, LooksAt, AreSettled};
ghost use Rattle.hibitset.specs.SharedSets.{view_of_seat, set_at_share, IsSeatOf};

use crate::atomic::AtomicBitSet;
use crate::shared::words::{put_block, row_of};
use crate::shared::{BitSeat, SeatsOut, SharedBitSet};
use crate::shared_rule::{Begin, End, Look, Parts, Plan, Rise};
use atomic_table::Table;
use hibitset_sets::{Index, MAX_EID};
use std::alloc::AllocError;

/// How many parts a set has in all.
const ALL_PARTS: u32 = 65_536;

impl AtomicBitSet {
    /// Shares the set: from now on threads add to it, each by a seat. The seat holds all 65,536 parts.
    ///
    /// It makes room for all indices: 266,305 words in the set, and as many that the threads step on.
    ///
    /// Errors: `AllocError`, and the set comes back with the members that it had.
    pub fn share(self) -> Result<(SharedBitSet, BitSeat), (AllocError, AtomicBitSet)>
        ensures { MatchResult result
            (λ shared. IsSeatOf shared.0 shared.1 × (view_of_seat shared.1 ≡ whole_view self)
            × (set_at_share shared.0 ≡ self))
            (λ refusal. refusal.1 ≡ self) }
    {
        let AtomicBitSet { mut bits } = self;
        let alloc = bits.allocator();
        let words = match row_of(alloc, &bits) {
            Ok(words) => words,
            Err(error) => return Err((error, AtomicBitSet { bits })),
        };
        match Table::of_words(alloc, words.as_slice(), &bits) {
            Ok((table, seat)) => {
                if let Err(error) = bits.reserve(16_777_216) {
                    return Err((error, AtomicBitSet { bits }));
                }
                let shared = SharedBitSet { table, bits };
                let seat = BitSeat {
                    seat,
                    parts: ALL_PARTS,
                };
                Ok((shared, seat))
            }
            Err(error) => Err((error, AtomicBitSet { bits })),
        }
    }
}

impl BitSeat {
    /// How many of the 65,536 parts it holds.
    pub fn parts(&self) -> u32
        ensures { result ≡ (view_of_seat self.now).parts }
    {
        self.parts
    }

    /// Splits off a second seat with so many parts, which begins with nothing listed and nothing seen.
    /// The first keeps the rest.
    pub fn split(self, set: &SharedBitSet, parts: u32) -> (BitSeat, BitSeat)
        requires seat { IsSeatOf set.now self }
        requires some { 0 < parts }
        requires fewer { parts < (view_of_seat self).parts }
        ensures seats { IsSeatOf set.entry.now result.0 × IsSeatOf set.entry.now result.1 }
        ensures kept { view_of_seat result.0 ≡ kept_view (view_of_seat self) parts }
        ensures given { view_of_seat result.1 ≡ given_view (view_of_seat self) parts }
    {
        let BitSeat {
            mut seat,
            parts: all,
        } = self;
        let shared = &set.table.shared;
        shared.load::<Plan>(&mut seat, parts as usize);
        let other = shared.split_seat::<Parts>(&mut seat);
        let kept = BitSeat {
            seat,
            parts: all - parts,
        };
        (kept, BitSeat { seat: other, parts })
    }

    /// One seat with the parts of both, and all that both listed and saw, the first's before the second's.
    pub fn join(self, set: &SharedBitSet, other: BitSeat) -> BitSeat
        requires seats { IsSeatOf set.now self × IsSeatOf set.now other }
        ensures seat { IsSeatOf set.entry.now result }
        ensures joined { view_of_seat result ≡ joined_view (view_of_seat self) (view_of_seat other) }
    {
        let BitSeat { mut seat, parts } = self;
        let BitSeat {
            seat: spent,
            parts: more,
        } = other;
        let shared = &set.table.shared;
        shared.join_seat::<Parts>(&mut seat, spent);
        shared.load::<Plan>(&mut seat, 0);
        BitSeat {
            seat,
            parts: parts + more,
        }
    }
}

impl SharedBitSet {
    /// Puts `id` into the set, and answers whether it was there already, at the moment of its first
    /// step. The seat lists the call.
    ///
    /// It sets the bit and then the three summary bits upwards, also where the bit was there.
    #[inline]
    pub fn add_atomic(&self, seat: &mut BitSeat, id: Index) -> bool
        requires seat { IsSeatOf self.now seat.old }
        requires range { id < 16777216 }
        ensures seat { IsSeatOf self.entry.now seat.new }
        ensures parts { (view_of_seat seat.new).parts ≡ (view_of_seat seat.old).parts }
        ensures listed { (view_of_seat seat.new).caller.calls
            ≡ (view_of_seat seat.old).caller.calls ++ (id, result) ∷ [] }
        ensures seen { (view_of_seat seat.new).caller.seen ≡ (view_of_seat seat.old).caller.seen }
    {
        let shared = &self.table.shared;
        let at = &mut seat.seat;
        let first = id as usize / 64;
        let second = first / 64;
        let third = second / 64;
        let found = shared.fetch_or::<Begin>(at, first, 1 << (id % 64));
        shared.fetch_or::<Rise>(at, 262_144 + second, 1 << (first % 64));
        shared.fetch_or::<Rise>(at, 266_240 + third, 1 << (second % 64));
        shared.fetch_or::<End>(at, 266_304, 1 << (third % 64));
        (found >> (id % 64)) & 1 == 1
    }

    /// Whether `id` is a member, at the moment of its one load. From `MAX_EID` on it loads nothing and
    /// answers false.
    ///
    /// It is true of each old member and of each index that the seat lists or has seen; where it is
    /// true the seat has seen `id` from then on.
    #[inline]
    pub fn contains(&self, seat: &mut BitSeat, id: Index) -> bool
        requires { IsSeatOf self.now seat.old }
        ensures seat { IsSeatOf self.entry.now seat.new }
        ensures looks { id < 16777216 → LooksAt (view_of_seat seat.old) id result (view_of_seat seat.new) }
        ensures beyond { 16777216 ≤ id → (result ≡ false) × (seat.new ≡ seat.old) }
        ensures enters { result ≡ true → HasSeen (view_of_seat seat.new) id }
        ensures known { id < 16777216 → Knows (view_of_seat seat.old) id → result ≡ true }
    {
        if id as usize >= MAX_EID {
            return false;
        }
        let found = self
            .table
            .shared
            .load::<Look>(&mut seat.seat, id as usize / 64);
        (found >> (id % 64)) & 1 == 1
    }

    /// The set held alone again, where the seat holds all parts: the old members, and those whose
    /// calls the seat lists. Takes no memory.
    ///
    /// Errors: `SeatsOut` where it holds fewer, and set and seat come back as they were.
    pub fn settle(self, seat: BitSeat) -> Result<AtomicBitSet, (SeatsOut, SharedBitSet, BitSeat)>
        requires { IsSeatOf self seat }
        ensures ok { IfOk result (λ set. AreSettled (view_of_seat seat) set) }
        ensures all { MatchResult result (λ _. (view_of_seat seat).parts ≡ 65536)
            (λ refusal. ((view_of_seat seat).parts < 65536) × (refusal.1 ≡ self) × (refusal.2 ≡ seat)) }
    {
        if seat.parts < ALL_PARTS {
            return Err((SeatsOut, self, seat));
        }
        let SharedBitSet { table, mut bits } = self;
        let BitSeat { seat, parts: _ } = seat;
        let closed = table.close_with(seat);
        for block in 0..4096 {
            if closed.word(262_144 + block) != 0 {
                put_block(&mut bits, &closed, block);
            }
        }
        closed.free();
        Ok(AtomicBitSet { bits })
    }
}
