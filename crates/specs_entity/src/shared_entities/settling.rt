//! How shared entities are held alone again.
ghost use Rattle.std.specs.Prelude.{◌≡◌, ◌≢◌, ℕ, ◌+◌, ◌*◌, ◌/◌, ◌%◌, ◌<◌, ◌≤◌, ◌==◌, true, None, List};
ghost use Rattle.std.specs.Prelude.{length, if◌then◌else◌, IfOk, MatchResult};
ghost use Rattle.std.specs.Int.{bit_at};
ghost use Rattle.std.specs.FinSet as set;
ghost use Rattle.hibitset_sets.specs.Bits.{has_bit};
ghost use Rattle.specs_entity.specs.Births.{Births, living, all_created};
ghost use Rattle.specs_entity.specs.Layout.{AreMade};
ghost use Rattle.specs_entity.specs.Accepting.{IsSameBut, accepted_in};
ghost use Rattle.specs_entity.specs.SharedSeats.{IsSeatOf, AreSettled, view_of_seat};

use crate::entities_res::EntitiesRes;
use crate::ids::Entity;
use crate::shared_entities::{ALL_PARTS, EntitySeat, SharedEntities};
use hibitset::{Index, SeatsOut};

impl SharedEntities {
    /// The entities held alone again, where the seat holds all parts: those of as many births as were
    /// claimed, and with the deletions that the seat lists accepted. What wasn't claimed stays unused.
    /// Takes no memory.
    ///
    /// Errors: `SeatsOut` where it holds fewer, and phase and seat come back as they were.
    pub fn settle(
        self,
        seat: EntitySeat,
    ) -> Result<EntitiesRes, (SeatsOut, SharedEntities, EntitySeat)>
        requires { IsSeatOf self seat }
        ensures ok { IfOk result (AreSettled self.key (view_of_seat seat)) }
        ensures all { MatchResult result (λ _. (view_of_seat seat).parts ≡ 65536)
            (λ refusal. ((view_of_seat seat).parts < 65536) × (refusal.1 ≡ self) × (refusal.2 ≡ seat)) }
    {
        if seat.parts < ALL_PARTS {
            return Err((SeatsOut, self, seat));
        }
        let SharedEntities {
            table,
            mut entities,
            mut reserve,
            first,
            second,
            third,
        } = self;
        let EntitySeat {
            seat,
            parts: _,
            allowance: _,
            known: _,
        } = seat;
        let closed = table.close_with(seat);
        let claimed = closed.word(0) as usize;
        entities.keep_births(&mut reserve, claimed);
        let start = 2 + first + second + third;
        for place in 0..first {
            let word = closed.word(start + place);
            if word != 0 {
                entities.accept_word(place, word);
            }
        }
        closed.free();
        Ok(entities)
    }
}

impl EntitiesRes {
    /// Undoes the last births of a reserve, so that the first `count` stay. Takes no memory.
    pub(crate) fn keep_births(&mut self, made: &mut Vec<Entity>, count: usize)
        requires some { (before : Births) × AreMade before made.old.items self.old }
        requires few { count ≤ length made.old.items }
        ensures { (before : Births) → AreMade before made.old.items self.old → self.new ≡ all_created count before }
    {
        while made.len() > count {
            if let Some(entity) = made.pop() {
                self.uncreate(entity.id);
            }
        }
    }

    /// Accepts the deletions of the entities at the indices whose bits are set in a word.
    pub(crate) fn accept_word(&mut self, place: usize, word: u64)
        requires place { place < 262144 }
        requires alive { (bit : ℕ) → bit < 64 → bit_at word bit ≡ 1 → living self.old (place * 64 + bit) ≢ None }
        ensures same { IsSameBut self.old self.new }
        ensures deletions { (index : ℕ) → set.contains self.new.deletions index
            ≡ accepted_in word place 64 self.old index }
    {
        for bit in 0..64 {
            if (word >> bit) & 1 == 1 {
                let entity = self.entity((place * 64 + bit) as Index);
                let _ = self.delete(entity);
            }
        }
    }
}
