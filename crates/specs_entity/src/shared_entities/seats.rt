//! How seats are split and joined.
ghost use Rattle.std.specs.Prelude.{◌≡◌, ℕ, ◌+◌, ◌<◌, ◌≤◌, ◌++◌, [], IfOk, MatchResult};
ghost use Rattle.specs_entity.specs.PhaseCore.{occurrences};
ghost use Rattle.specs_entity.specs.PhaseViews.{kept_view, given_view, joined_view};
ghost use Rattle.specs_entity.specs.SharedSeats.{IsSeatOf, view_of_seat, births_of_seat};

use crate::ids::Entity;
use crate::phase_rule::{Parts, PlanAllowance, PlanParts};
use crate::shared_entities::{EntitySeat, SharedEntities};
use std::alloc::AllocError;

impl EntitySeat {
    /// How many of the 65,536 parts it holds.
    pub fn parts(&self) -> u32
        ensures { result ≡ (view_of_seat self.now).parts }
    {
        self.parts
    }

    /// How many more entities it may create.
    pub fn allowance(&self) -> u32
        ensures { result ≡ (view_of_seat self.now).claimer.allowance }
    {
        self.allowance
    }

    /// Its births, in order.
    pub fn known(&self) -> &[Entity]
        ensures { result.now ≡ births_of_seat self.now }
    {
        self.known.as_slice()
    }

    /// Splits off a second seat with so many parts and so much of the allowance, which begins without
    /// births, with nothing listed and nothing seen. The first keeps the rest.
    ///
    /// Errors: `AllocError` where there is no room for the second's births, and the seat comes back.
    pub fn split(
        self,
        phase: &SharedEntities,
        parts: u32,
        allowance: u32,
    ) -> Result<(EntitySeat, EntitySeat), (AllocError, EntitySeat)>
        requires seat { IsSeatOf phase.now self }
        requires some { 0 < parts }
        requires fewer { parts < (view_of_seat self).parts }
        requires allowed { allowance ≤ (view_of_seat self).claimer.allowance }
        ensures seats { MatchResult result
            (λ seats. IsSeatOf phase.entry.now seats.0 × IsSeatOf phase.entry.now seats.1)
            (λ refusal. refusal.1 ≡ self) }
        ensures kept { IfOk result (λ seats. (view_of_seat seats.0 ≡ kept_view (view_of_seat self) parts allowance)
            × (births_of_seat seats.0 ≡ births_of_seat self)) }
        ensures given { IfOk result (λ seats. (view_of_seat seats.1 ≡ given_view (view_of_seat self) parts allowance)
            × (births_of_seat seats.1 ≡ [])) }
    {
        let alloc = *self.known.allocator();
        let room = match Vec::with_capacity(alloc, allowance as usize) {
            Ok(room) => room,
            Err(error) => return Err((error, self)),
        };
        let EntitySeat {
            mut seat,
            parts: all,
            allowance: most,
            known,
        } = self;
        let shared = &phase.table.shared;
        shared.compare_exchange::<PlanParts>(&mut seat, 0, parts as u64, parts as u64);
        shared.compare_exchange::<PlanAllowance>(&mut seat, 0, allowance as u64, allowance as u64);
        let other = shared.split_seat::<Parts>(&mut seat);
        let kept = EntitySeat {
            seat,
            parts: all - parts,
            allowance: most - allowance,
            known,
        };
        let given = EntitySeat {
            seat: other,
            parts,
            allowance,
            known: room,
        };
        Ok((kept, given))
    }

    /// One seat with the parts, the allowance, the births and all that both listed and saw, the first's
    /// before the second's. They have no birth in common.
    ///
    /// Errors: `AllocError` where there is no room for all births, and both seats come back.
    pub fn join(
        self,
        phase: &SharedEntities,
        other: EntitySeat,
    ) -> Result<EntitySeat, (AllocError, EntitySeat, EntitySeat)>
        requires seats { IsSeatOf phase.now self × IsSeatOf phase.now other }
        ensures seat { MatchResult result (λ seat. IsSeatOf phase.entry.now seat)
            (λ refusal. IsSeatOf phase.entry.now refusal.1 × (refusal.2 ≡ other)
            × (view_of_seat refusal.1 ≡ view_of_seat self) × (births_of_seat refusal.1 ≡ births_of_seat self)) }
        ensures apart { IfOk result (λ seat. (place : ℕ) → occurrences place (view_of_seat seat).claimer.births ≤ 1) }
        ensures joined { IfOk result (λ seat. (view_of_seat seat ≡ joined_view (view_of_seat self) (view_of_seat other))
            × (births_of_seat seat ≡ births_of_seat self ++ births_of_seat other)) }
    {
        let mut one = self;
        let mut other = other;
        let more = other.known.len() + one.allowance as usize + other.allowance as usize;
        if let Err(error) = one.known.reserve(more) {
            return Err((error, one, other));
        }
        let EntitySeat {
            mut seat,
            parts,
            allowance,
            mut known,
        } = one;
        let EntitySeat {
            seat: spent,
            parts: parts_more,
            allowance: allowance_more,
            known: mut known_more,
        } = other;
        let shared = &phase.table.shared;
        shared.join_seat::<Parts>(&mut seat, spent);
        shared.compare_exchange::<PlanAllowance>(&mut seat, 0, 0, 0);
        let _ = known.append(&mut known_more);
        Ok(EntitySeat {
            seat,
            parts: parts + parts_more,
            allowance: allowance + allowance_more,
            known,
        })
    }
}
