//! What each thread asks of shared entities.
ghost use Rattle.std.specs.Prelude.{◌≡◌, ℕ, ◌*◌, ◌+◌, ◌<◌, ◌≤◌, ◌↔◌, ◌⊎◌, true, false};
ghost use Rattle.std.specs.Prelude.{IfOk, IfErr, OnOk, OnErr, MatchResult, None, Some};
ghost use Rattle.specs_entity.specs.Births.{wrong_generation};
ghost use Rattle.specs_entity.specs.PhaseViews.{reserved, reach_of, IsNext, IsAfter, Knows, Finds, MayLive, LooksAt};
ghost use Rattle.specs_entity.specs.SharedSeats.{IsSeatOf, IsBirth, IsDeletion, view_of_seat, births_of_seat};

use crate::errors::WrongGeneration;
use crate::ids::{Entity, Generation};
use crate::parts::{alive, number};
use crate::phase_rule::{Bury, BuryEnd, Claim, Kill, Look, Raise, RaiseEnd, RaiseOn};
use crate::shared_entities::{AllowanceSpent, EntitySeat, SharedEntities};

/// What the last persistent birth of an index tells of an entity there, given who is alive of it and
/// its number: whether the entity is alive, or nothing, where it is so if the index is raised.
fn told(living: Option<Generation>, born: u32, generation: Generation) -> Option<bool>
    requires { born < 2147483649 }
    ensures looks { result ≡ None → (living ≡ None) × IsAfter born generation }
    ensures yes { result ≡ Some true → living ≡ Some generation }
    ensures no { result ≡ Some false → (living ≡ Some generation → ⊥)
        × (living ≡ None → IsAfter born generation → ⊥) }
{
    match living {
        Some(living) => Some(living == generation),
        None => {
            if generation.is_alive() && generation.number() == born + 1 {
                None
            } else {
                Some(false)
            }
        }
    }
}

impl SharedEntities {
    /// The entity at a place of the reserve.
    fn reserved(&self, place: u64) -> Entity
        requires { place < self.now.key.reserve }
        ensures value { result ≡ reserved self.now.key place }
        ensures within { result.id < reach_of self.now.key }
        ensures next { IsNext self.now.key.before result }
    {
        self.reserve[place as usize]
    }

    /// Gives the next entity of the reserve, which no other call gives; the seat lists it as a birth.
    ///
    /// Errors: `AllowanceSpent` exactly where the seat's allowance is 0, and the seat is as it was.
    #[inline]
    pub fn create(&self, seat: &mut EntitySeat) -> Result<Entity, AllowanceSpent>
        requires { IsSeatOf self.now seat.old }
        ensures seat { IsSeatOf self.entry.now seat.new }
        ensures birth { IfOk result (λ entity. IsBirth self.entry.now seat.old entity seat.new) }
        ensures spent { OnErr result ((view_of_seat seat.old).claimer.allowance ≡ 0) }
        ensures err { OnErr result (seat.new ≡ seat.old) }
        ensures allowed { OnOk result (0 < (view_of_seat seat.old).claimer.allowance) }
        ensures knows { IfOk result (Knows (view_of_seat seat.new)) }
    {
        if seat.allowance == 0 {
            return Err(AllowanceSpent);
        }
        let shared = &self.table.shared;
        let at = &mut seat.seat;
        let place = shared.fetch_add::<Claim>(at, 0, 1);
        let entity = self.reserved(place);
        let id = entity.id as usize;
        let first = id / 64;
        let second = first / 64;
        let third = second / 64;
        shared.fetch_or::<Raise>(at, 1 + first, 1 << (id % 64));
        shared.fetch_or::<RaiseOn>(at, 1 + self.first + second, 1 << (first % 64));
        shared.fetch_or::<RaiseOn>(at, 1 + self.first + self.second + third, 1 << (second % 64));
        shared.fetch_or::<RaiseEnd>(
            at,
            1 + self.first + self.second + self.third,
            1 << (third % 64),
        );
        seat.allowance -= 1;
        let _ = seat.known.push(entity);
        Ok(entity)
    }

    /// Accepts the deletion of an entity, which ends with the phase: `settle` takes it up, and the next
    /// `merge` lets the entity die. The seat lists it.
    ///
    /// Errors: `WrongGeneration` where `is_alive` is false, which is so only of an entity that the seat
    /// doesn't know.
    #[inline]
    pub fn delete(&self, seat: &mut EntitySeat, entity: Entity) -> Result<(), WrongGeneration>
        requires { IsSeatOf self.now seat.old }
        ensures seat { IsSeatOf self.entry.now seat.new }
        ensures births { births_of_seat seat.new ≡ births_of_seat seat.old }
        ensures ok { OnOk result (IsDeletion (view_of_seat seat.old) entity.id (view_of_seat seat.new)) }
        ensures may { OnOk result (MayLive self.entry.now.key entity) }
        ensures finds { OnOk result (Finds (view_of_seat seat.new) entity) }
        ensures unknown { OnErr result (Knows (view_of_seat seat.old) entity → ⊥) }
        ensures looks { OnErr result (LooksAt (view_of_seat seat.old) entity.id (view_of_seat seat.new)) }
        ensures wrong_generation { IfErr result (wrong_generation self.entry.now.key.before entity) }
    {
        if !self.is_alive(seat, entity) {
            return Err(self.refused(entity));
        }
        let shared = &self.table.shared;
        let at = &mut seat.seat;
        let start = 2 + self.first + self.second + self.third;
        let id = entity.id as usize;
        let first = id / 64;
        let second = first / 64;
        let third = second / 64;
        shared.fetch_or::<Kill>(at, start + first, 1 << (id % 64));
        shared.fetch_or::<Bury>(at, start + self.first + second, 1 << (first % 64));
        shared.fetch_or::<Bury>(
            at,
            start + self.first + self.second + third,
            1 << (second % 64),
        );
        shared.fetch_or::<BuryEnd>(
            at,
            start + self.first + self.second + self.third,
            1 << (third % 64),
        );
        Ok(())
    }

    /// The refusal that an entity isn't alive.
    fn refused(&self, entity: Entity) -> WrongGeneration
        ensures { wrong_generation self.now.key.before entity result }
    {
        self.entities.refusal(entity)
    }

    /// Whether an entity is alive, at the moment of its one load; none is needed where the entity's
    /// birth was persistent at `share`.
    ///
    /// It is true of each entity that the seat knows, and only of one that was alive at `share` or is of
    /// the reserve. Where it is true the seat knows the entity from then on.
    #[inline]
    pub fn is_alive(&self, seat: &mut EntitySeat, entity: Entity) -> bool
        requires { IsSeatOf self.now seat.old }
        ensures seat { IsSeatOf self.entry.now seat.new }
        ensures looks { LooksAt (view_of_seat seat.old) entity.id (view_of_seat seat.new) }
        ensures births { births_of_seat seat.new ≡ births_of_seat seat.old }
        ensures may { result ≡ true → MayLive self.entry.now.key entity }
        ensures finds { result ≡ true → Finds (view_of_seat seat.new) entity }
        ensures known { Knows (view_of_seat seat.old) entity → result ≡ true }
    {
        let id = entity.id;
        let generation = entity.generation;
        let living = alive(self.entities.generation(id));
        let born = number(self.entities.generation(id));
        if let Some(answer) = told(living, born, generation) {
            return answer;
        }
        let place = id as usize / 64;
        if place >= self.first {
            return false;
        }
        let found = self.table.shared.load::<Look>(&mut seat.seat, 1 + place);
        (found >> (id % 64)) & 1 == 1
    }
}
