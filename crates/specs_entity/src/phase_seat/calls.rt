//! How a system's seat of a phase is made, used and given up.
ghost use Rattle.std.specs.Prelude.{◌≡◌, ℕ, ◌+◌, ◌<◌, ◌≤◌, ◌++◌, [], true, IfOk, IfErr, OnOk, OnErr, MatchResult};
ghost use Rattle.specs_entity.specs.Births.{RefusesBirths, wrong_generation};
ghost use Rattle.specs_entity.specs.PhaseCore.{occurrences};
ghost use Rattle.specs_entity.specs.PhaseViews.{whole_view, kept_view, given_view, joined_view};
ghost use Rattle.specs_entity.specs.PhaseViews.{Knows, Finds, MayLive, LooksAt};
ghost use Rattle.specs_entity.specs.PhaseSeats.{phase_at, view_at, births_at, StaysIn};
ghost use Rattle.specs_entity.specs.SharedSeats.{IsBirth, IsDeletion, AreSettled};

use crate::entities_res::EntitiesRes;
use crate::errors::{Error, WrongGeneration};
use crate::ids::Entity;
use crate::phase_seat::PhaseSeat;
use crate::shared_entities::{ALL_PARTS, AllowanceSpent};
use hibitset::SeatsOut;
use std::alloc::{AllocError, AllocFailed};
use std::sync::Arc;

impl EntitiesRes {
    /// Shares the entities, as `share` does, with the seat and them in one value, which holds all parts.
    ///
    /// Errors: those of `share`. The entities come back as they were.
    pub fn open_phase(self, reserve: u32) -> Result<PhaseSeat, (Error, EntitiesRes)>
        ensures { MatchResult result
            (λ seat. (view_at seat ≡ whole_view (phase_at seat).key)
            × ((phase_at seat).key.before ≡ self) × ((phase_at seat).key.reserve ≡ reserve))
            (λ refusal. (refusal.1 ≡ self) × RefusesBirths reserve self refusal.0) }
    {
        let alloc = self.alloc;
        let (shared, seat) = self.share(reserve)?;
        match Arc::new(alloc, shared) {
            Ok(phase) => Ok(PhaseSeat { phase, seat }),
            Err(AllocFailed { value: shared }) => match shared.settle(seat) {
                Ok(entities) => Err((Error::Memory, entities)),
                Err(_) => unreachable!(),
            },
        }
    }
}

impl PhaseSeat {
    /// How many of the 65,536 parts it holds.
    pub fn parts(&self) -> u32
        ensures { result ≡ (view_at self.now).parts }
    {
        self.seat.parts()
    }

    /// How many more entities it may create.
    pub fn allowance(&self) -> u32
        ensures { result ≡ (view_at self.now).claimer.allowance }
    {
        self.seat.allowance()
    }

    /// Its births, in order.
    pub fn known(&self) -> &[Entity]
        ensures { result.now ≡ births_at self.now }
    {
        self.seat.known()
    }

    /// Gives the next entity of the reserve, as `SharedEntities::create` does.
    ///
    /// Errors: `AllowanceSpent` exactly where the seat's allowance is 0, and the seat is as it was.
    #[inline]
    pub fn create(&mut self) -> Result<Entity, AllowanceSpent>
        ensures phase { StaysIn self.old self.new }
        ensures birth { IfOk result (λ entity. IsBirth (phase_at self.old) self.old.seat entity self.new.seat) }
        ensures spent { OnErr result ((view_at self.old).claimer.allowance ≡ 0) }
        ensures err { OnErr result (self.new ≡ self.old) }
        ensures allowed { OnOk result (0 < (view_at self.old).claimer.allowance) }
        ensures knows { IfOk result (Knows (view_at self.new)) }
    {
        self.phase.create(&mut self.seat)
    }

    /// Accepts the deletion of an entity, as `SharedEntities::delete` does.
    ///
    /// Errors: `WrongGeneration` where `is_alive` is false, which is so only of an entity that the seat
    /// doesn't know.
    #[inline]
    pub fn delete(&mut self, entity: Entity) -> Result<(), WrongGeneration>
        ensures phase { StaysIn self.old self.new }
        ensures births { births_at self.new ≡ births_at self.old }
        ensures ok { OnOk result (IsDeletion (view_at self.old) entity.id (view_at self.new)) }
        ensures may { OnOk result (MayLive (phase_at self.old).key entity) }
        ensures finds { OnOk result (Finds (view_at self.new) entity) }
        ensures unknown { OnErr result (Knows (view_at self.old) entity → ⊥) }
        ensures looks { OnErr result (LooksAt (view_at self.old) entity.id (view_at self.new)) }
        ensures wrong_generation { IfErr result (wrong_generation (phase_at self.old).key.before entity) }
    {
        self.phase.delete(&mut self.seat, entity)
    }

    /// Whether an entity is alive, as `SharedEntities::is_alive` tells.
    #[inline]
    pub fn is_alive(&mut self, entity: Entity) -> bool
        ensures phase { StaysIn self.old self.new }
        ensures looks { LooksAt (view_at self.old) entity.id (view_at self.new) }
        ensures births { births_at self.new ≡ births_at self.old }
        ensures may { result ≡ true → MayLive (phase_at self.old).key entity }
        ensures finds { result ≡ true → Finds (view_at self.new) entity }
        ensures known { Knows (view_at self.old) entity → result ≡ true }
    {
        self.phase.is_alive(&mut self.seat, entity)
    }

    /// Splits off a second seat of the same phase, as `EntitySeat::split` does.
    ///
    /// Errors: `AllocError` where there is no room for the second's births, and the seat comes back.
    pub fn split(
        self,
        parts: u32,
        allowance: u32,
    ) -> Result<(PhaseSeat, PhaseSeat), (AllocError, PhaseSeat)>
        requires some { 0 < parts }
        requires fewer { parts < (view_at self).parts }
        requires allowed { allowance ≤ (view_at self).claimer.allowance }
        ensures phase { MatchResult result (λ seats. StaysIn self seats.0 × StaysIn self seats.1)
            (λ refusal. refusal.1 ≡ self) }
        ensures kept { IfOk result (λ seats. (view_at seats.0 ≡ kept_view (view_at self) parts allowance)
            × (births_at seats.0 ≡ births_at self)) }
        ensures given { IfOk result (λ seats. (view_at seats.1 ≡ given_view (view_at self) parts allowance)
            × (births_at seats.1 ≡ [])) }
    {
        let other = match Arc::try_clone(&self.phase) {
            Ok(other) => other,
            Err(error) => return Err((error, self)),
        };
        let PhaseSeat { phase, seat } = self;
        match seat.split(&phase, parts, allowance) {
            Ok((kept, given)) => Ok((
                PhaseSeat { phase, seat: kept },
                PhaseSeat {
                    phase: other,
                    seat: given,
                },
            )),
            Err((error, seat)) => Err((error, PhaseSeat { phase, seat })),
        }
    }

    /// One seat of two of the same phase, as `EntitySeat::join` makes it.
    ///
    /// Errors: `AllocError` where there is no room for all births, and both seats come back.
    pub fn join(self, other: PhaseSeat) -> Result<PhaseSeat, (AllocError, PhaseSeat, PhaseSeat)>
        requires same { StaysIn self other }
        ensures phase { MatchResult result (StaysIn self)
            (λ refusal. StaysIn self refusal.1 × (view_at refusal.1 ≡ view_at self)
            × (births_at refusal.1 ≡ births_at self) × (refusal.2 ≡ other)) }
        ensures apart { IfOk result (λ seat. (place : ℕ) → occurrences place (view_at seat).claimer.births ≤ 1) }
        ensures joined { IfOk result (λ seat. (view_at seat ≡ joined_view (view_at self) (view_at other))
            × (births_at seat ≡ births_at self ++ births_at other)) }
    {
        let PhaseSeat { phase, seat } = self;
        let PhaseSeat {
            phase: same,
            seat: more,
        } = other;
        match seat.join(&phase, more) {
            Ok(seat) => Ok(PhaseSeat { phase, seat }),
            Err((error, seat, more)) => Err((
                error,
                PhaseSeat { phase, seat },
                PhaseSeat {
                    phase: same,
                    seat: more,
                },
            )),
        }
    }

    /// The entities held alone again, as `SharedEntities::settle` leaves them, where the seat holds all parts. Takes
    /// no memory.
    ///
    /// Errors: `SeatsOut` where it holds fewer, and where another thread is just letting go of the phase; the seat
    /// comes back as it was.
    pub fn settle(self) -> Result<EntitiesRes, (SeatsOut, PhaseSeat)>
        ensures ok { IfOk result (AreSettled (phase_at self).key (view_at self)) }
        ensures all { MatchResult result (λ _. (view_at self).parts ≡ 65536) (λ refusal. refusal.1 ≡ self) }
    {
        if self.seat.parts() < ALL_PARTS {
            return Err((SeatsOut, self));
        }
        let PhaseSeat { phase, seat } = self;
        match Arc::try_unwrap(phase) {
            Ok(shared) => match shared.settle(seat) {
                Ok(entities) => Ok(entities),
                Err(_) => unreachable!(),
            },
            Err(phase) => Err((SeatsOut, PhaseSeat { phase, seat })),
        }
    }
}
