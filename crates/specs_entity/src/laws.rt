//! Laws on which callers rely. Most functions have no code; each contract is the law.
ghost use Rattle.std.specs.Prelude.{◌≡◌, ◌≢◌, ◌<◌, ◌≤◌, ℕ, ◌↔◌, IsTrue, IsSome, None, List, true};
ghost use mathlib.Core.Option.{some};
ghost use lib.ListN.{get_elem?};
ghost use Rattle.hibitset.specs.AtomicCore.{Fits};
ghost use Rattle.std.specs.FinSet as set;
ghost use Rattle.std.specs.Ordering.{nat_cmp, int_cmp, ordering_then};
ghost use Rattle.specs_entity.specs.Life.{id_of};
ghost use Rattle.specs_entity.specs.Births.{Births, IsAlive, IsBorn, IsDead, IndicesAreSpent, Continues, living};
ghost use Rattle.specs_entity.specs.PhaseCore.{Setting, IsOpening, IsPhase, IsPhaseAtRest, HasSettled};
ghost use Rattle.specs_entity.specs.PhaseCore.{after_events, occurrences};
ghost use Rattle.specs_entity.specs.declared.phase_core.Claimer.{Claimer};
ghost use Rattle.specs_entity.specs.declared.phase_core.Event.{Event};
ghost use Rattle.specs_entity.specs.declared.phase_core.Phase.{Phase};
ghost use Rattle.specs_entity.specs.Births.{newborn, allocated, created, deleted, buried, settled};

use crate::entities_res::EntitiesRes;
use crate::ids::Entity;
use std::cmp::Ordering;

/// A pair that died never comes back, as long as no birth is lost and who lives lived before or was
/// born since.
pub fn the_dead_stay_dead(entity: Entity)
    ensures { (before after : Births) → Continues before after → IsDead before entity → IsDead after entity }
{}

/// An accepted deletion, a death, and a fresh birth that becomes persistent lose no birth, and who
/// lives after them lived before.
pub fn each_step_continues(entities: &EntitiesRes)
    ensures delete { (index : ℕ) → Continues entities.now (deleted entities.now index) }
    ensures bury { (index : ℕ) → (living entities.now index ≡ None → ⊥)
        → Continues entities.now (buried entities.now index) }
    ensures settle { (index : ℕ) → set.contains entities.now.fresh index ≡ true
        → Continues entities.now (settled entities.now index) }
{
    let _ = &entities.indices;
}

/// The entity that is born next was never born before. By `allocate` or `create` it is born and alive, no birth
/// is lost, and who lives then lived before or is this one.
pub fn a_birth_is_new(entities: &EntitiesRes)
    ensures new { ¬ (IndicesAreSpent entities.now) → IsBorn entities.now (newborn entities.now) → ⊥ }
    ensures allocated { ¬ (IndicesAreSpent entities.now) → IsAlive (allocated entities.now) (newborn entities.now)
        × Continues entities.now (allocated entities.now) }
    ensures created { ¬ (IndicesAreSpent entities.now) → IsAlive (created entities.now) (newborn entities.now)
        × Continues entities.now (created entities.now) }
{
    let _ = &entities.indices;
}

/// An entity that was born stays so: so no two births of a run are of one entity.
pub fn the_born_stay_born(entity: Entity)
    ensures { (before after : Births) → Continues before after → IsBorn before entity → IsBorn after entity }
{}

/// At one index at most one entity is alive.
pub fn at_most_one_lives_at_an_index(one: Entity, other: Entity)
    ensures { (births : Births) → IsAlive births one → IsAlive births other → one.id ≡ other.id → one ≡ other }
{}

/// The entities that live at an index live at one below 16,777,216.
pub fn the_living_are_below_the_limit(entities: &EntitiesRes)
    ensures { (index : ℕ) → IsSome (living entities.now index) → index < 16777216 }
{
    let _ = &entities.indices;
}

/// `==` of entities is that of their indices and signed generations.
pub fn entities_are_equal_as_pairs(one: &Entity, other: &Entity) -> bool
    ensures { IsTrue result ↔ ((one.now.id ≡ other.now.id) × (id_of one.now.generation ≡ id_of other.now.generation)) }
{
    *one == *other
}

/// Entities are ordered by index, then by signed generation.
pub fn entities_are_ordered_as_pairs(one: &Entity, other: &Entity) -> Ordering
    ensures { result ≡ ordering_then (nat_cmp one.now.id other.now.id)
        (int_cmp (id_of one.now.generation) (id_of other.now.generation)) }
{
    one.cmp(other)
}

/// Whatever the steps of however many callers, over layers of any sizes: the births of all callers are
/// the first places of the reserve, as many as the claim word says, each once; allowances are at most
/// what is left of the reserve; both sets are sound as `hibitset::laws` says of them; and each deletion
/// is of an index where an entity lived at the opening or was raised since.
pub fn every_interleaving_of_a_phase()
    ensures { (setting : Setting) (phase : Phase) (events : List Event) → Fits setting.sizes
        → IsOpening setting phase → IsPhase setting (after_events setting events phase) }
{}

/// No entity of the reserve is given twice: not to two callers, and not to one.
pub fn no_entity_is_given_twice()
    ensures two { (setting : Setting) (phase : Phase) (one other : ℕ) (claimer claimer' : Claimer)
        → IsPhase setting phase → one ≢ other → get_elem? phase.claimers one ≡ some claimer
        → get_elem? phase.claimers other ≡ some claimer' → (place : ℕ)
        → 0 < occurrences place claimer.births → 0 < occurrences place claimer'.births → ⊥ }
    ensures one { (setting : Setting) (phase : Phase) (one : ℕ) (claimer : Claimer) → IsPhase setting phase
        → get_elem? phase.claimers one ≡ some claimer → (place : ℕ) → occurrences place claimer.births ≤ 1 }
{}

/// Once no call is in flight, the raised set holds exactly the old members and the births, the killed
/// set exactly the old members and the accepted deletions, and the summaries of both are exact.
pub fn a_phase_at_rest_has_settled()
    ensures { (setting : Setting) (phase : Phase) → IsPhase setting phase → IsPhaseAtRest phase
        → HasSettled setting phase }
{}
