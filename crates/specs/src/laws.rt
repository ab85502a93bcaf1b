//! Laws of entities over every list of calls, and of their hashes. All functions but the last have no code; each contract is the law.
ghost use Rattle.std.specs.Prelude.{◌≡◌, ◌++◌, List, Result, fold};
ghost use Rattle.std.specs.Hash as fed;
ghost use Rattle.specs_entity.specs.Life.{id_of};
ghost use Rattle.specs_entity.specs.Births.{Births, Continues, IsAlive, IsBorn, IsDead};
ghost use Rattle.shred_stages.specs.declared.error.DispatchError.{DispatchError};
ghost use Rattle.shred_world.specs.Bundles.{Holding};
ghost use Rattle.shred_world.specs.declared.resource_id.ResourceId.{ResourceId as Id};
ghost use Rattle.shred.specs.Dispatching.{Dispatching, DispatchesAll};
ghost use Rattle.specs.specs.Histories.{ContinuesAlong, last_of};
ghost use Rattle.specs.specs.Phases.{KeepPhases, StaysSeated};

use shred::{RunNow, System};
use shred_world::Resource;
use specs_entity::{Entity, PhaseSeat};
use std::hash::{Hash, Hasher};

/// Over every list of calls no birth is lost, and who lives at the end lived at the beginning or was born since.
pub fn calls_continue()
    ensures { (first : Births) (later : List Births) → ContinuesAlong first later
        → Continues first (last_of first later) }
{}

/// An entity that died doesn't live again, whatever is called after its death.
pub fn the_dead_stay_dead(entity: Entity)
    ensures { (first : Births) (later : List Births) → ContinuesAlong first later → IsDead first entity
        → IsDead (last_of first later) entity }
{}

/// An entity that was born isn't given again: whatever is called after its birth, each entity that comes to life then wasn't
/// born before, and this one was.
pub fn an_entity_is_given_once(entity: Entity)
    ensures { (first : Births) (later : List Births) → ContinuesAlong first later → IsBorn first entity
        → IsBorn (last_of first later) entity }
{}

/// A stale entity, one whose index has been given again, is dead, and reaches nothing.
pub fn the_stale_are_dead(stale: Entity, newer: Entity)
    ensures { (first : Births) (later : List Births) → ContinuesAlong first later → IsBorn first stale
        → stale.id ≡ newer.id → (stale ≡ newer → ⊥) → IsAlive (last_of first later) newer
        → IsDead (last_of first later) stale }
{}

/// Where no system takes a seat out of its phase, no dispatch does, whatever it answers: under each id at which a seat of a
/// phase stood, one of that phase stands.
pub fn a_dispatch_keeps_phases<V, S: System<V>, L: RunNow<V>>()
where
    PhaseSeat: Resource<V>,
    ensures { KeepPhases ⟦<PhaseSeat as Resource<V>>⟧.part S.meets
        → KeepPhases ⟦<PhaseSeat as Resource<V>>⟧.part L.meets
        → (before after : Dispatching S L) (w w_after : Holding V) (result : Result (Unit {0}) DispatchError)
        → DispatchesAll S.meets L.meets before w result after w_after
        → (id : Id) → StaysSeated ⟦<PhaseSeat as Resource<V>>⟧.part (w id) (w_after id) }
{}

/// A hasher is fed an entity's index, and then its signed generation: so two entities of one index are told apart.
pub fn entities_hash_as_pairs<H: Hasher>(entity: &Entity, state: &mut H)
    ensures { state.new ≡ fold H.write state.old
        (fed.u32 entity.now.id ++ fed.i32 (id_of entity.now.generation)) }
{
    entity.hash(state);
}
