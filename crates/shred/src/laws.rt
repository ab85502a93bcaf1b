//! Laws of builders, and of systems that run one after the other, on which callers rely.
//!
//! The functions have no code; each contract is the law. Those of the crates below stand here too: `planner`, `stages`
//! (`order_does_not_matter`), `trees` and `worlds`.
ghost use Rattle.std.specs.Prelude.{◌≡◌, ◌≢◌, ◌++◌, ◌∷◌, ℕ, false, List, [], Option, None};
ghost use Rattle.std.specs.List.{All, Contains, fold};
ghost use Rattle.shred_world.specs.declared.resource_id.ResourceId.{ResourceId as Id};
ghost use Rattle.shred_world.specs.ResourceIds.{same_id};
ghost use Rattle.shred_plan.specs.Plan.{Placing, added, conflict};
ghost use Rattle.shred_plan.specs.Laws.{StagesWait};
ghost use Rattle.shred_stages.specs.declared.stop.Stop.{Stop as Reason};
ghost use Rattle.shred_stages.specs.Free.{AreFree};
ghost use Rattle.shred_stages.specs.Orders.{ListRuns};
ghost use Rattle.shred_stages.specs.Runs.{State, Turn};
ghost use Rattle.shred.specs.Names.{Named, numbers_under};
ghost use Rattle.shred.specs.Building.{Building, Declared, nothing_built, refusal};
ghost use Rattle.shred.specs.Dispatchers.{Drafting, dispatcher_of, IsBuiltFrom, IsTaken, RunsBefore};
ghost use Rattle.shred.specs.Histories.{Asked, system as adding, built_from, told, AreNumbersOf, IsPlannedIn};
ghost use Rattle.shred.specs.Numbers.{IsUnder};

use crate::System;
pub use crate::trees::laws as trees;
pub use shred_plan::laws as planner;
pub use shred_stages::laws as stages;
use shred_world::ResourceId;
pub use shred_world::laws as worlds;

/// The plan of a builder is that of what it was told, one thing after another, so the planner's laws hold of it.
pub fn builders_plan<S>()
    ensures { (list : List (Asked S)) → (built_from ⟦<ResourceId as PartialEq>⟧.eq nothing_built list).staging.planning
        ≡ fold (added ⟦<ResourceId as PartialEq>⟧.eq) (record { first = 0; stages = [] })
        (told ⟦<ResourceId as PartialEq>⟧.eq nothing_built list) }
{}

/// Each system stands in a later stage than those whose names it comes after, or later in their group.
pub fn named_systems_wait<S>()
    ensures { (list : List (Asked S))
        → StagesWait [] (built_from ⟦<ResourceId as PartialEq>⟧.eq nothing_built list).staging.planning.stages }
{}

/// A system that is taken comes after the systems of all the names that it was given.
pub fn no_name_is_passed_over<S>()
    ensures { (building : Building S) (name : List ℕ) (after : List (List ℕ)) → refusal building name after ≡ None
        → AreNumbersOf building.names after (numbers_under building.names after) }
{}

/// A builder's plan is that of its systems, numbered in the order in which they were added.
pub fn builders_number_their_systems<S>()
    ensures { (list : List (Asked S))
        → IsPlannedIn ⟦<ResourceId as PartialEq>⟧.eq
        (built_from ⟦<ResourceId as PartialEq>⟧.eq nothing_built list) }
{}

/// In each stage of a dispatcher that was built, two groups share no system, and no id that either of them writes.
pub fn groups_of_a_stage_are_free<S, L>()
    ensures { (list : List (Asked S)) (draft : Drafting S L)
        → draft.building ≡ built_from ⟦<ResourceId as PartialEq>⟧.eq nothing_built list
        → All AreFree (dispatcher_of draft).staging.planning.stages }
{}

/// In a dispatcher that was built, a system that comes after a name stands in a later stage than the system of that
/// name, or later in its group.
pub fn named_systems_run_earlier<S, L>()
    ensures { (early late : List (Asked S)) (one : S) (declared : Declared) (name : List ℕ)
        (after : List (List ℕ)) (other : List ℕ) (draft : Drafting S L)
        → IsBuiltFrom ⟦<ResourceId as PartialEq>⟧.eq (early ++ adding one declared name after ∷ late) draft
        → IsTaken ⟦<ResourceId as PartialEq>⟧.eq early name after → Contains after other
        → RunsBefore ⟦<ResourceId as PartialEq>⟧.eq early draft other }
{}

/// Two systems that don't conflict and run one after the other may as well run the other way round: each does what it
/// did, whether it refuses or not, and both come to the same. So it is with two that stand side by side in a list.
pub fn systems_apart_commute<V, S: System<V>>()
    ensures turns { (one other : Placing Id) (before between after : State V S) (stop stop_other : Option Reason)
        → one.number ≢ other.number → conflict same_id one other ≡ false
        → Turn S.meets one before stop between → Turn S.meets other between stop_other after
        → (middle : State V S) × Turn S.meets other before stop_other middle × Turn S.meets one middle stop after }
    ensures neighbours { (early late : List (Placing Id)) (one other : Placing Id) (before after : State V S)
        → one.number ≢ other.number → conflict same_id one other ≡ false
        → ListRuns S.meets (early ++ one ∷ other ∷ late) before None after
        → ListRuns S.meets (early ++ other ∷ one ∷ late) before None after }
{}

/// Two systems whose resources stand under different dynamic numbers don't conflict.
pub fn different_numbers_do_not_conflict()
    ensures { (number another : ℕ) (one other : Placing Id) → number ≢ another → IsUnder number one
        → IsUnder another other
        → conflict same_id one other ≡ false }
{}
