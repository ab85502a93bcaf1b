//! Laws of runs in any order, on which callers rely. The functions have no code; each contract is the law.
ghost use Rattle.std.specs.Prelude.{◌≡◌, ◌++◌, ◌∷◌, ℕ, false, Some, None, List};
ghost use Rattle.shred_world.specs.declared.resource_id.ResourceId.{ResourceId as Id};
ghost use Rattle.shred_world.specs.ResourceIds.{same_id};
ghost use Rattle.shred_plan.specs.Plan.{Placing, Stage, Planning, plan_order};
ghost use Rattle.shred_stages.specs.declared.stop.Stop.{Stop as Reason};
ghost use Rattle.shred_stages.specs.Runs.{State, StagesRun};
ghost use Rattle.shred_stages.specs.Free.{AreDistinct};
ghost use Rattle.shred_stages.specs.Seats.{IsPlanned};
ghost use Rattle.shred_stages.specs.Orders.{are_bound, ListRuns, SameUpToOrder, RunsUpToOrder};

use crate::System;
use shred_world::ResourceId;

/// Stages in which no system refuses are a run along the list of their systems, and such a run is one of theirs.
pub fn stages_run_as_a_list<V, S: System<V>>()
    ensures to { (stages : List (Stage Id)) (before after : State V S)
        → StagesRun S.meets stages before None after → ListRuns S.meets (plan_order stages) before None after }
    ensures from { (stages : List (Stage Id)) (before after : State V S)
        → ListRuns S.meets (plan_order stages) before None after → StagesRun S.meets stages before None after }
{}

/// Where a system refuses, the list of the systems runs as far as the one whose refusal is told.
pub fn the_first_refusal_is_told<V, S: System<V>>()
    ensures { (stages : List (Stage Id)) (before after : State V S) (why : ℕ × Reason)
        → StagesRun S.meets stages before (Some why) after → (last : State V S)
        × ListRuns S.meets (plan_order stages) before (Some why) last }
{}

/// A list of systems, none of which stands in it twice, comes to the same in each order that keeps those that are bound to one another.
pub fn order_does_not_matter<V, S: System<V>>()
    ensures { (order list : List (Placing Id)) (before after : State V S) → AreDistinct order
        → SameUpToOrder same_id order list → ListRuns S.meets order before None after
        → ListRuns S.meets list before None after }
{}

/// A plan in which no system refuses is made of steps, and the very same steps can be taken along each list that is the same up to its order.
pub fn the_same_steps_run_in_any_order<V, S: System<V>>()
    ensures { (planning : Planning Id) (count : ℕ) (before after : State V S)
        → IsPlanned ⟦<ResourceId as PartialEq>⟧.eq planning count
        → StagesRun S.meets planning.stages before None after
        → RunsUpToOrder S.meets (plan_order planning.stages) before after }
{}

/// A list is the same up to order as itself, as each that is reached by turning round two neighbours whose order doesn't count, and so on.
pub fn neighbours_may_be_turned<K: PartialEq>()
    ensures itself { (order : List (Placing K)) → SameUpToOrder K.eq order order }
    ensures turned { (early late : List (Placing K)) (one other : Placing K) → are_bound K.eq one other ≡ false
        → SameUpToOrder K.eq (early ++ one ∷ other ∷ late) (early ++ other ∷ one ∷ late) }
    ensures again { (order list last : List (Placing K)) → SameUpToOrder K.eq order list
        → SameUpToOrder K.eq list last → SameUpToOrder K.eq order last }
{}
