//! What callers of the laws know of systems whose resources stand under different dynamic numbers.
ghost use Rattle.std.specs.Prelude.{◌≢◌, ℕ, Option};
ghost use Rattle.shred_world.specs.declared.resource_id.ResourceId.{ResourceId as Id};
ghost use Rattle.shred_plan.specs.Plan.{Placing};
ghost use Rattle.shred_stages.specs.declared.stop.Stop.{Stop};
ghost use Rattle.shred_stages.specs.Runs.{State, Turn};
ghost use Rattle.shred.specs.Numbers.{IsUnder};

use shred::System;
use shred::laws::{different_numbers_do_not_conflict, systems_apart_commute};

/// Two systems whose resources stand under different dynamic numbers may as well run the other way round: each does what
/// it did, whether it refuses or not, and both come to the same.
pub fn systems_under_two_numbers_commute<V, S: System<V>>()
    ensures { (number another : ℕ) (one other : Placing Id) (before between after : State V S)
        (stop last : Option Stop)
        → number ≢ another → IsUnder number one → IsUnder another other → one.number ≢ other.number
        → Turn S.meets one before stop between → Turn S.meets other between last after
        → (middle : State V S) × Turn S.meets other before last middle × Turn S.meets one middle stop after }
{
    different_numbers_do_not_conflict();
    systems_apart_commute::<V, S>();
}
