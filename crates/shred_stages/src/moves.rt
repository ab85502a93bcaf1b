//! Moving values between the slots of two holders.
ghost use Rattle.std.specs.Prelude.{◌≡◌, Some, None, IsSome};
ghost use Rattle.std.specs.Option.{MatchOption};
ghost use Rattle.shred_world.specs.declared.resource_id.ResourceId.{ResourceId as Id};
ghost use Rattle.shred_world.specs.Bundles.{takable, with_slot, out, owned};
ghost use Rattle.shred_stages.specs.Moves.{left_of, moved_to, HasSlots};

use shred_world::{Holder, ResourceId};

/// Moves the values of some ids, where they may be taken, into the empty slots of another holder.
pub(crate) fn move_values<V, A: Holder<V>, B: Holder<V>>(
    from: &mut A,
    to: &mut B,
    ids: &[ResourceId],
)
    requires slots { HasSlots ids.now (A.slots from.old) (B.slots to.old) }
    ensures from { (id : Id) → A.slots from.new id ≡ left_of ids.now (A.slots from.old) id }
    ensures to { (id : Id) → B.slots to.new id ≡ moved_to ids.now (A.slots from.old) (B.slots to.old) id }
{
    for id in ids {
        move_value(from, to, *id);
    }
}

/// Moves the value of an id, where it may be taken, into the empty slot of another holder.
fn move_value<V, A: Holder<V>, B: Holder<V>>(from: &mut A, to: &mut B, id: ResourceId)
    requires slot { IsSome (takable (A.slots from.old id)) → B.slots to.old id ≡ out }
    ensures from { MatchOption (takable (A.slots from.old id)) (A.slots from.new ≡ A.slots from.old)
        (λ _. A.slots from.new ≡ with_slot (A.slots from.old) id out) }
    ensures to { MatchOption (takable (A.slots from.old id)) (B.slots to.new ≡ B.slots to.old)
        (λ v. B.slots to.new ≡ with_slot (B.slots to.old) id (owned v)) }
{
    if let Some(value) = from.take(id) {
        to.put(id, value);
    }
}
