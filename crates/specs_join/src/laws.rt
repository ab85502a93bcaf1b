//! Laws on which callers rely: what a walk over a join reads.
ghost use Rattle.std.specs.Prelude.{◌≡◌, ℕ, ◌+◌, ◌*◌, ◌≤◌, min, length};
ghost use Rattle.hibitset_sets.specs.KeptMasks.{member_count};
ghost use Rattle.hibitset_sets.specs.Walk.{words_walked, walk};
ghost use Rattle.hibitset_sets.specs.BitSet.{has_member};
ghost use Rattle.specs_join.specs.Joins.{join_list};

use crate::join::Join;
use hibitset::{KeptMasks, Steps};
use specs_layouts::{Component, MaskedStorage};
use std::sync::ledger::Ledger;

/// Goes through a join to its end, and tells of each word that is read from its mask.
///
/// Where the mask is made of k kept sets, the smallest with n members, these are at most k (3n + 1)
/// words, from the making of the walk to its end.
pub fn join_to_the_end<J: Join, L: Ledger>(join: J, steps: &mut Steps<L>)
where
    J::Mask: KeptMasks,
    J::Type: Drop,
    ensures cost { (mask : J.Mask) × J.opens join mask
        × (steps.new ≡ steps.old + words_walked (J.Mask.reads mask) (J.Mask.words mask)) }
    ensures bound { (mask : J.Mask) × J.opens join mask
        × (steps.new ≤ steps.old + J.Mask.kept mask * (3 * J.Mask.least mask + 1)) }
{
    go_through(join, steps);
}

/// The walk of it.
fn go_through<J: Join, L: Ledger>(join: J, steps: &mut Steps<L>)
where
    J::Type: Drop,
    ensures { (mask : J.Mask) × J.opens join mask
        × (steps.new ≡ steps.old + words_walked (J.Mask.reads mask) (J.Mask.words mask)) }
{
    let mut walk = join.join_counted(steps);
    while walk.next_counted(steps).is_some() {}
}

/// A walk over the parts of two storages reads at most 2 (3n + 1) words of their masks, where the one
/// with fewer parts has n.
pub fn two_storages_cost_what_the_smaller_has<A: Component, B: Component, L: Ledger>(
    one: &MaskedStorage<A>,
    other: &MaskedStorage<B>,
    steps: &mut Steps<L>,
)
    ensures { steps.new ≤ steps.old + 2 * (3 * min (member_count one.now.mask) (member_count other.now.mask) + 1) }
{
    join_to_the_end((one, other), steps);
}

/// A join over a storage has as many items as the storage's mask has indices, so values that are made of
/// its items, one of each, can be stored.
pub fn a_join_has_an_item_for_each_index<T: Component>(storage: &MaskedStorage<T>)
    ensures { length (join_list (T.Storage.part_at storage.now.inner)) ≡ length (walk (has_member storage.now.mask)) }
{
    let _mask = storage.mask();
}
