//! Laws on which callers rely. Most functions have no code; each contract is the law.
ghost use Rattle.std.specs.Prelude.{◌≡◌, ◌≢◌, ℕ, ◌+◌, ◌*◌, ◌/◌, ◌<◌, ◌≤◌, ◌↔◌, [], ◌∷◌, Bool, true, false, not};
ghost use Rattle.std.specs.Prelude.{min, length, take, drop};
ghost use Rattle.std.specs.FinSet as set;
ghost use Rattle.hibitset_sets.specs.Assign.{Assigns};
ghost use Rattle.hibitset_sets.specs.BitSet.{has_member};
ghost use Rattle.hibitset_sets.specs.BitSetEq.{same_members};
ghost use Rattle.hibitset_sets.specs.Operators.{members_of_and, members_of_not, members_of_or, members_of_xor};
ghost use Rattle.hibitset_sets.specs.Drain.{WithoutAll, drained_of};
ghost use Rattle.hibitset_sets.specs.Walk.{walk, words_walked};

use crate::bit_set::BitSet;
use crate::bit_set_like::BitSetLike;
use crate::count::{Counter, Steps};
use crate::drain::{DrainBitIter, DrainableBitSet};
use crate::kept_masks::KeptMasks;
use crate::util::Index;
use std::sync::ledger::Ledger;

/// Two sets hold each other exactly where `==` holds of them.
pub fn equal_sets_hold_each_other(one: &BitSet, other: &BitSet)
    ensures both { same_members one.now other.now ≡ true
        ↔ ((set.is_subset other.now.members one.now.members ≡ true)
        × (set.is_subset one.now.members other.now.members ≡ true)) }
    ensures same { same_members one.now other.now ≡ true ↔ (one.now.members ≡ other.now.members) }
{}

/// After `bitxor_assign` with the same set twice the members are those of before.
pub fn xor_twice_changes_nothing<B: BitSetLike>(one: &BitSet, other: &B)
    ensures { (between after : ℕ → Bool) → Assigns (members_of_xor (has_member one.now) (B.members other.now)) between
        → Assigns (members_of_xor between (B.members other.now)) after
        → (i : ℕ) → i < 16777216 → after i ≡ has_member one.now i }
{}

/// What neither of two sets has both lack, at every index.
pub fn complement_of_a_union<A: BitSetLike, B: BitSetLike>(one: &A, other: &B)
    ensures { (i : ℕ) → members_of_not (members_of_or (A.members one.now) (B.members other.now)) i
        ≡ members_of_and (members_of_not (A.members one.now)) (members_of_not (B.members other.now)) i }
{}

/// A walk over a mask of kept sets, the smallest with n members, reads at most 3n + 1 words of each.
pub fn walks_read_few_words<T: KeptMasks>(mask: &T)
    ensures { words_walked (T.reads mask.now) (T.words mask.now) ≤ T.kept mask.now * (3 * T.least mask.now + 1) }
{}

/// Walks over a mask to its end, and tells of each word that is read.
///
/// It is the caller's ledger that counts, as it is in a join above.
pub fn walk_to_the_end<T: KeptMasks + Drop, L: Ledger>(mask: T, steps: &mut Steps<L>)
    ensures cost { steps.new ≡ steps.old + words_walked (T.reads mask) (T.words mask) }
    ensures bound { steps.new ≤ steps.old + T.kept mask * (3 * T.least mask + 1) }
{
    walks_read_few_words(&mask);
    let mut walk = mask.iter_counted(steps);
    while walk.next_counted(steps).is_some() {}
}

/// A walk over a set of two members that differ in index / 262,144, as 0 and 262,144, reads seven
/// words: the one at the top, and three a member.
pub fn two_members_far_apart_cost_seven_words<L: Ledger>(set: &BitSet, steps: &mut Steps<L>)
    ensures { (i j : ℕ) → walk (has_member set.now) ≡ i ∷ j ∷ [] → i / 262144 ≢ j / 262144 → steps.new ≡ steps.old + 7 }
{
    walk_to_the_end(set, steps);
}

/// Drains a set into `given` until that is full or nothing is left, drops the drain, and answers how
/// many items came.
///
/// They are the first of the set's walk, in order, and exactly those the set then lacks. The rest of
/// `given` stays.
pub fn a_dropped_drain_took_what_it_gave<T: DrainableBitSet>(
    set: &mut T,
    given: &mut [Index],
) -> usize
    ensures count { result ≡ min (length given.old) (length (walk (T.members set.old))) }
    ensures items { take result given.new ≡ take result (walk (T.members set.old)) }
    ensures rest { drop result given.new ≡ drop result given.old }
    ensures members { WithoutAll (T.members set.old) (take result (walk (T.members set.old))) (T.members set.new) }
{
    let mut drain = set.drain();
    drain_into(&mut drain, given)
}

/// Drains into `given` until that is full or nothing is left, and answers how many items came.
fn drain_into<'a, T: DrainableBitSet>(drain: &mut DrainBitIter<'a, T>, given: &mut [Index]) -> usize
    ensures same_reference { drain.new.set.ghost_name ≡ drain.old.set.ghost_name }
    ensures count { result ≡ min (length given.old) (length (drained_of T.members drain.old)) }
    ensures items { take result given.new ≡ take result (drained_of T.members drain.old) }
    ensures rest { drop result given.new ≡ drop result given.old }
    ensures members { WithoutAll (T.members drain.old.set.now) (take result (drained_of T.members drain.old))
        (T.members drain.new.set.now) }
{
    for place in 0..given.len() {
        let Some(i) = drain.next() else {
            return place;
        };
        given[place] = i;
    }
    given.len()
}
