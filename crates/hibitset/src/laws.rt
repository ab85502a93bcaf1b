//! Laws on which callers rely. The functions have no code; each contract is the law.

ghost use Rattle.std.specs.Prelude.{ℕ, Bool, List};
ghost use Rattle.hibitset_sets.specs.BitSet.{has_member};
ghost use Rattle.hibitset_sets.specs.Words.{word_of};
ghost use Rattle.hibitset.specs.AtomicCore.{Sizes, Fits, AreWordsOf};
ghost use Rattle.hibitset.specs.AtomicRuns.{start, after_all, IsSoundRun, IsAtRest, AreMembers};
ghost use Rattle.hibitset.specs.Cut.{IsExact};
ghost use Rattle.hibitset.specs.declared.atomic_core.Run.{Run};
ghost use Rattle.hibitset.specs.declared.atomic_core.Step.{Step};

use crate::atomic::AtomicBitSet;
use hibitset_sets::BitSet;
pub use hibitset_sets::laws::{
    a_dropped_drain_took_what_it_gave, complement_of_a_union, equal_sets_hold_each_other,
    two_members_far_apart_cost_seven_words, walk_to_the_end, walks_read_few_words,
    xor_twice_changes_nothing,
};

/// No summary bit of a `BitSet` stands over a zero word, so a producer over one that begins, its
/// second field 3, is split exactly where two members differ in index / 64.
pub fn summaries_of_a_bit_set_are_exact(set: &BitSet)
    ensures { IsExact (word_of (has_member set.now)) }
{}

/// The same of an `AtomicBitSet` held alone.
pub fn summaries_of_an_atomic_bit_set_are_exact(set: &AtomicBitSet)
    ensures { IsExact (word_of (has_member set.now)) }
{}

/// Whatever the steps of however many callers, over layers of any sizes: no index is reported new
/// twice, nor an old member at all; layer 0 holds exactly the old members and the indices of all calls
/// that began; a summary bit is missing only over a word that a call in flight wrote, and is set over
/// no zero word; an ended call has its four bits; and what a load found set stays set.
pub fn every_interleaving_of_a_shared_set()
    ensures { (sizes : Sizes) (old : ℕ → Bool) (words : List ℕ) (callers : ℕ) (steps : List Step)
        → Fits sizes → AreWordsOf sizes old words
        → IsSoundRun sizes old (after_all sizes steps (start words callers)) }
{}

/// Once no call is in flight, layer 0 holds exactly the old members and the indices of the ended calls,
/// and a summary bit is set exactly over the words that aren't zero.
pub fn a_shared_set_at_rest_has_what_its_callers_list()
    ensures { (sizes : Sizes) (old : ℕ → Bool) (run : Run) → IsSoundRun sizes old run
        → IsAtRest run.callers → AreMembers sizes old run }
{}
