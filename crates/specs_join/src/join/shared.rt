//! Walks over the indices that two sets share, of which neither is lent between two steps.
ghost use Rattle.std.specs.Prelude.{◌≡◌, [], ◌∷◌, MatchOption};
ghost use Rattle.hibitset_sets.specs.Walk.{walk, IsPlaced};
ghost use Rattle.specs_join.specs.Cursor.{shared};

use hibitset::{BitIter, BitSet, BitSetAnd, BitSetLike, Index, Uncounted, take_in_word};

/// How far a walk over the indices that two sets share has come, ascending.
#[derive(Drop)]
pub struct SharedSteps {
    masks: [u64; 4],
    prefix: [u32; 3],
    ghost placed: { IsPlaced masks prefix },
}

impl SharedSteps {
    ghost use Rattle.specs_join.specs.Steps.{still_shared};

    /// Before the first index that both sets have.
    pub fn new<M: BitSetLike + Drop>(parts: &BitSet, mask: &M) -> SharedSteps
        ensures { still_shared M.members parts.now mask.now result ≡ walk (shared M.members parts.now mask.now) }
    {
        let walk = BitSetAnd(parts, mask).iter();
        let (_, masks, prefix) = walk.into_parts();
        SharedSteps { masks, prefix }
    }

    /// Goes on to the next index that both sets have, and answers it, or none where there is none. What is still to
    /// come is told of sets that are as they were at the steps before.
    pub fn step<M: BitSetLike + Drop>(&mut self, parts: &BitSet, mask: &M) -> Option<Index>
        ensures { MatchOption result
            ((still_shared M.members parts.now mask.now self.old ≡ [])
            × (still_shared M.members parts.now mask.now self.new ≡ []))
            (λ index. still_shared M.members parts.now mask.now self.old
            ≡ index ∷ still_shared M.members parts.now mask.now self.new) }
    {
        if self.masks[0] != 0 {
            return Some(take_in_word(&mut self.masks, &self.prefix));
        }
        self.search(parts, mask)
    }

    /// `step` by a step of a walk, which looks for the next word.
    fn search<M: BitSetLike + Drop>(&mut self, parts: &BitSet, mask: &M) -> Option<Index>
        ensures { MatchOption result
            ((still_shared M.members parts.now mask.now self.old ≡ [])
            × (still_shared M.members parts.now mask.now self.new ≡ []))
            (λ index. still_shared M.members parts.now mask.now self.old
            ≡ index ∷ still_shared M.members parts.now mask.now self.new) }
    {
        let mut walk = BitIter::new(BitSetAnd(parts, mask), self.masks, self.prefix);
        let next = walk.next_counted(&mut Uncounted);
        let (_, masks, prefix) = walk.into_parts();
        self.masks = masks;
        self.prefix = prefix;
        next
    }
}
