//! Walks over a set whose indices are taken out as they come.
ghost use Rattle.std.specs.Prelude.{◌≡◌, ◌≢◌, ℕ, Bool, [], ◌∷◌, false, MatchOption, slice_index};
ghost use Rattle.std.specs.FinSet as set;
ghost use Rattle.hibitset_sets.specs.Walk.{walk, is_pending, IsPlaced};

use hibitset::{AtomicBitSet, BitIter, BitSetLike, Index, Uncounted, take_in_word};

/// How far a walk has come over a set that isn't lent between two steps, and out of which each index is
/// taken that came.
#[derive(Drop)]
pub(crate) struct Emptying {
    masks: [u64; 4],
    prefix: [u32; 3],
    ghost placed: { IsPlaced masks prefix },
}

impl Emptying {
    ghost use Rattle.specs_entity.specs.Emptied.{still_in, GaveFirst};

    /// Before the first index of a set.
    pub(crate) fn new(indices: &AtomicBitSet) -> Emptying
        ensures { still_in indices.now.members result ≡ walk (set.contains indices.now.members) }
    {
        let (_, masks, prefix) = indices.iter().into_parts();
        Emptying { masks, prefix }
    }

    /// The first index that the set has still, or none where it has none. It is for the caller to take it out.
    pub(crate) fn first_of(&mut self, indices: &AtomicBitSet) -> Option<Index>
        requires { still_in indices.now.members self.old ≡ walk (set.contains indices.now.members) }
        ensures { MatchOption result (walk (set.contains indices.now.members) ≡ [])
            (λ first. GaveFirst indices.now.members first self.new) }
    {
        if self.masks[0] != 0 {
            return Some(self.take());
        }
        self.search(indices)
    }

    /// `first_of` by a step of a walk, which looks for the next word.
    fn search(&mut self, indices: &AtomicBitSet) -> Option<Index>
        requires { still_in indices.now.members self.old ≡ walk (set.contains indices.now.members) }
        ensures { MatchOption result (walk (set.contains indices.now.members) ≡ [])
            (λ first. GaveFirst indices.now.members first self.new) }
    {
        let mut walk = BitIter::new(indices, self.masks, self.prefix);
        let next = walk.next_counted(&mut Uncounted);
        let (_, masks, prefix) = walk.into_parts();
        self.masks = masks;
        self.prefix = prefix;
        next
    }

    /// Takes the lowest index out of the word at which the walk stands.
    fn take(&mut self) -> Index
        requires { slice_index self.old.masks 0 ≢ 0 }
        ensures items { (members : ℕ → Bool) → walk (is_pending members self.old.masks self.old.prefix)
            ≡ result ∷ walk (is_pending members self.new.masks self.new.prefix) }
        ensures gone { (members : ℕ → Bool) → is_pending members self.new.masks self.new.prefix result ≡ false }
    {
        take_in_word(&mut self.masks, &self.prefix)
    }
}
