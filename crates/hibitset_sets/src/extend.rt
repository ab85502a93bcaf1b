//! Sets made of indices, and indices put into sets.
ghost use Rattle.std.specs.Prelude.{IfOk};
ghost use Rattle.std.specs.Iterator.{ExtendsWithItems};
ghost use Rattle.hibitset_sets.specs.Extend.{Extends, ExtendsRef, GivesOnly, IsIndex, IsIndexRef, IsMadeOf};

use crate::bit_set::BitSet;
use crate::util::Index;
use std::alloc::{AllocError, Global};

impl BitSet {
    /// Puts the indices in, in the order in which they come. Each has to be below `MAX_EID`.
    ///
    /// Errors: `AllocError`, and the indices that came before are in.
    #[tactic(auto, using(crate::proofs::ExtendLemmas::with_last))]
    pub fn extend_indices<U: IntoIterator<Item = Index>>(
        &mut self,
        indices: U,
    ) -> Result<(), AllocError>
        requires { GivesOnly U.into_iter_gives U.IntoIter.can_next U.IntoIter.remaining U.IntoIter.next_gives
            IsIndex indices }
        ensures { ExtendsWithItems U.into_iter_gives U.IntoIter.next_gives Extends indices self.old self.new result }
    {
        for i in indices {
            self.add(i)?;
        }
        Ok(())
    }

    /// Puts the indices in that references refer to, as `extend_indices` does.
    ///
    /// Errors: `AllocError`, and the indices that came before are in.
    #[tactic(auto, using(crate::proofs::ExtendLemmas::with_last))]
    pub fn extend_indices_by_ref<'a, U: IntoIterator<Item = &'a Index>>(
        &mut self,
        indices: U,
    ) -> Result<(), AllocError>
        requires { GivesOnly U.into_iter_gives U.IntoIter.can_next U.IntoIter.remaining U.IntoIter.next_gives
            IsIndexRef indices }
        ensures { ExtendsWithItems U.into_iter_gives U.IntoIter.next_gives ExtendsRef indices self.old self.new result }
    {
        for i in indices {
            self.add(*i)?;
        }
        Ok(())
    }

    /// The set of the indices, each of which has to be below `MAX_EID`.
    ///
    /// Errors: `AllocError`.
    pub fn from_indices<U: IntoIterator<Item = Index>>(
        alloc: Global,
        indices: U,
    ) -> Result<BitSet, AllocError>
        requires { GivesOnly U.into_iter_gives U.IntoIter.can_next U.IntoIter.remaining U.IntoIter.next_gives
            IsIndex indices }
        ensures { IfOk result (IsMadeOf U.into_iter_gives U.IntoIter.next_gives Extends indices) }
    {
        let mut set = BitSet::new(alloc);
        set.extend_indices(indices)?;
        Ok(set)
    }

    /// The set of the indices that references refer to, as `from_indices` makes it.
    ///
    /// Errors: `AllocError`.
    pub fn from_indices_by_ref<'a, U: IntoIterator<Item = &'a Index>>(
        alloc: Global,
        indices: U,
    ) -> Result<BitSet, AllocError>
        requires { GivesOnly U.into_iter_gives U.IntoIter.can_next U.IntoIter.remaining U.IntoIter.next_gives
            IsIndexRef indices }
        ensures { IfOk result (IsMadeOf U.into_iter_gives U.IntoIter.next_gives ExtendsRef indices) }
    {
        let mut set = BitSet::new(alloc);
        set.extend_indices_by_ref(indices)?;
        Ok(set)
    }
}
