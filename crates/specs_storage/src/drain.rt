//! Parts that are taken out one at a time.
ghost use Rattle.std.specs.Prelude.{◌≡◌, false, true, [], ◌∷◌, None, Some, IsOk, IfOk, IfSome, OnErr, MatchOption};
ghost use Rattle.std.specs.Borrow.{sem};
ghost use Rattle.std.specs.FinSet as set;
ghost use Rattle.hibitset_sets.specs.Walk.{walk};
ghost use Rattle.specs_layouts.specs.MaskedChanges.{PutsIn, KeepsParts, told_in};
ghost use Rattle.specs_layouts.specs.declared.track.ComponentEvent.TheVariants as event;

use crate::storage::Storage;
use hibitset::{BitSet, BitSetLike, Index, Uncounted};
use specs_layouts::{Component, MaskedStorage, UnprotectedStorage};
use std::alloc::AllocError;

/// The parts of a storage, to be taken out one at a time, ascending by index. What isn't taken stays.
pub struct Drain<'a, T: Component> {
    /// The storage.
    pub store: &'a mut MaskedStorage<T>,
}

impl<T: Component> Drop for Drain<'_, T> {
    /// Leaves the storage as it is.
    fn drop(self)
        ensures { self.exit.0.now ≡ self.entry.store.now }
    {
        let Drain { store: _ } = self;
    }
}

impl<'a, T: Component> Drain<'a, T> {
    /// Takes out the part at the least index that has one, and answers both, or none where no part is left.
    ///
    /// Errors: `AllocError`, where the storage emits and has no room, and each index has the part that it had.
    pub fn take_next(&mut self) -> Result<Option<(Index, T)>, AllocError>
        ensures least { IfOk result (λ taken. MatchOption taken
            (walk (set.contains self.old.store.now.mask.members) ≡ [])
            (λ one. walk (set.contains self.old.store.now.mask.members)
            ≡ one.0 ∷ walk (set.contains (set.remove self.old.store.now.mask.members one.0)))) }
        ensures value { IfOk result (λ taken. IfSome taken
            (λ one. T.Storage.part_at self.old.store.now.inner one.0 ≡ Some one.1)) }
        ensures ok { IfOk result (λ taken. MatchOption taken (self.new.store.now ≡ self.old.store.now)
            (λ one. PutsIn T.Storage.part_at self.old.store.now one.0 None self.new.store.now)) }
        ensures err { OnErr result (KeepsParts T.Storage.part_at self.old.store.now self.new.store.now) }
        ensures succeeds { T.Storage.emits self.old.store.now.inner ≡ false → IsOk result }
        ensures same_reference { self.new.store.ghost_name ≡ self.old.store.ghost_name }

        // One event tells of a part that was taken out, and a refusal writes none.
        ensures events { IfOk result (λ taken. IfSome taken (λ one. T.Storage.events self.new.store.now.inner
            ≡ told_in T.Storage.emits T.Storage.events self.old.store.now (event.Removed one.0))) }
        ensures silent { OnErr result (T.Storage.events self.new.store.now.inner
            ≡ T.Storage.events self.old.store.now.inner) }
        ensures emission { T.Storage.emits self.new.store.now.inner ≡ T.Storage.emits self.old.store.now.inner }
    {
        match first_of(self.store.mask()) {
            Some(id) => match self.store.remove(id)? {
                Some(part) => Ok(Some((id, part))),
                None => unreachable!(),
            },
            None => Ok(None),
        }
    }
}

/// The least index of a set.
fn first_of(indices: &BitSet) -> Option<Index>
    ensures walk { MatchOption result (walk (set.contains indices.now.members) ≡ [])
        (λ one. walk (set.contains indices.now.members)
        ≡ one ∷ walk (set.contains (set.remove indices.now.members one))) }
    ensures member { IfSome result (λ first. set.contains indices.now.members first ≡ true) }
{
    let mut walk = indices.iter();
    walk.next_counted(&mut Uncounted)
}

impl<'e, T: Component> Storage<'e, T, &'e mut MaskedStorage<T>> {
    ghost use Rattle.specs_storage.specs.StorageLends.{lends_store};

    /// The parts, to be taken out one at a time.
    pub fn drain(&mut self) -> Drain<'_, T>
        ensures* writes_back { sem 𝓛 (lends_store T.row T.Storage.row T.Storage.UnprotectedStorage self.entry
            result.store) }
        ensures value { result.store.now ≡ self.old.store.now }
    {
        Drain { store: self.store }
    }

    /// The parts with their mask, for writing.
    pub fn store_mut(&mut self) -> &mut MaskedStorage<T>
        ensures* writes_back { sem 𝓛 (lends_store T.row T.Storage.row T.Storage.UnprotectedStorage self.entry result) }
        ensures value { result.now ≡ self.old.store.now }
    {
        self.store
    }
}
