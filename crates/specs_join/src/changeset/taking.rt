//! Changes that are taken out beside the items of a join.
ghost use Rattle.std.specs.Prelude.{◌≡◌};
ghost use Rattle.hibitset_sets.specs.Iter.{left_of};
ghost use Rattle.specs_join.specs.Joins.{join_list, both};
ghost use Rattle.specs_join.specs.Changes.{change_at, changes_in};
ghost use Rattle.specs_join.specs.Taking.{HasBoth, in_both};

use super::{Change, ChangeSet};
use crate::Join;
use hibitset::{BitIter, BitSet, BitSetAnd, BitSetLike, Uncounted};
use specs_layouts::{DenseVecStorage, UnprotectedStorage};

/// A walk over the indices that a change set and a join share, ascending, which takes each change out
/// beside the join's item.
#[derive(Drop)]
pub struct TakeIter<T: Drop, R: Join> {
    keys: BitIter<BitSetAnd<BitSet, R::Mask>>,
    changes: DenseVecStorage<Change<T>>,
    values: R::Value,
    ghost known: { HasBoth (changes_in changes) (R.value_at values) (left_of (in_both R.Mask.members) keys) },
}

impl<T: Drop> ChangeSet<T> {
    ghost use Rattle.specs_join.specs.TakeIters.{to_come};

    /// The changes at the indices that a join has too, to be taken out one after the other, each beside the
    /// join's item.
    pub fn take_join<R: Join>(self, read: R) -> TakeIter<T, R>
        ensures { to_come R.Mask.members R.value_at result
            ≡ join_list (λ index. both (change_at self index) (R.joins read index)) }
    {
        let (mask, values) = read.open();
        let (has_change, changes) = self.storage.into_parts();
        TakeIter {
            keys: BitSetAnd(has_change, mask).iter(),
            changes,
            values,
        }
    }
}

impl<T: Drop, R: Join> Iterator for TakeIter<T, R> {
    type Item = (T, R::Type);

    ghost use Rattle.std.specs.Iterator.{YieldsFirstBy, item_count};
    ghost use Rattle.specs_join.specs.TakeIters.{to_come};

    ghost next_gives = { YieldsFirstBy (λ item. (item.0, R.show item.1)) (to_come R.Mask.members R.value_at) };

    ghost remaining = { item_count (to_come R.Mask.members R.value_at) };

    fn next(&mut self) -> Option<(T, R::Type)> {
        let id = self.keys.next_counted(&mut Uncounted)?;
        match self.changes.remove(id) {
            Ok(Change(change)) => Some((change, R::get(&self.values, id))),
            Err(_) => unreachable!(),
        }
    }
}
