//! Change sets join by their changes.
use super::{Change, ChangeSet};
use crate::Join;
use hibitset::{BitSet, Index};
use specs_layouts::{DenseVecStorage, UnprotectedStorage};

/// The changes, each at its index.
impl<'a, T: Drop + 'a> Join for &'a ChangeSet<T> {
    type Type = &'a T;

    type Shown = T;

    type Value = &'a DenseVecStorage<Change<T>>;

    type Mask = &'a BitSet;

    ghost use Rattle.std.specs.Prelude.{◌≡◌, false, Some};
    ghost use Rattle.specs_join.specs.Changes.{change_at, changes_in};

    ghost show = { λ value. value.now };

    ghost joins = { λ changes. change_at changes.now };

    ghost opens = { λ changes mask. mask.now ≡ changes.now.storage.mask };

    ghost unconstrained = { false };

    ghost value_at = { λ inner. changes_in inner.now };

    fn open(self) -> (&'a BitSet, &'a DenseVecStorage<Change<T>>) {
        (self.storage.mask(), self.storage.inner())
    }

    fn get(values: &&'a DenseVecStorage<Change<T>>, id: Index) -> &'a T {
        let inner: &'a DenseVecStorage<Change<T>> = *values;
        &inner.get(id).0
    }

    fn is_unconstrained() -> bool {
        false
    }
}
