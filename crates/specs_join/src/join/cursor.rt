//! A walk that lends one part after the other for writing.
ghost use Rattle.std.specs.Prelude.{◌≡◌, ℕ, ◌<◌, ◌&&◌, [], ◌∷◌, true, false, Some, is_some, IsSome};
ghost use Rattle.std.specs.Prelude.{IsTrue, IsOk, IfOk};
ghost use Rattle.std.specs.Borrow.{sem};
ghost use Rattle.specs_join.specs.ChangeEach.{shared_indices};

use crate::join::Join;
use crate::join::shared::SharedSteps;
use hibitset::Index;
use specs_layouts::{Component, MaskedStorage};
use std::alloc::AllocError;

/// A walk over the indices that a storage and a join share, which lends the storage's part for writing
/// beside the join's item.
pub struct JoinCursor<'a, T: Component, R: Join> {
    storage: &'a mut MaskedStorage<T>,
    mask: R::Mask,
    values: R::Value,
    steps: SharedSteps,
    index: Option<Index>,
}

impl<T: Component, R: Join> Drop for JoinCursor<'_, T, R> {
    ghost use Rattle.specs_join.specs.Cursors.{storage_of};

    /// Leaves the storage as it is.
    fn drop(self)
        ensures { self.exit.0.now ≡ (storage_of self.entry).now }
    {
        let JoinCursor {
            storage: _,
            mask,
            values,
            steps: _,
            index: _,
        } = self;
        drop(mask);
        drop(values);
    }
}

impl<'a, T: Component, R: Join> JoinCursor<'a, T, R> {
    ghost use Rattle.specs_join.specs.CursorLends.{lends_values};
    ghost use Rattle.specs_join.specs.Cursors.{storage_of, mask_of, values_of, index_of, indices_left, CanGoOn};
    ghost use Rattle.specs_join.specs.Cursors.{StandsAt};

    /// A cursor before the first index that the storage and the join share.
    pub fn new(storage: &'a mut MaskedStorage<T>, read: R) -> Self
        ensures same_reference { (storage_of result).ghost_name ≡ storage.entry.ghost_name }
        ensures storage { (storage_of result).now ≡ storage.old }
        ensures left { indices_left R.Mask.members result ≡ shared_indices storage.old.mask (R.joins read) }
        ensures values { (index : ℕ) → index < 16777216 → IsSome (R.joins read index)
            → R.value_at (values_of result) index ≡ R.joins read index }
        ensures ready { CanGoOn R.Mask.members R.value_at result }
    {
        let (mask, values) = read.open();
        let steps = SharedSteps::new(storage.mask(), &mask);
        JoinCursor {
            storage,
            mask,
            values,
            steps,
            index: None,
        }
    }

    /// Goes on to the next index, or answers false where there is none.
    pub fn advance(&mut self) -> bool
        requires { CanGoOn R.Mask.members R.value_at self.old }
        ensures same_reference { (storage_of self.new).ghost_name ≡ (storage_of self.old).ghost_name }
        ensures storage { (storage_of self.new).now ≡ (storage_of self.old).now }
        ensures mask { mask_of self.new ≡ mask_of self.old }
        ensures values { values_of self.new ≡ values_of self.old }
        ensures ready { CanGoOn R.Mask.members R.value_at self.new }
        ensures some { IsTrue result → (index : ℕ) × StandsAt R.value_at self.new index
            × (indices_left R.Mask.members self.old ≡ index ∷ indices_left R.Mask.members self.new) }
        ensures ended { result ≡ false → indices_left R.Mask.members self.old ≡ [] }
    {
        let next = self.steps.step(self.storage.mask(), &self.mask);
        self.index = next;
        next.is_some()
    }

    /// The index at which the cursor is.
    pub fn index(&self) -> Index
        requires { IsSome (index_of self.now) }
        ensures { index_of self.now ≡ Some result }
    {
        let Some(id) = self.index else { unreachable!() };
        id
    }

    /// What the join has at the index.
    pub fn item(&self) -> R::Type
        requires { (index : ℕ) × StandsAt R.value_at self.now index }
        ensures { (index : ℕ) → index_of self.now ≡ Some index
            → R.value_at (values_of self.now) index ≡ Some (R.show result) }
    {
        let Some(id) = self.index else { unreachable!() };
        R::get(&self.values, id)
    }

    /// The storage's part at the index, for writing.
    ///
    /// Errors: `AllocError`, where the storage emits, and nothing changed.
    pub fn values(&mut self) -> Result<&mut T, AllocError>
        requires { (index : ℕ) × StandsAt R.value_at self.old index }
        ensures* writes_back { sem 𝓛 (lends_values T.row R.row T.Storage.row R.Type.row R.Shown.row R.Value.row
            R.Mask.row T.Storage.UnprotectedStorage self.entry result) }
        ensures part { IfOk result (λ part. (index : ℕ) → index_of self.old ≡ Some index
            → T.Storage.part_at (storage_of self.old).now.inner index ≡ Some part.now) }
        ensures succeeds { T.Storage.emits (storage_of self.old).now.inner ≡ false → IsOk result }
        ensures within_room { T.Storage.has_room (storage_of self.old).now.inner 1 → IsOk result }
    {
        let Some(id) = self.index else { unreachable!() };
        let _mask = self.storage.mask();
        self.storage.get_mut(id)
    }
}
