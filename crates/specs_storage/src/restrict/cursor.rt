//! A walk over the parts of a storage, which lends one pair after the other.
ghost use Rattle.std.specs.Prelude.{◌≡◌, ◌↔◌, ℕ, ◌<◌, ◌&&◌, [], ◌∷◌, true, false, Some, is_some, option_copied};
ghost use Rattle.std.specs.Prelude.{unwrap_or, IsSome, IsTrue, IsOk, IfOk, IsErrOf};
ghost use Rattle.std.specs.Borrow.{sem};
ghost use Rattle.specs_join.specs.ChangeEach.{shared_indices};
ghost use Rattle.specs_storage.specs.Found.{Finds, HasPart};
ghost use Rattle.specs_storage.specs.declared.storage.LendError.TheVariants as lending;

use crate::restrict::pair::{PairedStorageMut, has_part, lend_at, part_of};
use crate::restrict::{RestrictedStorageMut, SequentialRestriction};
use crate::storage::LendError;
use hibitset::Index;
use specs_entity::{EntitiesRes, Entity};
use specs_join::{Join, SharedSteps};
use specs_layouts::{Component, MaskedStorage, UnprotectedStorage};
use std::alloc::AllocError;

/// A walk over the indices that a storage and a join share, which lends the storage at each index beside the join's item.
pub struct PairCursor<'a, T: Component, R: Join> {
    entities: &'a EntitiesRes,
    store: &'a mut MaskedStorage<T>,
    mask: R::Mask,
    values: R::Value,
    steps: SharedSteps,
    index: Option<Index>,
}

impl<T: Component, R: Join> Drop for PairCursor<'_, T, R> {
    ghost use Rattle.specs_storage.specs.PairCursors.{store_of};

    /// Leaves the storage as it is.
    fn drop(self)
        ensures { self.exit.1.0.now ≡ (store_of self.entry).now }
    {
        let PairCursor {
            entities: _,
            store: _,
            mask,
            values,
            steps: _,
            index: _,
        } = self;
        drop(mask);
        drop(values);
    }
}

impl<'a, T: Component> RestrictedStorageMut<'a, T, SequentialRestriction> {
    ghost use Rattle.specs_storage.specs.PairCursors.{store_of, entities_of, values_of, indices_left, CanGoOn};
    ghost use Rattle.specs_storage.specs.RestrictedMut as restricted;

    /// A cursor before the first index that the storage and the join share.
    pub fn cursor<R: Join>(self, read: R) -> PairCursor<'a, T, R>
        ensures same_reference { (store_of result).ghost_name ≡ (restricted.store_of self.entry).ghost_name }
        ensures store { (store_of result).now ≡ (restricted.store_of self.entry).now }
        ensures entities { (entities_of result).now ≡ (restricted.entities_of self.entry).now }
        ensures left { indices_left R.Mask.members result
            ≡ shared_indices (restricted.store_of self.entry).now.mask (R.joins read) }
        ensures values { (index : ℕ) → index < 16777216 → IsSome (R.joins read index)
            → R.value_at (values_of result) index ≡ R.joins read index }
        ensures ready { CanGoOn R.Mask.members R.value_at result }
    {
        let RestrictedStorageMut {
            entities,
            store,
            ..
        } = self;
        PairCursor::new(entities, store, read)
    }
}

impl<'a, T: Component, R: Join> PairCursor<'a, T, R> {
    ghost use Rattle.specs_storage.specs.PairCursorLends.{lends_store, lends_part};
    ghost use Rattle.specs_storage.specs.PairCursors.{store_of, entities_of, mask_of, values_of, index_of};
    ghost use Rattle.specs_storage.specs.PairCursors.{indices_left, CanGoOn, StandsAt};
    ghost use Rattle.specs_storage.specs.PairedMut as paired;

    /// A cursor over the parts of these entities, before the first index that their storage and the join share.
    ///
    /// What a caller does with it is known of the storage that lent it.
    pub fn new(entities: &'a EntitiesRes, store: &'a mut MaskedStorage<T>, read: R) -> Self
        ensures same_reference { (store_of result).ghost_name ≡ store.entry.ghost_name }
        ensures store { (store_of result).now ≡ store.old }
        ensures entities { (entities_of result).now ≡ entities.now }
        ensures left { indices_left R.Mask.members result ≡ shared_indices store.old.mask (R.joins read) }
        ensures values { (index : ℕ) → index < 16777216 → IsSome (R.joins read index)
            → R.value_at (values_of result) index ≡ R.joins read index }
        ensures ready { CanGoOn R.Mask.members R.value_at result }
    {
        let (mask, values) = read.open();
        let steps = SharedSteps::new(store.mask(), &mask);
        PairCursor {
            entities,
            store,
            mask,
            values,
            steps,
            index: None,
        }
    }

    /// Goes on to the next index, or answers false where there is none.
    pub fn advance(&mut self) -> bool
        requires { CanGoOn R.Mask.members R.value_at self.old }
        ensures same_reference { (store_of self.new).ghost_name ≡ (store_of self.old).ghost_name }
        ensures store { (store_of self.new).now ≡ (store_of self.old).now }
        ensures entities { entities_of self.new ≡ entities_of self.old }
        ensures mask { mask_of self.new ≡ mask_of self.old }
        ensures values { values_of self.new ≡ values_of self.old }
        ensures ready { CanGoOn R.Mask.members R.value_at self.new }
        ensures some { IsTrue result → (index : ℕ) × StandsAt R.value_at self.new index
            × (indices_left R.Mask.members self.old ≡ index ∷ indices_left R.Mask.members self.new) }
        ensures ended { result ≡ false → indices_left R.Mask.members self.old ≡ [] }
    {
        let next = self.steps.step(self.store.mask(), &self.mask);
        self.index = next;
        next.is_some()
    }

    /// What the join has at the index.
    pub fn item(&self) -> R::Type
        requires { (index : ℕ) × StandsAt R.value_at self.now index }
        ensures { (index : ℕ) → index_of self.now ≡ Some index
            → R.value_at (values_of self.now) index ≡ Some (R.show result) }
    {
        let Some(id) = self.index else { unreachable!() };
        R::get(&self.values, id)
    }

    /// The storage at the index, whose part can be read and written.
    pub fn pair(&mut self) -> PairedStorageMut<'_, T>
        requires { (index : ℕ) × StandsAt R.value_at self.old index }
        ensures* writes_back { sem 𝓛 (lends_store T.row R.row T.Storage.row R.Type.row R.Shown.row R.Value.row
            R.Mask.row T.Storage.UnprotectedStorage self.entry (paired.store_of result)) }
        ensures store { (paired.store_of result).now ≡ (store_of self.old).now }
        ensures entities { (paired.entities_of result).now ≡ (entities_of self.old).now }
        ensures index { index_of self.old ≡ Some (paired.index_of result) }
    {
        let Some(index) = self.index else {
            unreachable!()
        };
        let _mask = self.store.mask();
        PairedStorageMut {
            entities: self.entities,
            store: self.store,
            index,
        }
    }

    /// The storage's part at the index, for writing.
    ///
    /// Errors: `AllocError`, where the storage emits, and nothing changed.
    pub fn values(&mut self) -> Result<&mut T, AllocError>
        requires { (index : ℕ) × StandsAt R.value_at self.old index }
        ensures* writes_back { sem 𝓛 (lends_part T.row R.row T.Storage.row R.Type.row R.Shown.row R.Value.row
            R.Mask.row T.Storage.UnprotectedStorage self.entry (unwrap_or (index_of self.old) 0) result) }
        ensures part { IfOk result (λ part. (index : ℕ) → index_of self.old ≡ Some index
            → T.Storage.part_at (store_of self.old).now.inner index ≡ Some part.now) }
        ensures succeeds { T.Storage.emits (store_of self.old).now.inner ≡ false → IsOk result }
        ensures within_room { T.Storage.has_room (store_of self.old).now.inner 1 → IsOk result }
    {
        let Some(place) = self.index else {
            unreachable!()
        };
        let _mask = self.store.mask();
        self.store.get_mut(place)
    }

    /// The storage's part at the index.
    pub fn get_unchecked(&self) -> &T
        requires { (index : ℕ) × StandsAt R.value_at self.now index }
        ensures { (index : ℕ) → index_of self.now ≡ Some index
            → T.Storage.part_at (store_of self.now).now.inner index ≡ Some result.now }
    {
        let Some(index) = self.index else {
            unreachable!()
        };
        let _mask = self.store.mask();
        self.store.get(index)
    }

    /// The storage's part of an entity, or none where the entity isn't alive or has none.
    pub fn get(&self, entity: Entity) -> Option<&T>
        ensures { Finds (entities_of self.now).now (T.Storage.part_at (store_of self.now).now.inner) entity
            (option_copied result) }
    {
        part_of(self.store, self.entities, entity)
    }

    /// The storage's part of an entity, for writing.
    ///
    /// Errors: `Absent` if the entity isn't alive or has no part, and `Memory`, where the storage emits. Nothing changed.
    pub fn get_mut(&mut self, entity: Entity) -> Result<&mut T, LendError>
        ensures* writes_back { sem 𝓛 (lends_part T.row R.row T.Storage.row R.Type.row R.Shown.row R.Value.row
            R.Mask.row T.Storage.UnprotectedStorage self.entry entity.id result) }
        ensures value { IfOk result (λ part. T.Storage.part_at (store_of self.old).now.inner entity.id
            ≡ Some part.now) }
        ensures absent { IsErrOf result lending.Absent
            ↔ ¬ (HasPart (entities_of self.old).now (T.Storage.part_at (store_of self.old).now.inner) entity) }
        ensures succeeds { T.Storage.emits (store_of self.old).now.inner ≡ false
            → HasPart (entities_of self.old).now (T.Storage.part_at (store_of self.old).now.inner) entity
            → IsOk result }
        ensures within_room { T.Storage.has_room (store_of self.old).now.inner 1
            → HasPart (entities_of self.old).now (T.Storage.part_at (store_of self.old).now.inner) entity
            → IsOk result }
    {
        let entities = self.entities;
        if !has_part(self.store, entities, entity) {
            return Err(LendError::Absent);
        }
        lend_at(self.store, entity.id())
    }
}
