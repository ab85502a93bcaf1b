//! The places of all indices, walked beside a join.
ghost use mir.Syntax.{named};
ghost use Rattle.std.specs.Prelude.{◌≡◌, ℕ, ◌<◌, [], ◌∷◌, true, Some, is_some, IsSome, IfSome, MatchOption};
ghost use Rattle.std.specs.Borrow.{sem, Lends};
ghost use Rattle.hibitset_sets.specs.Walk.{walk};
ghost use Rattle.hibitset_sets.specs.Iter.{left_of};
ghost use Rattle.specs_layouts.specs.ToCome.{IsToCome};
ghost use Rattle.specs_storage.specs.EntryLends.{store_of, id_of};
ghost use Rattle.specs_storage.specs.StorageLends.{lends_store};
ghost use Rattle.specs_layouts.specs.MaskedLends.{masked_row, layout_ghosts, default_ghosts};

use crate::entry::{StorageEntry, entry_at};
use crate::storage::Storage;
use hibitset::{BitIter, BitSetAll, BitSetLike, Index, Uncounted};
use specs_join::Join;
use specs_layouts::{Component, MaskedStorage, UnprotectedStorage};

/// The places of a storage's parts, one at every index.
#[derive(Drop)]
pub struct Entries<'a, T: Component> {
    /// The storage.
    pub store: &'a mut MaskedStorage<T>,
}

/// A walk over the indices of a join, which lends the place of the storage's part beside the join's item.
#[derive(Drop)]
pub struct EntryCursor<'a, T: Component, R: Join> {
    /// The storage.
    pub store: &'a mut MaskedStorage<T>,
    walk: Steps<R>,
}

/// The indices of a join, one after the other.
#[derive(Drop)]
struct Steps<R: Join> {
    keys: BitIter<R::Mask>,
    values: R::Value,
    index: Option<Index>,
    ghost known: { (later : ℕ) → IsToCome later (left_of R.Mask.members keys) → IsSome (R.value_at values later) },
    ghost at: { (here : ℕ) → index ≡ Some here → IsSome (R.value_at values here) × (here < 16777216) },
}

/// The place of the part at an index.
#[derive(Drop)]
pub struct Place<'a, T: Component> {
    /// The storage.
    pub store: &'a mut MaskedStorage<T>,
    /// The index.
    pub id: Index,
    ghost range: { id < 16777216 },
}

impl<'e, T: Component> Storage<'e, T, &'e mut MaskedStorage<T>> {
    /// The places of all indices.
    pub fn entries(&mut self) -> Entries<'_, T>
        ensures* writes_back { sem 𝓛 (lends_store T.row T.Storage.row T.Storage.UnprotectedStorage self.entry
            result.store) }
        ensures value { result.store.now ≡ self.old.store.now }
    {
        Entries { store: self.store }
    }
}

impl<'a, T: Component> Entries<'a, T> {
    ghost use Rattle.specs_storage.specs.EntryCursors.{values_of, indices_left};

    /// The indices that have a place: all of them.
    pub fn mask(&self) -> BitSetAll
        ensures { (index : ℕ) → ⟦<BitSetAll as BitSetLike>⟧.members result index ≡ true }
    {
        BitSetAll
    }

    /// Whether there is a place at every index, which is so.
    pub fn is_unconstrained() -> bool
        ensures { result ≡ true }
    {
        true
    }

    /// A cursor before the first index of a join. No entity is asked whether it is alive.
    pub fn cursor<R: Join>(self, read: R) -> EntryCursor<'a, T, R>
        ensures same_reference { result.store.ghost_name ≡ self.entry.store.ghost_name }
        ensures store { result.store.now ≡ self.entry.store.now }
        ensures left { indices_left R.Mask.members result ≡ walk (λ index. is_some (R.joins read index)) }
        ensures values { (index : ℕ) → index < 16777216 → IsSome (R.joins read index)
            → R.value_at (values_of result) index ≡ R.joins read index }
    {
        let (mask, values) = read.open();
        EntryCursor {
            store: self.store,
            walk: Steps {
                keys: mask.iter(),
                values,
                index: None,
            },
        }
    }
}

impl<R: Join> Steps<R> {
    /// Goes on to the next index, and answers it, or none where there is none.
    fn advance(&mut self) -> Option<Index>
        ensures values { self.new.values ≡ self.old.values }
        ensures index { self.new.index ≡ result }
        ensures item { MatchOption result (left_of R.Mask.members self.old.keys ≡ [])
            (λ next. left_of R.Mask.members self.old.keys ≡ next ∷ left_of R.Mask.members self.new.keys) }
    {
        let next = self.keys.next_counted(&mut Uncounted);
        self.index = next;
        next
    }
}

impl<'a, T: Component, R: Join> EntryCursor<'a, T, R> {
    ghost use Rattle.specs_storage.specs.contracts.entries.EntryCursor.{the_row};
    ghost use Rattle.specs_storage.specs.EntryCursors.{values_of, index_of, indices_left, with_store};

    /// Goes on to the next index, and answers it, or none where there is none.
    pub fn advance(&mut self) -> Option<Index>
        ensures same_reference { self.new.store.ghost_name ≡ self.old.store.ghost_name }
        ensures store { self.new.store.now ≡ self.old.store.now }
        ensures values { values_of self.new ≡ values_of self.old }
        ensures index { index_of self.new ≡ result }
        ensures item { MatchOption result (indices_left R.Mask.members self.old ≡ [])
            (λ next. indices_left R.Mask.members self.old ≡ next ∷ indices_left R.Mask.members self.new) }
    {
        self.walk.advance()
    }

    /// What the join has at the index.
    pub fn item(&self) -> R::Type
        requires { IsSome (index_of self.now) }
        ensures { IfSome (index_of self.now) (λ index. R.value_at (values_of self.now) index ≡ Some (R.show result)) }
    {
        let Some(id) = self.walk.index else {
            unreachable!()
        };
        R::get(&self.walk.values, id)
    }

    /// The place at the index.
    pub fn place(&mut self) -> Place<'_, T>
        requires { IsSome (index_of self.old) }
        ensures* writes_back { sem 𝓛 (Lends (the_row (record { mir = named 1; lft = [] }) T.row R.row
            T.Storage.row R.Type.row R.Shown.row R.Value.row R.Mask.row R.Join R.Mask.BitSetLike
            (layout_ghosts T.Storage.UnprotectedStorage) (default_ghosts T.Storage.UnprotectedStorage))
            (masked_row T.row T.Storage.row T.Storage.UnprotectedStorage) self.entry result.store
            (with_store self.old)) }
        ensures store { result.store.now ≡ self.old.store.now }
        ensures index { index_of self.old ≡ Some result.id }
    {
        let Some(index) = self.walk.index else {
            unreachable!()
        };
        Place {
            store: self.store,
            id: index,
        }
    }
}

impl<'a, T: Component> Place<'a, T> {
    /// The place, as one with a part or one without.
    pub fn entry(self) -> StorageEntry<'a, T>
        ensures same_reference { (store_of result).ghost_name ≡ self.entry.store.ghost_name }
        ensures store { (store_of result).now ≡ self.entry.store.now }
        ensures id { id_of result ≡ self.entry.id }
    {
        let Place { store, id } = self;
        entry_at(store, id)
    }
}
