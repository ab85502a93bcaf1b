//! Parts in any of four layouts.
ghost use Rattle.std.specs.Prelude.{◌≡◌};
ghost use Rattle.scene_world.specs.Stores.{store_of, store_part};
ghost use Rattle.specs_layouts.specs.Parts.{HasNone};

use hibitset_sets::{BitSetLike, Index};
use scene_model::Store;
use specs_layouts::{
    BTreeStorage, DenseVecStorage, DistinctStorage, HashMapStorage, TryDefault, UnprotectedStorage,
    VecStorage,
};
use std::alloc::{AllocError, AllocFailed, Global};

/// A storage in one of four layouts, which is chosen when it is made.
///
/// It tells of nothing; `FlaggedStorage<T, AnyStore<T>>` tells of each change.
#[derive(Drop)]
pub enum AnyStore<T> {
    /// A slot for each index.
    Vec(VecStorage<T>),
    /// Parts without gaps, with a table of their places.
    Dense(DenseVecStorage<T>),
    /// A table of hashes.
    Hash(HashMapStorage<T>),
    /// A tree, ascending by index.
    BTree(BTreeStorage<T>),
}

impl<T> AnyStore<T> {
    /// A storage without parts in this layout. Takes no memory.
    pub fn new(alloc: Global, store: Store) -> AnyStore<T>
        ensures none { HasNone (store_part result) }
        ensures store { store_of result ≡ store }
    {
        match store {
            Store::Vec => AnyStore::Vec(VecStorage::unwrap_default(alloc)),
            Store::Dense => AnyStore::Dense(DenseVecStorage::unwrap_default(alloc)),
            Store::Hash => AnyStore::Hash(HashMapStorage::unwrap_default(alloc)),
            Store::BTree => AnyStore::BTree(BTreeStorage::unwrap_default(alloc)),
        }
    }

    /// The layout in which the parts lie.
    pub fn store(&self) -> Store
        ensures { result ≡ store_of self.now }
    {
        match self {
            AnyStore::Vec(_) => Store::Vec,
            AnyStore::Dense(_) => Store::Dense,
            AnyStore::Hash(_) => Store::Hash,
            AnyStore::BTree(_) => Store::BTree,
        }
    }
}

impl<T> TryDefault for AnyStore<T> {
    ghost use Rattle.std.specs.Prelude.{◌≡◌, true};
    ghost use Rattle.specs_layouts.specs.Parts.{HasNone};
    ghost use Rattle.scene_world.specs.Stores.{store_part};

    ghost is_default = { λ s. HasNone (store_part s) };

    ghost always = { true };

    fn try_default(alloc: Global) -> Result<Self, &'static str> {
        Ok(AnyStore::new(alloc, Store::Vec))
    }
}

impl<T: Drop> UnprotectedStorage<T> for AnyStore<T> {
    ghost use Rattle.std.specs.Prelude.{false, refl};
    ghost use Rattle.specs_layouts.specs.Channels.{no_log};
    ghost use Rattle.scene_world.specs.Stores.{store_part, with_store_part};
    ghost use Rattle.scene_world.specs.StoreLemmas.{with_store_part-puts};

    ghost part_at = { store_part };

    ghost written = { with_store_part };

    ghost events = { λ _. no_log };

    ghost emits = { λ _. false };

    ghost has_room = { λ _ _. Unit {0} };

    ghost written_puts = { with_store_part-puts };

    ghost written_tells = { λ _ _ _. refl };

    ghost written_emits = { λ _ _ _. refl };

    ghost written_room = { λ _ _ _ _ room. room };

    ghost room_for_fewer = { λ _ _ room. room };

    ghost starts_empty = { λ _ none. none };

    fn clean<B: BitSetLike + Drop>(&mut self, has: B) {
        match self {
            AnyStore::Vec(inner) => inner.clean(has),
            AnyStore::Dense(inner) => inner.clean(has),
            AnyStore::Hash(inner) => inner.clean(has),
            AnyStore::BTree(inner) => inner.clean(has),
        }
    }

    fn get(&self, id: Index) -> &T {
        match self {
            AnyStore::Vec(inner) => inner.get(id),
            AnyStore::Dense(inner) => inner.get(id),
            AnyStore::Hash(inner) => inner.get(id),
            AnyStore::BTree(inner) => inner.get(id),
        }
    }

    fn get_mut(&mut self, id: Index) -> Result<&mut T, AllocError> {
        match self {
            AnyStore::Vec(inner) => inner.get_mut(id),
            AnyStore::Dense(inner) => inner.get_mut(id),
            AnyStore::Hash(inner) => inner.get_mut(id),
            AnyStore::BTree(inner) => inner.get_mut(id),
        }
    }

    fn insert(&mut self, id: Index, part: T) -> Result<(), AllocFailed<T>> {
        match self {
            AnyStore::Vec(inner) => inner.insert(id, part),
            AnyStore::Dense(inner) => inner.insert(id, part),
            AnyStore::Hash(inner) => inner.insert(id, part),
            AnyStore::BTree(inner) => inner.insert(id, part),
        }
    }

    fn remove(&mut self, id: Index) -> Result<T, AllocError> {
        match self {
            AnyStore::Vec(inner) => inner.remove(id),
            AnyStore::Dense(inner) => inner.remove(id),
            AnyStore::Hash(inner) => inner.remove(id),
            AnyStore::BTree(inner) => inner.remove(id),
        }
    }

    fn make_room(&mut self, _count: usize) -> Result<(), AllocError> {
        Ok(())
    }
}

impl<T: Drop> DistinctStorage<T> for AnyStore<T> {
    ghost use Rattle.std.specs.Prelude.{refl};

    ghost silent = { λ _. refl };
}
