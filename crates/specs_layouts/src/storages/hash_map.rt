//! A table of entries.
ghost use Rattle.std.specs.Prelude.{◌≡◌, Some, IsSome, IfOk, IsOk};
ghost use Rattle.std.specs.Borrow.{sem};
ghost use Rattle.std.specs.HashMap.{get_by};
ghost use Rattle.specs_layouts.specs.EntryLends.{lends_of_table};

use crate::unprotected::{DistinctStorage, TryDefault, UnprotectedStorage};
use hibitset_sets::{BitSetLike, Index};
use std::alloc::{AllocError, AllocFailed, Allocator, Global};
use std::collections::HashMap;
use std::hash::{BuildHasher, Hash};
use std::marker::Model;

/// A storage with an entry for each part, in a table of hashes. Best where few entities have a part.
#[derive(Drop)]
pub struct HashMapStorage<T> {
    entries: HashMap<Index, T>,
}

impl<T> Model for HashMapStorage<T> {
    ghost use Rattle.std.specs.Prelude.{List, ℕ};

    ghost Value = { List (ℕ × T) };

    ghost view = { λ s. s.entries.entries };
}

/// The value at a key, which has one, for writing.
fn value_mut<K: Eq + Hash, V, S: BuildHasher, A: Allocator>(
    entries: &mut HashMap<K, V, S, A>,
    key: K,
) -> Result<&mut V, AllocError>
where
    K: Drop,
    requires { IsSome (get_by (K.eq key) entries.old) }
    ensures* writes_back { sem 𝓛 (lends_of_table K.row V.row S.row A.row S.Hasher.row K.Hash S.BuildHasher
        S.Hasher.Hasher A.Allocator entries.entry key result) }
    ensures value { IfOk result (λ value. get_by (K.eq key) entries.old ≡ Some value.now) }
    ensures succeeds { IsOk result }
{
    match entries.get_mut(&key) {
        Some(value) => Ok(value),
        None => unreachable!(),
    }
}

impl<T> TryDefault for HashMapStorage<T> {
    ghost use Rattle.std.specs.Prelude.{◌≡◌, [], true};

    ghost is_default = { λ entries. entries ≡ [] };

    ghost always = { true };

    fn try_default(alloc: Global) -> Result<Self, &'static str> {
        Ok(HashMapStorage {
            entries: HashMap::new(alloc),
        })
    }
}

impl<T: Drop> UnprotectedStorage<T> for HashMapStorage<T> {
    ghost use Rattle.specs_layouts.specs.Channels.{no_log};
    ghost use Rattle.std.specs.Prelude.{[], false, refl};
    ghost use Rattle.specs_layouts.specs.Entries.{table_part, with_table_part};
    ghost use Rattle.specs_layouts.specs.EntryLemmas.{with_table_part-puts, table-starts};

    ghost part_at = { table_part };

    ghost written = { with_table_part };

    ghost events = { λ _. no_log };

    ghost emits = { λ _. false };

    ghost has_room = { λ _ _. Unit {0} };

    ghost written_puts = { with_table_part-puts };

    ghost written_tells = { λ _ _ _. refl };

    ghost written_emits = { λ _ _ _. refl };

    ghost written_room = { λ _ _ _ _ room. room };

    ghost room_for_fewer = { λ _ _ room. room };

    ghost starts_empty = { table-starts };

    fn clean<B: BitSetLike + Drop>(&mut self, _has: B) {
        self.entries.clear();
    }

    fn get(&self, id: Index) -> &T {
        match self.entries.get(&id) {
            Some(part) => part,
            None => unreachable!(),
        }
    }

    fn get_mut(&mut self, id: Index) -> Result<&mut T, AllocError> {
        value_mut(&mut self.entries, id)
    }

    fn insert(&mut self, id: Index, part: T) -> Result<(), AllocFailed<T>> {
        match self.entries.insert(id, part) {
            Ok(_) => Ok(()),
            Err(refused) => {
                let (_, value) = refused.value;
                Err(AllocFailed { value })
            }
        }
    }

    fn remove(&mut self, id: Index) -> Result<T, AllocError> {
        match self.entries.remove(&id) {
            Some(part) => Ok(part),
            None => unreachable!(),
        }
    }

    fn make_room(&mut self, _count: usize) -> Result<(), AllocError> {
        Ok(())
    }
}

impl<T: Drop> DistinctStorage<T> for HashMapStorage<T> {
    ghost use Rattle.std.specs.Prelude.{refl};

    ghost silent = { λ _. refl };
}
