//! Callers of places, drains and generic writes, whose contracts are what the storage has afterwards.
ghost use Rattle.std.specs.Prelude.{◌≡◌, ℕ, ◌∷◌, [], ◌<◌, true, false, List, Some, None, IsSome, IfSome, IfNone};
ghost use Rattle.std.specs.Option.{unwrap_or};
ghost use Rattle.std.specs.FinSet as set;
ghost use Rattle.hibitset_sets.specs.Walk.{walk};
ghost use Rattle.specs_entity.specs.Births.{IsAlive};
ghost use Rattle.specs_layouts.specs.Dense.{dense_part};
ghost use Rattle.specs_layouts.specs.MaskedChanges.{PutsIn, KeepsParts};

use hibitset::Index;
use specs_entity::Entity;
use specs_layouts::{Component, DenseVecStorage, MaskedStorage};
use specs_storage::{Drain, GenericWriteStorage, LentStorageMut, entry_at};

/// Points that an entity has.
#[derive(Default, Drop)]
pub struct Score(pub u32);

impl Component for Score {
    type Storage = DenseVecStorage<Score>;
}

/// Puts so many points at an index that has none, by the place that the masked storage lends, and answers whether it has a score.
pub fn settle(store: &mut MaskedStorage<Score>, id: Index, points: u32) -> bool
    requires { id < 16777216 }
    ensures done { result ≡ true → PutsIn dense_part store.old id
        (Some (unwrap_or (dense_part store.old.inner id) (record { 0 = points }))) store.new }
    ensures refused { result ≡ false → KeepsParts dense_part store.old store.new }
    ensures succeeds { IsSome (dense_part store.old.inner id) → result ≡ true }
{
    match entry_at(store, id).or_insert(Score(points)) {
        Ok(_) => true,
        Err(_) => false,
    }
}

/// The same at an entity of a storage that is lent with its entities: an entity that isn't alive has no place.
pub fn settle_living(storage: &mut LentStorageMut<'_, Score>, entity: Entity, points: u32) -> bool
    ensures alive { result ≡ true → IsAlive storage.old.entities.now entity }
    ensures done { result ≡ true → PutsIn dense_part storage.old.store.now entity.id
        (Some (unwrap_or (dense_part storage.old.store.now.inner entity.id) (record { 0 = points })))
        storage.new.store.now }
    ensures refused { result ≡ false → KeepsParts dense_part storage.old.store.now storage.new.store.now }
{
    if !storage.entities.is_alive(entity) {
        return false;
    }
    settle(storage.store_mut(), entity.id(), points)
}

/// Gives an entity so many points, whether it has a score or not, and answers whether it could be given them.
pub fn set_points(storage: &mut LentStorageMut<'_, Score>, entity: Entity, points: u32) -> bool
    ensures done { result ≡ true → PutsIn dense_part storage.old.store.now entity.id (Some (record { 0 = points }))
        storage.new.store.now }
    ensures refused { result ≡ false → KeepsParts dense_part storage.old.store.now storage.new.store.now }
{
    match storage.get_mut_or_default(entity) {
        Ok(score) => {
            score.0 = points;
            true
        }
        Err(_) => false,
    }
}

/// Takes out the score at the least index that has one, by a drain of the masked storage, and answers that index.
pub fn take_first(store: &mut MaskedStorage<Score>) -> Option<Index>
    ensures taken { IfSome result (λ index. PutsIn dense_part store.old index None store.new) }
    ensures least { IfSome result (λ index. (rest : List ℕ)
        × (walk (set.contains store.old.mask.members) ≡ index ∷ rest)) }
    ensures none { IfNone result (walk (set.contains store.old.mask.members) ≡ []) }
    ensures kept { IfNone result (store.new ≡ store.old) }
{
    let mut drain = Drain { store };
    match drain.take_next() {
        Ok(Some((index, _))) => Some(index),
        Ok(None) => None,
        Err(_) => unreachable!(),
    }
}

/// The same of a storage that is lent with its entities.
pub fn take_first_lent(storage: &mut LentStorageMut<'_, Score>) -> Option<Index>
    ensures taken { IfSome result
        (λ index. PutsIn dense_part storage.old.store.now index None storage.new.store.now) }
    ensures kept { IfNone result (storage.new.store.now ≡ storage.old.store.now) }
{
    take_first(storage.store_mut())
}
