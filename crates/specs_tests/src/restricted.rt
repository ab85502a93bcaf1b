//! Restricted storages: pairs that are read, and pairs whose parts are raised by a cursor.
ghost use Rattle.std.specs.Prelude.{◌≡◌, ℕ, ◌+◌, ◌%◌, ◌<◌, Some};
ghost use Rattle.specs_layouts.specs.Dense.{dense_part};
ghost use Rattle.specs_layouts.specs.Parts.{Puts};
ghost use Rattle.specs_join.specs.ChangeEach.{AreChanged};
ghost use Rattle.specs_storage.specs.Found.{KeepsLoans};
ghost use Rattle.specs_storage.specs.PairCursors.{CanGoOn, StandsAt, indices_left, index_of, store_of, values_of};

use crate::parts::Speed;
use hibitset::BitSet;
use specs_entity::{EntitiesRes, Entity};
use specs_join::Join;
use specs_layouts::{DenseVecStorage, MaskedStorage, TryDefault};
use specs_storage::{
    ImmutableParallelRestriction, LentStorage, LentStorageMut, PairCursor, PairedStorage, Restrict,
    RestrictMut, Storage,
};
use std::alloc::Global;

/// Whether parts were put at the indices below `count`, each one the double of its index.
fn put_doubles(parts: &mut MaskedStorage<Speed>, count: u32) -> bool
    requires { count < 1000 }
{
    for index in 0..count {
        if parts.insert(index, Speed(index * 2)).is_err() {
            return false;
        }
    }
    true
}

/// Whether the parts at the indices below `count` are one greater than the double of their index.
fn are_raised(parts: &MaskedStorage<Speed>, count: u32) -> bool
    requires { count < 1000 }
{
    for index in 0..count {
        if !parts.contains(index) || parts.get(index).0 != index * 2 + 1 {
            return false;
        }
    }
    true
}

/// Adds one to the part at the cursor's index.
fn raise<R: Join>(cursor: &mut PairCursor<'_, Speed, R>)
    requires { (index : ℕ) × StandsAt R.value_at cursor.old index }
    ensures same_reference { (store_of cursor.new).ghost_name ≡ (store_of cursor.old).ghost_name }
    ensures left { indices_left R.Mask.members cursor.new ≡ indices_left R.Mask.members cursor.old }
    ensures ready { CanGoOn R.Mask.members R.value_at cursor.old → CanGoOn R.Mask.members R.value_at cursor.new }
    ensures values { values_of cursor.new ≡ values_of cursor.old }
    ensures parts { (index : ℕ) → index_of cursor.old ≡ Some index → (part : Speed)
        × (dense_part (store_of cursor.old).now.inner index ≡ Some part)
        × Puts (dense_part (store_of cursor.old).now.inner) index (Some (record { 0 = (part.0 + 1) % 4294967296 }))
        (dense_part (store_of cursor.new).now.inner) }
{
    match cursor.values() {
        Ok(part) => part.0 = part.0.wrapping_add(1),
        Err(_) => unreachable!(),
    }
}

/// Adds one to each part at an index of the join, and answers how many there were. A sum goes round at 2 ^ 32.
fn raise_each<R: Join>(entities: &EntitiesRes, parts: &mut MaskedStorage<Speed>, read: R) -> u32
    ensures { AreChanged (λ (part : Speed) item. Some (record { 0 = (part.0 + 1) % 4294967296 }))
        (dense_part parts.old.inner) (R.joins read) (dense_part parts.new.inner) }
{
    let mut count: u32 = 0;
    let _mask = parts.mask();
    let mut cursor = PairCursor::new(entities, parts, read);
    while cursor.advance() {
        raise(&mut cursor);
        count = count.wrapping_add(1);
    }
    count
}

/// The same over a storage that is lent with its entities.
fn raise_all<R: Join>(storage: &mut LentStorageMut<'_, Speed>, read: R) -> u32
    ensures loans { KeepsLoans storage.old storage.new }
    ensures parts { AreChanged (λ (part : Speed) item. Some (record { 0 = (part.0 + 1) % 4294967296 }))
        (dense_part storage.old.store.now.inner) (R.joins read) (dense_part storage.new.store.now.inner) }
{
    let entities = storage.entities;
    raise_each(entities, storage.store_mut(), read)
}

/// Adds the part at the cursor's index to that of an entity, and answers whether that was lent.
fn add_to<R: Join>(cursor: &mut PairCursor<'_, Speed, R>, sum: Entity) -> bool
    requires { (index : ℕ) × StandsAt R.value_at cursor.old index }
    ensures left { indices_left R.Mask.members cursor.new ≡ indices_left R.Mask.members cursor.old }
    ensures ready { CanGoOn R.Mask.members R.value_at cursor.old → CanGoOn R.Mask.members R.value_at cursor.new }
{
    let own = cursor.get_unchecked().0;
    match cursor.get_mut(sum) {
        Ok(part) => {
            part.0 = part.0.wrapping_add(own);
            true
        }
        Err(_) => false,
    }
}

/// Adds each part at an index of the join to that of an entity, and answers what that has then.
fn add_all<R: Join>(storage: &mut LentStorageMut<'_, Speed>, read: R, sum: Entity) -> Option<u32> {
    let mut cursor = storage.restrict_mut().cursor(read);
    while cursor.advance() {
        if !add_to(&mut cursor, sum) {
            return None;
        }
    }
    cursor.get(sum).map(|part| part.0)
}

/// What the first two pairs show, each with the part of one entity.
fn shown(
    storage: &LentStorage<'_, Speed>,
    entity: Entity,
) -> Option<((u32, Option<u32>), (u32, Option<u32>))> {
    let restricted = storage.restrict();
    let mut walk = (&restricted).join();
    let first = walk.next()?;
    let second = walk.next()?;
    Some((both(&first, entity), both(&second, entity)))
}

/// What a pair shows, with the part of an entity.
fn both(
    pair: &PairedStorage<'_, Speed, ImmutableParallelRestriction>,
    entity: Entity,
) -> (u32, Option<u32>) {
    let other = match pair.get(entity) {
        Some(part) => Some(part.0),
        None => None,
    };
    (pair.get_unchecked().0, other)
}

/// The first two parts that pairs for many callers show.
fn listed(storage: &mut LentStorageMut<'_, Speed>) -> Option<(u32, u32)> {
    let restricted = storage.par_restrict_mut();
    let mut walk = (&restricted).join();
    let first = walk.next()?;
    let second = walk.next()?;
    Some((first.get_unchecked().0, second.get_unchecked().0))
}

/// Adds 5 to the part at the first index and sets that of an entity to 9, both by the pair there; answers its own part and that of
/// the entity.
fn set_from_the_first<R: Join>(
    storage: &mut LentStorageMut<'_, Speed>,
    read: R,
    entity: Entity,
) -> Option<(u32, Option<u32>)> {
    let mut cursor = storage.restrict_mut().cursor(read);
    if !cursor.advance() {
        return None;
    }
    let mut pair = cursor.pair();
    if let Ok(part) = pair.get_mut_unchecked() {
        part.0 = part.0.wrapping_add(5);
    }
    let own = pair.get_unchecked().0;
    match pair.get_mut(entity) {
        Ok(part) => part.0 = 9,
        Err(_) => return None,
    }
    Some((own, pair.get(entity).map(|part| part.0)))
}

/// Two entities, parts, and a set without indices.
#[derive(Drop)]
struct Restricted {
    entities: EntitiesRes,
    parts: MaskedStorage<Speed>,
    nothing: BitSet,
}

/// What two pairs show, each with the part of one entity.
type Shown = ((u32, Option<u32>), (u32, Option<u32>));

impl Restricted {
    /// Two entities, and no part.
    fn new(alloc: Global) -> Restricted {
        let mut entities = EntitiesRes::new(alloc);
        let _ = entities.create_iter(2).is_ok();
        Restricted {
            entities,
            parts: MaskedStorage::new(alloc, DenseVecStorage::unwrap_default(alloc)),
            nothing: BitSet::new(alloc),
        }
    }

    /// How many of fifty parts are raised, and whether each is greater by one then.
    fn raised(&mut self) -> (u32, bool) {
        let _ = put_doubles(&mut self.parts, 50);
        let count = raise_all(
            &mut Storage::new(&self.entities, &mut self.parts),
            (&self.nothing).maybe(),
        );
        (count, are_raised(&self.parts, 50))
    }

    /// What fifty parts come to that are added to the second of them.
    fn added(&mut self) -> Option<u32> {
        let _ = put_doubles(&mut self.parts, 50);
        let sum = self.entities.entity(1);
        add_all(
            &mut Storage::new(&self.entities, &mut self.parts),
            (&self.nothing).maybe(),
            sum,
        )
    }

    /// What the first two pairs show, each with the part of the second entity.
    fn shown(&mut self) -> Option<Shown> {
        let _ = put_doubles(&mut self.parts, 3);
        let other = self.entities.entity(1);
        shown(&Storage::new(&self.entities, &self.parts), other)
    }

    /// What the pair at the first index shows when it has written both its own part and that of the second entity, and what
    /// other pairs show then.
    fn set(&mut self) -> (Option<(u32, Option<u32>)>, Option<(u32, u32)>) {
        let _ = put_doubles(&mut self.parts, 3);
        let other = self.entities.entity(1);
        let mut storage = Storage::new(&self.entities, &mut self.parts);
        let set = set_from_the_first(&mut storage, (&self.nothing).maybe(), other);
        (set, listed(&mut storage))
    }
}

#[test]
fn each_part_is_raised_once_and_all_are_added_to_one(rt: HostRuntime) {
    let mut restricted = Restricted::new(rt.alloc());
    let raised = restricted.raised();
    let added = restricted.added();
    assert_eq!(rt; (raised, added), ((50, true), Some(2452)));
}

#[test]
fn pairs_show_and_lend_their_part_and_that_of_another(rt: HostRuntime) {
    let mut restricted = Restricted::new(rt.alloc());
    let shown = restricted.shown();
    let set = restricted.set();
    assert_eq!(rt; shown, Some(((0, Some(2)), (2, Some(2)))));
    assert_eq!(rt; set, (Some((5, Some(9))), Some((5, 9))));
}
