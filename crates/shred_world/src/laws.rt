//! Laws on which callers rely: what a table's walks come to from their beginning to their end, and that ids under
//! different dynamic numbers don't conflict.
ghost use Rattle.std.specs.Prelude.{◌≡◌, ◌≢◌, ℕ, false, List, Some, IfOk, IsSome, Ok, unwrap_or, map};
ghost use Rattle.std.specs.List.{list_any};
ghost use Rattle.std.specs.FinMap as finmap;
ghost use Rattle.shred_world.specs.declared.resource_id.ResourceId.{ResourceId as Id};
ghost use Rattle.shred_world.specs.Worlds.{held_values, AreDistinct, ChangesInTurn, ChangesAt, Gives, is_of_kinds};
ghost use Rattle.shred_world.specs.ResourceIds.{id_of};
ghost use Rattle.shred_world.specs.Conflicts.{AreUnder, ShareNoId, DoNotConflict};

use crate::{
    Accessor, MetaIterMut, MetaTable, ReadAccessor, World, WriteAccessor, check_intersection,
};
use std::alloc::{AllocError, Global};

/// The values of a table's whole walk over a world, in its order: that of each registered kind that the world
/// holds under the dynamic number 0, in order of first registration, once.
///
/// Errors: `AllocError`.
pub fn a_table_walks_each_kind_once<'w, V>(
    alloc: Global,
    table: &'w MetaTable,
    world: &'w World<V>,
) -> Result<Vec<&'w V>, AllocError>
    ensures values { IfOk result (λ values. map (λ v. Some v.now) values.items ≡ held_values world.now table.now) }
    ensures once { AreDistinct table.now }
{
    let mut values = Vec::new(alloc);
    let mut walk = table.iter(world);
    while let Some(value) = walk.next() {
        values.push(value)?;
    }
    Ok(values)
}

/// Walks a table over a world to its end, and puts in each value's place what `change` makes of it.
///
/// In order of first registration each value of a registered kind under the dynamic number 0 is changed, and
/// each other id is as it was.
pub fn a_walk_for_writing_leaves_what_was_written<V: Drop, F: Fn(&V) -> V>(
    world: &mut World<V>,
    table: &MetaTable,
    change: F,
)
    requires { F.IsAlwaysCallable change }
    ensures written { ChangesInTurn (Gives (F.post change)) world.old table.now world.new }
    ensures others { (id : Id) → is_of_kinds table.now id ≡ false → finmap.get world.new id ≡ finmap.get world.old id }
{
    let mut walk = table.iter_mut();
    while walk.advance(world) {
        change_one(world, &walk, &change);
    }
}

/// Whether two slices share an item, told by walks over them: exactly where an item of the one equals an item of the other.
///
/// A walk over a slice is cloned without memory, so nothing is refused.
pub fn slices_share_an_item<T: PartialEq>(left: &[T], right: &[T]) -> Result<bool, AllocError>
    ensures { result ≡ Ok (list_any (λ x. list_any (T.eq x) right.now) left.now) }
{
    check_intersection(left.iter(), right.iter())
}

/// Users of ids under different dynamic numbers don't conflict, whatever the kinds.
///
/// So it is of all that two accessors tell, where the ids of each are under a number of its own; of an id that one
/// of them writes (`WriteAccessor`) and the other reads or writes; and of any two lists of ids.
pub fn different_numbers_do_not_conflict<A: Accessor, B: Accessor>()
    ensures accessors { (one : A) (other : B) (dynamic elsewhere : ℕ) → dynamic ≢ elsewhere
        → AreUnder dynamic (A.read_list one) → AreUnder dynamic (A.write_list one)
        → AreUnder elsewhere (B.read_list other) → AreUnder elsewhere (B.write_list other)
        → DoNotConflict (A.read_list one) (A.write_list one) (B.read_list other) (B.write_list other) }
    ensures both_write { (written other : Id) → written.dynamic ≢ other.dynamic
        → ShareNoId (⟦<WriteAccessor as Accessor>⟧.write_list (record { id = written }))
        (⟦<WriteAccessor as Accessor>⟧.write_list (record { id = other })) }
    ensures one_reads { (written read : Id) → written.dynamic ≢ read.dynamic
        → ShareNoId (⟦<WriteAccessor as Accessor>⟧.write_list (record { id = written }))
        (⟦<ReadAccessor as Accessor>⟧.read_list (record { id = read })) }
    ensures lists { (ids others : List Id) (dynamic elsewhere : ℕ) → dynamic ≢ elsewhere
        → AreUnder dynamic ids → AreUnder elsewhere others → ShareNoId ids others }
{}

/// Changes the value on which a walk stands.
fn change_one<V: Drop, F: Fn(&V) -> V>(world: &mut World<V>, walk: &MetaIterMut<'_>, change: &F)
    requires callable { F.IsAlwaysCallable change.now }
    requires stands { IsSome walk.now.current }
    ensures { ChangesAt (Gives (F.post change.now)) world.old (id_of (unwrap_or walk.now.current 0) 0) world.new }
{
    if let Some(value) = MetaIterMut::value(world, walk) {
        let next = change(value);
        *value = next;
    }
}
