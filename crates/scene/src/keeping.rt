//! The scene that stands in a world, kept.
ghost use Rattle.std.specs.Prelude.{◌≡◌, ◌≢◌, ◌<◌, ◌≤◌, ℕ, true, length, map, None, All, IfOk, OnOk, IsSome};
ghost use Rattle.scene_model.specs.Parts.{is_among};
ghost use Rattle.scene_model.specs.Declaring.{texts};
ghost use Rattle.scene_world.specs.Standing.{roll_of, IsSceneWorld};
ghost use Rattle.scene_world.specs.Members.{kinds_by};
ghost use Rattle.scene_commands.specs.Acts.{seen_of};
ghost use Rattle.scene_commands.specs.Members.{scene_in};
ghost use Rattle.scene.specs.Rows.{seat_at, datum_at, kinds_kept, HasRoom, SameCourse};
ghost use Rattle.scene.specs.KeptScenes.{kept_scene};
ghost use Rattle.scene_world.specs.Putting.{each_there};
ghost use Rattle.scene.specs.Keeping.{IsBelow, IsFullByIndex, CountsMore};
ghost use Rattle.scene.specs.Taken.{ArePairs, IsAmong, IsRowOf, AreRowsOf, AreOfPairs};
ghost use Rattle.scene.specs.Taken.{IsBare, part_at, turned, with_last};

use crate::snapshot::{ByPlace, KeptScene};
use crate::taking::{data_at, globals_in, next_in, pairs_in};
use scene_world::Rules;
use shred_world::World;
use std::alloc::{AllocError, Global};

/// What is kept of the scene that stands in a world: all of it, read off the world.
///
/// The rows stand by the places of their kinds, and the globals by those of their names.
///
/// Errors: want of memory.
pub fn keep_scene<R: Rules>(
    rules: &R,
    world: &World<R::Value>,
    alloc: Global,
) -> Result<KeptScene<R::Data, Vec<Option<R::Global>>>, AllocError>
    requires stands { IsSceneWorld (kinds_by R.Rules R.Value.SceneValue) (R.book rules.now)
        (seen_of world.now) }
    ensures scene { IfOk result (λ one. kept_scene R.part_of R.global_of
        ⟦<Vec<Option<R::Global>> as ByPlace<R::Global>>⟧.at_place (R.book rules.now) one
        ≡ scene_in R.Rules R.Value.SceneValue world.now) }
    ensures full { IfOk result (λ kept. IsFullByIndex (kinds_by R.Rules R.Value.SceneValue) R.part_of
        R.columns.part_names kept (seen_of world.now)) }
    ensures few { IfOk result (λ kept. kept.changes ≤ 16777216) }
    ensures below { OnOk result (IsBelow (kinds_by R.Rules R.Value.SceneValue) (seen_of world.now)) }
{
    let globals = globals_in::<R>(world, rules.global_names(), alloc)?;
    let next = next_in::<R>(world)?;
    let pairs = pairs_in(rules, world, alloc)?;
    let names = rules.part_names();
    let mut kept = KeptScene::new(alloc, next, globals, names.len())?;
    let count = room_for(&pairs);
    kept.make_room(count)?;
    write_rows(rules, world, names, &pairs, count, &mut kept, alloc)?;
    enter_all(&pairs, count, &mut kept);
    Ok(kept)
}

/// A number above each index of these pairs.
pub(crate) fn room_for(pairs: &[(u64, u32)]) -> usize
    ensures { All (λ pair. pair.1 < result) pairs.now }
{
    let mut count = 0;
    for pair in pairs {
        count = count.max(pair.1 as usize + 1);
    }
    count
}

/// The indices of pairs, each behind itself. Errors: want of memory.
fn indices_of(pairs: &[(u64, u32)], alloc: Global) -> Result<Vec<(u64, u32)>, AllocError>
    ensures { IfOk result (λ indices. indices.items ≡ map (λ pair. (pair.1, pair.1)) pairs.now) }
{
    let mut indices = Vec::with_capacity(alloc, pairs.len())?;
    for pair in pairs {
        indices.push((u64::from(pair.1), pair.1))?;
    }
    Ok(indices)
}

/// Enters the id of each of these pairs at its index.
pub(crate) fn enter_all<D: Drop, G>(pairs: &[(u64, u32)], count: usize, kept: &mut KeptScene<D, G>)
    requires within { All (λ pair. pair.1 < count) pairs.now }
    requires room { HasRoom count kept.old }
    ensures seats { (index : ℕ) → seat_at kept.new index
        ≡ with_last (turned pairs.now) (seat_at kept.old) index }
    ensures rows { (place index : ℕ) → datum_at kept.new place index ≡ datum_at kept.old place index }
    ensures course { SameCourse kept.old kept.new }
    ensures changes { CountsMore kept.old.changes (length pairs.now) kept.new.changes }
{
    for pair in pairs {
        kept.enter(pair.1 as usize, pair.0);
    }
}

/// Writes the data of the living into the rows of these kinds.
///
/// Errors: want of memory.
fn write_rows<R: Rules, G>(
    rules: &R,
    world: &World<R::Value>,
    names: &[&'static str],
    pairs: &[(u64, u32)],
    count: usize,
    kept: &mut KeptScene<R::Data, G>,
    alloc: Global,
) -> Result<(), AllocError>
    requires stands { IsSceneWorld (kinds_by R.Rules R.Value.SceneValue) (R.book rules.now)
        (seen_of world.now) }
    requires known { texts names.now ≡ (R.book rules.now).part_names }
    requires pairs { ArePairs (roll_of (kinds_by R.Rules R.Value.SceneValue) (seen_of world.now)) pairs.now }
    requires kinds { kinds_kept kept.old ≡ length names.now }
    requires room { HasRoom count kept.old }
    requires bare { IsBare kept.old }
    requires within { All (λ pair. pair.1 < count) pairs.now }
    ensures rows { OnOk result (AreRowsOf (kinds_by R.Rules R.Value.SceneValue) R.part_of
        (seen_of world.now) (texts names.now) (length names.now) kept.new) }
    ensures seats { OnOk result ((index : ℕ) → seat_at kept.new index ≡ None) }
    ensures room { OnOk result (HasRoom count kept.new) }
    ensures course { OnOk result (SameCourse kept.old kept.new) }
    ensures changes { OnOk result (kept.new.changes ≡ kept.old.changes) }
{
    let indices = indices_of(pairs, alloc)?;
    for (place, kind) in names.iter().enumerate() {
        write_row(rules, world, kind, place, &indices, count, kept, alloc)?;
    }
    Ok(())
}

/// Writes the data of a kind at these indices, each of which stands behind itself, into the row of the kind. No part of it
/// stands elsewhere.
///
/// Errors: want of memory.
fn write_row<R: Rules, G>(
    rules: &R,
    world: &World<R::Value>,
    kind: &str,
    place: usize,
    indices: &[(u64, u32)],
    count: usize,
    kept: &mut KeptScene<R::Data, G>,
    alloc: Global,
) -> Result<(), AllocError>
    requires stands { IsSceneWorld (kinds_by R.Rules R.Value.SceneValue) (R.book rules.now)
        (seen_of world.now) }
    requires known { is_among kind.now R.columns.part_names ≡ true }
    requires indices { All (λ pair. pair.0 ≡ pair.1) indices.now }
    requires within { All (λ pair. pair.1 < count) indices.now }
    requires all { (index : ℕ)
        → IsSome (part_at (kinds_by R.Rules R.Value.SceneValue) (seen_of world.now) index kind.now)
        → IsAmong (map (λ pair. pair.1) indices.now) index }
    requires kinds { place < kinds_kept kept.old }
    requires room { HasRoom count kept.old }
    requires free { (index : ℕ) → seat_at kept.old index ≡ None }
    requires bare { (index : ℕ) → datum_at kept.old place index ≡ None }
    ensures row { OnOk result ((index : ℕ)
        → IsRowOf (kinds_by R.Rules R.Value.SceneValue) R.part_of (seen_of world.now) kind.now place kept.new index) }
    ensures others { OnOk result ((other index : ℕ) → other ≢ place
        → datum_at kept.new other index ≡ datum_at kept.old other index) }
    ensures seats { OnOk result ((index : ℕ) → seat_at kept.new index ≡ None) }
    ensures room { OnOk result (HasRoom count kept.new) }
    ensures course { OnOk result (SameCourse kept.old kept.new) }
    ensures changes { OnOk result (kept.new.changes ≡ kept.old.changes) }
{
    let found = read_row(rules, world, kind, indices, alloc)?;
    write_found(found, place, count, kept);
    Ok(())
}

/// The data of a kind at these indices, each of which stands behind itself; of an index without a part there may be none.
///
/// Errors: want of memory.
pub(crate) fn read_row<R: Rules>(
    rules: &R,
    world: &World<R::Value>,
    kind: &str,
    indices: &[(u64, u32)],
    alloc: Global,
) -> Result<Vec<(u64, Option<R::Data>)>, AllocError>
    requires stands { IsSceneWorld (kinds_by R.Rules R.Value.SceneValue) (R.book rules.now)
        (seen_of world.now) }
    requires known { is_among kind.now R.columns.part_names ≡ true }
    ensures { IfOk result (λ found. AreOfPairs (kinds_by R.Rules R.Value.SceneValue) R.part_of (seen_of world.now)
        kind.now indices.now found.items) }
{
    let Some(value) = world.get_raw(R::part_id(kind)) else {
        return Ok(Vec::new(alloc));
    };
    match R::get_each(value, kind, indices, alloc)? {
        Some(found) => Ok(found),
        None => data_at(rules, world, kind, value, indices, alloc),
    }
}

/// Writes data into the row of a kind, each at the index behind which it stands and which bears nothing; where several stand
/// behind one, the last.
pub(crate) fn write_found<D: Drop, G>(
    found: Vec<(u64, Option<D>)>,
    place: usize,
    count: usize,
    kept: &mut KeptScene<D, G>,
)
    requires kinds { place < kinds_kept kept.old }
    requires room { HasRoom count kept.old }
    requires within { All (λ one. one.0 < count) (each_there (λ one. one) found.items) }
    requires free { All (λ one. seat_at kept.old one.0 ≡ None) (each_there (λ one. one) found.items) }
    ensures row { (index : ℕ) → datum_at kept.new place index
        ≡ with_last (each_there (λ one. one) found.items) (datum_at kept.old place) index }
    ensures others { (other index : ℕ) → other ≢ place
        → datum_at kept.new other index ≡ datum_at kept.old other index }
    ensures seats { (index : ℕ) → seat_at kept.new index ≡ seat_at kept.old index }
    ensures room { HasRoom count kept.new }
    ensures course { SameCourse kept.old kept.new }
    ensures changes { kept.new.changes ≡ kept.old.changes }
{
    for (index, datum) in found {
        if let Some(datum) = datum {
            kept.write(place, index as usize, Some(datum));
        }
    }
}
