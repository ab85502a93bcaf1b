//! What is kept of a world is changed where the readers of its events tell of changes, and nowhere else.
ghost use Rattle.std.specs.Prelude.{◌≡◌, ◌≢◌, ◌<◌, ◌||◌, ℕ, true, length};
ghost use Rattle.std.specs.Prelude.{map, count_by, Some, None, is_some, All, AllPairs};
ghost use Rattle.std.specs.Prelude.{IfOk, OnOk, OnErr, IsSome, if◌then◌else◌, slice_get};
ghost use Rattle.hibitset_sets.specs.BitSet.{has_member};
ghost use Rattle.hibitset_sets.specs.Walk.{walk};
ghost use Rattle.scene_model.specs.Declaring.{texts};
ghost use Rattle.scene_model.specs.Parts.{is_among};
ghost use Rattle.scene_world.specs.Markers.{marker_at, marker_log};
ghost use Rattle.scene_world.specs.Members.{kinds_by};
ghost use Rattle.scene_world.specs.Standing.{Sight, IsSceneWorld};
ghost use Rattle.scene_world.specs.Telling.{is_told};
ghost use Rattle.scene_commands.specs.Acts.{seen_of};
ghost use Rattle.scene_commands.specs.Members.{scene_in};
ghost use Rattle.scene.specs.KeptScenes.{kept_scene};
ghost use Rattle.scene.specs.Rows.{seat_at, datum_at, kinds_kept, HasRoom, SameCourse};
ghost use Rattle.scene_commands.specs.declared.watching.ReaderTurn.TheVariants.{Frame};
ghost use Rattle.scene.specs.Keeping.{IsBelow, part_told, touched_in, AreToldSince, IsFullByIndex, SameEntries};
ghost use Rattle.scene.specs.Keeping.{CountsMore, changes_at};
ghost use Rattle.scene.specs.Changes.{IsChange, AreChanges, AreTouched, OnlyTouched, IsSound, AreFree, row_after};
ghost use Rattle.scene.specs.Taken.{is_one_of, behind_themselves, marks_at};

use crate::keeping::{enter_all, read_row, room_for, write_found};
use crate::snapshot::{ByPlace, KeptScene};
use crate::taking::{globals_in, markers_in, next_in};
use hibitset::BitSetLike;
use hibitset_sets::BitSet;
use scene_commands::{Watcher, Watchers};
use scene_world::{Rules, SceneMarker, told_indices};
use shred_world::World;
use specs_layouts::{MaskedStorage, ReaderId};
use specs_markers::Marker;
use std::alloc::{AllocError, Global};

/// What becomes of the row of a kind: the indices of which its events tell, each behind itself, and the data that stand
/// there.
#[derive(Drop)]
pub(crate) struct RowChange<D> {
    indices: Vec<(u64, u32)>,
    found: Vec<(u64, Option<D>)>,
}

/// How many bits of words are set.
fn ones_of(words: &[u64]) -> usize {
    let mut count = 0usize;
    for word in words {
        count = count.saturating_add(word.count_ones() as usize);
    }
    count
}

/// For how many members a list of a set's makes room at first: for all, or, where less than half of its words have one, for
/// as many as there are such words, since a look at each word would cost more than a list that grows.
fn room_of(set: &BitSet) -> usize {
    let words = set.layer0_as_slice();
    let used = ones_of(set.layer1_as_slice());
    if used < words.len() / 2 {
        used
    } else {
        ones_of(words)
    }
}

/// The members of a set, each behind itself, ascending. Errors: want of memory.
fn indices_of_set(set: &BitSet, alloc: Global) -> Result<Vec<(u64, u32)>, AllocError>
    ensures { IfOk result (λ indices. indices.items ≡ behind_themselves (walk (has_member set.now))) }
{
    let mut indices = Vec::with_capacity(alloc, room_of(set))?;
    for index in set.iter() {
        indices.push((u64::from(index), index))?;
    }
    Ok(indices)
}

/// The indices of which a reader of the markers' events has yet to read. Errors: want of memory.
fn told_of_markers(
    markers: &MaskedStorage<SceneMarker>,
    reader: &ReaderId,
    alloc: Global,
) -> Result<BitSet, AllocError>
    ensures { IfOk result (λ told. (index : ℕ) → has_member told index
        ≡ is_told (marker_log markers.now) reader.now index) }
{
    let mut told = BitSet::new(alloc);
    told_indices(markers, reader, &mut told)?;
    Ok(told)
}

/// The indices of which a reader of a kind's events has yet to read. Errors: want of memory.
fn told_of_kind<R: Rules>(
    world: &World<R::Value>,
    kind: &str,
    reader: &ReaderId,
    alloc: Global,
) -> Result<BitSet, AllocError>
    ensures { IfOk result (λ told. (index : ℕ) → has_member told index
        ≡ part_told (kinds_by R.Rules R.Value.SceneValue) (seen_of world.now) kind.now reader.now index) }
{
    let mut told = BitSet::new(alloc);
    let Some(value) = world.get_raw(R::part_id(kind)) else {
        return Ok(told);
    };
    R::events(value, kind, reader, &mut told)?;
    Ok(told)
}

/// What becomes of the row of a kind, by what the kind's reader tells; and its indices are among those that are touched.
///
/// Errors: want of memory.
fn change_of_kind<R: Rules>(
    rules: &R,
    world: &World<R::Value>,
    kind: &str,
    reader: &ReaderId,
    touched: &mut BitSet,
    alloc: Global,
) -> Result<RowChange<R::Data>, AllocError>
    requires stands { IsSceneWorld (kinds_by R.Rules R.Value.SceneValue) (R.book rules.now)
        (seen_of world.now) }
    requires known { is_among kind.now R.columns.part_names ≡ true }
    requires within { (index : ℕ) → has_member touched.old index ≡ true → index < 16777216 }
    ensures change { IfOk result (let kinds = kinds_by R.Rules R.Value.SceneValue in
        IsChange kinds R.part_of (seen_of world.now) kind.now
        (part_told kinds (seen_of world.now) kind.now reader.now)) }
    ensures within { OnOk result ((index : ℕ) → has_member touched.new index ≡ true → index < 16777216) }
    ensures kept { OnOk result ((index : ℕ) → has_member touched.old index ≡ true
        → has_member touched.new index ≡ true) }
    ensures told { OnOk result ((index : ℕ) → part_told (kinds_by R.Rules R.Value.SceneValue) (seen_of world.now)
        kind.now reader.now index ≡ true → has_member touched.new index ≡ true) }
    ensures only { OnOk result ((index : ℕ) → has_member touched.new index ≡ true → (has_member touched.old index
        || part_told (kinds_by R.Rules R.Value.SceneValue) (seen_of world.now) kind.now reader.now index) ≡ true) }
{
    let told = told_of_kind::<R>(world, kind, reader, alloc)?;
    touched.bitor_assign(&told)?;
    let indices = indices_of_set(&told, alloc)?;
    let found = read_row(rules, world, kind, &indices, alloc)?;
    Ok(RowChange { indices, found })
}

/// What becomes of the rows of these kinds, each by its place. Their indices are among those that are touched.
///
/// Errors: want of memory.
fn changes_of_kinds<R: Rules>(
    rules: &R,
    world: &World<R::Value>,
    names: &[&'static str],
    watchers: &[Watcher],
    touched: &mut BitSet,
    alloc: Global,
) -> Result<Vec<RowChange<R::Data>>, AllocError>
    requires stands { IsSceneWorld (kinds_by R.Rules R.Value.SceneValue) (R.book rules.now)
        (seen_of world.now) }
    requires known { texts names.now ≡ R.columns.part_names }
    requires many { length watchers.now ≡ length names.now }
    requires within { (index : ℕ) → has_member touched.old index ≡ true → index < 16777216 }
    ensures changes { IfOk result (λ changes. AreChanges (kinds_by R.Rules R.Value.SceneValue) R.part_of
        (seen_of world.now) (texts names.now) watchers.now (length names.now) changes.items) }
    ensures within { OnOk result ((index : ℕ) → has_member touched.new index ≡ true → index < 16777216) }
    ensures kept { OnOk result ((index : ℕ) → has_member touched.old index ≡ true
        → has_member touched.new index ≡ true) }
    ensures told { OnOk result (AreTouched (kinds_by R.Rules R.Value.SceneValue) (seen_of world.now)
        (texts names.now) watchers.now (length names.now) (has_member touched.new)) }
    ensures only { OnOk result (OnlyTouched (kinds_by R.Rules R.Value.SceneValue) (seen_of world.now)
        (texts names.now) watchers.now (length names.now) (has_member touched.old) (has_member touched.new)) }
{
    let mut changes = Vec::new(alloc);
    for place in 0..names.len() {
        let change = change_of_kind(
            rules,
            world,
            names[place],
            &watchers[place].frame,
            touched,
            alloc,
        )?;
        changes.push(change)?;
    }
    Ok(changes)
}

/// The ids with which indices are marked, each before its index, of those that are marked. Errors: want of memory.
fn entries_at(
    markers: &MaskedStorage<SceneMarker>,
    touched: &[(u64, u32)],
    alloc: Global,
) -> Result<Vec<(u64, u32)>, AllocError>
    ensures entries { IfOk result (λ entries. entries.items ≡ marks_at (marker_at markers.now) touched.now) }
    ensures below { OnOk result ((index : ℕ) → IsSome (marker_at markers.now index) → index < 16777216) }
{
    let mut entries = Vec::with_capacity(alloc, touched.len())?;
    let _ = markers.mask();
    for pair in touched {
        if markers.contains(pair.1) {
            entries.push((markers.get(pair.1).id(), pair.1))?;
        }
    }
    Ok(entries)
}

/// Takes out what these indices bear, which ascend.
fn leave_all<D: Drop, G>(touched: &[(u64, u32)], kept: &mut KeptScene<D, G>)
    requires ascend { AllPairs (λ one other. one.1 < other.1) touched.now }
    ensures seats { (index : ℕ) → seat_at kept.new index ≡ (if is_one_of (map (λ pair. pair.1) touched.now) index
        then None else seat_at kept.old index) }
    ensures rows { (place index : ℕ) → datum_at kept.new place index ≡ datum_at kept.old place index }
    ensures course { SameCourse kept.old kept.new }
    ensures room { (count : ℕ) → HasRoom count kept.old → HasRoom count kept.new }
    ensures changes { CountsMore kept.old.changes (count_by (λ pair. is_some (seat_at kept.old pair.1)) touched.now)
        kept.new.changes }
{
    for pair in touched {
        let _ = kept.leave_out(pair.1 as usize);
    }
}

/// Empties the row of a kind at these indices, which bear nothing.
fn clear_row<D: Drop, G>(
    indices: &[(u64, u32)],
    place: usize,
    count: usize,
    kept: &mut KeptScene<D, G>,
)
    requires kinds { place < kinds_kept kept.old }
    requires room { HasRoom count kept.old }
    requires below { All (λ pair. pair.1 < count) indices.now }
    requires free { All (λ pair. seat_at kept.old pair.1 ≡ None) indices.now }
    ensures row { (index : ℕ) → datum_at kept.new place index
        ≡ (if is_one_of (map (λ pair. pair.1) indices.now) index then None else datum_at kept.old place index) }
    ensures others { (other index : ℕ) → other ≢ place → datum_at kept.new other index ≡ datum_at kept.old other index }
    ensures seats { (index : ℕ) → seat_at kept.new index ≡ seat_at kept.old index }
    ensures room { HasRoom count kept.new }
    ensures course { SameCourse kept.old kept.new }
    ensures changes { kept.new.changes ≡ kept.old.changes }
{
    for pair in indices {
        kept.write(place, pair.1 as usize, None);
    }
}

/// Makes a change of the row of a kind, whose indices bear nothing.
fn change_row<D: Drop, G>(
    change: RowChange<D>,
    place: usize,
    count: usize,
    kept: &mut KeptScene<D, G>,
)
    requires kinds { place < kinds_kept kept.old }
    requires room { HasRoom count kept.old }
    requires sound { IsSound count change }
    requires free { AreFree kept.old change }
    ensures row { (index : ℕ) → datum_at kept.new place index
        ≡ row_after (Some change) (datum_at kept.old place) index }
    ensures others { (other index : ℕ) → other ≢ place → datum_at kept.new other index ≡ datum_at kept.old other index }
    ensures seats { (index : ℕ) → seat_at kept.new index ≡ seat_at kept.old index }
    ensures room { HasRoom count kept.new }
    ensures course { SameCourse kept.old kept.new }
    ensures changes { kept.new.changes ≡ kept.old.changes }
{
    let RowChange { indices, found } = change;
    clear_row(indices.as_slice(), place, count, kept);
    write_found(found, place, count, kept);
}

/// Makes the changes of rows, each of the kind at its place. Their indices bear nothing.
fn change_rows<D: Drop, G>(mut changes: Vec<RowChange<D>>, count: usize, kept: &mut KeptScene<D, G>)
    requires kinds { length changes.items ≡ kinds_kept kept.old }
    requires room { HasRoom count kept.old }
    requires sound { All (IsSound count) changes.items }
    requires free { All (AreFree kept.old) changes.items }
    ensures rows { (place index : ℕ) → datum_at kept.new place index
        ≡ row_after (slice_get changes.items place) (datum_at kept.old place) index }
    ensures seats { (index : ℕ) → seat_at kept.new index ≡ seat_at kept.old index }
    ensures room { HasRoom count kept.new }
    ensures course { SameCourse kept.old kept.new }
    ensures changes { kept.new.changes ≡ kept.old.changes }
{
    while let Some(change) = changes.pop() {
        change_row(change, changes.len(), count, kept);
    }
}

/// What is kept is brought up to date with a world, where the readers of the frame tell of changes since it was the full save
/// of another. The readers stay where they are.
///
/// Errors: want of memory; the same scene is kept.
pub(crate) fn keep_changes<R: Rules>(
    rules: &R,
    world: &World<R::Value>,
    watchers: &Watchers,
    kept: &mut KeptScene<R::Data, Vec<Option<R::Global>>>,
    alloc: Global,
) -> Result<(), AllocError>
    requires stands { IsSceneWorld (kinds_by R.Rules R.Value.SceneValue) (R.book rules.now)
        (seen_of world.now) }
    requires many { length watchers.now.parts.items ≡ length R.columns.part_names }
    requires since { (w : Sight R.Value)
        × (IsSceneWorld (kinds_by R.Rules R.Value.SceneValue) (R.book rules.now) w
        × (IsBelow (kinds_by R.Rules R.Value.SceneValue) w
        × (IsFullByIndex (kinds_by R.Rules R.Value.SceneValue) R.part_of R.columns.part_names kept.old w
        × AreToldSince (kinds_by R.Rules R.Value.SceneValue) R.columns.part_names watchers.now w
        (seen_of world.now)))) }
    ensures scene { OnOk result (kept_scene R.part_of R.global_of
        ⟦<Vec<Option<R::Global>> as ByPlace<R::Global>>⟧.at_place (R.book rules.now) kept.new
        ≡ scene_in R.Rules R.Value.SceneValue world.now) }
    ensures full { OnOk result (IsFullByIndex (kinds_by R.Rules R.Value.SceneValue) R.part_of R.columns.part_names
        kept.new (seen_of world.now)) }
    ensures below { OnOk result (IsBelow (kinds_by R.Rules R.Value.SceneValue) (seen_of world.now)) }
    ensures changes { OnOk result (CountsMore kept.old.changes (changes_at
        (touched_in (kinds_by R.Rules R.Value.SceneValue) Frame R.columns.part_names watchers.now (seen_of world.now))
        kept.old kept.new) kept.new.changes) }
    ensures refused { OnErr result (SameEntries kept.old kept.new) }
{
    let globals = globals_in::<R>(world, rules.global_names(), alloc)?;
    let next = next_in::<R>(world)?;
    let markers = markers_in::<R>(world)?;
    let mut touched = told_of_markers(markers, &watchers.markers.frame, alloc)?;
    let names = rules.part_names();
    let changes = changes_of_kinds(
        rules,
        world,
        names,
        watchers.parts.as_slice(),
        &mut touched,
        alloc,
    )?;
    let indices = indices_of_set(&touched, alloc)?;
    let entries = entries_at(markers, indices.as_slice(), alloc)?;
    let count = room_for(indices.as_slice());
    kept.make_room(count)?;
    leave_all(indices.as_slice(), kept);
    change_rows(changes, count, kept);
    enter_all(entries.as_slice(), count, kept);
    let _ = kept.settle(next, globals);
    Ok(())
}
