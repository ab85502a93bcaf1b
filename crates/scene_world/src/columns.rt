//! Plain columns: kinds of parts each of which lies in one storage, which is a resource of its own in a world's values.
//!
//! For these the calls of `WorldRules` are those of this module, at the storage of the kind that they are asked for.
ghost use Rattle.std.specs.Prelude.{◌≡◌, ◌==◌, ◌<◌, ◌++◌, ℕ, [], true, false, is_some, option_map};
ghost use Rattle.std.specs.Prelude.{IfOk, OnOk, OnErr, IfSome};
ghost use Rattle.std.specs.List.{list_any};
ghost use Rattle.hibitset_sets.specs.BitSet.{has_member};
ghost use Rattle.specs_layouts.specs.Shows.{Shows};
ghost use Rattle.scene_world.specs.Telling.{GainsReader, CatchesUp, TakesTold, TakesSome};
ghost use Rattle.scene_world.specs.Putting.{named_in, part_read, PutsIn, TakesOut, SameColumn, AreReadAt};
ghost use Rattle.scene_world.specs.Columns.{column_in, events_in, emits_in, StandsEmpty};

mod amounts;
mod numbers;
mod seen;
mod stored;

use crate::Store;
pub use amounts::{Amounts, amounts_with, take_amounts};
use hibitset_sets::BitSet;
pub use numbers::{NumberPart, ReferencePart, entity_at, number_at, number_in};
pub use seen::ids_with;
use shred_world::{Resource, World};
use specs_entity::Entity;
use specs_layouts::ReaderId;
use std::alloc::{AllocError, Global};
pub use stored::PlainPart;

/// The parts of one kind of a scene, as its rules put them in and read them: a storage of parts that are `PlainPart`s.
pub trait Column: Sized {
    ghost use Rattle.std.specs.Prelude.{ℕ, Bool, Option};
    ghost use Rattle.specs_layouts.specs.Channels.{Log};
    ghost use Rattle.specs_layouts.specs.Parts.{HasNone};
    ghost use Rattle.specs_layouts.specs.declared.track.ComponentEvent.{ComponentEvent};
    ghost use Rattle.scene_model.specs.Parts.{Part};
    ghost use Rattle.scene_world.specs.Stored.{Stored};

    /// Data of parts, of this kind among others.
    type Data: Drop;

    /// The part that a datum is in a document.
    ghost part_of: { Self.Data → Part };

    /// What is stored at an index.
    ghost stored_at: { Self → ℕ → Option Stored };

    /// The events that tell of the parts.
    ghost log: { Self → Log ComponentEvent };

    /// Whether a change is told.
    ghost telling: { Self → Bool };

    /// A column without parts, in the layout of this store. Takes no memory.
    fn empty(alloc: Global, store: Store) -> Self
        ensures { HasNone (stored_at result) };

    /// Puts a part in at an index, in place of the one that is there, with these entities as those that it refers to.
    ///
    /// Errors: want of memory, and where the datum isn't of this kind; the parts are as they were. Either way the events
    /// show what became of the parts.
    fn put(&mut self, index: u32, datum: &Self::Data, named: &[Entity]) -> Result<(), AllocError>
        requires { index < 16777216 }
        ensures ok { OnOk result (PutsIn stored_at index (part_of datum.now) named.now self.old self.new) }
        ensures err { OnErr result (SameColumn stored_at self.old self.new) }
        ensures shown { Shows stored_at log telling self.old self.new };

    /// Takes the part at an index out, if there is one.
    ///
    /// Errors: want of memory; the parts are as they were. Either way the events show what became of the parts.
    fn take(&mut self, index: u32) -> Result<(), AllocError>
        ensures ok { OnOk result (TakesOut stored_at index self.old self.new) }
        ensures err { OnErr result (SameColumn stored_at self.old self.new) }
        ensures shown { Shows stored_at log telling self.old self.new };

    /// Registers a reader of the events, who is told of what becomes of the parts from now on, and turns emission on. No
    /// part is another.
    ///
    /// Errors: want of memory; all is as it was.
    fn reader(&mut self) -> Result<ReaderId, AllocError>
        ensures ok { IfOk result (λ reader. GainsReader stored_at log telling reader self.old self.new) }
        ensures err { OnErr result (self.new ≡ self.old) };

    /// Puts the indices below 16,777,216 of which a reader of the events has yet to read events into a set. The reader's
    /// place stays: `catch_up` moves it.
    ///
    /// Errors: want of memory; some of the indices are in.
    fn events(&self, reader: &ReaderId, into: &mut BitSet) -> Result<(), AllocError>
        ensures ok { OnOk result (TakesTold (log self.now) reader.now into.old into.new) }
        ensures err { OnErr result (TakesSome (log self.now) reader.now into.old into.new) };

    /// A reader of the events has read all of them. Takes no memory. No part is another, and each other reader has what it
    /// had to read.
    fn catch_up(&mut self, reader: &ReaderId)
        ensures { CatchesUp stored_at log telling reader.now self.old self.new };

    /// Puts the entities that the part at an index refers to behind others, in their order; none if there is no part.
    ///
    /// Errors: want of memory.
    fn named_at(&self, index: u32, named: &mut Vec<Entity>) -> Result<(), AllocError>
        ensures { OnOk result (named.new.items ≡ named.old.items ++ named_in (stored_at self.now index)) };

    /// The part at an index, if there is one, where the entities that it refers to have these ids.
    ///
    /// Errors: want of memory, and where it refers to another number of entities.
    fn get(&self, index: u32, ids: &[u64]) -> Result<Option<Self::Data>, AllocError>
        ensures { IfOk result (λ datum. option_map part_of datum
            ≡ option_map (part_read ids.now) (stored_at self.now index)) };

    /// The indices with a part, ascending.
    ///
    /// Errors: want of memory.
    fn indices(&self, alloc: Global) -> Result<Vec<u32>, AllocError>
        ensures { IfOk result (λ indices. (index : ℕ) → list_any (λ other. index == other) indices.items
            ≡ is_some (stored_at self.now index)) };

    /// Whether no part refers to an entity, as far as it can be told at once.
    fn names_nobody(&self) -> bool
        ensures { result ≡ true → (index : ℕ) → named_in (stored_at self.now index) ≡ [] };

    /// The indices at which a part may refer to an entity; none where no part of the kind does.
    fn holders(&self) -> Option<&BitSet>
        ensures { IfSome result (λ holders. (index : ℕ) → has_member holders.now index ≡ false
            → named_in (stored_at self.now index) ≡ []) };

    /// The parts at the indices of these entities, each behind the number behind which its entity stands, where no part of
    /// the kind refers to an entity; else none.
    ///
    /// Errors: want of memory.
    fn get_each(
        &self,
        entities: &[(u64, u32)],
        alloc: Global,
    ) -> Result<Option<Vec<(u64, Option<Self::Data>)>>, AllocError>
        ensures { IfOk result (λ read. IfSome read (λ found. AreReadAt part_of (stored_at self.now) entities.now
            found.items)) };
}

/// Puts an empty column into a world, in the layout of this store, in place of what stands there.
///
/// Errors: want of memory; the world is as it was.
pub fn register<S: Column + Resource<V> + Drop, V: Drop>(
    world: &mut World<V>,
    store: Store,
    alloc: Global,
) -> Result<(), AllocError>
    ensures ok { OnOk result (StandsEmpty (column_in S.part S.stored_at) S.kind_number world.old world.new) }
    ensures err { OnErr result (world.new ≡ world.old) }
{
    match world.insert(S::empty(alloc, store)) {
        Ok(()) => Ok(()),
        Err(_) => Err(AllocError),
    }
}

/// `Column::put`, where the value holds such a column.
///
/// Errors: its, and where the value holds none.
pub fn put<S: Column + Resource<V>, V>(
    value: &mut V,
    index: u32,
    datum: &S::Data,
    named: &[Entity],
) -> Result<(), AllocError>
    requires { index < 16777216 }
    ensures ok { OnOk result (PutsIn (column_in S.part S.stored_at) index (S.part_of datum.now) named.now
        value.old value.new) }
    ensures err { OnErr result (SameColumn (column_in S.part S.stored_at) value.old value.new) }
    ensures shown { Shows (column_in S.part S.stored_at) (events_in S.part S.log) (emits_in S.part S.telling)
        value.old value.new }
{
    match S::view_mut(value) {
        Some(parts) => parts.put(index, datum, named),
        None => Err(AllocError),
    }
}

/// `Column::take`, where the value holds such a column; else nothing.
///
/// Errors: its.
pub fn take<S: Column + Resource<V>, V>(value: &mut V, index: u32) -> Result<(), AllocError>
    ensures ok { OnOk result (TakesOut (column_in S.part S.stored_at) index value.old value.new) }
    ensures err { OnErr result (SameColumn (column_in S.part S.stored_at) value.old value.new) }
    ensures shown { Shows (column_in S.part S.stored_at) (events_in S.part S.log) (emits_in S.part S.telling)
        value.old value.new }
{
    match S::view_mut(value) {
        Some(parts) => parts.take(index),
        None => Ok(()),
    }
}

/// `Column::reader`, where the value holds such a column.
///
/// Errors: its, and where the value holds none; all is as it was.
pub fn reader<S: Column + Resource<V>, V>(value: &mut V) -> Result<ReaderId, AllocError>
    ensures ok { IfOk result (λ reader. GainsReader (column_in S.part S.stored_at) (events_in S.part S.log)
        (emits_in S.part S.telling) reader value.old value.new) }
    ensures err { OnErr result (value.new ≡ value.old) }
{
    match S::view_mut(value) {
        Some(parts) => parts.reader(),
        None => Err(AllocError),
    }
}

/// `Column::events`, where the value holds such a column; else none.
///
/// Errors: its.
pub fn events<S: Column + Resource<V>, V>(
    value: &V,
    reader: &ReaderId,
    into: &mut BitSet,
) -> Result<(), AllocError>
    ensures ok { OnOk result (TakesTold (events_in S.part S.log value.now) reader.now into.old into.new) }
    ensures err { OnErr result (TakesSome (events_in S.part S.log value.now) reader.now into.old into.new) }
{
    match S::view(value) {
        Some(parts) => parts.events(reader, into),
        None => Ok(()),
    }
}

/// `Column::catch_up`, where the value holds such a column; else nothing.
pub fn catch_up<S: Column + Resource<V>, V>(value: &mut V, reader: &ReaderId)
    ensures { CatchesUp (column_in S.part S.stored_at) (events_in S.part S.log) (emits_in S.part S.telling) reader.now
        value.old value.new }
{
    if let Some(parts) = S::view_mut(value) {
        parts.catch_up(reader);
    }
}

/// `Column::named_at`, where the value holds such a column; else nothing.
///
/// Errors: its.
pub fn named_at<S: Column + Resource<V>, V>(
    value: &V,
    index: u32,
    named: &mut Vec<Entity>,
) -> Result<(), AllocError>
    ensures { OnOk result (named.new.items ≡ named.old.items
        ++ named_in (column_in S.part S.stored_at value.now index)) }
{
    match S::view(value) {
        Some(parts) => parts.named_at(index, named),
        None => Ok(()),
    }
}

/// `Column::get`, where the value holds such a column; else none.
///
/// Errors: its.
pub fn get<S: Column + Resource<V>, V>(
    value: &V,
    index: u32,
    ids: &[u64],
) -> Result<Option<S::Data>, AllocError>
    ensures { IfOk result (λ datum. option_map S.part_of datum
        ≡ option_map (part_read ids.now) (column_in S.part S.stored_at value.now index)) }
{
    match S::view(value) {
        Some(parts) => parts.get(index, ids),
        None => Ok(None),
    }
}

/// `Column::names_nobody`, where the value holds such a column; else nobody is named.
pub fn names_nobody<S: Column + Resource<V>, V>(value: &V) -> bool
    ensures { result ≡ true → (index : ℕ) → named_in (column_in S.part S.stored_at value.now index) ≡ [] }
{
    match S::view(value) {
        Some(parts) => parts.names_nobody(),
        None => true,
    }
}

/// `Column::holders`, where the value holds such a column; else none.
pub fn holders<'a, S: Column + Resource<V> + 'a, V>(value: &'a V) -> Option<&'a BitSet>
    ensures { IfSome result (λ holders. (index : ℕ) → has_member holders.now index ≡ false
        → named_in (column_in S.part S.stored_at value.now index) ≡ []) }
{
    match S::view(value) {
        Some(parts) => parts.holders(),
        None => None,
    }
}

/// `Column::get_each`, where the value holds such a column; else none.
///
/// Errors: its.
pub fn get_each<S: Column + Resource<V>, V>(
    value: &V,
    entities: &[(u64, u32)],
    alloc: Global,
) -> Result<Option<Vec<(u64, Option<S::Data>)>>, AllocError>
    ensures { IfOk result (λ read. IfSome read (λ found. AreReadAt S.part_of
        (column_in S.part S.stored_at value.now) entities.now found.items)) }
{
    match S::view(value) {
        Some(parts) => parts.get_each(entities, alloc),
        None => Ok(None),
    }
}
