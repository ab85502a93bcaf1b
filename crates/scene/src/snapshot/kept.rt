//! What is kept of a scene: at each index of its world the id that it bears, and a row of data.
ghost use Rattle.std.specs.Prelude.{◌≡◌, ◌==◌, ◌<◌, ◌≤◌, ◌+◌, ℕ, None};
ghost use Rattle.std.specs.Prelude.{Some, is_some, if◌then◌else◌, IfOk, OnOk, option_copied};
ghost use Rattle.scene.specs.Rows.{seat_at, datum_at, entry_at, counted, seats_kept};
ghost use Rattle.scene.specs.Rows.{kinds_kept, HasRoom, IsSettled, SameCourse};

use crate::snapshot::lengthen::lengthen;
use std::alloc::{AllocError, Global};
use std::mem;

/// What is kept of a scene: at each index of its world the id that it bears, if it bears one, and a row with a datum of
/// each kind that has one there; with the globals and the next id; and how many changes were made of its entries.
///
/// An entry is an id that is borne, with the row of its index. Entries come and go by `enter` and `leave_out` alone, each
/// of which counts one; a row is written only where no entry stands. No call looks further than at the index that it
/// names, and but for `make_room` none takes memory.
///
/// `D` is a datum, `G` what is kept of the globals.
///
/// ```text
/// let mut kept = KeptScene::new(alloc, 1, (), 2)?;
/// kept.make_room(8)?;
/// kept.write(1, 5, Some(datum));              // of the second kind, at index 5
/// kept.enter(5, 0);                           // id 0 has that datum
/// ```
#[derive(Drop)]
pub struct KeptScene<D, G> {
    next: u64,
    seats: Vec<Option<u64>>,
    columns: Vec<Vec<Option<D>>>,
    globals: G,
    changes: u64,
}

impl<D: Drop, G> KeptScene<D, G> {
    /// Nothing is kept yet of any entity, for so many kinds, and no change was made.
    ///
    /// Errors: want of memory.
    pub fn new(
        alloc: Global,
        next: u64,
        globals: G,
        kinds: usize,
    ) -> Result<KeptScene<D, G>, AllocError>
    where
        G: Drop,
        ensures seats { IfOk result (λ kept. (index : ℕ) → seat_at kept index ≡ None) }
        ensures rows { IfOk result (λ kept. (place index : ℕ) → datum_at kept place index ≡ None) }
        ensures kinds { IfOk result (λ kept. kinds_kept kept ≡ kinds) }
        ensures next { IfOk result (λ kept. kept.next ≡ next) }
        ensures globals { IfOk result (λ kept. kept.globals ≡ globals) }
        ensures changes { IfOk result (λ kept. kept.changes ≡ 0) }
    {
        let mut columns = Vec::with_capacity(alloc, kinds)?;
        for _ in 0..kinds {
            columns.push(Vec::new(alloc))?;
        }
        Ok(KeptScene {
            next,
            seats: Vec::new(alloc),
            columns,
            globals,
            changes: 0,
        })
    }

    /// The scene's next id.
    pub fn next(&self) -> u64
        ensures { result ≡ self.now.next }
    {
        self.next
    }

    /// What is kept of the globals.
    pub fn globals(&self) -> &G
        ensures { result.now ≡ self.now.globals }
    {
        &self.globals
    }

    /// How many entries came and went, up to the greatest number of 64 bits.
    pub fn changes(&self) -> u64
        ensures { result ≡ self.now.changes }
    {
        self.changes
    }

    /// The id that an index bears, if it bears one.
    pub fn seat(&self, index: usize) -> Option<u64>
        ensures { result ≡ seat_at self.now index }
    {
        *self.seats.get(index)?
    }

    /// What each index bears, from index 0 on.
    pub fn seats(&self) -> &[Option<u64>]
        ensures { result.now ≡ seats_kept self.now }
    {
        self.seats.as_slice()
    }

    /// What stands at an index in the row of a kind, by the kind's place, if something does.
    pub fn datum(&self, place: usize, index: usize) -> Option<&D>
        ensures { option_copied result ≡ datum_at self.now place index }
    {
        self.columns.get(place)?.get(index)?.as_ref()
    }

    /// Makes room for entries and data at so many indices, from index 0 on. No entry and no datum changes.
    ///
    /// Errors: want of memory; nothing that is kept changed.
    pub fn make_room(&mut self, count: usize) -> Result<(), AllocError>
        ensures ok { OnOk result (HasRoom count self.new) }
        ensures seats { (index : ℕ) → seat_at self.new index ≡ seat_at self.old index }
        ensures rows { (place index : ℕ) → datum_at self.new place index ≡ datum_at self.old place index }
        ensures course { SameCourse self.old self.new }
        ensures changes { self.new.changes ≡ self.old.changes }
    {
        lengthen(&mut self.seats, count)?;
        for place in 0..self.columns.len() {
            lengthen(&mut self.columns[place], count)?;
        }
        Ok(())
    }

    /// The globals and the next id become these, and the globals that were kept come back. It is no change of an entry.
    pub fn settle(&mut self, next: u64, globals: G) -> G
        ensures globals { result ≡ self.old.globals }
        ensures settled { IsSettled self.old next globals self.new }
    {
        self.next = next;
        mem::replace(&mut self.globals, globals)
    }

    /// Takes the entry at an index out, if there is one, and counts it then: the id that the index bore. Its row stays, as
    /// that of no entry.
    pub fn leave_out(&mut self, index: usize) -> Option<u64>
        ensures value { result ≡ seat_at self.old index }
        ensures seats { (other : ℕ) → seat_at self.new other ≡ (if other == index then None
            else seat_at self.old other) }
        ensures rows { (place other : ℕ) → datum_at self.new place other ≡ datum_at self.old place other }
        ensures changes { self.new.changes ≡ (if is_some (seat_at self.old index) then counted self.old.changes
            else self.old.changes) }
        ensures course { SameCourse self.old self.new }
        ensures room { (count : ℕ) → HasRoom count self.old → HasRoom count self.new }
    {
        if index >= self.seats.len() {
            return None;
        }
        let taken = self.seats[index].take();
        if taken.is_some() {
            self.changes = self.changes.saturating_add(1);
        }
        taken
    }

    /// Puts an entry in at an index: this id, with the row that is there, in the place of the id that it bears, if it does.
    /// It counts as a change.
    pub fn enter(&mut self, index: usize, id: u64)
        requires room { HasRoom (index + 1) self.old }
        ensures seats { (other : ℕ) → seat_at self.new other ≡ (if other == index then Some id
            else seat_at self.old other) }
        ensures rows { (place other : ℕ) → datum_at self.new place other ≡ datum_at self.old place other }
        ensures changes { self.new.changes ≡ counted self.old.changes }
        ensures course { SameCourse self.old self.new }
        ensures room { (count : ℕ) → HasRoom count self.old → HasRoom count self.new }
    {
        self.seats[index] = Some(id);
        self.changes = self.changes.saturating_add(1);
    }

    /// Writes what stands at an index in the row of a kind, by the kind's place. No entry stands there, so none changes.
    pub fn write(&mut self, place: usize, index: usize, datum: Option<D>)
        requires place { place < kinds_kept self.old }
        requires room { HasRoom (index + 1) self.old }
        requires free { seat_at self.old index ≡ None }
        ensures rows { (at other : ℕ) → datum_at self.new at other ≡ (if at == place
            then (if other == index then datum else datum_at self.old at other) else datum_at self.old at other) }
        ensures seats { (other : ℕ) → seat_at self.new other ≡ seat_at self.old other }
        ensures entries { (other : ℕ) → entry_at self.new other ≡ entry_at self.old other }
        ensures changes { self.new.changes ≡ self.old.changes }
        ensures course { SameCourse self.old self.new }
        ensures room { (count : ℕ) → HasRoom count self.old → HasRoom count self.new }
    {
        self.columns[place][index] = datum;
    }
}
