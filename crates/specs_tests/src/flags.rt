//! Flagged storages: what each of several readers reads of the changes of parts.
ghost use Rattle.std.specs.Prelude.{◌<◌};
ghost use Rattle.specs_layouts.specs.MaskedChanges.{KeepsParts};

use crate::parts::{Numbered, made};
use ComponentEvent::{Inserted, Modified, Removed};
use specs_join::{Change, EachError, change_each};
use specs_layouts::{
    BTreeStorage, Component, ComponentEvent, FlaggedStorage, HashMapStorage, MaskedStorage,
    ReaderId, Tracked, UnprotectedStorage, VecStorage,
};
use specs_storage::{StorageEntry, entry_at};
use std::alloc::{AllocError, Global};

/// A part in the layout that a flagged storage has by default.
#[derive(Default, Drop)]
pub struct Health(pub u32);

impl Component for Health {
    type Storage = FlaggedStorage<Health>;
}

impl Numbered for Health {
    fn made(number: u32) -> Health {
        Health(number)
    }

    fn number(&self) -> u32 {
        self.0
    }

    fn set(&mut self, number: u32) {
        self.0 = number;
    }
}

#[derive(Default, Drop)]
pub struct Armor(pub u32);

impl Component for Armor {
    type Storage = FlaggedStorage<Armor, VecStorage<Armor>>;
}

impl Numbered for Armor {
    fn made(number: u32) -> Armor {
        Armor(number)
    }

    fn number(&self) -> u32 {
        self.0
    }

    fn set(&mut self, number: u32) {
        self.0 = number;
    }
}

#[derive(Default, Drop)]
pub struct Cargo(pub u32);

impl Component for Cargo {
    type Storage = FlaggedStorage<Cargo, HashMapStorage<Cargo>>;
}

impl Numbered for Cargo {
    fn made(number: u32) -> Cargo {
        Cargo(number)
    }

    fn number(&self) -> u32 {
        self.0
    }

    fn set(&mut self, number: u32) {
        self.0 = number;
    }
}

#[derive(Default, Drop)]
pub struct Fuel(pub u32);

impl Component for Fuel {
    type Storage = FlaggedStorage<Fuel, BTreeStorage<Fuel>>;
}

impl Numbered for Fuel {
    fn made(number: u32) -> Fuel {
        Fuel(number)
    }

    fn number(&self) -> u32 {
        self.0
    }

    fn set(&mut self, number: u32) {
        self.0 = number;
    }
}

/// A step over a flagged storage. Readers are told by the places in which they were registered, from 0.
enum Step {
    /// A reader more.
    Registers,
    /// A part is put at an index, by `insert`.
    Puts(u32),
    /// A part is put at an index that has none, by its entry.
    Fills(u32),
    /// The part at an index is written.
    Writes(u32),
    /// Each part is lent for writing.
    LendsAll,
    /// The part at an index is taken out, where there is one.
    Takes(u32),
    /// The part at an index is dropped, where there is one.
    Drops(u32),
    /// All parts are taken out.
    Clears,
    /// Emission is turned on or off.
    Turns(bool),
    /// An event is written by hand.
    Flags(ComponentEvent),
    /// The reader of a place reads these events.
    Reads(usize, &'static [ComponentEvent]),
}

use Step::{Clears, Drops, Fills, Flags, LendsAll, Puts, Reads, Registers, Takes, Turns, Writes};

/// Steps over a flagged storage.
struct Row {
    name: &'static str,
    steps: &'static [Step],
}

const ROWS: [Row; 9] = [
    Row {
        name: "an entry tells twice, a part put over it once, and its removal",
        steps: &[
            Registers,
            Fills(4),
            Puts(4),
            Takes(4),
            Reads(0, &[Inserted(4), Modified(4), Modified(4), Removed(4)]),
        ],
    },
    Row {
        name: "each way to a part tells of it",
        steps: &[
            Registers,
            Puts(1),
            Puts(70),
            Writes(70),
            LendsAll,
            Drops(1),
            Reads(
                0,
                &[
                    Inserted(1),
                    Inserted(70),
                    Modified(70),
                    Modified(1),
                    Modified(70),
                    Removed(1),
                ],
            ),
        ],
    },
    Row {
        name: "what isn't there is not told",
        steps: &[Registers, Takes(3), Drops(3), Reads(0, &[])],
    },
    Row {
        name: "all parts are taken out untold",
        steps: &[
            Registers,
            Puts(2),
            Reads(0, &[Inserted(2)]),
            Clears,
            Reads(0, &[]),
            Puts(2),
            Reads(0, &[Inserted(2)]),
        ],
    },
    Row {
        name: "each of three readers reads the same list, whoever reads first",
        steps: &[
            Registers,
            Registers,
            Registers,
            Puts(5),
            Writes(5),
            Reads(1, &[Inserted(5), Modified(5)]),
            Takes(5),
            Reads(0, &[Inserted(5), Modified(5), Removed(5)]),
            Reads(2, &[Inserted(5), Modified(5), Removed(5)]),
            Reads(1, &[Removed(5)]),
            Reads(1, &[]),
        ],
    },
    Row {
        name: "a reader that comes later reads what is told later",
        steps: &[
            Puts(6),
            Registers,
            Writes(6),
            Registers,
            Takes(6),
            Reads(0, &[Modified(6), Removed(6)]),
            Reads(1, &[Removed(6)]),
        ],
    },
    Row {
        name: "nothing is told while emission is off, but what is written by hand",
        steps: &[
            Registers,
            Turns(false),
            Puts(7),
            Writes(7),
            Flags(Modified(9)),
            Takes(7),
            Reads(0, &[Modified(9)]),
            Turns(true),
            Puts(7),
            Reads(0, &[Inserted(7)]),
        ],
    },
    Row {
        name: "what was told before emission is turned off is read after",
        steps: &[
            Registers,
            Puts(8),
            Turns(false),
            Takes(8),
            Reads(0, &[Inserted(8)]),
        ],
    },
    Row {
        name: "without a reader nothing is told",
        steps: &[Puts(1), Writes(1), Takes(1), Registers, Reads(0, &[])],
    },
];

/// A change that leaves each part as it is.
struct Touching;

impl<C: Component> Change<C, ()> for Touching {
    ghost use Rattle.std.specs.Prelude.{Some};

    type Refusal = AllocError;

    ghost changed = { λ _ part _. Some part };

    fn change(&self, _part: &mut C, _item: ()) -> Result<(), AllocError> {
        Ok(())
    }
}

/// Puts a part at an index by its entry, which has to be without one, and answers the part's number.
fn filled<C: Numbered>(storage: &mut MaskedStorage<C>, id: u32) -> Option<u32>
    requires { id < 16777216 }
{
    match entry_at(storage, id) {
        StorageEntry::Vacant(place) => match place.insert(C::made(id)) {
            Ok(part) => Some(part.number()),
            Err(_refused) => None,
        },
        StorageEntry::Occupied(_place) => None,
    }
}

/// A flagged storage, and its readers.
#[derive(Drop)]
struct Told<C: Component> {
    storage: MaskedStorage<C>,
    readers: Vec<ReaderId>,
}

impl<C: Numbered> Told<C>
where
    C::Storage: Tracked<C>,
{
    /// Puts a part at an index, and answers whether it is as told that there was none.
    fn put(&mut self, id: u32) -> Result<bool, AllocError> {
        if id >= 16777216 {
            return Ok(false);
        }
        let was = self.storage.contains(id);
        match self.storage.insert(id, C::made(id)) {
            Ok(old) => Ok(old.is_some() == was),
            Err(_) => Err(AllocError),
        }
    }

    /// Puts a part at an index that has none, by its entry.
    fn fill(&mut self, id: u32) -> Result<bool, AllocError> {
        if id >= 16777216 {
            return Ok(false);
        }
        match filled(&mut self.storage, id) {
            Some(number) => Ok(number == id),
            None => Err(AllocError),
        }
    }

    /// Writes the part at an index.
    fn write(&mut self, id: u32) -> Result<bool, AllocError> {
        if !self.storage.contains(id) {
            return Ok(false);
        }
        let number = id.wrapping_add(1);
        self.storage.get_mut(id)?.set(number);
        Ok(self.storage.contains(id))
    }

    /// Lends each part for writing, and leaves it as it is.
    fn lend_all(&mut self) -> Result<bool, AllocError>
        ensures { KeepsParts C.Storage.part_at self.old.storage self.new.storage }
    {
        match change_each(&mut self.storage, (), &Touching) {
            Ok(()) => Ok(true),
            Err(EachError::Memory) => Err(AllocError),
            Err(EachError::Refused(_, _)) => Ok(false),
        }
    }

    /// Takes the part at an index out.
    fn take(&mut self, id: u32) -> Result<bool, AllocError> {
        let was = self.storage.contains(id);
        let part = self.storage.remove(id)?;
        Ok(part.is_some() == was && !self.storage.contains(id))
    }

    /// Whether the reader of a place reads these events.
    fn reads(
        &mut self,
        alloc: Global,
        place: usize,
        wanted: &[ComponentEvent],
    ) -> Result<bool, AllocError> {
        let mut list = Vec::new(alloc);
        match self.readers.get(place) {
            Some(reader) => self.storage.channel_mut().read(reader, &mut list)?,
            None => return Ok(false),
        }
        Ok(list.as_slice() == wanted)
    }

    /// Whether a step goes as it has to.
    fn goes(&mut self, alloc: Global, step: &Step) -> Result<bool, AllocError> {
        match step {
            Registers => {
                let reader = self.storage.register_reader()?;
                self.readers.push(reader)?;
            }
            Puts(id) => return self.put(*id),
            Fills(id) => return self.fill(*id),
            Writes(id) => return self.write(*id),
            LendsAll => return self.lend_all(),
            Takes(id) => return self.take(*id),
            Drops(id) => self.storage.drop(*id)?,
            Clears => self.storage.clear(),
            Turns(on) => self.storage.set_event_emission(*on),
            Flags(event) => self.storage.flag(*event)?,
            Reads(place, wanted) => return self.reads(alloc, *place, wanted),
        }
        Ok(true)
    }
}

/// Whether all steps of a row go as they have to.
fn holds<C: Numbered>(alloc: Global, row: &Row) -> Result<bool, AllocError>
where
    C::Storage: Tracked<C>,
{
    let Some(storage) = made::<C>(alloc) else {
        return Ok(false);
    };
    let mut told = Told {
        storage,
        readers: Vec::new(alloc),
    };
    for step in row.steps {
        if !told.goes(alloc, step)? {
            return Ok(false);
        }
    }
    Ok(true)
}

#[test]
fn each_reader_reads_the_changes_of_parts(rt: HostRuntime) {
    let mut wrong = None;
    for row in &ROWS {
        let alloc = rt.alloc();
        if holds::<Health>(alloc, row) != Ok(true)
            || holds::<Armor>(alloc, row) != Ok(true)
            || holds::<Cargo>(alloc, row) != Ok(true)
            || holds::<Fuel>(alloc, row) != Ok(true)
        {
            wrong = Some(row.name);
        }
    }
    assert_eq!(rt; wrong, None);
}
