//! Channels of events: what each of several readers reads.
use hibitset::BitSet;
use specs_layouts::{EventChannel, ReaderId};
use std::alloc::{AllocError, Global};

/// A step over a channel. Readers are told by the places in which they were registered, from 0.
enum Step {
    /// A reader more.
    Registers,
    /// Room is made for so many events.
    Reserves(usize),
    /// An event is written.
    Writes(u32),
    /// An event is written, and the same of further indices of its word.
    WritesBlock(u32, u64),
    /// An event of each member of the set of these is written.
    WritesAll(&'static [u32]),
    /// The reader of a place has yet to read events of these indices, ascending.
    Marks(usize, &'static [u32]),
    /// The reader of a place reads these events.
    Reads(usize, &'static [u32]),
    /// The reader of a place catches up.
    CatchesUp(usize),
}

use Step::{CatchesUp, Marks, Reads, Registers, Reserves, Writes, WritesAll, WritesBlock};

/// Steps over a channel.
struct Row {
    name: &'static str,
    steps: &'static [Step],
}

/// A channel and its readers.
#[derive(Drop)]
struct Read {
    channel: EventChannel<u32>,
    readers: Vec<ReaderId>,
}

const ROWS: [Row; 8] = [
    Row {
        name: "a reader reads what was written since it was registered",
        steps: &[
            Writes(1),
            Registers,
            Reads(0, &[]),
            Writes(2),
            Writes(3),
            Reads(0, &[2, 3]),
            Reads(0, &[]),
        ],
    },
    Row {
        name: "each of three readers reads the same list",
        steps: &[
            Registers,
            Registers,
            Registers,
            Writes(1),
            Writes(2),
            Reads(1, &[1, 2]),
            Writes(3),
            Reads(0, &[1, 2, 3]),
            Reads(2, &[1, 2, 3]),
            Reads(1, &[3]),
        ],
    },
    Row {
        name: "what a slow reader has yet to read stays",
        steps: &[
            Registers,
            Registers,
            Writes(1),
            Reads(0, &[1]),
            Writes(2),
            Reads(0, &[2]),
            Writes(3),
            Reads(1, &[1, 2, 3]),
            Reads(0, &[3]),
        ],
    },
    Row {
        name: "a reader that comes later reads what is written later",
        steps: &[
            Registers,
            Writes(1),
            Registers,
            Writes(2),
            Reads(1, &[2]),
            Reads(0, &[1, 2]),
        ],
    },
    Row {
        name: "room that was made is used up",
        steps: &[
            Registers,
            Reserves(2),
            Writes(1),
            Writes(2),
            Writes(3),
            Reads(0, &[1, 2, 3]),
        ],
    },
    Row {
        name: "a block is read as its events, ascending, and once by each",
        steps: &[
            Registers,
            Writes(70),
            WritesBlock(65, 0x8000_0000_0000_0008),
            Registers,
            WritesAll(&[3, 200, 64, 66]),
            Reads(1, &[3, 64, 66, 200]),
            Reads(0, &[70, 65, 67, 127, 3, 64, 66, 200]),
            Writes(5),
            Reads(1, &[5]),
            Reads(0, &[5]),
        ],
    },
    Row {
        name: "what is unread is marked by its indices, and stays unread",
        steps: &[
            Registers,
            Marks(0, &[]),
            Writes(7),
            WritesBlock(4096, 6),
            Writes(16_777_216),
            WritesAll(&[9, 16_777_215]),
            Marks(0, &[7, 9, 4096, 4097, 4098, 16_777_215]),
            Reads(0, &[7, 4096, 4097, 4098, 16_777_216, 9, 16_777_215]),
            Marks(0, &[]),
        ],
    },
    Row {
        name: "who catches up reads what is written later, and another reads all",
        steps: &[
            Registers,
            Registers,
            WritesBlock(0, 2),
            CatchesUp(1),
            Marks(1, &[]),
            Writes(8),
            Marks(1, &[8]),
            Reads(0, &[0, 1, 8]),
            Reads(1, &[8]),
        ],
    },
];

impl Read {
    /// Whether the reader of a place reads these events.
    fn reads(&mut self, alloc: Global, place: usize, wanted: &[u32]) -> Result<bool, AllocError> {
        let mut list = Vec::new(alloc);
        match self.readers.get(place) {
            Some(reader) => self.channel.read(reader, &mut list)?,
            None => return Ok(false),
        }
        Ok(list.as_slice() == wanted)
    }

    /// Whether the reader of a place has yet to read events of these indices alone.
    fn marks(&self, alloc: Global, place: usize, wanted: &[u32]) -> Result<bool, AllocError> {
        let mut set = BitSet::new(alloc);
        match self.readers.get(place) {
            Some(reader) => self.channel.unread_indices(reader, &mut set)?,
            None => return Ok(false),
        }
        let mut list = Vec::new(alloc);
        for index in &set {
            list.push(index)?;
        }
        Ok(list.as_slice() == wanted)
    }

    /// Writes an event of each of these indices.
    fn writes_all(&mut self, alloc: Global, indices: &[u32]) -> Result<(), AllocError> {
        let mut set = BitSet::new(alloc);
        for index in indices {
            if *index < 16_777_216 {
                set.add(*index)?;
            }
        }
        self.channel.write_all(0, &set)
    }

    /// Lets the reader of a place catch up.
    fn catches_up(&mut self, place: usize) -> bool {
        match self.readers.get(place) {
            Some(reader) => self.channel.catch_up(reader),
            None => return false,
        }
        true
    }

    /// Whether a step goes as it has to.
    fn goes(&mut self, alloc: Global, step: &Step) -> Result<bool, AllocError> {
        match step {
            Registers => {
                let reader = self.channel.register_reader()?;
                self.readers.push(reader)?;
            }
            Reserves(count) => self.channel.reserve(*count)?,
            Writes(event) => self.channel.single_write(*event)?,
            WritesBlock(event, more) => self.channel.write_block(*event, *more)?,
            WritesAll(indices) => self.writes_all(alloc, indices)?,
            Marks(place, wanted) => return self.marks(alloc, *place, wanted),
            Reads(place, wanted) => return self.reads(alloc, *place, wanted),
            CatchesUp(place) => return Ok(self.catches_up(*place)),
        }
        Ok(self.channel.has_readers() != self.readers.is_empty())
    }
}

/// Whether all steps of a row go as they have to.
fn holds(alloc: Global, row: &Row) -> Result<bool, AllocError> {
    let mut read = Read {
        channel: EventChannel::new(alloc),
        readers: Vec::new(alloc),
    };
    for step in row.steps {
        if !read.goes(alloc, step)? {
            return Ok(false);
        }
    }
    Ok(true)
}

#[test]
fn each_reader_reads_what_was_written_since_it_read(rt: HostRuntime) {
    let mut wrong = None;
    for row in &ROWS {
        if holds(rt.alloc(), row) != Ok(true) {
            wrong = Some(row.name);
        }
    }
    assert_eq!(rt; wrong, None);
}
