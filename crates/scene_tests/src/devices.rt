//! Readers and writers in memory that are slow, that fail, and one that counts by itself.
ghost use Rattle.std.specs.Prelude.{◌≡◌, [], ◌++◌, Some};
ghost use Rattle.std.specs.Io.{ReadsAtMost};

use scene::devices::{CountedWrite, Faults};
use std::alloc::Global;
use std::io::{Error, ErrorKind, Read, Result, Write};

/// Gives at most `step` of its bytes a call, and fails at each call after the first `calls`.
#[derive(Drop)]
pub struct Slow<'a> {
    pub bytes: &'a [u8],
    pub step: usize,
    pub calls: u32,
    pub failure: ErrorKind,
}

impl<'a> Slow<'a> {
    /// One byte a call.
    pub fn new(text: &'a str, calls: u32, failure: ErrorKind) -> Slow<'a> {
        Slow {
            bytes: text.as_bytes(),
            step: 1,
            calls,
            failure,
        }
    }
}

impl Read for Slow<'_> {
    fn read(&mut self, buf: &mut [u8]) -> Result<usize> {
        if self.calls == 0 {
            return Err(Error::from(self.failure));
        }
        self.calls -= 1;
        let most = buf.len().min(self.step);
        self.bytes.read(&mut buf[..most])
    }
}

/// What a writer without room answers.
#[derive(Debug, Clone, Copy, PartialEq, Eq)]
pub enum Full {
    Fails,
    TakesNone,
}

/// Takes at most `step` bytes a call, and `room` bytes in all.
#[derive(Drop)]
pub struct Narrow {
    pub taken: Vec<u8>,
    pub step: usize,
    pub room: usize,
    pub full: Full,
    pub flush_fails: bool,
    pub flushes: u32,
}

impl Narrow {
    pub fn new(alloc: Global, step: usize, room: usize, full: Full) -> Narrow {
        Narrow {
            taken: Vec::new(alloc),
            step,
            room,
            full,
            flush_fails: false,
            flushes: 0,
        }
    }
}

impl Write for Narrow {
    ghost contents = { λ narrow. Some narrow.taken.items };

    fn write(&mut self, buf: &[u8]) -> Result<usize> {
        let room = self.room.saturating_sub(self.taken.len());
        let count = buf.len().min(self.step).min(room);
        if room == 0 && self.full == Full::Fails {
            return Err(Error::from(ErrorKind::StorageFull));
        }
        self.taken.extend_from_slice(&buf[..count])?;
        Ok(count)
    }

    fn flush(&mut self) -> Result<()> {
        if self.flush_fails {
            return Err(Error::from(ErrorKind::Interrupted));
        }
        self.flushes = self.flushes.saturating_add(1);
        Ok(())
    }
}

/// A writer with a buffer and a count of its own.
#[derive(Drop)]
pub struct Buffered {
    pub out: Vec<u8>,
    pub held: Vec<u8>,
    pub count: u64,
}

impl Buffered {
    pub fn new(alloc: Global) -> Buffered {
        Buffered {
            out: Vec::new(alloc),
            held: Vec::new(alloc),
            count: 0,
        }
    }
}

impl Faults for Buffered {
    ghost fault_count = { λ buffered. buffered.count };

    fn faults(&self) -> u64 {
        self.count
    }
}

impl Write for Buffered {
    ghost contents = { λ buffered. Some (buffered.out.items ++ buffered.held.items) };

    fn write(&mut self, buf: &[u8]) -> Result<usize> {
        self.write_counted(buf)
    }

    fn flush(&mut self) -> Result<()> {
        self.flush_counted()
    }
}

impl CountedWrite for Buffered {
    ghost flushed = { λ buffered. buffered.held.items ≡ [] };

    fn write_counted(&mut self, buf: &[u8]) -> Result<usize> {
        if let Err(error) = self.held.extend_from_slice(buf) {
            self.count = self.count.saturating_add(1);
            return Err(Error::from(error));
        }
        Ok(buf.len())
    }

    fn flush_counted(&mut self) -> Result<()> {
        if let Err(error) = self.out.extend_from_slice(self.held.as_slice()) {
            self.count = self.count.saturating_add(1);
            return Err(Error::from(error));
        }
        self.held.clear();
        Ok(())
    }
}
