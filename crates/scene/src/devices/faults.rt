//! What a device has to offer so that a contract can tell its failures.
ghost use Rattle.std.specs.Prelude.{◌≡◌, ℕ, OnOk};
ghost use Rattle.std.specs.Io.{ReadsAtMost, WritesAtMost};
ghost use Rattle.std.specs.Io.KnownBytes.{Keeps, ReadConsumes, WriteAppends};
ghost use Rattle.scene.specs.Faults.{CountsFailure, CountsWrite};

use std::io::{Read, Result, Write};

/// A device that counts its failures.
pub trait Faults {
    /// How often the device failed so far.
    ghost fault_count: { Self → ℕ };

    /// How often the device failed so far. At its greatest value, 2^64 - 1, the count stays.
    fn faults(&self) -> u64
        ensures { result ≡ fault_count self.now };
}

/// A reader whose reads count their failures.
pub trait CountedRead: Read + Faults {
    /// Reads into `buf`, as `read` does, and counts an error as one failure.
    ///
    /// An answer of 0 where `buf` has room says that the reader is at its end. An error, also one
    /// that says that a signal came between, takes no byte.
    fn read_counted(&mut self, buf: &mut [u8]) -> Result<usize>
        ensures bound { ReadsAtMost result buf.new }
        ensures bytes { ReadConsumes (Self.remaining self.old) (Self.remaining self.new)
            result buf.new }
        ensures count { CountsFailure (Self.fault_count self.old) (Self.fault_count self.new)
            result };
}

/// A writer whose writes and flushes count their failures.
pub trait CountedWrite: Write + Faults {
    /// Nothing is held back since the last flush.
    ghost flushed: { Self → Type 0 } = { λ _. Unit {0} };

    /// Offers `buf`, as `write` does, and answers how many of its first bytes were taken.
    ///
    /// An error counts as one failure, and takes no byte. So does an answer of 0, where `buf` isn't
    /// empty.
    fn write_counted(&mut self, buf: &[u8]) -> Result<usize>
        ensures bound { WritesAtMost result buf.now }
        ensures bytes { WriteAppends (Self.contents self.old) (Self.contents self.new)
            result buf.now }
        ensures count { CountsWrite (Self.fault_count self.old) (Self.fault_count self.new)
            result buf.now };

    /// Hands on what the writer may still hold, as `flush` does, and counts an error as one failure.
    fn flush_counted(&mut self) -> Result<()>
        ensures bytes { Keeps (Self.contents self.old) (Self.contents self.new) }
        ensures flushed { OnOk result (flushed self.new) }
        ensures count { CountsFailure (Self.fault_count self.old) (Self.fault_count self.new)
            result };
}

impl<D: Faults> Faults for &mut D {
    ghost fault_count = { λ device. D.fault_count device.now };

    fn faults(&self) -> u64 {
        Faults::faults(&**self)
    }
}

impl<R: CountedRead> CountedRead for &mut R {
    fn read_counted(&mut self, buf: &mut [u8]) -> Result<usize> {
        CountedRead::read_counted(&mut **self, buf)
    }
}

impl<W: CountedWrite> CountedWrite for &mut W {
    ghost flushed = { λ writer. W.flushed writer.now };

    fn write_counted(&mut self, buf: &[u8]) -> Result<usize> {
        CountedWrite::write_counted(&mut **self, buf)
    }

    fn flush_counted(&mut self) -> Result<()> {
        CountedWrite::flush_counted(&mut **self)
    }
}
