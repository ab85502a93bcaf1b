//! The count beside a device.
ghost use Rattle.std.specs.Prelude.{◌≡◌, if◌then◌else◌};
ghost use Rattle.std.specs.Io.{ReadsAtMost, WritesAtMost};
ghost use Rattle.std.specs.Io.KnownBytes.{Keeps, ReadConsumes, WriteAppends};
ghost use Rattle.scene.specs.Faults.{raised, CountsFailure, CountsWrite};

use crate::devices::faults::{CountedRead, CountedWrite, Faults};
use std::io::{Read, Result, Write};

/// A reader or a writer with the count of its failures: errors of `read`, `write` and `flush`, and
/// answers of 0 to a `write` of at least one byte. At its greatest value, 2^64 - 1, the count stays.
///
/// ```text
/// let mut reader = Counted::new(b"[1,2]".as_slice());
/// let document = read_bytes(rt.alloc(), &mut reader)?;
/// assert_eq!(rt; document.as_slice(), b"[1,2]".as_slice());
/// assert_eq!(rt; reader.faults(), 0);
/// ```
#[derive(Debug, Drop)]
pub struct Counted<T> {
    device: T,
    count: u64,
}

impl<T> Counted<T> {
    ghost use Rattle.scene.specs.Counted.{count_of, device_of};

    /// Counts the failures of `device` from now on, beginning at 0.
    pub fn new(device: T) -> Counted<T>
        ensures device { device_of result ≡ device }
        ensures count { count_of result ≡ 0 }
    {
        Counted { device, count: 0 }
    }

    /// The device.
    pub fn get_ref(&self) -> &T
        ensures { result.now ≡ device_of self.now }
    {
        &self.device
    }

    /// Gives the device back, and forgets the count.
    pub fn into_inner(self) -> T
        ensures { result ≡ device_of self }
    {
        let Counted { device, count: _ } = self;
        device
    }

    // Counts one more failure, if it was one.
    fn tally(&mut self, is_failure: bool)
        ensures device { device_of self.new ≡ device_of self.old }
        ensures count { count_of self.new
            ≡ (if is_failure then raised (count_of self.old) else count_of self.old) }
    {
        if is_failure {
            self.count = self.count.saturating_add(1);
        }
    }
}

impl<T> Faults for Counted<T> {
    ghost use Rattle.scene.specs.Counted.{count_of};

    ghost fault_count = { count_of };

    fn faults(&self) -> u64 {
        self.count
    }
}

impl<T: Read> Read for Counted<T> {
    ghost use Rattle.scene.specs.Counted.{count_of, device_of};

    ghost remaining = { λ counted. T.remaining (device_of counted) };

    fn read(&mut self, buf: &mut [u8]) -> Result<usize>
        ensures bound { ReadsAtMost result buf.new }
        ensures bytes { ReadConsumes (T.remaining (device_of self.old))
            (T.remaining (device_of self.new)) result buf.new }
        ensures count { CountsFailure (count_of self.old) (count_of self.new) result }
    {
        let given = self.device.read(buf);
        self.tally(given.is_err());
        given
    }
}

impl<T: Read> CountedRead for Counted<T> {
    fn read_counted(&mut self, buf: &mut [u8]) -> Result<usize> {
        self.read(buf)
    }
}

impl<T: Write> Write for Counted<T> {
    ghost use Rattle.scene.specs.Counted.{count_of, device_of};

    ghost contents = { λ counted. T.contents (device_of counted) };

    fn write(&mut self, buf: &[u8]) -> Result<usize>
        ensures bound { WritesAtMost result buf.now }
        ensures bytes { WriteAppends (T.contents (device_of self.old))
            (T.contents (device_of self.new)) result buf.now }
        ensures count { CountsWrite (count_of self.old) (count_of self.new) result buf.now }
    {
        let taken = self.device.write(buf);
        let is_refused = match taken {
            Ok(0) => !buf.is_empty(),
            Ok(_) => false,
            Err(_) => true,
        };
        self.tally(is_refused);
        taken
    }

    fn flush(&mut self) -> Result<()>
        ensures bytes { Keeps (T.contents (device_of self.old)) (T.contents (device_of self.new)) }
        ensures count { CountsFailure (count_of self.old) (count_of self.new) result }
    {
        let flushed = self.device.flush();
        self.tally(flushed.is_err());
        flushed
    }
}

impl<T: Write> CountedWrite for Counted<T> {
    fn write_counted(&mut self, buf: &[u8]) -> Result<usize> {
        self.write(buf)
    }

    fn flush_counted(&mut self) -> Result<()> {
        self.flush()
    }
}
