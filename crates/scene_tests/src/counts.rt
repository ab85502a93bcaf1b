//! Reads to the end and writes of a whole text over devices that count their failures.
use crate::carrier::{CarryError, carry, carry_in_memory};
use crate::devices::{Buffered, Full, Narrow, Slow};
use scene::devices::{Counted, Faults, ReadFailure, WriteFailure, read_bytes, read_within};
use std::alloc::{AllocError, Global};
use std::io::{self, ErrorKind, Read, Write};
use std::test::Fail;

/// A document of this length, in which each byte differs from its neighbours.
fn sample(alloc: Global, len: usize) -> Result<Vec<u8>, AllocError> {
    let mut bytes = Vec::new(alloc);
    let mut byte = 0u8;
    for _ in 0..len {
        bytes.push(byte)?;
        byte = byte.wrapping_add(7);
    }
    Ok(bytes)
}

/// Lengths of documents, and how many bytes a call gives at most.
const LENGTHS: [(usize, usize); 9] = [
    (0, 1),
    (1, 1),
    (2, 1),
    (300, 7),
    (8191, 9000),
    (8192, 9000),
    (8193, 9000),
    (20000, 8191),
    (20000, 20000),
];

/// Whether a document is read whole from a device that gives so many bytes a call.
fn is_read_whole(alloc: Global, bytes: &[u8], step: usize) -> bool {
    let mut reader = Counted::new(Slow {
        bytes,
        step,
        calls: u32::MAX,
        failure: ErrorKind::Other,
    });
    match read_bytes(alloc, &mut reader) {
        Ok(document) => document.as_slice() == bytes && reader.faults() == 0,
        Err(_) => false,
    }
}

#[test]
fn a_document_is_read_whole(rt: HostRuntime) -> Result<(), Fail> {
    let mut wrong = None;
    for (len, step) in LENGTHS {
        let bytes = sample(rt.alloc(), len)?;
        if !is_read_whole(rt.alloc(), bytes.as_slice(), step) {
            wrong = Some((len, step));
        }
    }
    assert_eq!(rt; wrong, None);
    Ok(())
}

/// Whether three bytes, one a call, are read within so many reads.
fn is_read_within(alloc: Global, reads: u32) -> bool {
    let mut reader = Counted::new(Slow::new("abc", u32::MAX, ErrorKind::Other));
    read_within(alloc, &mut reader, reads).is_ok()
}

#[test]
fn a_reader_without_end_is_given_up(rt: HostRuntime) {
    // Only the fourth call tells the end.
    for (reads, is_read) in [(0, false), (3, false), (4, true), (5, true)] {
        assert_eq!(rt; is_read_within(rt.alloc(), reads), is_read, "{reads} reads");
    }
    let mut endless = Counted::new(io::repeat(7));
    assert_eq!(rt;
        read_within(rt.alloc(), &mut endless, 3).err(),
        Some(ReadFailure::Read)
    );
}

/// How many failures three reads past one that succeeds count, by the method of the library.
fn failures_of_reads() -> u64 {
    let mut reader = Counted::new(Slow::new("ab", 1, ErrorKind::Interrupted));
    let mut buf = [0u8; 4];
    let mut failed = 0u64;
    for _ in 0..4 {
        if reader.read(&mut buf).is_err() {
            failed = failed.saturating_add(1);
        }
    }
    if failed == 3 { reader.faults() } else { 0 }
}

/// What is counted of writes and flushes, by the methods of the library: failures where none is, failures, and flushes of the device.
fn failures_of_writes(alloc: Global) -> io::Result<(u64, u64, u32)> {
    let mut writer = Counted::new(Narrow::new(alloc, 9, 2, Full::TakesNone));
    let none = writer.write(b"")?;
    let two = writer.write(b"abc")?;
    writer.flush()?;
    let before = writer.faults();
    let full = writer.write(b"c")?;
    let empty = writer.write(b"")?;
    let sound = none == 0 && two == 2 && full == 0 && empty == 0;
    let flushes = if sound { writer.get_ref().flushes } else { 0 };
    Ok((before, writer.faults(), flushes))
}

#[test]
fn each_failure_counts_once(rt: HostRuntime) -> Result<(), Fail> {
    assert_eq!(rt; failures_of_reads(), 3);
    assert_eq!(rt; failures_of_writes(rt.alloc())?, (0, 1, 1));
    Ok(())
}

/// Whether a document goes through references into a device that counts by itself.
fn is_carried_into_a_buffer(alloc: Global) -> bool {
    let mut reader = Counted::new(b"[1,2]".as_slice());
    let mut buffered = Buffered::new(alloc);
    carry(alloc, &mut &mut reader, &mut &mut buffered).is_ok()
        && buffered.out.as_slice() == b"[1,2]".as_slice()
        && buffered.held.is_empty()
        && buffered.faults() == 0
}

/// Whether a device that is full after three bytes is told.
fn is_carried_to_the_third_byte(alloc: Global) -> bool {
    let mut reader = Counted::new(b"[1,2]".as_slice());
    let mut writer = Counted::new(Narrow::new(alloc, 1, 3, Full::TakesNone));
    carry(alloc, &mut reader, &mut writer) == Err(CarryError::Write(3))
}

#[test]
fn a_run_carries_the_document_over(rt: HostRuntime) -> Result<(), Fail> {
    let text = carry_in_memory(rt.alloc(), b"[1,2]")?;
    assert_eq!(rt; text.as_slice(), b"[1,2]".as_slice());
    assert!(rt; is_carried_into_a_buffer(rt.alloc()));
    assert!(rt; is_carried_to_the_third_byte(rt.alloc()));
    Ok(())
}

/// Whether 20,000 bytes are read, or want of memory is told, with no failure of the device.
fn is_read_or_told(alloc: Global) -> bool {
    let mut reader = Counted::new(io::repeat(7).take(20000));
    let told = match read_bytes(alloc, &mut reader) {
        Ok(document) => document.len() == 20000,
        Err(error) => error == ReadFailure::Memory,
    };
    told && reader.faults() == 0
}

#[test]
fn want_of_memory_is_an_answer(rt: HostRuntime) {
    assert!(rt; is_read_or_told(rt.alloc()));
}

#[test]
fn errors_print_as_the_program_tells_them(rt: HostRuntime) -> Result<(), Fail> {
    let read = ReadFailure::Read;
    let memory = ReadFailure::Memory;
    let write = WriteFailure { sent: 37 };
    let told = format!(in rt.alloc(); "{read}; {memory}; {write}")?;
    assert_eq!(rt;
        told.as_str(),
        "read failed; out of memory; write failed after 37 bytes"
    );
    Ok(())
}
