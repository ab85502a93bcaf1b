//! Reading to the end.
ghost use Rattle.std.specs.Prelude.{◌≡◌, ◌⊎◌, IfSome, IfOk, OnOk};
ghost use Rattle.std.specs.Io.KnownBytes.{IsAtEnd};
ghost use Rattle.scene.specs.Faults.{raised, HasFailed};
ghost use Rattle.scene.specs.Reading.{GivesAtLeast};

use crate::devices::faults::CountedRead;
use std::alloc::Global;
use thiserror::Error;

/// How many reads that give bytes are made, until the end is waited for no longer.
pub const MOST_READS: u32 = 4_294_967_295;

// The bytes of the buffer that each read fills.
const CHUNK: usize = 8192;

/// Why a document wasn't read.
#[derive(Debug, Clone, Copy, PartialEq, Eq, Error)]
pub enum ReadFailure {
    /// A read failed, or the reader gave bytes as often as it may and its end wasn't seen.
    #[error("read failed")]
    Read,
    /// There was no memory for what the reader gave.
    #[error("out of memory")]
    Memory,
}

/// Reads to the end through a buffer of 8 KiB, and answers all bytes that the reader had left.
///
/// Errors: `Read`, if a read failed, whatever its error (a signal that came between is one too), or if
/// the reader gave bytes `MOST_READS` times and its end wasn't seen; `Memory`, if there was no room for
/// what it gave. Both drop what was read, and the reader stands after it.
pub fn read_bytes<R: CountedRead>(alloc: Global, reader: &mut R) -> Result<Vec<u8>, ReadFailure>
    // All that the reader had left, and no failure.
    ensures whole { IfOk result (λ document. IfSome (R.remaining reader.old)
        (λ bytes. document.items ≡ bytes)) }
    ensures end { OnOk result (IsAtEnd (R.remaining reader.new)) }
    ensures sound { OnOk result (R.fault_count reader.new ≡ R.fault_count reader.old) }

    // When each refusal comes.
    ensures read { result ≡ Err ReadFailure.Read
        → HasFailed (R.fault_count reader.old) (R.fault_count reader.new)
        ⊎ GivesAtLeast MOST_READS (R.remaining reader.old) (R.remaining reader.new) }
    ensures memory { result ≡ Err ReadFailure.Memory
        → GivesAtLeast 1 (R.remaining reader.old) (R.remaining reader.new) }
    ensures memory_sound { result ≡ Err ReadFailure.Memory
        → R.fault_count reader.new ≡ R.fault_count reader.old }

    // What is left in each case.
    ensures once { (R.fault_count reader.new ≡ R.fault_count reader.old)
        ⊎ (R.fault_count reader.new ≡ raised (R.fault_count reader.old)) }
    ensures given { GivesAtLeast 0 (R.remaining reader.old) (R.remaining reader.new) }
{
    read_within(alloc, reader, MOST_READS)
}

/// Reads to the end as `read_bytes` does, from a reader that may give bytes fewer than `reads` times.
///
/// Errors: those of `read_bytes`, with `reads` in the place of `MOST_READS`.
pub fn read_within<R: CountedRead>(
    alloc: Global,
    reader: &mut R,
    reads: u32,
) -> Result<Vec<u8>, ReadFailure>
    // All that the reader had left, and no failure.
    ensures whole { IfOk result (λ document. IfSome (R.remaining reader.old)
        (λ bytes. document.items ≡ bytes)) }
    ensures end { OnOk result (IsAtEnd (R.remaining reader.new)) }
    ensures sound { OnOk result (R.fault_count reader.new ≡ R.fault_count reader.old) }

    // When each refusal comes.
    ensures read { result ≡ Err ReadFailure.Read
        → HasFailed (R.fault_count reader.old) (R.fault_count reader.new)
        ⊎ GivesAtLeast reads (R.remaining reader.old) (R.remaining reader.new) }
    ensures memory { result ≡ Err ReadFailure.Memory
        → GivesAtLeast 1 (R.remaining reader.old) (R.remaining reader.new) }
    ensures memory_sound { result ≡ Err ReadFailure.Memory
        → R.fault_count reader.new ≡ R.fault_count reader.old }

    // What is left in each case.
    ensures once { (R.fault_count reader.new ≡ R.fault_count reader.old)
        ⊎ (R.fault_count reader.new ≡ raised (R.fault_count reader.old)) }
    ensures given { GivesAtLeast 0 (R.remaining reader.old) (R.remaining reader.new) }
{
    let mut chunk = [0u8; CHUNK];
    let mut document = Vec::new(alloc);
    for _ in 0..reads {
        let given = match reader.read_counted(&mut chunk) {
            Ok(given) => given,
            Err(_) => return Err(ReadFailure::Read),
        };
        if given == 0 {
            return Ok(document);
        }
        if document.extend_from_slice(&chunk[..given]).is_err() {
            return Err(ReadFailure::Memory);
        }
    }
    Err(ReadFailure::Read)
}
