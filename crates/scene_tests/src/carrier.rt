//! A run in small: the document that was read is the text that is written.
ghost use Rattle.std.specs.Prelude.{◌≡◌, ◌⊎◌, ℕ, ◌≤◌, length, take, IfSome, IfOk, OnOk};
ghost use Rattle.std.specs.Io.KnownBytes.{Appends};
ghost use Rattle.scene.specs.Faults.{HasFailed};
ghost use Rattle.scene.specs.Reading.{GivesAtLeast};

use scene::devices::{
    Counted, CountedRead, CountedWrite, MOST_READS, ReadFailure, read_bytes, write_text,
};
use std::alloc::Global;

/// Why a document wasn't carried over.
#[derive(Debug, Clone, Copy, PartialEq, Eq)]
pub enum CarryError {
    Read,
    Write(u64),
    Memory,
}

/// Reads a whole document, and then writes it.
pub fn carry<R: CountedRead, W: CountedWrite>(
    alloc: Global,
    reader: &mut R,
    writer: &mut W,
) -> Result<(), CarryError>
    // All that the reader had is all that the writer got.
    ensures carried { OnOk result (IfSome (R.remaining reader.old) (λ document.
        Appends (W.contents writer.old) (W.contents writer.new) document)) }
    ensures flushed { OnOk result (W.flushed writer.new) }
    ensures reader_sound { OnOk result (R.fault_count reader.new ≡ R.fault_count reader.old) }
    ensures writer_sound { OnOk result (W.fault_count writer.new ≡ W.fault_count writer.old) }

    // A read that fails comes before the first write.
    ensures read { result ≡ Err CarryError.Read
        → HasFailed (R.fault_count reader.old) (R.fault_count reader.new)
        ⊎ GivesAtLeast MOST_READS (R.remaining reader.old) (R.remaining reader.new) }
    ensures read_writes_nothing { result ≡ Err CarryError.Read → writer.new ≡ writer.old }
    ensures memory_writes_nothing { result ≡ Err CarryError.Memory → writer.new ≡ writer.old }

    // A write that fails is the writer's failure, and leaves just the first bytes.
    ensures write { (sent : ℕ) → result ≡ Err (CarryError.Write sent)
        → HasFailed (W.fault_count writer.old) (W.fault_count writer.new) }
    ensures write_leaves { (sent : ℕ) → result ≡ Err (CarryError.Write sent)
        → IfSome (R.remaining reader.old) (λ document.
        Appends (W.contents writer.old) (W.contents writer.new) (take sent document)) }
    ensures write_within { (sent : ℕ) → result ≡ Err (CarryError.Write sent)
        → IfSome (R.remaining reader.old) (λ document. sent ≤ length document) }
{
    let document = match read_bytes(alloc, reader) {
        Ok(document) => document,
        Err(ReadFailure::Read) => return Err(CarryError::Read),
        Err(ReadFailure::Memory) => return Err(CarryError::Memory),
    };
    match write_text(writer, document.as_slice()) {
        Ok(()) => Ok(()),
        Err(error) => Err(CarryError::Write(error.sent)),
    }
}

/// Carries a document over from memory to memory.
pub fn carry_in_memory(alloc: Global, document: &[u8]) -> Result<Vec<u8>, CarryError>
    ensures { IfOk result (λ text. text.items ≡ document.now) }
{
    let mut reader = Counted::new(document);
    let mut writer = Counted::new(Vec::new(alloc));
    carry(alloc, &mut reader, &mut writer)?;
    Ok(writer.into_inner())
}
