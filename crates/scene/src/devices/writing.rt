//! Writing a whole text.
ghost use Rattle.std.specs.Prelude.{◌≤◌, length, take, IfErr, OnOk, OnErr};
ghost use Rattle.std.specs.Io.KnownBytes.{Appends};
ghost use Rattle.scene.specs.Faults.{CountsFailure, HasFailed};

use crate::devices::faults::CountedWrite;
use thiserror::Error;

/// A text that didn't go out whole, or wasn't flushed.
#[derive(Debug, Clone, Copy, PartialEq, Eq, Error)]
#[error("write failed after {sent} bytes")]
pub struct WriteFailure {
    /// How many of its bytes went out: the first ones.
    pub sent: u64,
}

/// Writes all bytes of `text` by as many writes as that takes, and then flushes once.
///
/// It takes no memory. Errors: if a write failed or took none of the bytes that were left, or if the
/// flush failed. Just the first `sent` bytes of the text are out then: where the flush failed, all.
pub fn write_text<W: CountedWrite>(writer: &mut W, text: &[u8]) -> Result<(), WriteFailure>
    // The whole text and no other byte, handed on.
    ensures written { OnOk result
        (Appends (W.contents writer.old) (W.contents writer.new) text.now) }
    ensures flushed { OnOk result (W.flushed writer.new) }

    // Just the first bytes went out.
    ensures sent { IfErr result (λ error.
        Appends (W.contents writer.old) (W.contents writer.new) (take error.sent text.now)) }
    ensures within { IfErr result (λ error. error.sent ≤ length text.now) }

    // Refused exactly where the writer failed in the call, and it failed once.
    ensures count { CountsFailure (W.fault_count writer.old) (W.fault_count writer.new) result }
    ensures failed { OnErr result
        (HasFailed (W.fault_count writer.old) (W.fault_count writer.new)) }
{
    let mut sent = 0usize;
    while sent < text.len() {
        match writer.write_counted(&text[sent..]) {
            Ok(taken) if taken > 0 => sent += taken,
            _ => return Err(WriteFailure { sent: sent as u64 }),
        }
    }
    match writer.flush_counted() {
        Ok(()) => Ok(()),
        Err(_) => Err(WriteFailure { sent: sent as u64 }),
    }
}
