//! From the list on standard input to the files on standard output, and the status.
ghost use Rattle.std.specs.Prelude.{◌≡◌, IfOk, OnErr};
ghost use Rattle.value_writer.specs.Variants.{HasVariants, HasOwnVariants};

use crate::list::{List, read_list};
use crate::logic::{put_answers, put_lemmas, put_specs};
use crate::refusal::{Refusal, Stop};
use crate::scene::put_scene_behind;
use crate::values::{put_behind, put_front, put_variants};
use std::alloc::{AllocError, Global};
use std::io;
use std::io::{Read, Write};

/// What stands behind the variants in the files of a list.
fn rest_of(alloc: Global, list: &List) -> Result<Vec<u8>, AllocError> {
    let mut out = Vec::new(alloc);
    if list.scene.is_some() {
        put_scene_behind(&mut out, alloc, list)?;
        return Ok(out);
    }
    put_behind(&mut out, list)?;
    put_specs(&mut out, list)?;
    put_lemmas(&mut out, list)?;
    put_answers(&mut out, list)?;
    Ok(out)
}

/// All files of a list.
///
/// Errors: want of memory.
fn files_of(alloc: Global, list: &List) -> Result<Vec<u8>, AllocError>
    ensures { IfOk result (λ text. HasVariants list.now.kinds.items text.items) }
{
    let rest = rest_of(alloc, list)?;
    let mut out = Vec::new(alloc);
    put_front(&mut out, alloc, list)?;
    put_variants(&mut out, &list.kinds)?;
    out.extend_from_slice(&rest)?;
    Ok(out)
}

/// The files of the list of a text.
///
/// Errors: those of `read_list`, and want of memory.
fn files_of_text(alloc: Global, text: &str) -> Result<Vec<u8>, Stop>
    ensures { IfOk result (λ text. HasOwnVariants text.items) }
{
    let list = match read_list(alloc, text) {
        Ok(list) => list,
        Err(stop) => return Err(stop),
    };
    match files_of(alloc, &list) {
        Ok(text) => Ok(text),
        Err(_) => Err(Stop::Memory),
    }
}

/// The files of the list that bytes are.
///
/// Errors: `NotText`, those of `read_list`, and want of memory.
fn files_of_bytes(alloc: Global, bytes: &[u8]) -> Result<Vec<u8>, Stop>
    ensures { IfOk result (λ text. HasOwnVariants text.items) }
{
    match str::from_utf8(bytes) {
        Ok(text) => files_of_text(alloc, text),
        Err(_) => Err(Stop::Refused {
            line: 1,
            refusal: Refusal::NotText,
        }),
    }
}

/// Writes the files, if there are any.
fn give<W: Write>(files: &Result<Vec<u8>, Stop>, out: &mut W) -> io::Result<()>
    ensures { OnErr files.now (W.contents out.new ≡ W.contents out.old) }
{
    match files {
        Ok(text) => out.write_all(text),
        Err(_) => Ok(()),
    }
}

/// Tells why nothing is written by a line on standard error, and answers the status. A failure there is passed over.
fn tell<R: Eprint>(rt: &R, stop: Stop) -> u8 {
    match stop {
        Stop::Refused { line, refusal } => {
            let name = refusal.name();
            let _ = eprintln!(rt; "line {line}: {name}");
            1
        }
        Stop::Memory => {
            let _ = eprintln!(rt; "out of memory");
            4
        }
    }
}

/// Tells that a device failed by a line on standard error, and answers the status. A failure there is passed over.
fn tell_failed<R: Eprint>(rt: &R, call: &str) -> u8 {
    let _ = eprintln!(rt; "{call} failed");
    3
}

/// All bytes of standard input.
fn input_of<R: Input + AllocGlobal>(rt: &R) -> io::Result<Vec<u8>> {
    let mut bytes = Vec::new(rt.alloc());
    let mut reader = rt.reader();
    reader.read_to_end(&mut bytes)?;
    Ok(bytes)
}

/// Writes the files of the list on standard input, and answers the status.
pub(crate) fn write_files<R: Input + Print + Eprint + AllocGlobal>(rt: &R) -> u8 {
    let Ok(bytes) = input_of(rt) else {
        return tell_failed(rt, "read");
    };
    let files = files_of_bytes(rt.alloc(), &bytes);
    let mut out = io::writer(rt);
    match give(&files, &mut out) {
        Ok(()) => match files {
            Ok(_) => 0,
            Err(stop) => tell(rt, stop),
        },
        Err(_) => tell_failed(rt, "write"),
    }
}
