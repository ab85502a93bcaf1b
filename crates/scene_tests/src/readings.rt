//! Documents read token by token and as a whole: both ways give one scene or one refusal, on rows and on what becomes of them by
//! small changes.
ghost use Rattle.std.specs.Prelude.{◌<◌, ◌≤◌, length};

use scene::{DocRefusal, Limits, LoadError, Rules, Scene};
use scene_basics::Basics;
use scene_document::{JsonError, read_apart, read_json};
use std::alloc::{AllocError, Global};

/// Documents in which all is plain: they are read token by token.
const PLAIN: [&str; 11] = [
    "{\"next\":0,\"entities\":[]}",
    "{\"next\":2,\"entities\":[{\"id\":0,\"parts\":{\"hp\":1,\"owner\":1,\"pos\":5,\"vel\":-2}},{\"id\":1,\"parts\":{\"pos\":1}}],\"systems\":[{\"kind\":\"drift\"}],\"frames\":3}",
    "{\"entities\":[{\"id\":7,\"parts\":{\"hp\":3}},{\"id\":2,\"parts\":{}}],\"globals\":{\"g\":-3},\"next\":8,\"store\":\"hash\",\"workers\":4}",
    " { \"commands\" : [ [ ] , [ { \"spawn\" : { \"pos\" : 10 , \"vel\" : -1 } } ] ] ,\n\t\"entities\" : [ { \"id\" : 0 , \"parts\" : { \"pos\" : 1 } } ] , \"frames\" : 2 , \"next\" : 1 } ",
    "{\"next\":1,\"entities\":[{\"id\":0,\"parts\":{}}],\"systems\":[{\"kind\":\"pull\",\"name\":\"p\"},{\"barrier\":true},{\"kind\":\"drift\",\"after\":[\"p\"]}],\"globals\":{\"g\":0}}",
    "{\"ne\\u0078t\":0,\"entit\\u0069es\":[{\"\\u0069d\":0,\"parts\":{\"h\\u0070\":2}}],\"next\":1}",
    "{\"next\":0,\"next\":1,\"entities\":[{\"id\":0,\"parts\":{\"hp\":-9223372036854775808}}]}",
    "{\"next\":18446744073709551615,\"entities\":[{\"id\":18446744073709551614,\"parts\":{\"hp\":9223372036854775807}}]}",
    "{\"next\":1,\"entities\":[],\"unknown\":[]}",
    "{\"next\":\"one\",\"entities\":[{\"id\":3,\"parts\":{\"hp\":1}}]}",
    "{\"next\":1,\"entities\":[{\"id\":0,\"parts\":{\"hp\":1}},{\"id\":0,\"parts\":{\"hp\":2}}]}",
];

/// Documents in which something is not plain, or which are none.
const OTHERS: [&str; 17] = [
    "{\"next\":1,\"entities\":[{\"id\":0,\"parts\":{\"owner\":null}}]}",
    "{\"next\":1,\"entities\":[{\"parts\":{\"hp\":1},\"id\":0}]}",
    "{\"next\":1,\"entities\":[{\"id\":0,\"parts\":{\"pos\":1,\"hp\":2}}]}",
    "{\"next\":1,\"entities\":[{\"id\":0,\"parts\":{\"hp\":1,\"hp\":2}}]}",
    "{\"next\":1,\"entities\":[{\"id\":0,\"parts\":{\"none\":2}}]}",
    "{\"next\":1,\"entities\":[{\"id\":0,\"parts\":{\"hp\":1},\"more\":2}]}",
    "{\"next\":1,\"entities\":[{\"id\":0,\"id\":0,\"parts\":{\"hp\":1}}]}",
    "{\"next\":1,\"entities\":[{\"id\":0,\"parts\":{\"hp\":1}}],\"entities\":[]}",
    "{\"next\":1,\"entities\":[{\"id\":0,\"parts\":{\"hp\":1.0}}]}",
    "{\"next\":1,\"entities\":[{\"id\":0,\"parts\":{\"hp\":-0}}]}",
    "{\"next\":1e0,\"entities\":[]}",
    "{\"next\":18446744073709551616,\"entities\":[]}",
    "{\"next\":1,\"entities\":[{\"id\":-9223372036854775809,\"parts\":{}}]}",
    "{\"next\":1,\"entities\":[{\"id\":0,\"parts\":{\"hp\":\"one\"}}]}",
    "{\"next\":1}",
    "[{\"next\":0,\"entities\":[]}]",
    "{\"next\":0,\"entities\":[]}]",
];

/// The text of a scene before any frame, and how many frames its document asks for.
fn shown<R: Rules + Drop>(alloc: Global, scene: &Scene<R>) -> Result<(Vec<u8>, u32), LoadError>
where
    R::Value: Drop,
{
    let text = scene.snapshot(alloc)?;
    Ok((text, scene.left()))
}

/// What a document gives that is read token by token where it is plain.
fn by_tokens<R: Rules + Drop>(
    alloc: Global,
    rules: R,
    bytes: &[u8],
) -> Result<(Vec<u8>, u32), LoadError>
where
    R::Value: Drop,
{
    let scene = Scene::open(alloc, rules, Limits::FULL, bytes)?;
    shown(alloc, &scene)
}

/// What a document gives that is read as a whole.
fn as_a_whole<R: Rules + Drop>(
    alloc: Global,
    rules: R,
    bytes: &[u8],
) -> Result<(Vec<u8>, u32), LoadError>
where
    R::Value: Drop,
{
    let value = match read_json(alloc, bytes) {
        Ok(value) => value,
        Err(JsonError::Unreadable) => return Err(LoadError::Document(DocRefusal::Unreadable)),
        Err(JsonError::Memory) => return Err(LoadError::Memory),
    };
    let scene = Scene::load_owned(alloc, rules, Limits::FULL, value)?;
    shown(alloc, &scene)
}

/// Whether both ways give one scene or one refusal.
fn agree(alloc: Global, bytes: &[u8]) -> bool {
    match (
        by_tokens(alloc, Basics, bytes),
        as_a_whole(alloc, Basics, bytes),
    ) {
        (Ok((text, left)), Ok((other_text, other_left))) => {
            text.as_slice() == other_text.as_slice() && left == other_left
        }
        (Err(error), Err(other_error)) => error == other_error,
        _ => false,
    }
}

/// Whether a document is read token by token, or isn't, as this says, and both ways give one scene or one refusal.
fn holds(alloc: Global, document: &str, plain: bool) -> bool {
    let bytes = document.as_bytes();
    match read_apart(alloc, &Basics, bytes) {
        Ok(found) => found.is_some() == plain && agree(alloc, bytes),
        Err(_) => false,
    }
}

#[test]
fn plain_documents_are_read_token_by_token(rt: HostRuntime) {
    let mut wrong = None;
    for document in PLAIN.as_slice() {
        if !holds(rt.alloc(), document, true) {
            wrong = Some(*document);
        }
    }
    for document in OTHERS.as_slice() {
        if !holds(rt.alloc(), document, false) {
            wrong = Some(*document);
        }
    }
    assert_eq!(rt; wrong, None);
}

/// A number that follows another, as if by chance.
fn next_number(number: u32) -> u32 {
    number.wrapping_mul(1_664_525).wrapping_add(1_013_904_223)
}

/// A place among so many, as a number falls; there is at least one.
fn place_of(number: u32, count: usize) -> usize
    requires { 0 < count }
    ensures { result < count }
{
    (number / 64) as usize % count
}

/// What may be put in: signs of JSON, white space, numbers at the ends of 64 bits and past them, floats, and keys.
const PIECES: [&str; 24] = [
    "{",
    "}",
    "[",
    "]",
    ",",
    ":",
    "\"",
    "\\",
    "\\u0069",
    " ",
    "\n\t\r",
    "0",
    "-",
    "18446744073709551615",
    "18446744073709551616",
    "-9223372036854775808",
    "-9223372036854775809",
    "1.5",
    "e3",
    "null",
    "true",
    "\"id\":0,",
    "\"hp\":1,",
    "\"entities\":[],",
];

/// A document with a piece put in at a place, in place of what stands between it and another.
///
/// Errors: want of memory.
fn with_piece(
    alloc: Global,
    bytes: &[u8],
    from: usize,
    to: usize,
    piece: &[u8],
) -> Result<Vec<u8>, AllocError>
    requires order { from ≤ to }
    requires within { to ≤ length bytes.now }
{
    let mut changed = Vec::from_slice(alloc, &bytes[..from])?;
    changed.extend_from_slice(piece)?;
    changed.extend_from_slice(&bytes[to..])?;
    Ok(changed)
}

/// A document changed in one place, as a number falls: a piece put in, or put over one byte; a stretch left out, doubled, or all
/// from it on cut off.
///
/// Errors: want of memory.
fn changed(alloc: Global, bytes: &[u8], number: u32) -> Result<Vec<u8>, AllocError>
    requires { 0 < length bytes.now }
{
    let second = next_number(number);
    let from = place_of(number, bytes.len());
    let to = from + place_of(second, bytes.len() - from);
    let piece = PIECES[place_of(next_number(second), PIECES.len())].as_bytes();
    match number % 6 {
        0 => with_piece(alloc, bytes, from, from, piece),
        1 => with_piece(alloc, bytes, from, from + 1, piece),
        2 => with_piece(alloc, bytes, from, to, &[]),
        3 => with_piece(alloc, bytes, to, to, &bytes[from..to]),
        4 => with_piece(alloc, bytes, from, to, piece),
        _ => Vec::from_slice(alloc, &bytes[..from]),
    }
}

/// How often each document is changed.
const CHANGES: u32 = 20;

/// A change after which both ways differ, if there is one.
///
/// Errors: want of memory.
fn differing(alloc: Global, document: &str, start: u32) -> Result<Option<u32>, AllocError> {
    let bytes = document.as_bytes();
    let mut number = start;
    let mut wrong = None;
    if bytes.is_empty() {
        return Ok(None);
    }
    for _ in 0..CHANGES {
        number = next_number(number);
        let changed = changed(alloc, bytes, number)?;
        if !agree(alloc, changed.as_slice()) {
            wrong = Some(number);
        }
    }
    Ok(wrong)
}

#[test]
fn changed_documents_are_read_alike(rt: HostRuntime) {
    let mut wrong = None;
    let mut start = 0;
    for document in PLAIN.as_slice() {
        start = next_number(start);
        if differing(rt.alloc(), document, start) != Ok(None) {
            wrong = Some(*document);
        }
    }
    for document in OTHERS.as_slice() {
        start = next_number(start);
        if differing(rt.alloc(), document, start) != Ok(None) {
            wrong = Some(*document);
        }
    }
    assert_eq!(rt; wrong, None);
}

/// A document in which the configuration of a system nests so deep.
///
/// Errors: want of memory.
fn nested(alloc: Global, depth: usize) -> Result<Vec<u8>, AllocError> {
    let mut text = Vec::from_slice(
        alloc,
        b"{\"next\":0,\"entities\":[],\"systems\":[{\"kind\":\"drift\",\"config\":",
    )?;
    for _ in 0..depth {
        text.push(b'[')?;
    }
    for _ in 0..depth {
        text.push(b']')?;
    }
    text.extend_from_slice(b"}]}")?;
    Ok(text)
}

/// Whether both ways read a document alike in which a configuration nests so deep.
fn agree_at(alloc: Global, depth: usize) -> bool {
    match nested(alloc, depth) {
        Ok(text) => agree(alloc, text.as_slice()),
        Err(_) => false,
    }
}

#[test]
fn deep_documents_are_read_alike(rt: HostRuntime) {
    let mut wrong = None;
    for depth in 120..130 {
        if !agree_at(rt.alloc(), depth) {
            wrong = Some(depth);
        }
    }
    assert_eq!(rt; wrong, None);
}
