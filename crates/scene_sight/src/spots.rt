//! Lines and columns: where in a text the places of faults begin.
use crate::faults::Fault;
use crate::paths::Step;
use json::{Invalid, Reader, Scratch, Token};
use scene_model::DocRefusal;
use std::alloc::{AllocError, Global};
use std::collections::BTreeMap;

/// A place in a text: its line, its column in bytes, both from 1, and how many bytes stand before it.
#[derive(Clone, Copy, Debug, PartialEq, Eq)]
pub struct Spot {
    pub line: usize,
    pub column: usize,
    pub offset: usize,
}

/// A place that is sought: the faults there, and the places behind it by number.
#[derive(Drop)]
struct Sought {
    faults: Vec<usize>,
    keys: BTreeMap<String, usize>,
    items: BTreeMap<usize, usize>,
}

/// What is sought in a text, the root of it first, and what was found of it.
#[derive(Drop)]
struct Hunt {
    sought: Vec<Sought>,
    offsets: Vec<usize>,
}

/// Where each fault of a document stands in its bytes, in the order of the faults: the begin of an item, or of the key
/// of what stands under one. A key that comes twice in an object stands where it comes last. Bytes without a reading have
/// their fault where the reading stops: at a byte that begins no token, or behind a token that has no place there.
///
/// Errors: want of memory.
pub fn spots_of(alloc: Global, bytes: &[u8], faults: &[Fault]) -> Result<Vec<Spot>, AllocError> {
    let mut hunt = hunt_for(alloc, faults)?;
    let stop = match std::str::from_utf8(bytes) {
        Ok(text) => seek(alloc, text, &mut hunt)?,
        Err(error) => error.valid_up_to(),
    };
    let starts = line_starts(alloc, bytes)?;
    let mut spots = Vec::with_capacity(alloc, faults.len())?;
    for index in 0..faults.len() {
        let offset = if faults[index].refusal == DocRefusal::Unreadable {
            stop
        } else {
            hunt.offsets.get(index).copied().unwrap_or(0)
        };
        spots.push(spot_at(&starts, offset))?;
    }
    Ok(spots)
}

fn nothing_sought(alloc: Global) -> Sought {
    Sought {
        faults: Vec::new(alloc),
        keys: BTreeMap::new(alloc),
        items: BTreeMap::new(alloc),
    }
}

/// The hunt for the places of faults.
fn hunt_for(alloc: Global, faults: &[Fault]) -> Result<Hunt, AllocError> {
    let mut sought = Vec::new(alloc);
    sought.push(nothing_sought(alloc))?;
    let mut offsets = Vec::with_capacity(alloc, faults.len())?;
    for index in 0..faults.len() {
        seek_path(alloc, &mut sought, &faults[index].path, index)?;
        offsets.push(0)?;
    }
    Ok(Hunt { sought, offsets })
}

/// Puts a fault to the place that its path leads to.
fn seek_path(
    alloc: Global,
    sought: &mut Vec<Sought>,
    path: &[Step],
    fault: usize,
) -> Result<(), AllocError> {
    let mut here = 0usize;
    for step in path {
        here = place_behind(alloc, sought, here, step)?;
    }
    if let Some(place) = sought.get_mut(here) {
        place.faults.push(fault)?;
    }
    Ok(())
}

/// The number of the place behind another, which is made where there is none.
fn place_behind(
    alloc: Global,
    sought: &mut Vec<Sought>,
    here: usize,
    step: &Step,
) -> Result<usize, AllocError> {
    if let Some(known) = known_behind(sought, here, step) {
        return Ok(known);
    }
    let new = sought.len();
    sought.push(nothing_sought(alloc))?;
    if let Some(place) = sought.get_mut(here) {
        match step {
            Step::Key(key) => drop(place.keys.insert(key.clone()?, new)?),
            Step::Item(index) => drop(place.items.insert(*index, new)?),
        }
    }
    Ok(new)
}

fn known_behind(sought: &[Sought], here: usize, step: &Step) -> Option<usize> {
    let place = sought.get(here)?;
    match step {
        Step::Key(key) => place.keys.get(key).copied(),
        Step::Item(index) => place.items.get(index).copied(),
    }
}

/// Seeks the places in a text, and says where the reader came to.
fn seek(alloc: Global, text: &str, hunt: &mut Hunt) -> Result<usize, AllocError> {
    let mut scratch = Scratch::new(alloc);
    let mut reader = Reader::new(text, &mut scratch)?;
    let begin = begin_behind(text, reader.offset());
    match seek_value(&mut reader, text, hunt, Some(0), begin, 127) {
        Ok(()) => Ok(begin_behind(text, reader.offset())),
        Err(Invalid) => Ok(reader.offset()),
    }
}

/// Where the next token begins: behind blanks, commas and colons.
fn begin_behind(text: &str, offset: usize) -> usize {
    let bytes = text.as_bytes();
    for index in offset..bytes.len() {
        match bytes[index] {
            b' ' | b'\t' | b'\n' | b'\r' | b',' | b':' => {}
            _ => return index,
        }
    }
    bytes.len()
}

/// Notes where the faults of a place stand.
fn note(hunt: &mut Hunt, place: usize, begin: usize) {
    let Some(sought) = hunt.sought.get(place) else {
        return;
    };
    for fault in &sought.faults {
        if let Some(offset) = hunt.offsets.get_mut(*fault) {
            *offset = begin;
        }
    }
}

/// Seeks what is sought behind a place in the value that is read next, which begins here or under a key here.
#[cycle(seek)]
fn seek_value(
    reader: &mut Reader<'_>,
    text: &str,
    hunt: &mut Hunt,
    place: Option<usize>,
    begin: usize,
    depth: usize,
) -> Result<(), Invalid> {
    let Some(place) = place else {
        return reader.skip_value(depth);
    };
    note(hunt, place, begin);
    let token = reader.next().ok_or(Invalid)?;
    match token {
        Token::BeginArray => {
            if depth == 0 {
                return Err(Invalid);
            }
            seek_items(reader, text, hunt, place, depth - 1)
        }
        Token::BeginObject => {
            if depth == 0 {
                return Err(Invalid);
            }
            seek_members(reader, text, hunt, place, depth - 1)
        }
        Token::String(_) | Token::Number(_) | Token::Bool(_) | Token::Null => Ok(()),
        Token::EndObject | Token::EndArray | Token::Key(_) | Token::Bad => Err(Invalid),
    }
}

#[cycle(seek)]
fn seek_items(
    reader: &mut Reader<'_>,
    text: &str,
    hunt: &mut Hunt,
    place: usize,
    depth: usize,
) -> Result<(), Invalid> {
    for index in 0..usize::MAX {
        if reader.take_end_array() {
            return Ok(());
        }
        let begin = begin_behind(text, reader.offset());
        let behind = item_behind(hunt, place, index);
        seek_value(reader, text, hunt, behind, begin, depth)?;
    }
    Err(Invalid)
}

#[cycle(seek)]
fn seek_members(
    reader: &mut Reader<'_>,
    text: &str,
    hunt: &mut Hunt,
    place: usize,
    depth: usize,
) -> Result<(), Invalid> {
    for _ in 0..usize::MAX {
        let begin = begin_behind(text, reader.offset());
        let Some(key) = reader.next_key()? else {
            return Ok(());
        };
        let behind = key_behind(hunt, place, key);
        seek_value(reader, text, hunt, behind, begin, depth)?;
    }
    Err(Invalid)
}

fn item_behind(hunt: &Hunt, place: usize, index: usize) -> Option<usize> {
    hunt.sought.get(place)?.items.get(&index).copied()
}

fn key_behind(hunt: &Hunt, place: usize, key: &str) -> Option<usize> {
    hunt.sought.get(place)?.keys.get(key).copied()
}

/// Where the lines of a text begin.
fn line_starts(alloc: Global, bytes: &[u8]) -> Result<Vec<usize>, AllocError> {
    let mut starts = Vec::new(alloc);
    starts.push(0)?;
    for index in 0..bytes.len() {
        if bytes[index] == b'\n' {
            starts.push(index.saturating_add(1))?;
        }
    }
    Ok(starts)
}

/// The line and column of an offset, where the lines begin so.
fn spot_at(starts: &[usize], offset: usize) -> Spot {
    let line = match starts.binary_search(&offset) {
        Ok(index) => index,
        Err(index) => index.saturating_sub(1),
    };
    let start = starts.get(line).copied().unwrap_or(0);
    Spot {
        line: line.saturating_add(1),
        column: offset.saturating_sub(start).saturating_add(1),
        offset,
    }
}
