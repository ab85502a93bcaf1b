//! The words of sentences: values, and names that were perhaps meant.
use serde_json::Value;
use std::alloc::{AllocError, Global};
use strsim::osa_distance;

/// The most characters of a value or a name that a sentence shows.
const SHOWN: usize = 40;

/// A text within quotes, its front where it is long.
pub(crate) fn quoted(alloc: Global, text: &str) -> Result<String, AllocError> {
    let front: String = text.chars().take(SHOWN).collect(alloc)?;
    if front.len() < text.len() {
        format!(in alloc; "{:?}..", front.as_str())
    } else {
        format!(in alloc; "{:?}", front.as_str())
    }
}

/// A value as a sentence names it.
pub(crate) fn shown(alloc: Global, value: &Value) -> Result<String, AllocError> {
    match value {
        Value::String(text) => quoted(alloc, text.as_str()),
        Value::Array(_) => String::from_str(alloc, "a list"),
        Value::Object(_) => String::from_str(alloc, "an object"),
        _ => value.to_string(alloc),
    }
}

/// The one of these names that is nearest to a name, if one is near enough to be meant.
pub(crate) fn nearest<'a>(
    alloc: Global,
    name: &str,
    names: &[&'a str],
) -> Result<Option<&'a str>, AllocError> {
    let mut best = None;
    let mut least = room_for_slips(name);
    for known in names {
        let distance = slips(alloc, name, *known)?;
        if distance < least {
            least = distance;
            best = Some(*known);
        }
    }
    Ok(best)
}

/// One more than the slips that a name of this length is allowed.
fn room_for_slips(name: &str) -> usize {
    match name.len() {
        0 | 1 => 1,
        2 | 3 => 2,
        4..=6 => 3,
        _ => 4,
    }
}

/// How many slips lead from one name to another; of a long one, that there are many.
fn slips(alloc: Global, name: &str, known: &str) -> Result<usize, AllocError> {
    if name.len() > known.len().saturating_add(SHOWN) {
        return Ok(SHOWN);
    }
    osa_distance(alloc, name, known)
}

/// What to write in place of a name that is none of these: the nearest, or all of them.
pub(crate) fn advice(alloc: Global, name: &str, names: &[&str]) -> Result<String, AllocError> {
    if let Some(known) = nearest(alloc, name, names)? {
        return format!(in alloc; "{known:?} is the nearest");
    }
    choices(alloc, names)
}

/// All of these names, if there are any.
pub(crate) fn choices(alloc: Global, names: &[&str]) -> Result<String, AllocError> {
    let mut text = String::new(alloc);
    for name in names {
        if text.is_empty() {
            text.push_str("there is ")?;
        } else {
            text.push_str(", ")?;
        }
        text.push_str(*name)?;
    }
    if text.is_empty() {
        text.push_str("there is none")?;
    }
    Ok(text)
}
