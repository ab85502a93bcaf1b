//! The fields of an object, each as what was found under its key.
ghost use Rattle.std.specs.Prelude.{◌≡◌, ◌^◌, [], true, false, nat_lt, if◌then◌else◌, option_and_then, option_map};
ghost use Rattle.std.specs.Prelude.{codes, MatchOption};
ghost use Rattle.serde_json.specs.Find.{as_str, as_bool};
ghost use Rattle.scene_model.specs.Parts.{is_among};
ghost use Rattle.scene_document.specs.Drafts.{keys_within, whole, whole_32, read_or, is_true, names_from, each};
ghost use Rattle.scene_model.specs.Stores.{store_named};
ghost use Rattle.scene_model.specs.Declaring.{texts};
ghost use Rattle.scene_document.specs.DraftViews.{seen};
ghost use Rattle.scene_document.specs.ShapeWords.{items_seen, members_seen, Reads, Anything, IsKnownAt};

use scene_model::{ReadError, Store, place_in};
use serde_json::{Map, Value};
use std::alloc::Global;

/// The place of a name among these, if it is one of them.
pub(crate) fn known_place(names: &[&'static str], name: &str) -> Option<usize>
    ensures { MatchOption result
        (is_among name.now (texts names.now) ≡ false)
        (IsKnownAt name.now (texts names.now)) }
{
    place_in(names, name)
}

/// The one of these names that a name is, if it is one of them.
pub(crate) fn known_name(names: &[&'static str], name: &str) -> Option<&'static str>
    ensures { MatchOption result
        (is_among name.now (texts names.now) ≡ false)
        (λ known. (is_among name.now (texts names.now) ≡ true) × (known.now ≡ name.now)) }
{
    let place = known_place(names, name)?;
    Some(names[place])
}

/// Whether a name is one of these.
pub(crate) fn is_one_of(names: &[&'static str], name: &str) -> bool
    ensures { result ≡ is_among name.now (texts names.now) }
{
    place_in(names, name).is_some()
}

/// Whether an object has no other keys than these.
pub(crate) fn has_only_keys(members: &Map<String, Value>, keys: &[&'static str]) -> bool
    ensures { result ≡ keys_within (texts keys.now) (members_seen members.now.entries) }
{
    for (key, _value) in members {
        if !is_one_of(keys, key.as_str()) {
            return false;
        }
    }
    true
}

/// A whole number of 64 bits.
pub(crate) fn read_whole(found: Option<&Value>) -> Option<u64>
    ensures { result ≡ option_and_then whole (seen found.entry) }
{
    match found {
        None => None,
        Some(value) => value.as_u64(),
    }
}

/// A whole number of 64 bits, or a number where nothing was found.
pub(crate) fn read_whole_or(default: u64, found: Option<&Value>) -> Option<u64>
    ensures { result ≡ read_or default whole (seen found.entry) }
{
    match found {
        None => Some(default),
        Some(value) => value.as_u64(),
    }
}

/// A number of frames, which has 32 bits and is 0 where nothing was found.
pub(crate) fn read_frames(found: Option<&Value>) -> Option<u32>
    ensures { result ≡ read_or 0 whole_32 (seen found.entry) }
{
    match found {
        None => Some(0),
        Some(value) => narrow(value.as_u64()),
    }
}

/// A number as one of 32 bits, where it is.
fn narrow(number: Option<u64>) -> Option<u32>
    ensures { result
        ≡ option_and_then (λ number. if nat_lt number (2 ^ 32) then Some number else None) number }
{
    let number = number?;
    if number < 4_294_967_296 {
        Some(number as u32)
    } else {
        None
    }
}

/// The kind of store that a text names, or none where it is that of none; where there is nothing, the first.
pub(crate) fn read_store(found: Option<&Value>) -> Option<Option<Store>>
    ensures { result ≡ option_map store_named (read_or (codes "vec") as_str (seen found.entry)) }
{
    let name = match found {
        None => "vec",
        Some(value) => value.as_str()?,
    };
    Some(Store::named(name))
}

/// A text.
pub(crate) fn read_text<'a>(found: Option<&'a Value>) -> Option<&'a str>
    ensures { option_map (λ text. text.now) result ≡ option_and_then as_str (seen found.entry) }
{
    match found {
        None => None,
        Some(value) => value.as_str(),
    }
}

/// A text, or the empty one where nothing was found.
pub(crate) fn read_name<'a>(found: Option<&'a Value>) -> Option<&'a str>
    ensures { option_map (λ text. text.now) result ≡ read_or [] as_str (seen found.entry) }
{
    match found {
        None => Some(""),
        Some(value) => value.as_str(),
    }
}

/// A truth value, or `false` where nothing was found.
pub(crate) fn read_flag(found: Option<&Value>) -> Option<bool>
    ensures { result ≡ read_or false as_bool (seen found.entry) }
{
    match found {
        None => Some(false),
        Some(value) => value.as_bool(),
    }
}

/// Whether `true` was found.
pub(crate) fn says_true(found: Option<&Value>) -> bool
    ensures { result ≡ is_true (option_and_then as_bool (seen found.entry)) }
{
    match found {
        None => false,
        Some(value) => value.as_bool() == Some(true),
    }
}

/// The names of a list of texts; there are none where nothing was found.
///
/// Errors: `Shape` where it is no list of texts; `Memory`.
pub(crate) fn read_names<'a>(
    alloc: Global,
    found: Option<&'a Value>,
) -> Result<Vec<&'a str>, ReadError>
    ensures { Reads (λ names. texts names.items) Anything
        (read_or [] names_from (seen found.entry)) result }
{
    match found {
        None => Ok(Vec::new(alloc)),
        Some(value) => match value.as_array() {
            None => Err(ReadError::Shape),
            Some(values) => read_each_name(alloc, values),
        },
    }
}

fn read_each_name<'a>(alloc: Global, values: &'a [Value]) -> Result<Vec<&'a str>, ReadError>
    ensures { Reads (λ names. texts names.items) Anything (each as_str (items_seen values.now)) result }
{
    let mut names = Vec::new(alloc);
    for value in values {
        let Some(name) = value.as_str() else {
            return Err(ReadError::Shape);
        };
        names.push(name)?;
    }
    Ok(names)
}
