//! What stands under the keys of an object: what is told where a key is missing, unknown, or has another value.
ghost use Rattle.std.specs.Prelude.{◌≡◌};
ghost use Rattle.scene_model.specs.Parts.{is_among};
ghost use Rattle.scene_model.specs.Declaring.{texts};

use crate::trail::Trail;
use crate::words::{advice, quoted, shown};
use scene_document::has_float;
use scene_model::{DocRefusal, place_in};
use serde_json::{Map, Value};
use std::alloc::AllocError;

/// What a whole number of 64 bits is called in a sentence.
pub(crate) const WHOLE: &str = "a whole number from 0 to 18446744073709551615";

/// Whether a name is one of these.
pub(crate) fn is_known(names: &[&'static str], name: &str) -> bool
    ensures { result ≡ is_among name.now (texts names.now) }
{
    place_in(names, name).is_some()
}

/// Tells of a value that it is not what it has to be, at its own place. A float in it is told as such already.
pub(crate) fn tell_shape(
    trail: &mut Trail<'_>,
    value: &Value,
    wanted: &str,
) -> Result<(), AllocError> {
    if has_float(value) {
        return Ok(());
    }
    let alloc = trail.alloc;
    let text = shown(alloc, value)?;
    trail.tell(
        DocRefusal::WrongShape,
        format!(in alloc; "{text} is not {wanted}")?,
    )
}

/// Tells of what stands under a key that it is not what it has to be.
fn tell_shape_at<'a>(
    trail: &mut Trail<'a>,
    key: &'a str,
    value: &Value,
    wanted: &str,
) -> Result<(), AllocError> {
    trail.enter(key)?;
    tell_shape(trail, value, wanted)?;
    trail.leave();
    Ok(())
}

/// Tells that a key is missing, at the object that lacks it.
pub(crate) fn tell_missing(
    trail: &mut Trail<'_>,
    key: &str,
    wanted: &str,
) -> Result<(), AllocError> {
    let alloc = trail.alloc;
    let sentence = format!(in alloc; "the key {key:?} is missing, which has {wanted}")?;
    trail.tell(DocRefusal::WrongShape, sentence)
}

/// Tells each key of an object that is none of these.
pub(crate) fn tell_other_keys<'a>(
    trail: &mut Trail<'a>,
    members: &'a Map<String, Value>,
    keys: &[&'static str],
) -> Result<(), AllocError> {
    let alloc = trail.alloc;
    for (key, _value) in members {
        if !is_known(keys, key.as_str()) {
            let name = quoted(alloc, key.as_str())?;
            let advice = advice(alloc, key.as_str(), keys)?;
            let sentence = format!(in alloc; "no key {name} stands here: {advice}")?;
            trail.tell_at(key.as_str(), DocRefusal::WrongShape, sentence)?;
        }
    }
    Ok(())
}

/// The whole number under a key, where there is one; what else stands there is told, but for nothing.
pub(crate) fn whole_under<'a>(
    trail: &mut Trail<'a>,
    object: &'a Value,
    key: &'a str,
) -> Result<Option<u64>, AllocError> {
    let Some(found) = object.get(key) else {
        return Ok(None);
    };
    let number = found.as_u64();
    if number.is_none() {
        tell_shape_at(trail, key, found, WHOLE)?;
    }
    Ok(number)
}

/// The text under a key, where there is one; what else stands there is told, but for nothing.
pub(crate) fn text_under<'a>(
    trail: &mut Trail<'a>,
    object: &'a Value,
    key: &'a str,
) -> Result<Option<&'a str>, AllocError> {
    let Some(found) = object.get(key) else {
        return Ok(None);
    };
    let text = found.as_str();
    if text.is_none() {
        tell_shape_at(trail, key, found, "a text")?;
    }
    Ok(text)
}

/// The list under a key, where there is one; what else stands there is told, but for nothing.
pub(crate) fn list_under<'a>(
    trail: &mut Trail<'a>,
    object: &'a Value,
    key: &'a str,
) -> Result<Option<&'a Vec<Value>>, AllocError> {
    let Some(found) = object.get(key) else {
        return Ok(None);
    };
    let list = found.as_array();
    if list.is_none() {
        tell_shape_at(trail, key, found, "a list")?;
    }
    Ok(list)
}

/// The members of the object under a key, where there is one; what else stands there is told, but for nothing.
pub(crate) fn members_under<'a>(
    trail: &mut Trail<'a>,
    object: &'a Value,
    key: &'a str,
) -> Result<Option<&'a Map<String, Value>>, AllocError> {
    let Some(found) = object.get(key) else {
        return Ok(None);
    };
    let members = found.as_object();
    if members.is_none() {
        tell_shape_at(trail, key, found, "an object")?;
    }
    Ok(members)
}

/// Tells what stands under a key and is no truth value.
pub(crate) fn tell_flag<'a>(
    trail: &mut Trail<'a>,
    object: &'a Value,
    key: &'a str,
) -> Result<(), AllocError> {
    let Some(found) = object.get(key) else {
        return Ok(());
    };
    if found.as_bool().is_none() {
        tell_shape_at(trail, key, found, "true or false")?;
    }
    Ok(())
}

/// Whether an object has something under a key; that it lacks it is told.
pub(crate) fn has_key(
    trail: &mut Trail<'_>,
    object: &Value,
    key: &'static str,
    wanted: &str,
) -> Result<bool, AllocError> {
    if object.get(key).is_some() {
        return Ok(true);
    }
    tell_missing(trail, key, wanted)?;
    Ok(false)
}

/// Whether `true` stands under a key.
pub(crate) fn says_true(object: &Value, key: &'static str) -> bool {
    match object.get(key) {
        Some(found) => found.as_bool() == Some(true),
        None => false,
    }
}
