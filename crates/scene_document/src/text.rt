//! JSON from bytes.
ghost use Rattle.std.specs.Prelude.{◌≡◌, None, Some, [], map, option_map, option_copied, slice_get, IfOk, OnOk};
ghost use Rattle.std.specs.Prelude.{MatchResult};
ghost use Rattle.serde_json.specs.Data.{object};
ghost use Rattle.serde_json.specs.View.{view, items_view, members_view};
ghost use Rattle.serde_json.specs.Written.{has_float as holds_float, items_have_float as items_hold_float};
ghost use Rattle.serde_json.specs.Written.{members_have_float as members_hold_float};
ghost use Rattle.scene_document.specs.Texts.{json_of};

use serde_json::{Category, Map, Value};
use std::alloc::Global;

/// Why bytes are not read as JSON.
#[derive(Clone, Copy, Debug, PartialEq, Eq)]
pub enum JsonError {
    /// They are not UTF-8, or have no reading as JSON.
    Unreadable,
    /// Memory was wanting.
    Memory,
}

/// The JSON that bytes read as.
///
/// Errors: `Unreadable` where they are not UTF-8 or have no reading; `Memory`.
pub fn read_json(alloc: Global, bytes: &[u8]) -> Result<Value, JsonError>
    ensures { MatchResult result
        (λ value. json_of bytes.now ≡ Some (view value))
        (λ error. error ≡ JsonError.Unreadable → json_of bytes.now ≡ None) }
{
    match Value::from_slice(alloc, bytes) {
        Ok(value) => Ok(value),
        Err(error) => match error.classify() {
            Category::Memory => Err(JsonError::Memory),
            _ => Err(JsonError::Unreadable),
        },
    }
}

/// Whether a JSON has, at any depth, a number that is read as a float: one with a point or an exponent, minus zero, or a
/// whole number that does not fit 64 bits.
#[cycle(floats)]
pub fn has_float(value: &Value) -> bool
    ensures { result ≡ holds_float (view value.now) }
{
    match value {
        Value::Null => false,
        Value::Bool(_) => false,
        Value::Number(number) => number.is_f64(),
        Value::String(_) => false,
        Value::Array(items) => items_have_float(items),
        Value::Object(members) => members_have_float(members),
    }
}

#[cycle(floats)]
fn items_have_float(items: &Vec<Value>) -> bool
    ensures { result ≡ items_hold_float (items_view items.now.items) }
{
    for item in items {
        if has_float(item) {
            return true;
        }
    }
    false
}

#[cycle(floats)]
fn members_have_float(members: &Map<String, Value>) -> bool
    ensures { result ≡ members_hold_float (members_view members.now.entries) }
{
    for member in members.values() {
        if has_float(member) {
            return true;
        }
    }
    false
}
