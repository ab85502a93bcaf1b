//! JSON read token by token, where no number in it reads as a float.
ghost use Rattle.std.specs.Prelude.{◌≡◌, ◌<◌, ◌==◌, true, false, length, slice_index, option_map, Some, IsTrue};
ghost use Rattle.std.specs.Prelude.{IfOk, OnOk, IfSome};
ghost use Rattle.serde_json.specs.Data.{Data, number, unsigned, put};
ghost use Rattle.serde_json.specs.Read.{number_of, number_from};
ghost use Rattle.serde_json.specs.View.{view, items_view, members_view};
ghost use Rattle.serde_json.specs.Written.{has_float, items_have_float, members_have_float};
ghost use Rattle.scene_document.specs.TokenWords.{ReadsAs, ReadsItems, ReadsMembers};

use fast_float::Numeral;
use json::{Reader, Token};
use scene_model::ReadError;
use serde_json::{Map, Value};
use std::alloc::Global;

/// Whether a text begins with a minus.
fn has_minus(bytes: &[u8]) -> bool
    ensures value { result ≡ (slice_index bytes.now 0 == 45) }
    ensures filled { IsTrue result → 0 < length bytes.now }
{
    !bytes.is_empty() && bytes[0] == b'-'
}

/// The whole number of 64 bits that the text of a number without a sign is; none where it has a point, an exponent or a
/// sign, or is greater.
pub(crate) fn unsigned_number(text: &str) -> Option<u64>
    ensures { IfSome result (λ whole. number_of text.now ≡ Some (unsigned whole)) }
{
    let bytes = text.as_bytes();
    if has_minus(bytes) {
        return None;
    }
    Numeral::scan(bytes).to_u64()
}

/// The whole number of 64 bits below zero that a numeral behind a minus is, as JSON.
fn below_zero(numeral: &Numeral<'_>) -> Option<Value>
    ensures value { IfSome result (λ value. option_map number (number_from true numeral.now) ≡ Some (view value)) }
    ensures whole { IfSome result (λ value. has_float (view value) ≡ false) }
{
    let whole = numeral.to_i64(true)?;
    if whole < 0 {
        Some(Value::from(whole))
    } else {
        None
    }
}

/// The whole number of 64 bits that the text of a number is, as JSON; none where it reads as a float.
fn whole_number(text: &str) -> Option<Value>
    ensures value { IfSome result (λ value. option_map number (number_of text.now) ≡ Some (view value)) }
    ensures whole { IfSome result (λ value. has_float (view value) ≡ false) }
{
    let bytes = text.as_bytes();
    if has_minus(bytes) {
        return below_zero(&Numeral::scan(&bytes[1..]));
    }
    let whole = unsigned_number(text)?;
    Some(Value::from(whole))
}

/// Takes a JSON, which nests no deeper than `depth`. Errors: `Shape` where there is none, or a number in it reads as a
/// float; `Memory`.
#[cycle(plain)]
pub(crate) fn take_value(
    alloc: Global,
    reader: &mut Reader<'_>,
    depth: usize,
) -> Result<Value, ReadError>
    ensures value { IfOk result (λ value. ReadsAs depth reader.old (view value) reader.new) }
    ensures whole { IfOk result (λ value. has_float (view value) ≡ false) }
    ensures shorter { OnOk result (length reader.new < length reader.old) }
{
    let Some(token) = reader.next() else {
        return Err(ReadError::Shape);
    };
    match token {
        Token::String(text) => Ok(Value::String(String::from_str(alloc, text)?)),
        Token::Number(text) => match whole_number(text) {
            Some(value) => Ok(value),
            None => Err(ReadError::Shape),
        },
        Token::Bool(truth) => Ok(Value::Bool(truth)),
        Token::Null => Ok(Value::Null),
        Token::EndObject | Token::EndArray | Token::Key(_) | Token::Bad => Err(ReadError::Shape),
        Token::BeginArray => {
            if depth == 0 {
                return Err(ReadError::Shape);
            }
            Ok(Value::Array(take_items(alloc, reader, depth - 1)?))
        }
        Token::BeginObject => {
            if depth == 0 {
                return Err(ReadError::Shape);
            }
            Ok(Value::Object(take_object(alloc, reader, depth - 1)?))
        }
    }
}

/// The items of an array behind its opening bracket.
#[cycle(plain)]
fn take_items(alloc: Global, reader: &mut Reader<'_>, depth: usize) -> Result<Vec<Value>, ReadError>
    ensures value { IfOk result (λ values. ReadsItems depth reader.old (items_view values.items) reader.new) }
    ensures whole { IfOk result (λ values. items_have_float (items_view values.items) ≡ false) }
    ensures shorter { OnOk result (length reader.new < length reader.old) }
{
    let mut values = Vec::new(alloc);
    'items: while !reader.take_end_array() {
        let value = take_value(alloc, reader, depth)?;
        values.push(value)?;
    }
    Ok(values)
}

/// The members of an object behind its opening brace; of those under one key the last stays.
#[cycle(plain)]
fn take_object(
    alloc: Global,
    reader: &mut Reader<'_>,
    depth: usize,
) -> Result<Map<String, Value>, ReadError>
    ensures value { IfOk result (λ found. ReadsMembers depth reader.old (members_view found.entries) reader.new) }
    ensures whole { IfOk result (λ found. members_have_float (members_view found.entries) ≡ false) }
    ensures shorter { OnOk result (length reader.new < length reader.old) }
{
    let mut found = Map::new(alloc);
    'members: loop {
        match reader.next_key() {
            Ok(Some(name)) => take_member(alloc, reader, depth, name, &mut found)?,
            Ok(None) => return Ok(found),
            Err(_) => return Err(ReadError::Shape),
        }
    }
}

/// Takes the JSON of a member, which nests no deeper than `depth`, and puts it under its name. Errors: those of
/// `take_value`.
#[cycle(plain)]
pub(crate) fn take_member(
    alloc: Global,
    reader: &mut Reader<'_>,
    depth: usize,
    name: &str,
    found: &mut Map<String, Value>,
) -> Result<(), ReadError>
    ensures value { OnOk result ((one : Data) × ReadsAs depth reader.old one reader.new
        × (has_float one ≡ false)
        × (members_view found.new.entries ≡ put name.now one (members_view found.old.entries))) }
    ensures shorter { OnOk result (length reader.new < length reader.old) }
{
    let key = String::from_str(alloc, name)?;
    let value = take_value(alloc, reader, depth)?;
    drop(found.insert(key, value)?);
    Ok(())
}
