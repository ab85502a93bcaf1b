//! Lists of JSON values, made and taken apart.
ghost use Rattle.std.specs.Prelude.{◌≡◌, true, false, None, Some, IfOk, OnOk, MatchOption};
ghost use Rattle.serde_json.specs.Data.{array, no_items, item};
ghost use Rattle.serde_json.specs.View.{view};
ghost use Rattle.specs_saveload.specs.Plain.{is_list, is_none, is_one, is_two, is_three, is_four};
ghost use Rattle.specs_saveload.specs.Plain.{pair_form, triple_form, quadruple_form};
ghost use Rattle.specs_saveload.specs.Places.{IfShape, at_number};

use crate::form::{FormError, JsonForm};
use serde_json::Value;
use std::alloc::{AllocError, Global};

/// The list of two.
pub(crate) fn two(alloc: Global, one: Value, other: Value) -> Result<Value, AllocError>
    ensures { IfOk result (λ json. view json ≡ pair_form (view one) (view other)) }
{
    Ok(Value::Array(vec![in alloc; one, other]?))
}

/// The list of three.
pub(crate) fn three(
    alloc: Global,
    first: Value,
    second: Value,
    third: Value,
) -> Result<Value, AllocError>
    ensures { IfOk result (λ json. view json ≡ triple_form (view first) (view second) (view third)) }
{
    Ok(Value::Array(vec![in alloc; first, second, third]?))
}

/// The list of four.
pub(crate) fn four(
    alloc: Global,
    first: Value,
    second: Value,
    third: Value,
    fourth: Value,
) -> Result<Value, AllocError>
    ensures { IfOk result (λ json. view json
        ≡ quadruple_form (view first) (view second) (view third) (view fourth)) }
{
    Ok(Value::Array(vec![in alloc; first, second, third, fourth]?))
}

/// The list of one.
pub(crate) fn one(alloc: Global, only: Value) -> Result<Value, AllocError>
    ensures { IfOk result (λ json. view json ≡ array (item (view only) no_items)) }
{
    Ok(Value::Array(vec![in alloc; only]?))
}

/// The two of a list of two.
pub(crate) fn as_two(json: &Value) -> Option<(&Value, &Value)>
    ensures { MatchOption result (is_list is_two (view json.now) ≡ false)
        (λ both. view json.now ≡ pair_form (view both.0.now) (view both.1.now)) }
{
    let items = json.as_array()?.as_slice();
    if items.len() == 2 {
        Some((&items[0], &items[1]))
    } else {
        None
    }
}

/// The three of a list of three.
pub(crate) fn as_three(json: &Value) -> Option<(&Value, &Value, &Value)>
    ensures { MatchOption result (is_list is_three (view json.now) ≡ false)
        (λ all. view json.now ≡ triple_form (view all.0.now) (view all.1.now) (view all.2.now)) }
{
    let items = json.as_array()?.as_slice();
    if items.len() == 3 {
        Some((&items[0], &items[1], &items[2]))
    } else {
        None
    }
}

/// The four of a list of four.
pub(crate) fn as_four(json: &Value) -> Option<(&Value, &Value, &Value, &Value)>
    ensures { MatchOption result (is_list is_four (view json.now) ≡ false)
        (λ all. view json.now
        ≡ quadruple_form (view all.0.now) (view all.1.now) (view all.2.now) (view all.3.now)) }
{
    let items = json.as_array()?.as_slice();
    if items.len() == 4 {
        Some((&items[0], &items[1], &items[2], &items[3]))
    } else {
        None
    }
}

/// The one of a list of one.
pub(crate) fn as_one(json: &Value) -> Option<&Value>
    ensures { MatchOption result (is_list is_one (view json.now) ≡ false)
        (λ only. view json.now ≡ array (item (view only.now) no_items)) }
{
    let items = json.as_array()?.as_slice();
    if items.len() == 1 {
        Some(&items[0])
    } else {
        None
    }
}

/// Whether a JSON is the list of none.
pub(crate) fn is_empty(json: &Value) -> bool
    ensures { result ≡ is_list is_none (view json.now) }
{
    match json.as_array() {
        Some(items) => items.as_slice().is_empty(),
        None => false,
    }
}

/// The value that the item with that number of a list has.
pub(crate) fn read_item<T: JsonForm>(
    alloc: Global,
    item: &Value,
    number: usize,
) -> Result<T, FormError>
    ensures ok { IfOk result (λ value. T.form value ≡ view item.now) }
    ensures known { OnOk result (T.is_form (view item.now) ≡ true) }
    ensures fits { IfOk result T.is_value }
    ensures shape { IfShape result (λ _. T.is_form (view item.now) ≡ false) }
    ensures place { IfShape result (λ place. place ≡ at_number number (T.place_in (view item.now))) }
{
    match T::from_value(alloc, item) {
        Ok(value) => Ok(value),
        Err(error) => Err(error.at_number(number)),
    }
}
