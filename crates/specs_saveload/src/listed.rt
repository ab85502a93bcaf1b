//! Lists of forms.
ghost use Rattle.std.specs.Prelude.{ℕ, ◌≡◌, List, map, All, MatchOption, IfOk};
ghost use Rattle.serde_json.specs.Data.{array};
ghost use Rattle.serde_json.specs.Find.{as_array};
ghost use Rattle.serde_json.specs.View.{view, items_of};
ghost use Rattle.specs_saveload.specs.Entities.{data_of};
ghost use Rattle.specs_saveload.specs.Places.{IfShape, IsFirst, whole};

use crate::form::{FormError, JsonForm};
use crate::lists::read_item;
use serde_json::Value;
use std::alloc::Global;

/// The values of items, each of which is the form of one.
fn read_each<T: JsonForm>(alloc: Global, items: &[Value]) -> Result<Vec<T>, FormError>
    ensures ok { IfOk result (λ values. map T.form values.items ≡ map view items.now) }
    ensures fits { IfOk result (λ values. All T.is_value values.items) }
    ensures first { IfShape result (λ place. (number : ℕ)
        × IsFirst T.is_form T.place_in (map view items.now) number place) }
{
    let mut values = Vec::new(alloc);
    for (number, item) in items.iter().enumerate() {
        let value = read_item(alloc, item, number)?;
        match values.push(value) {
            Ok(()) => {}
            Err(_) => return Err(FormError::Memory),
        }
    }
    Ok(values)
}

/// The values of a list of their forms.
///
/// Errors: `Shape` if the JSON is no list, or at the number of the first item that is no value's form; `Memory`.
pub fn list_from_value<T: JsonForm>(alloc: Global, json: &Value) -> Result<Vec<T>, FormError>
    ensures ok { IfOk result (λ values. array (items_of (map T.form values.items)) ≡ view json.now) }
    ensures fits { IfOk result (λ values. All T.is_value values.items) }
    ensures first { IfShape result (λ place. MatchOption (as_array (view json.now)) (place ≡ whole)
        (λ items. (number : ℕ) × IsFirst T.is_form T.place_in (data_of items) number place)) }
{
    let Some(items) = json.as_array() else {
        return Err(FormError::whole());
    };
    read_each(alloc, items.as_slice())
}
