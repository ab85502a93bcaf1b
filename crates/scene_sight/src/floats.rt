//! Numbers that are read as floats.
use crate::trail::Trail;
use crate::words::shown;
use scene_model::DocRefusal;
use serde_json::{Map, Value};
use std::alloc::AllocError;

/// Tells each number, at any depth, that is read as something else than a whole number of 64 bits.
#[cycle(floats)]
pub(crate) fn tell_floats<'a>(trail: &mut Trail<'a>, value: &'a Value) -> Result<(), AllocError> {
    match value {
        Value::Number(number) => {
            if number.is_f64() {
                tell_float(trail, value)
            } else {
                Ok(())
            }
        }
        Value::Array(items) => tell_floats_of_items(trail, items),
        Value::Object(members) => tell_floats_of_members(trail, members),
        _ => Ok(()),
    }
}

fn tell_float(trail: &mut Trail<'_>, value: &Value) -> Result<(), AllocError> {
    let alloc = trail.alloc;
    let text = shown(alloc, value)?;
    let sentence = format!(in alloc;
        "{text} is no whole number of 64 bits: write one without a point or an exponent, within its range"
    )?;
    trail.tell(DocRefusal::NotWhole, sentence)
}

#[cycle(floats)]
fn tell_floats_of_items<'a>(
    trail: &mut Trail<'a>,
    items: &'a Vec<Value>,
) -> Result<(), AllocError> {
    let mut place = 0usize;
    for item in items {
        trail.enter_item(place)?;
        tell_floats(trail, item)?;
        trail.leave();
        place = place.saturating_add(1);
    }
    Ok(())
}

#[cycle(floats)]
fn tell_floats_of_members<'a>(
    trail: &mut Trail<'a>,
    members: &'a Map<String, Value>,
) -> Result<(), AllocError> {
    for (key, member) in members {
        trail.enter(key.as_str())?;
        tell_floats(trail, member)?;
        trail.leave();
    }
    Ok(())
}
