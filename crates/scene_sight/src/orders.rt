//! The lists of commands of a document.
use crate::entities::{see_part, tell_unknown_part};
use crate::fields::{
    WHOLE, has_key, is_known, tell_other_keys, tell_shape, text_under, whole_under,
};
use crate::trail::Trail;
use crate::words::{advice, quoted};
use scene_model::{DocRefusal, DocumentRules};
use serde_json::{Map, Value};
use std::alloc::AllocError;

/// The keys of commands.
const COMMANDS: [&str; 4] = ["spawn", "kill", "put", "take"];

/// Tells the faults of lists of commands.
pub(crate) fn see_commands<'a, R: DocumentRules>(
    trail: &mut Trail<'a>,
    rules: &R,
    lists: &'a [Value],
) -> Result<(), AllocError> {
    trail.enter("commands")?;
    let mut place = 0usize;
    for list in lists {
        trail.enter_item(place)?;
        see_list(trail, rules, list)?;
        trail.leave();
        place = place.saturating_add(1);
    }
    trail.leave();
    Ok(())
}

fn see_list<'a, R: DocumentRules>(
    trail: &mut Trail<'a>,
    rules: &R,
    list: &'a Value,
) -> Result<(), AllocError> {
    let Some(commands) = list.as_array() else {
        return tell_shape(trail, list, "a list of commands");
    };
    let mut place = 0usize;
    for command in commands {
        trail.enter_item(place)?;
        see_command(trail, rules, command)?;
        trail.leave();
        place = place.saturating_add(1);
    }
    Ok(())
}

fn see_command<'a, R: DocumentRules>(
    trail: &mut Trail<'a>,
    rules: &R,
    command: &'a Value,
) -> Result<(), AllocError> {
    let Some(members) = command.as_object() else {
        return tell_shape(trail, command, "a command: an object of one key");
    };
    if members.len() != 1 {
        return tell_shape(trail, command, "of one key, as a command is");
    }
    for (key, value) in members {
        trail.enter(key.as_str())?;
        see_under(trail, rules, key.as_str(), value)?;
        trail.leave();
    }
    Ok(())
}

fn see_under<'a, R: DocumentRules>(
    trail: &mut Trail<'a>,
    rules: &R,
    key: &str,
    value: &'a Value,
) -> Result<(), AllocError> {
    match key {
        "spawn" => see_spawn(trail, rules, value),
        "kill" => see_kill(trail, value),
        "put" => see_put(trail, rules, value),
        "take" => see_take(trail, rules, value),
        _ => {
            let alloc = trail.alloc;
            let name = quoted(alloc, key)?;
            let advice = advice(alloc, key, &COMMANDS)?;
            let sentence = format!(in alloc; "there is no command {name}: {advice}")?;
            trail.tell(DocRefusal::WrongShape, sentence)
        }
    }
}

fn see_kill(trail: &mut Trail<'_>, value: &Value) -> Result<(), AllocError> {
    if value.as_u64().is_none() {
        return tell_shape(trail, value, WHOLE);
    }
    Ok(())
}

fn see_spawn<'a, R: DocumentRules>(
    trail: &mut Trail<'a>,
    rules: &R,
    value: &'a Value,
) -> Result<(), AllocError> {
    let Some(parts) = value.as_object() else {
        return tell_shape(trail, value, "an object of parts by their kinds");
    };
    for (kind, part) in parts {
        trail.enter(kind.as_str())?;
        let _datum = see_part(trail, rules, kind.as_str(), part)?;
        trail.leave();
    }
    Ok(())
}

fn see_put<'a, R: DocumentRules>(
    trail: &mut Trail<'a>,
    rules: &R,
    value: &'a Value,
) -> Result<(), AllocError> {
    let Some(members) = value.as_object() else {
        return tell_shape(trail, value, "an object with id, kind and value");
    };
    tell_other_keys(trail, members, &["id", "kind", "value"])?;
    see_id(trail, value)?;
    let kind = see_kind(trail, rules, value)?;
    if !has_key(trail, value, "value", "the part that is put")? {
        return Ok(());
    }
    see_put_value(trail, rules, kind, members)
}

/// Tells what the rules do not read as a part of a kind that they have.
fn see_put_value<'a, R: DocumentRules>(
    trail: &mut Trail<'a>,
    rules: &R,
    kind: Option<&'a str>,
    members: &'a Map<String, Value>,
) -> Result<(), AllocError> {
    let Some(kind) = kind else {
        return Ok(());
    };
    let Some(part) = members.get("value") else {
        return Ok(());
    };
    trail.enter("value")?;
    let _datum = see_part(trail, rules, kind, part)?;
    trail.leave();
    Ok(())
}

fn see_take<'a, R: DocumentRules>(
    trail: &mut Trail<'a>,
    rules: &R,
    value: &'a Value,
) -> Result<(), AllocError> {
    let Some(members) = value.as_object() else {
        return tell_shape(trail, value, "an object with id and kind");
    };
    tell_other_keys(trail, members, &["id", "kind"])?;
    see_id(trail, value)?;
    let _kind = see_kind(trail, rules, value)?;
    Ok(())
}

/// Tells an id that is missing or no number.
fn see_id<'a>(trail: &mut Trail<'a>, object: &'a Value) -> Result<(), AllocError> {
    if has_key(trail, object, "id", WHOLE)? {
        let _id = whole_under(trail, object, "id")?;
    }
    Ok(())
}

/// The kind under its key, where it is one of the rules'; what else is there is told.
fn see_kind<'a, R: DocumentRules>(
    trail: &mut Trail<'a>,
    rules: &R,
    object: &'a Value,
) -> Result<Option<&'a str>, AllocError> {
    if !has_key(trail, object, "kind", "the kind of a part")? {
        return Ok(None);
    }
    let Some(kind) = text_under(trail, object, "kind")? else {
        return Ok(None);
    };
    if is_known(rules.part_names(), kind) {
        return Ok(Some(kind));
    }
    trail.enter("kind")?;
    tell_unknown_part(trail, kind, rules.part_names())?;
    trail.leave();
    Ok(None)
}
