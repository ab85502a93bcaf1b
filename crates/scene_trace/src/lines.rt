//! What happened in a frame, as lines of text and as JSON.
use crate::course::Kinds;
use crate::events::{Act, Actor, Asked, Death, Deed, Fall, FrameTrace, Lead, Reason};
use crate::plain::{Part, Parts};
use serde_json::{Map, Value, json};
use std::alloc::{AllocError, Global};

/// One thing that happened: as a sentence, and as the members of a JSON.
#[derive(Drop)]
struct Event {
    sentence: String,
    members: Value,
}

/// Who asked for a command, in words.
fn actor_text(alloc: Global, actor: Actor, kinds: &Kinds) -> Result<String, AllocError> {
    match actor {
        Actor::Document => String::from_str(alloc, "the document"),
        Actor::System(place) => system_text(alloc, place, kinds),
    }
}

fn system_text(alloc: Global, place: u32, kinds: &Kinds) -> Result<String, AllocError> {
    match kinds.get(&place) {
        Some(kind) => format!(in alloc; "{kind} at place {place}"),
        None => format!(in alloc; "the system at place {place}"),
    }
}

fn value_text(alloc: Global, value: Option<&Value>) -> Result<String, AllocError> {
    match value {
        Some(value) => value.to_string(alloc),
        None => String::from_str(alloc, "nothing"),
    }
}

fn value_json(value: Option<&Value>) -> Result<Value, AllocError> {
    match value {
        Some(value) => value.clone(),
        None => Ok(Value::Null),
    }
}

fn written(part: &Option<Part>) -> Option<&Value> {
    match part {
        Some(part) => Some(&part.value),
        None => None,
    }
}

fn parts_json(alloc: Global, parts: &Parts) -> Result<Value, AllocError> {
    let mut members = Map::new(alloc);
    for (kind, part) in parts {
        let key = String::from_str(alloc, *kind)?;
        drop(members.insert(key, part.value.clone()?)?);
    }
    Ok(Value::Object(members))
}

/// What was made of the part of an entity, or of a global, by a word that says how.
fn shift_event(
    alloc: Global,
    how: &'static str,
    id: Option<u64>,
    name: &str,
    before: Option<&Value>,
    after: Option<&Value>,
) -> Result<Event, AllocError> {
    let early = value_text(alloc, before)?;
    let late = value_text(alloc, after)?;
    let before = value_json(before)?;
    let after = value_json(after)?;
    match id {
        Some(id) => Ok(Event {
            sentence: format!(in alloc; "{how} {name} of {id}: {early} -> {late}")?,
            members: json!(in alloc; {
                "event": how, "id": id, "kind": name, "before": before, "after": after
            })?,
        }),
        None => Ok(Event {
            sentence: format!(in alloc; "{how} global {name}: {early} -> {late}")?,
            members: json!(in alloc; {
                "event": how, "global": name, "before": before, "after": after
            })?,
        }),
    }
}

/// One who died, behind the one that was killed.
fn death_event(alloc: Global, killed: u64, death: &Death) -> Result<Event, AllocError> {
    let id = death.id;
    match &death.bound {
        None => Ok(Event {
            sentence: format!(in alloc; "{id} died")?,
            members: json!(in alloc; {"event": "died", "id": id})?,
        }),
        Some(bound) => {
            let kind = bound.kind;
            let to = bound.to;
            let sentence = if to == killed {
                format!(in alloc; "{id} died with {killed}, to whom it was bound by {kind}")?
            } else {
                format!(in alloc; "{id} died with {killed}: it was bound by {kind} to {to}")?
            };
            let members = json!(in alloc; {
                "event": "died", "id": id, "with": killed, "kind": kind, "bound_to": to
            })?;
            Ok(Event { sentence, members })
        }
    }
}

fn asked_text(alloc: Global, asked: Asked) -> Result<String, AllocError> {
    match asked {
        Asked::Spawn => String::from_str(alloc, "a spawn"),
        Asked::Kill(id) => format!(in alloc; "a kill of {id}"),
        Asked::Put(id, kind) => format!(in alloc; "a put of {kind} at {id}"),
        Asked::Take(id, kind) => format!(in alloc; "a take of {kind} of {id}"),
    }
}

fn skip_event(alloc: Global, asked: Asked, reason: Reason) -> Result<Event, AllocError> {
    let asked = asked_text(alloc, asked)?;
    let what = asked.as_str();
    match reason {
        Reason::NotAlive(id) => Ok(Event {
            sentence: format!(in alloc; "{what} is skipped: {id} is not alive")?,
            members: json!(in alloc; {"event": "skipped", "asked": what, "not_alive": id})?,
        }),
        Reason::DeadReference(kind, id) => Ok(Event {
            sentence: format!(in alloc;
                "{what} is skipped: its {kind} refers to {id}, who is not alive"
            )?,
            members: json!(in alloc; {
                "event": "skipped", "asked": what, "kind": kind, "not_alive": id
            })?,
        }),
    }
}

fn born_event(alloc: Global, id: u64, parts: &Parts) -> Result<Event, AllocError> {
    let parts = parts_json(alloc, parts)?;
    let shown = parts.to_string(alloc)?;
    Ok(Event {
        sentence: format!(in alloc; "{id} is born with {shown}")?,
        members: json!(in alloc; {"event": "born", "id": id, "parts": parts})?,
    })
}

/// What a command did, each thing apart.
fn act_events(alloc: Global, act: &Act, events: &mut Vec<Event>) -> Result<(), AllocError> {
    let event = match act {
        Act::Born(id, parts) => born_event(alloc, *id, parts)?,
        Act::Put(id, kind, before, after) => {
            let after = Some(&after.value);
            shift_event(alloc, "put", Some(*id), *kind, written(before), after)?
        }
        Act::Taken(id, kind, before) => {
            shift_event(alloc, "took", Some(*id), *kind, written(before), None)?
        }
        Act::Skipped(asked, reason) => skip_event(alloc, *asked, *reason)?,
        Act::Died(deaths) => return death_events(alloc, deaths, events),
    };
    events.push(event)?;
    Ok(())
}

fn death_events(
    alloc: Global,
    deaths: &[Death],
    events: &mut Vec<Event>,
) -> Result<(), AllocError> {
    let Some(first) = deaths.first() else {
        return Ok(());
    };
    let killed = first.id;
    for death in deaths {
        let event = death_event(alloc, killed, death)?;
        events.push(event)?;
    }
    Ok(())
}

/// Says of an event who did it, in words that stand before its sentence.
fn done_by(alloc: Global, event: Event, head: &str, by: &str) -> Result<Event, AllocError> {
    let Event {
        sentence,
        mut members,
    } = event;
    let by = String::from_str(alloc, by)?;
    put_member(alloc, &mut members, "by", Value::String(by))?;
    Ok(Event {
        sentence: format!(in alloc; "{head}{sentence}")?,
        members,
    })
}

/// Says of what a command did which command it was.
fn ascribed(alloc: Global, event: Event, deed: &Deed, kinds: &Kinds) -> Result<Event, AllocError> {
    let place = deed.place;
    let by = actor_text(alloc, deed.actor, kinds)?;
    let head = format!(in alloc; "command {place}, {by}: ")?;
    let mut event = done_by(alloc, event, head.as_str(), by.as_str())?;
    put_member(
        alloc,
        &mut event.members,
        "command",
        Value::from(place as u64),
    )?;
    if let Actor::System(system) = deed.actor {
        put_member(
            alloc,
            &mut event.members,
            "place",
            Value::from(system as u64),
        )?;
    }
    Ok(event)
}

fn put_member(
    alloc: Global,
    members: &mut Value,
    key: &str,
    value: Value,
) -> Result<(), AllocError> {
    if let Some(object) = members.as_object_mut() {
        let key = String::from_str(alloc, key)?;
        drop(object.insert(key, value)?);
    }
    Ok(())
}

fn deed_events(
    alloc: Global,
    deed: &Deed,
    kinds: &Kinds,
    events: &mut Vec<Event>,
) -> Result<(), AllocError> {
    let mut found = Vec::new(alloc);
    act_events(alloc, &deed.act, &mut found)?;
    for event in found {
        let event = ascribed(alloc, event, deed, kinds)?;
        events.push(event)?;
    }
    Ok(())
}

fn fall_text(
    alloc: Global,
    gone: u64,
    fall: Option<Fall>,
    kinds: &Kinds,
) -> Result<String, AllocError> {
    let Some(fall) = fall else {
        return String::from_str(alloc, "is not alive");
    };
    let by = actor_text(alloc, fall.actor, kinds)?;
    let command = fall.place;
    let with = fall.with;
    if with == gone {
        format!(in alloc; "died by {by}, command {command}")
    } else {
        format!(in alloc; "died with {with} by {by}, command {command}")
    }
}

/// What led to a refusal, in words.
pub(crate) fn lead_text(alloc: Global, lead: &Lead, kinds: &Kinds) -> Result<String, AllocError> {
    match lead {
        Lead::Gone(holder, kind, gone, fall) => {
            let fell = fall_text(alloc, *gone, *fall, kinds)?;
            format!(in alloc; "entity {holder} refers by {kind} to {gone}, which {fell}")
        }
        Lead::Spawn(place, actor) => {
            let by = actor_text(alloc, *actor, kinds)?;
            format!(in alloc; "command {place}, {by}: the spawn found no id left")
        }
        Lead::Given(count) => format!(in alloc; "the document has {count} commands"),
        Lead::Queued(place, count) => {
            let by = system_text(alloc, *place, kinds)?;
            format!(in alloc; "{by} has {count} commands")
        }
        Lead::System(place) => {
            let by = system_text(alloc, *place, kinds)?;
            format!(in alloc; "{by} refused")
        }
    }
}

fn refusal_events(
    alloc: Global,
    frame: &FrameTrace,
    kinds: &Kinds,
    events: &mut Vec<Event>,
) -> Result<(), AllocError> {
    let Some(refusal) = &frame.refusal else {
        return Ok(());
    };
    let cause = refusal.cause.as_str();
    events.push(Event {
        sentence: format!(in alloc; "refused: {cause}")?,
        members: json!(in alloc; {"event": "refused", "refusal": cause})?,
    })?;
    for lead in &refusal.leads {
        let sentence = lead_text(alloc, lead, kinds)?;
        let members = json!(in alloc; {"event": "led", "sentence": sentence.as_str()})?;
        events.push(Event { sentence, members })?;
    }
    Ok(())
}

/// What the systems of a frame made of parts and globals.
fn system_events(
    alloc: Global,
    frame: &FrameTrace,
    events: &mut Vec<Event>,
) -> Result<(), AllocError> {
    for change in &frame.changes {
        let before = written(&change.before);
        let after = written(&change.after);
        let id = Some(change.id);
        let event = shift_event(alloc, "changed", id, change.kind, before, after)?;
        events.push(done_by(alloc, event, "the systems ", "the systems")?)?;
    }
    for change in &frame.globals {
        let before = change.before.as_ref();
        let after = change.after.as_ref();
        let event = shift_event(alloc, "changed", None, change.name, before, after)?;
        events.push(done_by(alloc, event, "the systems ", "the systems")?)?;
    }
    Ok(())
}

/// All that happened in a frame, in order.
fn events_of(alloc: Global, frame: &FrameTrace, kinds: &Kinds) -> Result<Vec<Event>, AllocError> {
    let mut events = Vec::new(alloc);
    system_events(alloc, frame, &mut events)?;
    for deed in &frame.deeds {
        deed_events(alloc, deed, kinds, &mut events)?;
    }
    refusal_events(alloc, frame, kinds, &mut events)?;
    Ok(events)
}

/// What the commands of a frame did, a sentence for each thing.
pub(crate) fn deed_sentences(
    alloc: Global,
    frame: &FrameTrace,
    kinds: &Kinds,
) -> Result<Vec<String>, AllocError> {
    let mut events = Vec::new(alloc);
    for deed in &frame.deeds {
        deed_events(alloc, deed, kinds, &mut events)?;
    }
    let mut sentences = Vec::new(alloc);
    for event in events {
        sentences.push(event.sentence)?;
    }
    Ok(sentences)
}

/// A line for each thing that happened in a frame, with its end.
pub fn frame_lines(alloc: Global, frame: &FrameTrace, kinds: &Kinds) -> Result<String, AllocError> {
    let number = frame.number;
    let mut lines = String::new(alloc);
    for event in events_of(alloc, frame, kinds)? {
        let sentence = event.sentence.as_str();
        let line = format!(in alloc; "frame {number}: {sentence}\n")?;
        lines.push_str(line.as_str())?;
    }
    Ok(lines)
}

/// A JSON in a line of its own for each thing that happened in a frame.
pub fn frame_jsons(alloc: Global, frame: &FrameTrace, kinds: &Kinds) -> Result<String, AllocError> {
    let mut lines = String::new(alloc);
    for event in events_of(alloc, frame, kinds)? {
        let mut members = event.members;
        put_member(
            alloc,
            &mut members,
            "frame",
            Value::from(frame.number as u64),
        )?;
        lines.push_str(members.to_string(alloc)?.as_str())?;
        lines.push_str("\n")?;
    }
    Ok(lines)
}
