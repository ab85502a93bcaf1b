//! Documents of the program's rules, of any number of entities.
use std::alloc::{AllocError, Global};

/// What a document has of its entities, and what its frames do.
#[derive(Clone, Copy, Debug, PartialEq, Eq)]
pub enum Work {
    /// Each has a pos and a vel, and drifts.
    Drift,
    /// Each has a hp, a pos and a vel; all systems but bud run, and nobody is reaped.
    Five,
    /// Each has a hp, one in a hundred a pos and a vel, and these drift.
    Sparse,
    /// Each has a hp, and each frame has 1000 commands: half of them put a hp, a fourth each kills and spawns.
    Commands,
    /// Each is bound to the one before it, in chains of 1000, and each frame kills the first of a chain.
    Chains,
    /// All are bound to the first, which the first frame kills.
    Star,
    /// Each second one is bound to the one before it, and each frame kills 1000 that have such a holder.
    Bonds,
}

/// How many commands a frame has.
const COMMANDS: u32 = 1000;

/// A bond to an id.
fn bond_to(alloc: Global, id: u32) -> Result<String, AllocError> {
    format!(in alloc; "\"bond\":{id}")
}

/// The parts of an entity.
fn push_parts(text: &mut String, alloc: Global, work: Work, place: u32) -> Result<(), AllocError> {
    let parts = match work {
        Work::Drift => format!(in alloc; "\"pos\":{place},\"vel\":1")?,
        Work::Five => format!(in alloc; "\"hp\":1000000000,\"pos\":{place},\"vel\":1")?,
        Work::Sparse if place.is_multiple_of(100) => {
            format!(in alloc; "\"hp\":1,\"pos\":{place},\"vel\":1")?
        }
        Work::Chains if !place.is_multiple_of(1000) => bond_to(alloc, place.saturating_sub(1))?,
        Work::Star if place != 0 => bond_to(alloc, 0)?,
        Work::Bonds if !place.is_multiple_of(2) => bond_to(alloc, place.saturating_sub(1))?,
        _ => format!(in alloc; "\"hp\":1")?,
    };
    text.push_str(parts.as_str())
}

/// The entities, by ids from 0 on.
fn push_entities(
    text: &mut String,
    alloc: Global,
    work: Work,
    count: u32,
) -> Result<(), AllocError> {
    for place in 0..count {
        let open = format!(in alloc; "{{\"id\":{place},\"parts\":{{")?;
        if place != 0 {
            text.push_str(",")?;
        }
        text.push_str(open.as_str())?;
        push_parts(text, alloc, work, place)?;
        text.push_str("}}")?;
    }
    Ok(())
}

/// The systems.
fn systems_of(work: Work) -> &'static str {
    match work {
        Work::Drift | Work::Sparse => "{\"kind\":\"drift\"}",
        Work::Five => {
            "{\"kind\":\"pull\"},{\"kind\":\"drift\"},{\"kind\":\"decay\"},{\"kind\":\"reap\"}"
        }
        Work::Commands | Work::Chains | Work::Star | Work::Bonds => "",
    }
}

/// The commands of a frame, which kill the entities of the next 250 ids.
fn push_commands(
    text: &mut String,
    alloc: Global,
    count: u32,
    frame: u32,
) -> Result<(), AllocError> {
    let first = frame.saturating_mul(COMMANDS / 4);
    for place in 0..COMMANDS / 4 {
        let dead = first.saturating_add(place);
        let one = count.saturating_sub(1).saturating_sub(place);
        let other = one.saturating_sub(COMMANDS / 4);
        let four = format!(in alloc;
            "{{\"put\":{{\"id\":{one},\"kind\":\"hp\",\"value\":{frame}}}}},{{\"put\":{{\"id\":{other},\"kind\":\"hp\",\"value\":{frame}}}}},{{\"kill\":{dead}}},{{\"spawn\":{{\"hp\":{frame}}}}}"
        )?;
        if place != 0 {
            text.push_str(",")?;
        }
        text.push_str(four.as_str())?;
    }
    Ok(())
}

/// The commands of a frame that kills so many entities, from an id on by a step.
fn push_deaths(
    text: &mut String,
    alloc: Global,
    first: u32,
    step: u32,
    count: u32,
) -> Result<(), AllocError> {
    for place in 0..count {
        let dead = first.saturating_add(place.saturating_mul(step));
        let kill = format!(in alloc; "{{\"kill\":{dead}}}")?;
        if place != 0 {
            text.push_str(",")?;
        }
        text.push_str(kill.as_str())?;
    }
    Ok(())
}

/// The commands of a frame.
fn push_frame(
    text: &mut String,
    alloc: Global,
    work: Work,
    count: u32,
    frame: u32,
) -> Result<(), AllocError> {
    match work {
        Work::Commands => push_commands(text, alloc, count, frame),
        Work::Chains => push_deaths(text, alloc, frame.saturating_mul(1000), 1, 1),
        Work::Star => push_deaths(text, alloc, 0, 1, 1),
        Work::Bonds => push_deaths(text, alloc, frame.saturating_mul(2 * COMMANDS), 2, COMMANDS),
        _ => Ok(()),
    }
}

/// The document of so many entities and frames.
///
/// Errors: want of memory.
pub fn document(
    alloc: Global,
    work: Work,
    count: u32,
    frames: u32,
    workers: u32,
    store: &str,
) -> Result<String, AllocError> {
    let mut text = String::new(alloc);
    text.push_str("{\"entities\":[")?;
    push_entities(&mut text, alloc, work, count)?;
    text.push_str("],\"systems\":[")?;
    text.push_str(systems_of(work))?;
    text.push_str("],\"commands\":[")?;
    if systems_of(work).is_empty() {
        for frame in 0..frames {
            text.push_str(if frame == 0 { "[" } else { ",[" })?;
            push_frame(&mut text, alloc, work, count, frame)?;
            text.push_str("]")?;
        }
    }
    let rest = format!(in alloc;
        "],\"globals\":{{\"g\":1}},\"next\":{count},\"frames\":{frames},\"workers\":{workers},\"store\":\"{store}\"}}"
    )?;
    text.push_str(rest.as_str())?;
    Ok(text)
}
