//! The scene after a frame, put together of the scene before and the trace of the frame.
use crate::events::{Act, Change, FrameTrace};
use crate::plain::{Part, Plain};
use std::alloc::AllocError;

/// Sets the part of a kind of an entity, or takes it away.
fn set_part(
    plain: &mut Plain,
    id: u64,
    kind: &'static str,
    part: Option<&Part>,
) -> Result<(), AllocError> {
    if let Some(parts) = plain.entities.get_mut(&id) {
        match part {
            Some(part) => drop(parts.insert(kind, part.clone()?)?),
            None => drop(parts.remove(kind)),
        }
    }
    Ok(())
}

fn set_change(plain: &mut Plain, change: &Change) -> Result<(), AllocError> {
    set_part(plain, change.id, change.kind, change.after.as_ref())
}

fn set_act(plain: &mut Plain, act: &Act) -> Result<(), AllocError> {
    match act {
        Act::Born(id, parts) => {
            drop(plain.entities.insert(*id, parts.clone()?)?);
            plain.next = id.saturating_add(1);
            Ok(())
        }
        Act::Died(deaths) => {
            for death in deaths {
                drop(plain.entities.remove(&death.id));
            }
            Ok(())
        }
        Act::Put(id, kind, _, part) => set_part(plain, *id, *kind, Some(part)),
        Act::Taken(id, kind, _) => set_part(plain, *id, *kind, None),
        Act::Skipped(_, _) => Ok(()),
    }
}

/// Makes the scene after a frame of the scene before it. Errors: want of memory.
pub fn put_together(plain: &mut Plain, frame: &FrameTrace) -> Result<(), AllocError> {
    for change in &frame.changes {
        set_change(plain, change)?;
    }
    for change in &frame.globals {
        match &change.after {
            Some(value) => drop(plain.globals.insert(change.name, value.clone()?)?),
            None => drop(plain.globals.remove(change.name)),
        }
    }
    for deed in &frame.deeds {
        set_act(plain, &deed.act)?;
    }
    Ok(())
}
