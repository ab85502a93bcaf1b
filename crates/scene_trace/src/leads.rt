//! What led to the refusal of a frame.
use crate::acting::Acting;
use crate::events::Lead;
use crate::following::Deeds;
use scene_model::{FrameRefusal, Queue};
use scene_world::Rules;
use std::alloc::{AllocError, Global};

/// The name of a refusal, with its number and its text.
pub(crate) fn cause_text(alloc: Global, refusal: &FrameRefusal) -> Result<String, AllocError> {
    let name = match refusal {
        FrameRefusal::System(place, text) => {
            let text = text.as_str();
            return format!(in alloc; "System {place}: {text}");
        }
        FrameRefusal::GoneReference(id) => return format!(in alloc; "GoneReference {id}"),
        FrameRefusal::IdsSpent => "IdsSpent",
        FrameRefusal::IndicesSpent => "IndicesSpent",
        FrameRefusal::GenerationsSpent => "GenerationsSpent",
        FrameRefusal::TooManyCommands => "TooManyCommands",
        FrameRefusal::Memory => "Memory",
        FrameRefusal::Threads => "Threads",
    };
    String::from_str(alloc, name)
}

/// The references of a holder that are gone, once the commands are done.
fn gone_of<R: Rules>(
    acting: &Acting<'_, R>,
    holder: u64,
    leads: &mut Vec<Lead>,
) -> Result<(), AllocError> {
    let Some(parts) = acting.plain.entities.get(&holder) else {
        return Ok(());
    };
    for (kind, part) in parts {
        if let Some(gone) = acting.dead_in(part) {
            let fall = acting.fallen.get(&gone).copied();
            leads.push(Lead::Gone(holder, *kind, gone, fall))?;
        }
    }
    Ok(())
}

/// How many commands there are, of the document and of each system.
fn counts_of<D: Drop>(
    given: usize,
    queues: &[(u32, Queue<D>)],
    leads: &mut Vec<Lead>,
) -> Result<(), AllocError> {
    leads.push(Lead::Given(given))?;
    for (place, queue) in queues {
        leads.push(Lead::Queued(*place, queue.len()))?;
    }
    Ok(())
}

/// What led to a refusal, behind the systems of the frame and its commands.
pub(crate) fn leads_of<R: Rules>(
    alloc: Global,
    refusal: &FrameRefusal,
    acting: &Acting<'_, R>,
    deeds: &Deeds,
    given: usize,
    queues: &[(u32, Queue<R::Data>)],
) -> Result<Vec<Lead>, AllocError> {
    let mut leads = Vec::new(alloc);
    match refusal {
        FrameRefusal::System(place, _) => leads.push(Lead::System(*place))?,
        FrameRefusal::GoneReference(holder) => gone_of(acting, *holder, &mut leads)?,
        FrameRefusal::IdsSpent => if let Some((place, actor)) = deeds.spent {
            leads.push(Lead::Spawn(place, actor))?;
        },
        FrameRefusal::TooManyCommands => counts_of(given, queues, &mut leads)?,
        _ => {}
    }
    Ok(leads)
}
