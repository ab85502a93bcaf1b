//! The commands of a document that is not refused.
ghost use Rattle.std.specs.Prelude.{◌≡◌, ◌++◌, [], map, option_map, IfOk, OnOk};
ghost use Rattle.std.specs.List.{filter_map, cons_option};
ghost use Rattle.scene_model.specs.Queues.{plain_entry, plain_command, plain_commands};
ghost use Rattle.scene_document.specs.DraftViews.{plain_part, plain_asked, plain_list};
ghost use Rattle.scene_document.specs.Openings.{command_of};

use crate::CommandDraft;
use scene_model::{Command, DocumentRules};
use std::alloc::{AllocError, Global};

/// Puts what there is to the others.
fn push_some<T: Drop>(list: &mut Vec<T>, found: Option<T>) -> Result<(), AllocError>
    ensures { OnOk result (list.new.items ≡ list.old.items ++ cons_option found []) }
{
    if let Some(one) = found {
        list.push(one)?;
    }
    Ok(())
}

/// The parts whose kinds are known.
fn known_parts<R: DocumentRules>(
    alloc: Global,
    parts: Vec<Option<(&'static str, R::Data)>>,
) -> Result<Vec<(&'static str, R::Data)>, AllocError>
    ensures { IfOk result (λ known. map (plain_entry R.part_of) known.items
        ≡ filter_map (λ part. part) (map (plain_part R.part_of) parts.entry.items)) }
{
    let mut known = Vec::new(alloc);
    for part in parts {
        push_some(&mut known, part)?;
    }
    Ok(known)
}

/// The command of a draft, where its kinds are known.
fn command_of<R: DocumentRules>(
    alloc: Global,
    draft: CommandDraft<R::Data>,
) -> Result<Option<Command<R::Data>>, AllocError>
    ensures { IfOk result (λ found. option_map (plain_command R.part_of) found
        ≡ command_of (plain_asked R.part_of draft)) }
{
    match draft {
        CommandDraft::Spawn(parts) => Ok(Some(Command::Spawn(known_parts::<R>(alloc, parts)?))),
        CommandDraft::Kill(id) => Ok(Some(Command::Kill(id))),
        CommandDraft::Put(id, Some((kind, datum))) => Ok(Some(Command::Put(id, kind, datum))),
        CommandDraft::Take(id, Some(kind)) => Ok(Some(Command::Take(id, kind))),
        _ => Ok(None),
    }
}

/// The commands of a list, where their kinds are known.
fn commands_of_list<R: DocumentRules>(
    alloc: Global,
    list: Vec<CommandDraft<R::Data>>,
) -> Result<Vec<Command<R::Data>>, AllocError>
    ensures { IfOk result (λ commands. plain_commands R.part_of commands.items
        ≡ filter_map command_of (plain_list R.part_of list)) }
{
    let mut commands = Vec::new(alloc);
    for draft in list {
        push_some(&mut commands, command_of::<R>(alloc, draft)?)?;
    }
    Ok(commands)
}

/// The lists of commands, where their kinds are known.
///
/// Errors: for want of memory.
pub fn commands_of<R: DocumentRules>(
    alloc: Global,
    lists: Vec<Vec<CommandDraft<R::Data>>>,
) -> Result<Vec<Vec<Command<R::Data>>>, AllocError>
    ensures { IfOk result (λ commands. map (λ list. plain_commands R.part_of list.items) commands.items
        ≡ map (λ list. filter_map command_of (plain_list R.part_of list)) lists.items) }
{
    let mut commands = Vec::with_capacity(alloc, lists.len())?;
    for list in lists {
        commands.push(commands_of_list::<R>(alloc, list)?)?;
    }
    Ok(commands)
}
