//! References that own their holder and that a command brings, noted before it is carried out.
ghost use Rattle.std.specs.Prelude.{◌≡◌, ℕ, true, List, Some, map, OnOk};
ghost use Rattle.scene_model.specs.Parts.{under};
ghost use Rattle.scene_model.specs.Deaths.{refers_to};
ghost use Rattle.scene_model.specs.Queues.{plain_command, plain_entry};
ghost use Rattle.scene_world.specs.Members.{kinds_by};
ghost use Rattle.scene_commands.specs.Acts.{MayAct};
ghost use Rattle.scene_commands.specs.Links.{IsChained, Covers, Foresees, Grows, Holds, end_in};

use crate::births::next_id;
use crate::holders::Holders;
use scene_model::{Command, DocumentRules};
use scene_world::Rules;
use shred_world::World;
use std::alloc::{AllocError, Global};

/// Notes the references of a part of a kind, where these own their holder and the index is needed.
///
/// Errors: want of memory.
fn note_part<R: Rules>(
    rules: &R,
    holders: &mut Holders,
    id: u64,
    kind: &str,
    datum: &R::Data,
    alloc: Global,
) -> Result<(), AllocError>
    requires { IsChained (end_in holders.old.ends) holders.old.links.items }
    ensures grows { OnOk result (Grows holders.old holders.new) }
    ensures noted { OnOk result (holders.old.made ≡ true → R.columns.owning kind.now ≡ true → (one : ℕ)
        → refers_to one (Some (R.part_of datum.now)) ≡ true → Holds holders.new.links.items id one) }
{
    if !holders.made || !R::owning(kind) {
        return Ok(());
    }
    let refs = rules.refs(alloc, datum)?;
    holders.push_all(id, refs.as_slice())
}

/// So of parts, each under its kind.
///
/// Errors: want of memory.
fn note_parts<R: Rules>(
    rules: &R,
    holders: &mut Holders,
    id: u64,
    parts: &[(&'static str, R::Data)],
    alloc: Global,
) -> Result<(), AllocError>
    requires { IsChained (end_in holders.old.ends) holders.old.links.items }
    ensures grows { OnOk result (Grows holders.old holders.new) }
    ensures noted { OnOk result (holders.old.made ≡ true → (kind : List ℕ) → R.columns.owning kind ≡ true
        → (target : ℕ) → refers_to target (under kind (map (plain_entry R.part_of) parts.now)) ≡ true
        → Holds holders.new.links.items id target) }
{
    for part in parts {
        note_part(rules, holders, id, part.0, &part.1, alloc)?;
    }
    Ok(())
}

/// Notes what a command would bring, before it is carried out; where it is skipped nothing has to be taken back.
///
/// Errors: want of memory.
pub(crate) fn foresee<R: Rules>(
    rules: &R,
    world: &World<R::Value>,
    holders: &mut Holders,
    command: &Command<R::Data>,
    alloc: Global,
) -> Result<(), AllocError>
    requires may { MayAct (kinds_by R.Rules R.Value.SceneValue) world.now }
    requires covers { Covers (kinds_by R.Rules R.Value.SceneValue) holders.old world.now }
    ensures { OnOk result (Foresees (kinds_by R.Rules R.Value.SceneValue)
        (plain_command R.part_of command.now) world.now holders.new) }
{
    if !holders.made {
        return Ok(());
    }
    match command {
        Command::Spawn(parts) => {
            let Some(next) = next_id::<R>(world) else {
                return Err(AllocError);
            };
            note_parts(rules, holders, next, parts.as_slice(), alloc)
        }
        Command::Put(id, kind, datum) => note_part(rules, holders, *id, kind, datum, alloc),
        Command::Kill(_) => Ok(()),
        Command::Take(_, _) => Ok(()),
    }
}
