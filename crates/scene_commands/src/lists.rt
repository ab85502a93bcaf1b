//! Commands that are carried out in a world, one after another.
ghost use Rattle.std.specs.Prelude.{◌≡◌, ◌+◌, ◌≤◌, ◌++◌, List, All, length, IfOk, IfErr, OnErr, OnOk};
ghost use Rattle.scene_model.specs.declared.refusals.FrameRefusal.TheVariants as cause;
ghost use Rattle.scene_model.specs.Lawful.{IsLawful};
ghost use Rattle.scene_model.specs.Leads.{RunsTo};
ghost use Rattle.scene_model.specs.Queues.{plain_command, plain_commands};
ghost use Rattle.scene_commands.specs.Acts.{MayAct, Acts, StaysElsewhere, GoesOn};
ghost use Rattle.scene_commands.specs.Links.{Covers};
ghost use Rattle.scene_commands.specs.Lists.{Notes, RefusesAct, RefusesActs};
ghost use Rattle.scene_commands.specs.Members.{scene_in};
ghost use Rattle.scene_world.specs.Members.{kinds_by};
ghost use Rattle.scene_world.specs.Standing.{owning_in};

use crate::births::spawn_entity;
use crate::bringing::foresee;
use crate::deaths::kill_entity;
use crate::holders::Holders;
use crate::parts::{put_part, take_part};
use scene_model::{Command, DocumentRules, FrameRefusal, Skip};
use scene_world::Rules;
use shred_world::World;
use std::alloc::{AllocError, Global};

/// What became of a command that only memory can be wanting for.
fn told(outcome: Result<bool, AllocError>) -> Result<bool, FrameRefusal>
    ensures done { IfOk result (λ done. outcome ≡ Ok done) }
    ensures refused { IfErr result (λ why. why ≡ cause.Memory) }
{
    outcome.map_err(|_| FrameRefusal::Memory)
}

/// Carries a command out in a world.
///
/// The answer is whether it was done: where its object doesn't live, or a reference of its data is to none that lives,
/// it is skipped, and the world is as it was.
///
/// Errors: those of a spawn; `Memory`.
pub fn act<R: Rules>(
    rules: &R,
    world: &mut World<R::Value>,
    holders: &mut Holders,
    command: &Command<R::Data>,
    alloc: Global,
) -> Result<bool, FrameRefusal>
    requires may { MayAct (kinds_by R.Rules R.Value.SceneValue) world.old }
    requires lawful { IsLawful (R.book rules.now) (plain_command R.part_of command.now) }
    requires covers { Covers (kinds_by R.Rules R.Value.SceneValue) holders.old world.old }
    ensures acts { IfOk result (λ done. Acts (kinds_by R.Rules R.Value.SceneValue)
        (plain_command R.part_of command.now) done world.old world.new) }
    ensures may { OnOk result (MayAct (kinds_by R.Rules R.Value.SceneValue) world.new) }
    ensures elsewhere { OnOk result (StaysElsewhere (kinds_by R.Rules R.Value.SceneValue) world.old world.new) }
    ensures goes_on { OnOk result (GoesOn (kinds_by R.Rules R.Value.SceneValue) world.old world.new) }
    ensures refused { IfErr result
        (RefusesAct (kinds_by R.Rules R.Value.SceneValue) (plain_command R.part_of command.now) world.old) }
    ensures covers { OnOk result (Covers (kinds_by R.Rules R.Value.SceneValue) holders.new world.new) }
{
    let Ok(()) = foresee(rules, world, holders, command, alloc) else {
        return Err(FrameRefusal::Memory);
    };
    match command {
        Command::Spawn(parts) => spawn_entity(rules, world, parts.as_slice(), alloc),
        Command::Kill(id) => told(kill_entity(rules, world, holders, *id, alloc)),
        Command::Put(id, kind, datum) => told(put_part(rules, world, *id, kind, datum, alloc)),
        Command::Take(id, kind) => told(take_part::<R>(world, *id, kind)),
    }
}

/// Notes a command of a frame at its place, where it was skipped. Errors: `Memory`; the notes are as they were.
fn note(skips: &mut Vec<Skip>, frame: u32, place: u32, done: bool) -> Result<(), FrameRefusal>
    ensures ok { OnOk result (Notes frame place done skips.old.items skips.new.items) }
    ensures err { OnErr result (skips.new.items ≡ skips.old.items) }
    ensures refused { IfErr result (λ why. why ≡ cause.Memory) }
{
    if done {
        return Ok(());
    }
    skips
        .push(Skip { frame, place })
        .map_err(|_| FrameRefusal::Memory)
}

/// Carries commands out in a world, one after another, and notes those that are skipped, by the frame and their place
/// behind a number of others.
///
/// Errors: those of a command, after which later ones aren't carried out; `Memory` also where there is none for the
/// note of a skip.
pub fn act_all<R: Rules>(
    rules: &R,
    world: &mut World<R::Value>,
    holders: &mut Holders,
    frame: u32,
    earlier: u32,
    commands: &[Command<R::Data>],
    skips: &mut Vec<Skip>,
    alloc: Global,
) -> Result<(), FrameRefusal>
    requires may { MayAct (kinds_by R.Rules R.Value.SceneValue) world.old }
    requires lawful { All (IsLawful (R.book rules.now)) (plain_commands R.part_of commands.now) }
    requires room { earlier + length commands.now ≤ 4294967295 }
    requires covers { Covers (kinds_by R.Rules R.Value.SceneValue) holders.old world.old }
    ensures ran { OnOk result (RunsTo (owning_in (kinds_by R.Rules R.Value.SceneValue)) frame (earlier + 1)
        (plain_commands R.part_of commands.now) (scene_in R.Rules R.Value.SceneValue world.old)
        (scene_in R.Rules R.Value.SceneValue world.new) skips.old.items skips.new.items) }
    ensures may { OnOk result (MayAct (kinds_by R.Rules R.Value.SceneValue) world.new) }
    ensures elsewhere { OnOk result (StaysElsewhere (kinds_by R.Rules R.Value.SceneValue) world.old world.new) }
    ensures goes_on { OnOk result (GoesOn (kinds_by R.Rules R.Value.SceneValue) world.old world.new) }
    ensures refused { IfErr result (RefusesActs (kinds_by R.Rules R.Value.SceneValue) (earlier + 1)
        (plain_commands R.part_of commands.now) world.old) }
    ensures kept { (more : List Skip) × (skips.new.items ≡ skips.old.items ++ more) }
    ensures covers { OnOk result (Covers (kinds_by R.Rules R.Value.SceneValue) holders.new world.new) }
{
    let mut place = earlier;
    for command in commands {
        place += 1;
        let done = act(rules, world, holders, command, alloc)?;
        note(skips, frame, place, done)?;
    }
    Ok(())
}
