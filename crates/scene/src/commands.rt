//! The commands of a frame in a world: those that are given, and then those that wait in the queues of systems.
ghost use Rattle.std.specs.Prelude.{◌≡◌, ◌+◌, ◌≤◌, ◌<◌, ◌++◌, ℕ, List, All, None, true, false, length, IfOk, IfErr};
ghost use Rattle.std.specs.Prelude.{OnOk, OnErr};
ghost use Rattle.scene_model.specs.declared.refusals.FrameRefusal.TheVariants as cause;
ghost use Rattle.scene_model.specs.Parts.{Part};
ghost use Rattle.scene_model.specs.Lawful.{IsLawful};
ghost use Rattle.scene_model.specs.Leads.{RunsTo};
ghost use Rattle.scene_model.specs.Commands.{CommandsAccepted, first_gone, skips_of};
ghost use Rattle.scene_model.specs.Queues.{plain_commands, waiting};
ghost use Rattle.scene_world.specs.Standing.{commands_of, owning_in, roll_of};
ghost use Rattle.scene_world.specs.Members.{kinds_by};
ghost use Rattle.scene_commands.specs.Acts.{seen_of, MayAct, StaysElsewhere, GoesOn};
ghost use Rattle.scene_commands.specs.Links.{Covers};
ghost use Rattle.scene_commands.specs.Lists.{RefusesActs};
ghost use Rattle.scene_commands.specs.Members.{scene_in};
ghost use Rattle.scene.specs.Waiting.{given_and_waiting, waiting_in, PlacesAscend, NoneWaitsAt, StaysApart};
ghost use Rattle.scene.specs.Sparing.{AsksNoDeath, NoneGone};
ghost use Rattle.scene.specs.Refusals.{CommandsRefusedIn, GoneIn, RefusesAll};

use crate::queues::{put_queues, take_queues};
use scene_commands::{Holders, act_all, find_gone};
use scene_model::{Command, DocumentRules, FrameRefusal, Queue, Skip};
use scene_world::Rules;
use shred_world::World;
use std::alloc::Global;

/// What a frame is run with, beside the scene that stands in a world.
#[derive(Drop)]
pub struct FrameInput<'a, D> {
    /// The number of the frame, from 1.
    pub number: u32,
    /// The greatest number of commands that it may have.
    pub limit: u32,
    /// The places of the systems, each with its queue in the world, ascending.
    pub places: &'a [u32],
    /// The commands that are given to it, before those of its systems.
    pub given: &'a [Command<D>],
}

/// Whether commands are at most so many, with those that wait in queues.
fn are_within<D: Drop>(limit: usize, given: usize, queues: &[Queue<D>]) -> bool
    ensures within { (part_of : D → Part) → result ≡ true → given + length (waiting_in part_of queues.now) ≤ limit }
    ensures over { (part_of : D → Part) → result ≡ false → limit < given + length (waiting_in part_of queues.now) }
{
    if given > limit {
        return false;
    }
    let mut left = limit - given;
    for queue in queues {
        if queue.len() > left {
            return false;
        }
        left -= queue.len();
    }
    true
}

/// The place of the last command of a queue, the first of which comes behind a place.
fn behind<D: Drop>(place: u32, queue: &Queue<D>) -> u32
    requires { place + length (waiting queue.now) ≤ 4294967295 }
    ensures { result ≡ place + length (waiting queue.now) }
{
    place + queue.len() as u32
}

/// How many commands a list has.
fn count_of<D: Drop>(commands: &[Command<D>]) -> u32
    requires { length commands.now ≤ 4294967295 }
    ensures { result ≡ length commands.now }
{
    commands.len() as u32
}

/// Carries the commands of queues out in a world, as `act_all` does those of a list.
fn act_queues<R: Rules>(
    rules: &R,
    world: &mut World<R::Value>,
    holders: &mut Holders,
    frame: u32,
    earlier: u32,
    queues: &[Queue<R::Data>],
    skips: &mut Vec<Skip>,
    alloc: Global,
) -> Result<(), FrameRefusal>
    requires may { MayAct (kinds_by R.Rules R.Value.SceneValue) world.old }
    requires lawful { All (λ queue. All (IsLawful (R.book rules.now)) (plain_commands R.part_of (waiting queue)))
        queues.now }
    requires room { earlier + length (waiting_in R.part_of queues.now) ≤ 4294967295 }
    requires covers { Covers (kinds_by R.Rules R.Value.SceneValue) holders.old world.old }
    ensures ran { OnOk result (RunsTo (owning_in (kinds_by R.Rules R.Value.SceneValue)) frame (earlier + 1)
        (waiting_in R.part_of queues.now) (scene_in R.Rules R.Value.SceneValue world.old)
        (scene_in R.Rules R.Value.SceneValue world.new) skips.old.items skips.new.items) }
    ensures may { OnOk result (MayAct (kinds_by R.Rules R.Value.SceneValue) world.new) }
    ensures elsewhere { OnOk result (StaysElsewhere (kinds_by R.Rules R.Value.SceneValue) world.old world.new) }
    ensures goes_on { OnOk result (GoesOn (kinds_by R.Rules R.Value.SceneValue) world.old world.new) }
    ensures refused { IfErr result (RefusesActs (kinds_by R.Rules R.Value.SceneValue) (earlier + 1)
        (waiting_in R.part_of queues.now) world.old) }
    ensures kept { (more : List Skip) × (skips.new.items ≡ skips.old.items ++ more) }
{
    let mut place = earlier;
    for queue in queues {
        act_all(
            rules,
            world,
            holders,
            frame,
            place,
            queue.as_slice(),
            skips,
            alloc,
        )?;
        place = behind(place, queue);
    }
    Ok(())
}

/// Carries commands out in a world, first those of a list, then those of queues.
fn act_both<R: Rules>(
    rules: &R,
    world: &mut World<R::Value>,
    frame: u32,
    given: &[Command<R::Data>],
    queues: &[Queue<R::Data>],
    skips: &mut Vec<Skip>,
    alloc: Global,
) -> Result<(), FrameRefusal>
    requires may { MayAct (kinds_by R.Rules R.Value.SceneValue) world.old }
    requires given { All (IsLawful (R.book rules.now)) (plain_commands R.part_of given.now) }
    requires lawful { All (λ queue. All (IsLawful (R.book rules.now)) (plain_commands R.part_of (waiting queue)))
        queues.now }
    requires room { length given.now + length (waiting_in R.part_of queues.now) ≤ 4294967295 }
    ensures ran { OnOk result (RunsTo (owning_in (kinds_by R.Rules R.Value.SceneValue)) frame 1
        (plain_commands R.part_of given.now ++ waiting_in R.part_of queues.now)
        (scene_in R.Rules R.Value.SceneValue world.old)
        (scene_in R.Rules R.Value.SceneValue world.new) skips.old.items skips.new.items) }
    ensures may { OnOk result (MayAct (kinds_by R.Rules R.Value.SceneValue) world.new) }
    ensures elsewhere { OnOk result (StaysElsewhere (kinds_by R.Rules R.Value.SceneValue) world.old world.new) }
    ensures goes_on { OnOk result (GoesOn (kinds_by R.Rules R.Value.SceneValue) world.old world.new) }
    ensures refused { IfErr result (RefusesActs (kinds_by R.Rules R.Value.SceneValue) 1
        (plain_commands R.part_of given.now ++ waiting_in R.part_of queues.now) world.old) }
    ensures kept { (more : List Skip) × (skips.new.items ≡ skips.old.items ++ more) }
{
    let mut holders = Holders::new(alloc);
    act_all(rules, world, &mut holders, frame, 0, given, skips, alloc)?;
    let earlier = count_of(given);
    act_queues(
        rules,
        world,
        &mut holders,
        frame,
        earlier,
        queues,
        skips,
        alloc,
    )
}

/// Whether one of some commands is to kill somebody.
fn has_kill<D: Drop>(commands: &[Command<D>]) -> bool
    ensures { result ≡ false → All AsksNoDeath commands.now }
{
    for command in commands {
        if let Command::Kill(_) = command {
            return true;
        }
    }
    false
}

/// Whether one of the commands that wait in queues is to kill somebody.
fn have_kill<D: Drop>(queues: &[Queue<D>]) -> bool
    ensures { result ≡ false → All (λ queue. All AsksNoDeath (waiting queue)) queues.now }
{
    for queue in queues {
        if has_kill(queue.as_slice()) {
            return true;
        }
    }
    false
}

/// Whether one of some commands, or of those that wait in queues, is to kill somebody.
fn ask_death<D: Drop>(given: &[Command<D>], queues: &[Queue<D>]) -> bool
    ensures given { result ≡ false → All AsksNoDeath given.now }
    ensures queues { result ≡ false → All (λ queue. All AsksNoDeath (waiting queue)) queues.now }
{
    if has_kill(given) {
        return true;
    }
    have_kill(queues)
}

/// Refuses a frame after which a reference is gone. It looks only where somebody may have been killed.
///
/// Errors: `GoneReference`, with the least id that holds one; `Memory`.
fn look<R: Rules>(
    rules: &R,
    world: &World<R::Value>,
    kills: bool,
    alloc: Global,
) -> Result<(), FrameRefusal>
    requires may { MayAct (kinds_by R.Rules R.Value.SceneValue) world.now }
    requires spared { kills ≡ false → NoneGone (scene_in R.Rules R.Value.SceneValue world.now) }
    ensures ok { OnOk result
        (first_gone (R.book rules.now) (scene_in R.Rules R.Value.SceneValue world.now) ≡ None) }
    ensures refused { IfErr result (GoneIn (R.book rules.now) (scene_in R.Rules R.Value.SceneValue world.now)) }
{
    if !kills {
        return Ok(());
    }
    match find_gone(rules, world, alloc) {
        Ok(None) => Ok(()),
        Ok(Some(id)) => Err(FrameRefusal::GoneReference(id)),
        Err(_) => Err(FrameRefusal::Memory),
    }
}

/// Carries the commands of a list and those of queues out in a world, puts the queues back empty at their places, and
/// looks for a reference that is gone.
///
/// Errors: those of a command; `GoneReference`; `Memory`.
fn act_out<R: Rules>(
    rules: &R,
    world: &mut World<R::Value>,
    input: &FrameInput<'_, R::Data>,
    queues: Vec<Queue<R::Data>>,
    skips: &mut Vec<Skip>,
    alloc: Global,
) -> Result<(), FrameRefusal>
where
    R::Value: Drop,
    requires may { MayAct (kinds_by R.Rules R.Value.SceneValue) world.old }
    requires none { NoneGone (scene_in R.Rules R.Value.SceneValue world.old) }
    requires ascend { PlacesAscend input.now.places.now }
    requires given { All (IsLawful (R.book rules.now)) (plain_commands R.part_of input.now.given.now) }
    requires lawful { All (λ queue. All (IsLawful (R.book rules.now)) (plain_commands R.part_of (waiting queue)))
        queues.items }
    requires room { length input.now.given.now + length (waiting_in R.part_of queues.items) ≤ 4294967295 }
    ensures ran { OnOk result (RunsTo (owning_in (kinds_by R.Rules R.Value.SceneValue)) input.now.number 1
        (plain_commands R.part_of input.now.given.now ++ waiting_in R.part_of queues.items)
        (scene_in R.Rules R.Value.SceneValue world.old)
        (scene_in R.Rules R.Value.SceneValue world.new) skips.old.items skips.new.items) }
    ensures may { OnOk result (MayAct (kinds_by R.Rules R.Value.SceneValue) world.new) }
    ensures none_gone { OnOk result
        (first_gone (R.book rules.now) (scene_in R.Rules R.Value.SceneValue world.new) ≡ None) }
    ensures empty { OnOk result
        (NoneWaitsAt (kinds_by R.Rules R.Value.SceneValue) input.now.places.now (seen_of world.new)) }
    ensures apart { OnOk result
        (StaysApart (kinds_by R.Rules R.Value.SceneValue) input.now.places.now world.old world.new) }
    ensures goes_on { OnOk result (GoesOn (kinds_by R.Rules R.Value.SceneValue) world.old world.new) }
    ensures refused { IfErr result (RefusesAll (kinds_by R.Rules R.Value.SceneValue) (R.book rules.now)
        (plain_commands R.part_of input.now.given.now ++ waiting_in R.part_of queues.items) world.old) }
    ensures kept { (more : List Skip) × (skips.new.items ≡ skips.old.items ++ more) }
{
    let kills = ask_death(input.given, queues.as_slice());
    act_both(
        rules,
        world,
        input.number,
        input.given,
        queues.as_slice(),
        skips,
        alloc,
    )?;
    let Ok(()) = put_queues::<R>(world, input.places, queues, alloc) else {
        return Err(FrameRefusal::Memory);
    };
    look(rules, world, kills, alloc)
}

/// Runs the commands of a frame in a world: those that are given, and then those that wait in the queues at places, by
/// their places. Then it looks for references that are gone.
///
/// Where they are accepted, the scene that stands in the world is the one to which they lead, the skipped ones are
/// noted behind the skips by the frame and their place, and the queues at these places are empty.
///
/// Asked for is that no reference is gone yet, that the places ascend, and that the commands are ones that the rules know.
///
/// Errors: `TooManyCommands`, where there are more than the limit; `IdsSpent`, `IndicesSpent` and `GenerationsSpent` of
/// a spawn; `GoneReference`, with the least id that holds one; `Memory`, also where there is no queue at a place. The
/// skips are as they were; what was carried out before stays in the world.
pub fn run_commands<R: Rules>(
    rules: &R,
    world: &mut World<R::Value>,
    input: &FrameInput<'_, R::Data>,
    skips: &mut Vec<Skip>,
    alloc: Global,
) -> Result<(), FrameRefusal>
where
    R::Value: Drop,
    requires may { MayAct (kinds_by R.Rules R.Value.SceneValue) world.old }
    requires none { NoneGone (scene_in R.Rules R.Value.SceneValue world.old) }
    requires ascend { PlacesAscend input.now.places.now }
    requires given { All (IsLawful (R.book rules.now)) (plain_commands R.part_of input.now.given.now) }
    requires lawful { All (λ place. All (IsLawful (R.book rules.now))
        (commands_of (kinds_by R.Rules R.Value.SceneValue) (seen_of world.old) place)) input.now.places.now }
    ensures accepted { OnOk result ((skipped : List ℕ) × CommandsAccepted (R.book rules.now) input.now.limit
        (given_and_waiting (kinds_by R.Rules R.Value.SceneValue) R.part_of input.now (seen_of world.old))
        (scene_in R.Rules R.Value.SceneValue world.old) (scene_in R.Rules R.Value.SceneValue world.new) skipped
        × (skips.new.items ≡ skips.old.items ++ skips_of input.now.number skipped)) }
    ensures may { OnOk result (MayAct (kinds_by R.Rules R.Value.SceneValue) world.new) }
    ensures empty { OnOk result
        (NoneWaitsAt (kinds_by R.Rules R.Value.SceneValue) input.now.places.now (seen_of world.new)) }
    ensures apart { OnOk result
        (StaysApart (kinds_by R.Rules R.Value.SceneValue) input.now.places.now world.old world.new) }
    ensures goes_on { OnOk result (GoesOn (kinds_by R.Rules R.Value.SceneValue) world.old world.new) }
    ensures refused { IfErr result (CommandsRefusedIn (kinds_by R.Rules R.Value.SceneValue) (R.book rules.now)
        input.now.limit (roll_of (kinds_by R.Rules R.Value.SceneValue) (seen_of world.old))
        (given_and_waiting (kinds_by R.Rules R.Value.SceneValue) R.part_of input.now
        (seen_of world.old)) (scene_in R.Rules R.Value.SceneValue world.old)) }
    ensures skips { OnErr result (skips.new.items ≡ skips.old.items) }
{
    let Ok(queues) = take_queues::<R>(world, input.places, alloc) else {
        return Err(FrameRefusal::Memory);
    };
    if !are_within(input.limit as usize, input.given.len(), queues.as_slice()) {
        return Err(FrameRefusal::TooManyCommands);
    }
    let noted = skips.len();
    match act_out(rules, world, input, queues, skips, alloc) {
        Ok(()) => Ok(()),
        Err(refusal) => {
            skips.truncate(noted);
            Err(refusal)
        }
    }
}
