//! Courses of a world: commands that are carried out there one after another, and questions between them.
ghost use Rattle.std.specs.Prelude.{◌≡◌, OnOk};
ghost use Rattle.scene_commands.specs.Acts.{MayAct};
ghost use Rattle.scene_cases.specs.Owning.{owning_kinds};

use crate::commands::datum::Datum;
use crate::commands::rules::Owning;
use crate::commands::values::Value;
use scene_commands::{Holders, entity_under, kill_entity, put_part, spawn_entity, take_part};
use scene_model::FrameRefusal;
use scene_world::{SceneMarker, SceneMarkerAllocator, WorldRules};
use shred_world::World;
use specs_entity::{EntitiesRes, Entity};
use specs_layouts::MaskedStorage;
use specs_markers::{Marker, MarkerAllocator};
use std::alloc::{AllocError, Global};

/// A command, or a question. Each number is an id, but for ranks.
#[derive(Clone, Copy, Debug, PartialEq, Eq)]
pub enum Step {
    /// An entity is born, with an owner and a rank where they are given.
    Spawn(Option<u64>, Option<u64>),
    /// An entity dies.
    Kill(u64),
    /// The first belongs to the second from now on.
    Own(u64, u64),
    /// An entity gets a rank.
    Promote(u64, u64),
    /// An entity belongs to nobody any more.
    Free(u64),
    /// An entity has no rank any more.
    Demote(u64),
    /// To whom does an entity belong?
    OwnerOf(u64),
    /// What is its rank?
    RankOf(u64),
    /// At which index is the entity that is noted under an id, whether it lives or not?
    NotedUnder(u64),
}

/// Why a command was refused.
#[derive(Clone, Copy, Debug, PartialEq, Eq)]
pub enum Refusal {
    Ids,
    Indices,
    Generations,
    Memory,
}

/// What came of a step.
#[derive(Clone, Copy, Debug, PartialEq, Eq)]
pub enum Answer {
    /// The command was carried out.
    Done,
    /// It was skipped.
    Skipped,
    /// It was refused.
    Refused(Refusal),
    /// Nobody lives under the id.
    Nobody,
    /// The entity has no such part.
    Nothing,
    /// It belongs to one that is no more.
    Gone,
    /// The id of its owner, its rank, or its index.
    Number(u64),
}

impl From<AllocError> for Refusal {
    fn from(_error: AllocError) -> Refusal {
        Refusal::Memory
    }
}

impl From<FrameRefusal> for Refusal {
    fn from(refusal: FrameRefusal) -> Refusal {
        match refusal {
            FrameRefusal::IdsSpent => Refusal::Ids,
            FrameRefusal::IndicesSpent => Refusal::Indices,
            FrameRefusal::GenerationsSpent => Refusal::Generations,
            _ => Refusal::Memory,
        }
    }
}

/// Brings an entity to life, with an owner and a rank where they are given.
fn spawn(
    world: &mut World<Value>,
    owner: Option<u64>,
    rank: Option<u64>,
    alloc: Global,
) -> Result<bool, FrameRefusal>
    requires { MayAct owning_kinds world.old }
    ensures { OnOk result (MayAct owning_kinds world.new) }
{
    match (owner, rank) {
        (None, None) => spawn_entity(&Owning, world, &[], alloc),
        (None, Some(number)) => {
            spawn_entity(&Owning, world, &[("rank", Datum::Ranked(number))], alloc)
        }
        (Some(id), None) => {
            spawn_entity(&Owning, world, &[("owner", Datum::OwnedBy(id))], alloc)
        }
        (Some(id), Some(number)) => spawn_entity(
            &Owning,
            world,
            &[
                ("owner", Datum::OwnedBy(id)),
                ("rank", Datum::Ranked(number)),
            ],
            alloc,
        ),
    }
}

/// Whether a command was carried out.
fn told(done: bool) -> Answer {
    if done { Answer::Done } else { Answer::Skipped }
}

/// The id of an entity of a world, while it lives.
fn id_of(world: &World<Value>, entity: Entity) -> Option<u64> {
    let entities = world.try_fetch::<EntitiesRes>()?;
    let markers = world.try_fetch::<MaskedStorage<SceneMarker>>()?;
    if entities.is_alive(entity) && markers.contains(entity.id()) {
        Some(markers.get(entity.id()).id())
    } else {
        None
    }
}

/// To whom an entity belongs. Errors: want of memory.
fn owner_of(world: &World<Value>, id: u64, alloc: Global) -> Result<Answer, AllocError> {
    let Some(entity) = entity_under::<Owning>(world, id) else {
        return Ok(Answer::Nobody);
    };
    let Some(value) = world.get_raw(Owning::part_id("owner")) else {
        return Ok(Answer::Nobody);
    };
    let mut named = Vec::new(alloc);
    Owning::named_at(value, "owner", entity.id(), &mut named)?;
    if named.len() != 1 {
        return Ok(Answer::Nothing);
    }
    let Some(owner) = id_of(world, named[0]) else {
        return Ok(Answer::Gone);
    };
    match Owning::get(value, "owner", entity.id(), &[owner], alloc)? {
        Some(Datum::OwnedBy(id)) => Ok(Answer::Number(id)),
        _ => Ok(Answer::Nothing),
    }
}

/// The rank of an entity. Errors: want of memory.
fn rank_of(world: &World<Value>, id: u64, alloc: Global) -> Result<Answer, AllocError> {
    let Some(entity) = entity_under::<Owning>(world, id) else {
        return Ok(Answer::Nobody);
    };
    let Some(value) = world.get_raw(Owning::part_id("rank")) else {
        return Ok(Answer::Nobody);
    };
    match Owning::get(value, "rank", entity.id(), &[], alloc)? {
        Some(Datum::Ranked(number)) => Ok(Answer::Number(number)),
        _ => Ok(Answer::Nothing),
    }
}

/// The index of the entity that the allocator of ids notes under an id.
fn noted_under(world: &World<Value>, id: u64) -> Answer {
    let Some(allocator) = world.try_fetch::<SceneMarkerAllocator>() else {
        return Answer::Nobody;
    };
    match allocator.retrieve_entity_internal(id) {
        Some(entity) => Answer::Number(entity.id() as u64),
        None => Answer::Nobody,
    }
}

/// Carries a command out, or answers a question.
fn take_step(world: &mut World<Value>, step: Step, alloc: Global) -> Result<Answer, Refusal>
    requires { MayAct owning_kinds world.old }
    ensures { OnOk result (MayAct owning_kinds world.new) }
{
    match step {
        Step::Spawn(owner, rank) => Ok(told(spawn(world, owner, rank, alloc)?)),
        Step::Kill(id) => Ok(told(kill_entity(
            &Owning,
            world,
            &mut Holders::new(alloc),
            id,
            alloc,
        )?)),
        Step::Own(id, owner) => {
            let datum = Datum::OwnedBy(owner);
            Ok(told(put_part(&Owning, world, id, "owner", &datum, alloc)?))
        }
        Step::Promote(id, number) => {
            let datum = Datum::Ranked(number);
            Ok(told(put_part(&Owning, world, id, "rank", &datum, alloc)?))
        }
        Step::Free(id) => Ok(told(take_part::<Owning>(world, id, "owner")?)),
        Step::Demote(id) => Ok(told(take_part::<Owning>(world, id, "rank")?)),
        Step::OwnerOf(id) => Ok(owner_of(world, id, alloc)?),
        Step::RankOf(id) => Ok(rank_of(world, id, alloc)?),
        Step::NotedUnder(id) => Ok(noted_under(world, id)),
    }
}

/// Whether each step of a course comes out as it says; one that is refused is the last.
pub fn runs(world: &mut World<Value>, course: &[(Step, Answer)], alloc: Global) -> bool
    requires { MayAct owning_kinds world.old }
{
    for (step, answer) in course {
        match take_step(world, *step, alloc) {
            Ok(came) => {
                if came != *answer {
                    return false;
                }
            }
            Err(refusal) => return Answer::Refused(refusal) == *answer,
        }
    }
    true
}
