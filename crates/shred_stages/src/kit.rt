//! What a group is run with, kept from one run to the next.
ghost use Rattle.std.specs.Prelude.{◌≡◌, IfOk};

use crate::access::{Access, list_group};
use crate::seat::seat_for;
use crate::turn::Staged;
use shred_plan::{Adding, Group};
use shred_world::{ResourceId, World};
use std::alloc::{AllocError, Global};
use std::marker::Model;

/// A group, the ids that its systems read and write, an empty slot for each value that they write, and room for the systems.
#[derive(Drop)]
pub(crate) struct Kit<V, S> {
    pub(crate) group: Vec<Adding<ResourceId>>,
    pub(crate) reads: Vec<ResourceId>,
    pub(crate) writes: Vec<ResourceId>,
    pub(crate) seat: World<V>,
    pub(crate) staged: Vec<Staged<V, S>>,
}

impl<V, S> Model for Kit<V, S> {
    ghost use Rattle.std.specs.Prelude.{◌≡◌, ◌≤◌, [], length, vec_capacity};
    ghost use Rattle.shred_world.specs.declared.resource_id.ResourceId.{ResourceId};
    ghost use Rattle.shred_plan.specs.Plan.{Group};
    ghost use Rattle.shred_stages.specs.Moves.{IsSeat};
    ghost use Rattle.shred_stages.specs.Apart.{group_reads, group_writes};

    ghost Value = { Group ResourceId };

    ghost view = { λ kit. kit.group.items };

    ghost invariant = { λ kit. (kit.reads.items ≡ group_reads kit.group.items)
        × (kit.writes.items ≡ group_writes kit.group.items) × IsSeat kit.writes.items kit.seat
        × (kit.staged.items ≡ []) × (length kit.group.items ≤ vec_capacity kit.staged) };
}

/// A copy of a group.
///
/// Errors: want of memory.
fn copy_group(
    alloc: Global,
    group: &[Adding<ResourceId>],
) -> Result<Vec<Adding<ResourceId>>, AllocError>
    ensures { IfOk result (λ copy. copy.items ≡ group.now) }
{
    let mut copy = Vec::with_capacity(alloc, group.len())?;
    for adding in group {
        copy.push_reserved(adding.copied(alloc)?);
    }
    Ok(copy)
}

impl<V: Drop, S: Drop> Kit<V, S> {
    /// What a group is run with.
    ///
    /// Errors: want of memory.
    pub(crate) fn new(alloc: Global, group: &[Adding<ResourceId>]) -> Result<Kit<V, S>, AllocError>
        ensures { IfOk result (λ kit. kit ≡ group.now) }
    {
        let copy = copy_group(alloc, group)?;
        let mut reads = Vec::new(alloc);
        list_group(&mut reads, Access::Reads, group)?;
        let mut writes = Vec::new(alloc);
        list_group(&mut writes, Access::Writes, group)?;
        let seat = seat_for(alloc, &writes)?;
        let staged = Vec::with_capacity(alloc, group.len())?;
        Ok(Kit {
            group: copy,
            reads,
            writes,
            seat,
            staged,
        })
    }
}

/// What the groups of a stage are run with.
///
/// Errors: want of memory.
pub(crate) fn make_kits<V: Drop, S: Drop>(
    alloc: Global,
    stage: &[Group<ResourceId>],
) -> Result<Vec<Kit<V, S>>, AllocError>
    ensures { IfOk result (λ kits. kits.items ≡ stage.now) }
{
    let mut kits = Vec::with_capacity(alloc, stage.len())?;
    for group in stage {
        kits.push_reserved(Kit::new(alloc, group.systems())?);
    }
    Ok(kits)
}
