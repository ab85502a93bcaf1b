//! The ids that the systems of a plan read, or write.
ghost use Rattle.std.specs.Prelude.{◌≡◌, ◌++◌, IfOk, OnOk};
ghost use Rattle.std.specs.List.{flat_map};
ghost use Rattle.shred_stages.specs.Accesses.{declared_ids, ids_in_stages};

use shred_plan::{Adding, Group, Stage};
use shred_world::ResourceId;
use std::alloc::{AllocError, Global};

/// Which ids of a system are meant.
#[derive(Clone, Copy)]
pub(crate) enum Access {
    /// Those that it reads.
    Reads,
    /// Those that it writes.
    Writes,
}

impl Access {
    /// The ids of a system.
    fn ids(self, adding: &Adding<ResourceId>) -> &[ResourceId]
        ensures { result.now ≡ declared_ids self adding.now }
    {
        match self {
            Access::Reads => adding.reads(),
            Access::Writes => adding.writes(),
        }
    }
}

/// The ids of each system of some stages, in the order of the plan.
///
/// Errors: want of memory.
pub(crate) fn ids_in_stages(
    alloc: Global,
    access: Access,
    stages: &[Stage<ResourceId>],
) -> Result<Vec<ResourceId>, AllocError>
    ensures { IfOk result (λ ids. ids.items ≡ ids_in_stages (declared_ids access) stages.now) }
{
    let mut list = Vec::new(alloc);
    for stage in stages {
        list_stage(&mut list, access, stage.groups())?;
    }
    Ok(list)
}

/// Puts the ids of each system of a stage behind the others.
fn list_stage(
    list: &mut Vec<ResourceId>,
    access: Access,
    stage: &[Group<ResourceId>],
) -> Result<(), AllocError>
    ensures { OnOk result (list.new.items
        ≡ list.old.items ++ flat_map (λ group. flat_map (declared_ids access) group) stage.now) }
{
    for group in stage {
        list_group(list, access, group.systems())?;
    }
    Ok(())
}

/// Puts the ids of each system of a group behind the others.
pub(crate) fn list_group(
    list: &mut Vec<ResourceId>,
    access: Access,
    group: &[Adding<ResourceId>],
) -> Result<(), AllocError>
    ensures { OnOk result (list.new.items ≡ list.old.items ++ flat_map (declared_ids access) group.now) }
{
    for adding in group {
        list.extend_from_slice(access.ids(adding))?;
    }
    Ok(())
}
