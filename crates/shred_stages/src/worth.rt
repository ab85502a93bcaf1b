//! How many workers stages are worth: those that cost more than they bring are left out.
ghost use Rattle.std.specs.Prelude.{◌≡◌, ◌≤◌, ◌*◌, length};
ghost use Rattle.std.specs.List.{sum_by};
ghost use Rattle.shred_plan.specs.Plan.{time_of};
ghost use Rattle.shred_stages.specs.Worth.{worth_of, most_worth};

use shred_plan::{Group, Stage};
use shred_world::ResourceId;

/// The units of time that the groups of a stage take together.
fn units_of(stage: &[Group<ResourceId>]) -> u128
    ensures { result ≡ sum_by time_of stage.now }
{
    let mut units = 0u128;
    for group in stage {
        units += u128::from(group.time());
    }
    units
}

/// How many workers a stage is worth: one for each three units of time, which an average system takes, and no more than
/// it has groups.
pub(crate) fn worth_of(stage: &[Group<ResourceId>]) -> usize
    ensures { result ≡ worth_of stage.now }
{
    let shares = units_of(stage) / 3;
    if shares < stage.len() as u128 {
        shares as usize
    } else {
        stage.len()
    }
}

/// How many workers the stage is worth that is worth the most.
pub(crate) fn most_worth(stages: &[Stage<ResourceId>]) -> usize
    ensures { result ≡ most_worth stages.now }
{
    let mut most = 0;
    for stage in stages {
        most = most.max(worth_of(stage.groups()));
    }
    most
}
