//! One system over a world, without a plan.
ghost use Rattle.std.specs.Prelude.{◌≡◌, IfOk, OnErr};
ghost use Rattle.shred_stages.specs.Views.{error_of};
ghost use Rattle.shred_stages.specs.Runs.{Step};

use crate::seat::seat_for;
use crate::turn::run_seated;
use crate::{Stop, System};
use shred_world::Holder;
use std::alloc::AllocError;

/// Runs one system over what it declares of a world, or of a view; what it wrote comes back there.
///
/// An accepted call answers how the run ended. Errors: want of memory for the lists of the system's ids; it didn't run.
pub fn run_alone<V: Drop, S: System<V>, H: AllocGlobal, W: Holder<V>>(
    rt: &H,
    system: &mut S,
    world: &mut W,
) -> Result<Result<(), Stop>, AllocError>
    ensures runs { IfOk result (λ outcome. Step S.meets (S.read_list system.old) (S.write_list system.old)
        system.old (W.slots world.old) (error_of outcome) system.new (W.slots world.new)) }
    ensures not_run { OnErr result (system.new ≡ system.old) }
    ensures err { OnErr result (W.slots world.new ≡ W.slots world.old) }
{
    let (reads, writes) = system.accessor(rt.alloc())?.into_lists();
    let seat = seat_for(rt.alloc(), &writes)?;
    let (outcome, seat) = run_seated(rt, system, world, &reads, &writes, seat);
    drop(seat);
    Ok(outcome)
}
