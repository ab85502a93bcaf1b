//! A system that is made of a bundle and a change of it, and what its run leaves in a world.
ghost use Rattle.std.specs.Prelude.{◌≡◌, None, IfOk, OnOk};
ghost use Rattle.shred_world.specs.Bundles.{holding_of};
ghost use Rattle.shred_tests.specs.Chores.{Moves};

use crate::values::{Number, Speed, Value};
use shred::{BundleChange, Bundled, Holder, Read, Stop, World, Write, run_alone};
use std::alloc::AllocError;

/// Adds the speed to the number.
#[derive(Drop)]
pub struct Advance;

/// What an advance changes.
pub type Advanced = (Read<Speed>, Write<Number>);

impl BundleChange<Value, Advanced> for Advance {
    ghost use Rattle.shred_tests.specs.Bundled.{Advances};

    ghost becomes = { λ _ bundle held refused _ changed. (refused ≡ None) × Advances bundle.1.value held changed.1.value };

    fn change<W: Holder<Value>>(&mut self, bundle: &mut Advanced, view: &W) -> Result<(), Stop> {
        let gain = bundle.0.get(view).0;
        bundle.1.value.0 = bundle.1.value.0.wrapping_add(gain);
        Ok(())
    }
}

/// Adds the speed to the number of a world, by a system that is made of its bundle: where that doesn't refuse, the number
/// gained the speed.
///
/// Errors: want of memory.
pub fn run_advance<H: AllocGlobal>(
    rt: &H,
    world: &mut World<Value>,
) -> Result<Result<(), Stop>, AllocError>
    ensures { IfOk result (λ outcome. OnOk outcome (Moves (holding_of world.old) (holding_of world.new))) }
{
    let mut system: Bundled<Advanced, Advance> = Bundled::new(Advance);
    run_alone(rt, &mut system, world)
}
