//! Globals that are numbers, of which a system counts one more.
ghost use Rattle.std.specs.Prelude.{◌≡◌, IsTrue, MatchResult};
ghost use Rattle.shred_stages.specs.Views.{Leaves};
ghost use Rattle.scene_model.specs.Parts.{is_among};
ghost use Rattle.scene_world.specs.Counting.{count_at, CountsOne, StopsCounting};

use crate::{WorldRules, refusal, set_held};
use shred_stages::Stop;
use shred_world::Holder;

/// Rules whose globals are natural numbers of 64 bits.
pub trait CountingRules: WorldRules {
    ghost use Rattle.std.specs.Prelude.{◌≡◌};
    ghost use Rattle.scene_world.specs.Numbers.{counted, number_in};

    /// The number that a global is, if it is one.
    fn number_of(global: &Self::Global) -> Option<u64>
        ensures { result ≡ number_in (Self.global_of global.now) };

    /// The global that is a number.
    fn counted(number: u64) -> Self::Global
        ensures { Self.global_of result ≡ counted number };
}

/// The number that a global is, as a system sees it, if it is one.
pub fn count_of<R: CountingRules, W: Holder<R::Value>>(view: &W, name: &str) -> Option<u64>
    ensures { result ≡ count_at R.columns name.now (W.slots view.now) }
{
    let value = view.value(R::global_id(name))?;
    R::number_of(R::as_global(name, value)?)
}

/// Counts one more in a global, where a number is seen there; else all stays.
///
/// Errors: `Refused`, with the text `last`, where it is the greatest number of 64 bits; `Memory`, also where the global
/// may not be written. What is seen is then as it was.
pub fn count_one<R: CountingRules, H: AllocGlobal, W: Holder<R::Value>>(
    rt: &H,
    view: &mut W,
    name: &str,
    last: &str,
) -> Result<(), Stop>
where
    R::Value: Drop,
    requires known { IsTrue (is_among name.now R.columns.global_names) }
    ensures counts { MatchResult result
        (λ _. CountsOne R.columns name.now (W.slots view.old) (W.slots view.new))
        (StopsCounting R.columns name.now last.now (W.slots view.old)) }
    ensures leaves { Leaves (W.slots view.old) (W.slots view.new) }
{
    let Some(number) = count_of::<R, W>(view, name) else {
        return Ok(());
    };
    if number == u64::MAX {
        return Err(refusal(rt.alloc(), last));
    }
    let Some(value) = R::to_value(name, R::counted(number + 1)) else {
        return Err(Stop::Memory);
    };
    match set_held(view, R::global_id(name), value) {
        Ok(()) => Ok(()),
        Err(_) => Err(Stop::Memory),
    }
}
