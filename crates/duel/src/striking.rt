//! `strike` in a world.
ghost use Rattle.std.specs.Prelude.{◌≡◌, MatchResult};
ghost use Rattle.shred_stages.specs.Views.{Leaves};
ghost use Rattle.duel.specs.Striking.{blow_seen, StrikesDone, StopsStriking};

use crate::data::{Attack, Datum, Hp, Target};
use crate::rules::Duel;
use crate::values::Value;
use scene_world::columns::{Amounts, amounts_with, entity_at, number_at, take_amounts};
use scene_world::count_one;
use scene_world::known::index_under;
use shred_stages::Stop;
use shred_world::Holder;
use specs_layouts::MaskedStorage;

/// The blow of each who has an attack and a target: whom it meets, and how much it takes.
#[derive(Drop)]
struct Blows;

impl Amounts<Value> for Blows {
    ghost amount = { λ _. blow_seen };

    fn amount_for<W: Holder<Value>>(&self, view: &W, id: u64) -> Option<(u32, u64)> {
        let index = index_under::<Value, Datum, W>(view, id)?;
        let attack = number_at::<Attack, Value, W>(view, index)?;
        let target = entity_at::<Target, Value, W>(view, index)?;
        Some((target.id(), attack))
    }
}

/// Takes the attack of each that has one and a target from the target's hp, and counts a turn more.
///
/// Errors: `Refused`, where no turn more can be counted; `Memory`.
pub(crate) fn strike<H: AllocGlobal, W: Holder<Value>>(rt: &H, view: &mut W) -> Result<(), Stop>
    ensures ends { MatchResult result (λ _. StrikesDone (W.slots view.old) (W.slots view.new))
        (StopsStriking (W.slots view.old)) }
    ensures leaves { Leaves (W.slots view.old) (W.slots view.new) }
{
    let Ok(blows) = amounts_with::<MaskedStorage<Attack>, Blows, Value, W>(rt.alloc(), view, &Blows)
    else {
        return Err(Stop::Memory);
    };
    count_one::<Duel, H, W>(rt, view, "turn", "this was the last turn")?;
    match take_amounts::<Hp, Value, W>(view, blows.as_slice()) {
        Ok(()) => Ok(()),
        Err(_) => Err(Stop::Memory),
    }
}
