//! The rules of a duel, and what their systems do in a world.
ghost use Rattle.scene_world.specs.Turns.{sense_of};
ghost use Rattle.duel.specs.Documents.{does, law-of_book, meaning};

use crate::burying::bury;
use crate::data::Datum;
use crate::documents::DuelSystem;
use crate::striking::strike;
use crate::values::Value;
use scene_model::Queue;
use scene_world::Rules;
use shred_stages::Stop;
use shred_world::Holder;

/// The rules of a duel: the parts `attack`, `hp` and `target`, the global `turn`, and the systems `strike` and `bury`.
#[derive(Clone, Copy, Debug)]
pub struct Duel;

impl Rules for Duel {
    ghost sense = { λ _. sense_of meaning };

    ghost does = { does };

    ghost of_book = { λ rules system made. law-of_book system };

    fn run<H: AllocGlobal, W: Holder<Value>>(
        rt: &H,
        system: &mut DuelSystem,
        view: &mut W,
        queue: &mut Queue<Datum>,
    ) -> Result<(), Stop> {
        match *system {
            DuelSystem::Strike => strike(rt, view),
            DuelSystem::Bury => bury(rt, view, queue),
        }
    }
}
