//! A kind of parts that is saved as an option.
ghost use Rattle.std.specs.Prelude.{◌≡◌};

use specs_entity::{EntitiesRes, Entity, Error};
use specs_layouts::{Component, MaskedStorage, VecStorage};
use specs_markers::MarkerAllocator;
use specs_saveload::{ConvertSaveload, Names, SavedMarker};
use std::alloc::{AllocError, Global};

/// Where an entity wants to be, if anywhere.
#[derive(Drop)]
pub struct Goal(pub Option<i64>);

impl Component for Goal {
    type Storage = VecStorage<Goal>;
}

/// A goal is saved as its number, or none.
impl<M: SavedMarker> ConvertSaveload<M> for Goal {
    type Data = Option<i64>;

    ghost use Rattle.std.specs.Prelude.{[], Some};
    ghost use Rattle.bench_joins.specs.GoalLemmas.{goal-back, none-named};

    ghost refers_to = { λ goal. [] };

    ghost markers_of = { λ number. [] };

    ghost plain = { λ names goal. Some goal.0 };

    ghost loaded = { λ bearers number. Some (record { 0 = number }) };

    fn references(&self, _list: &mut Vec<Entity>) -> Result<(), AllocError> {
        Ok(())
    }

    fn convert_into<N: Names<M>>(&self, _alloc: Global, _names: &N) -> Result<Option<i64>, Error> {
        Ok(self.0)
    }

    fn convert_from<A: MarkerAllocator<M>>(
        saved: Option<i64>,
        _alloc: Global,
        _entities: &mut EntitiesRes,
        _markers: &mut MaskedStorage<M>,
        _allocator: &mut A,
    ) -> Result<Goal, Error> {
        Ok(Goal(saved))
    }

    ghost named = { λ names goal. none-named names goal.0 };

    ghost stands = { λ names goal saved marker is among. absurd among };

    ghost kept = { λ one other number goal more is. is };

    ghost back = { λ bearers names number goal same. goal-back number goal };
}
