//! A seat of a phase together with the phase's entities, as a system holds it.
ghost use Rattle.std.specs.Arc.{arc_value};
ghost use Rattle.std.specs.Coded.{codes};
ghost use Rattle.atomic_table.specs.Seated.{table_id_coded};
ghost use Rattle.specs_entity.specs.SharedPhase.{key_code};
ghost use Rattle.specs_entity.specs.SharedSeats.{IsSeatOf};

mod calls;

use crate::shared_entities::{EntitySeat, SharedEntities};
use std::sync::Arc;

/// A seat of a phase with the entities that it shares: what a system holds as a resource.
///
/// It creates and deletes as `SharedEntities` does, and needs nothing beside. `EntitiesRes::open_phase` makes the
/// first, `split` one for each system, each under a dynamic number of its own; `join` and `settle` end the phase.
#[derive(Drop)]
pub struct PhaseSeat {
    pub(crate) phase: Arc<SharedEntities>,
    pub(crate) seat: EntitySeat,
    ghost tied: { IsSeatOf (arc_value phase) seat } by { Prim.hlevel (codes, key_code, table_id_coded) },
}
