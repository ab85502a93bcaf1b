//! Entities that threads create and delete at once, each call by single atomic steps and without a lock.
ghost use Rattle.std.specs.Prelude.{◌≡◌, ℕ, ◌+◌, ◌<◌, ◌≤◌, [], length};
ghost use Rattle.std.specs.Vec.{vec_capacity};

mod calls;
mod seats;
mod settling;
mod sharing;

use crate::entities_res::EntitiesRes;
use crate::ids::Entity;
use crate::phase_rule::{EntityView, PhaseKey, PhaseRule};
use atomic_table::{Seat, Table};
use std::alloc::Global;
use std::marker::Model;

/// How many parts a phase has in all.
pub(crate) const ALL_PARTS: u32 = 65_536;

/// Entities that threads share, from `EntitiesRes::share` to `settle`.
///
/// They lie in an `Arc`, and each thread has a seat of its own. `create`, `delete` and `is_alive` take
/// no lock, no memory and no second try.
#[derive(Drop)]
pub struct SharedEntities {
    pub(crate) table: Table<(), EntityView, PhaseKey, PhaseRule, Global>,
    pub(crate) entities: EntitiesRes,
    pub(crate) reserve: Vec<Entity>,
    pub(crate) first: usize,
    pub(crate) second: usize,
    pub(crate) third: usize,
}

impl Model for SharedEntities {
    ghost use Rattle.specs_entity.specs.SharedPhase.{SharedPhase, shared_phase_code};
    ghost use Rattle.specs_entity.specs.SharedLayout.{phase_in, IsPhaseInside};

    ghost Value = { SharedPhase };

    ghost coded = { shared_phase_code };

    ghost view = { phase_in };

    ghost invariant = { IsPhaseInside };
}

/// Parts of a phase, an allowance of births, and what their holder did and saw.
///
/// Whoever holds all parts may settle. A seat that is dropped keeps its parts, so the phase can't be
/// settled any more.
#[derive(Drop)]
pub struct EntitySeat {
    pub(crate) seat: Seat<(), EntityView>,
    pub(crate) parts: u32,
    pub(crate) allowance: u32,
    pub(crate) known: Vec<Entity>,
    ghost counted: { parts ≡ seat.me.0.parts },
    ghost allowed: { allowance ≡ seat.me.0.claimer.allowance },
    ghost few: { parts < 65537 },
    ghost bare: { seat.me.1 ≡ [] },
    ghost raised: { seat.me.0.raise.stage ≡ 0 },
    ghost killed: { seat.me.0.kill.stage ≡ 0 },
    ghost unclaimed: { length seat.me.0.claimer.pending ≡ 0 },
    ghost roomy: { length known.items + allowance ≤ vec_capacity known },
}

/// A seat was asked for more births than it may have.
#[derive(Clone, Copy, Debug, PartialEq, Eq)]
pub struct AllowanceSpent;
