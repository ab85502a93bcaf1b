//! The rule of the table of shared entities, and what each atomic step tells.
use crate::entities_res::EntitiesRes;
use crate::phase_core::Claimer;
use atomic_table::{Join, Play, Split, TableRule};
use hibitset::atomic_core::Caller;

/// What the table is told once: the entities before their reserve was created, and how many it has.
#[derive(Drop)]
pub struct PhaseKey {
    /// The entities before the reserve.
    pub before: EntitiesRes,
    /// How many entities the reserve has.
    pub reserve: u32,
}

/// What a seat knows. No value of it is made.
pub struct EntityView {
    /// Its calls on the raised set.
    pub raise: Caller,
    /// Its calls on the killed set.
    pub kill: Caller,
    /// Its claims.
    pub claimer: Claimer,
    /// What the table was told.
    pub key: PhaseKey,
    /// How many parts it holds.
    pub parts: u64,
    /// The parts that are about to be split off.
    pub plan_parts: u64,
    /// The allowance that is about to be split off.
    pub plan_allowance: u64,
}

pub struct PhaseRule;

impl TableRule<(), EntityView, PhaseKey> for PhaseRule {
    ghost use Rattle.specs_entity.specs.PhaseRule.{Holds};
    ghost use Rattle.specs_entity.specs.PhaseViews.{whole_view};

    ghost holds = { λ key. Holds key };

    ghost first = { λ key. whole_view key };
}

pub(crate) struct Claim;

impl Play<(), EntityView> for Claim {
    ghost use Rattle.specs_entity.specs.PhaseRule.{claims};

    ghost then = { claims };
}

pub(crate) struct Raise;

impl Play<(), EntityView> for Raise {
    ghost use Rattle.specs_entity.specs.PhaseRule.{raises};

    ghost then = { raises };
}

pub(crate) struct RaiseOn;

impl Play<(), EntityView> for RaiseOn {
    ghost use Rattle.specs_entity.specs.PhaseRule.{raises_on};

    ghost then = { raises_on };
}

pub(crate) struct RaiseEnd;

impl Play<(), EntityView> for RaiseEnd {
    ghost use Rattle.specs_entity.specs.PhaseRule.{raise_ends};

    ghost then = { raise_ends };
}

pub(crate) struct Kill;

impl Play<(), EntityView> for Kill {
    ghost use Rattle.specs_entity.specs.PhaseRule.{kills};

    ghost then = { kills };
}

pub(crate) struct Bury;

impl Play<(), EntityView> for Bury {
    ghost use Rattle.specs_entity.specs.PhaseRule.{buries};

    ghost then = { buries };
}

pub(crate) struct BuryEnd;

impl Play<(), EntityView> for BuryEnd {
    ghost use Rattle.specs_entity.specs.PhaseRule.{bury_ends};

    ghost then = { bury_ends };
}

pub(crate) struct Look;

impl Play<(), EntityView> for Look {
    ghost use Rattle.specs_entity.specs.PhaseRule.{looks};

    ghost then = { looks };
}

// A number exchanged for itself leaves the word, and names the number.
pub(crate) struct PlanParts;

impl Play<(), EntityView> for PlanParts {
    ghost use Rattle.specs_entity.specs.PhaseRule.{plans_parts};

    ghost then = { plans_parts };
}

pub(crate) struct PlanAllowance;

impl Play<(), EntityView> for PlanAllowance {
    ghost use Rattle.specs_entity.specs.PhaseRule.{plans_allowance};

    ghost then = { plans_allowance };
}

pub(crate) struct Parts;

impl Split<EntityView> for Parts {
    ghost use Rattle.specs_entity.specs.PhaseRule.{kept, given};

    ghost left = { kept };

    ghost right = { given };
}

impl Join<EntityView> for Parts {
    ghost use Rattle.specs_entity.specs.PhaseRule.{both, spent_view};

    ghost both = { both };

    ghost spent = { spent_view };
}
