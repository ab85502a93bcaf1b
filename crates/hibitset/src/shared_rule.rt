//! The rule of the table of a shared set, and what each atomic step tells.
use crate::atomic_core::Caller;
use atomic_table::{Join, Play, Split, TableRule};
use hibitset_sets::BitSet;

/// What a seat knows. No value of it is made.
pub struct SeatView {
    /// What its holder did and saw.
    pub caller: Caller,
    /// The set at `share`.
    pub old: BitSet,
    /// How many parts it holds.
    pub parts: u64,
    /// The parts that are about to be split off.
    pub plan: u64,
}

pub struct SharedRule;

impl TableRule<(), SeatView, BitSet> for SharedRule {
    ghost use Rattle.hibitset.specs.SharedRule.{IsShared};
    ghost use Rattle.hibitset.specs.SeatViews.{whole_view};

    ghost holds = { λ set. IsShared set };

    ghost first = { λ set. whole_view set };
}

pub(crate) struct Begin;

impl Play<(), SeatView> for Begin {
    ghost use Rattle.hibitset.specs.SharedRule.{begins};

    ghost then = { begins };
}

pub(crate) struct Rise;

impl Play<(), SeatView> for Rise {
    ghost use Rattle.hibitset.specs.SharedRule.{rises};

    ghost then = { rises };
}

pub(crate) struct End;

impl Play<(), SeatView> for End {
    ghost use Rattle.hibitset.specs.SharedRule.{ends};

    ghost then = { ends };
}

pub(crate) struct Look;

impl Play<(), SeatView> for Look {
    ghost use Rattle.hibitset.specs.SharedRule.{looks};

    ghost then = { looks };
}

pub(crate) struct Plan;

impl Play<(), SeatView> for Plan {
    ghost use Rattle.hibitset.specs.SharedRule.{plans};

    ghost then = { plans };
}

pub(crate) struct Parts;

impl Split<SeatView> for Parts {
    ghost use Rattle.hibitset.specs.SharedRule.{kept, given};

    ghost left = { kept };

    ghost right = { given };
}

impl Join<SeatView> for Parts {
    ghost use Rattle.hibitset.specs.SharedRule.{both, spent_view};

    ghost both = { both };

    ghost spent = { spent_view };
}
