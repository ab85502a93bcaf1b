//! Where the boxes of a plan stand.
ghost use Rattle.std.specs.Prelude.{◌≡◌, ◌*◌};

use crate::pictures::plan::PlanSystem;

/// Where the first box begins, from the left and from above.
pub(crate) const LEFT: u64 = 16;

pub(crate) const TOP: u64 = 40;

/// How wide a unit of time is.
const UNIT: u64 = 60;

/// How high a box is, and how far each row is below the one above it.
pub(crate) const HEIGHT: u64 = 32;

const ROW: u64 = 44;

/// How far a box is from the one before it in a row, and a stage from the one before it.
const BESIDE: u64 = 8;

const APART: u64 = 48;

/// The box of a system: the place of the system, how far it is from the left and from above, and how wide it is.
#[derive(Clone, Copy, Debug, PartialEq, Eq)]
pub(crate) struct PlanBox {
    pub(crate) place: u32,
    pub(crate) x: u64,
    pub(crate) y: u64,
    pub(crate) width: u64,
}

/// How far boxes have come: the stage and the group of the last one, where the stage begins, where the next box of the group does,
/// and how far to the right any box went.
#[derive(Drop)]
pub(crate) struct Reach {
    stage: u32,
    group: u32,
    left: u64,
    next: u64,
    widest: u64,
}

impl Reach {
    /// There is no box yet.
    pub(crate) fn new() -> Reach {
        Reach {
            stage: 0,
            group: 0,
            left: LEFT,
            next: LEFT,
            widest: LEFT,
        }
    }

    /// The box of the next system: stages are columns, groups rows, and a box is as wide as its system's time.
    pub(crate) fn step(&mut self, system: &PlanSystem) -> PlanBox
        ensures place { result.place ≡ system.now.place }
        ensures width { result.width ≡ 60 * system.now.units }
    {
        if system.stage != self.stage {
            self.stage = system.stage;
            self.group = system.group;
            self.left = self.widest.saturating_add(APART);
            self.next = self.left;
        } else if system.group != self.group {
            self.group = system.group;
            self.next = self.left;
        }
        let x = self.next;
        let width = UNIT * u64::from(system.units);
        let end = x.saturating_add(width);
        self.next = end.saturating_add(BESIDE);
        self.widest = self.widest.max(end);
        PlanBox {
            place: system.place,
            x,
            y: TOP.saturating_add(ROW.saturating_mul(u64::from(system.group))),
            width,
        }
    }
}
