//! How long a system is said to run.
ghost use Rattle.std.specs.Prelude.{◌≡◌, ◌≤◌, IsOk};
ghost use Rattle.shred_plan.specs.Plan.{units_of};

/// How long a system is said to run, from 1 to 5 units.
///
/// The planner keeps the groups of a stage about equally long by it; a wrong one costs time alone.
#[derive(Clone, Copy, Debug, PartialEq, Eq, Default)]
pub enum RunningTime {
    /// One unit.
    VeryShort = 1,
    /// Two units.
    Short = 2,
    /// Three units, which is also what is taken where nothing is said.
    #[default]
    Average = 3,
    /// Four units.
    Long = 4,
    /// Five units.
    VeryLong = 5,
}

impl RunningTime {
    /// The number of units.
    pub fn units(self) -> u32
        ensures value { result ≡ units_of self }
        ensures range { result ≤ 5 }
    {
        self as u32
    }
}
