//! How a cell is borrowed: its states, its steps, and what any list of steps comes to.
ghost use Rattle.std.specs.Prelude.{◌≡◌, IfSome};
ghost use Rattle.shred.specs.declared.cells.cell_core.State.TheVariants.{Free};
ghost use Rattle.shred.specs.Cells.{IsState, after, after_all, IsKept};

/// How a cell is borrowed.
#[derive(Clone, Copy, Debug, PartialEq, Eq)]
pub enum State {
    /// Nobody borrows it.
    Free,
    /// So many readers borrow it: at least 1, and at most `MOST_READERS`.
    Read(u32),
    /// One writer borrows it.
    Written,
}

/// What is asked of a cell.
#[derive(Clone, Copy, Debug, PartialEq, Eq)]
pub enum Step {
    /// A reader comes.
    BorrowForReading,
    /// A reader goes.
    ReturnFromReading,
    /// A writer comes.
    BorrowForWriting,
    /// The writer goes.
    ReturnFromWriting,
}

/// The greatest number of readers that a cell has at once.
pub const MOST_READERS: u32 = 0x3fff_ffff;

/// The state after a step, or `None` where the step is refused.
///
/// A reader comes where no writer is and fewer than `MOST_READERS` readers are. A writer comes where nobody is. A reader or
/// writer goes where one is.
pub fn next_state(state: State, step: Step) -> Option<State>
    requires { IsState state }
    ensures value { result ≡ after state step }
    ensures state { IfSome result IsState }
{
    match (state, step) {
        (State::Free, Step::BorrowForReading) => Some(State::Read(1)),
        (State::Free, Step::BorrowForWriting) => Some(State::Written),
        (State::Read(readers), Step::BorrowForReading) if readers < MOST_READERS => {
            Some(State::Read(readers + 1))
        }
        (State::Read(1), Step::ReturnFromReading) => Some(State::Free),
        (State::Read(readers), Step::ReturnFromReading) => Some(State::Read(readers - 1)),
        (State::Written, Step::ReturnFromWriting) => Some(State::Free),
        _ => None,
    }
}

/// The state of a cell that began free, after all of the steps in order. A refused step leaves it as it is.
pub fn run(steps: &[Step]) -> State
    ensures value { result ≡ after_all Free steps.now }
    ensures kept { IsKept steps.now }
{
    let mut state = State::Free;
    for step in steps {
        if let Some(next) = next_state(state, *step) {
            state = next;
        }
    }
    state
}
