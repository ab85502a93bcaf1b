//! Which borrows of a cell are accepted, and beside whom.
use shred::TrustCell;
use shred::cell_core::{MOST_READERS, State, Step, next_state, run};
use std::mem;
use std::sync::Wait;

/// One reader.
const ONE: State = State::Read(1);

/// Two readers.
const TWO: State = State::Read(2);

/// All readers but one.
const NEARLY: State = State::Read(MOST_READERS - 1);

/// As many readers as can be.
const MOST: State = State::Read(MOST_READERS);

/// A state, a step, and the state after it: none where it is refused.
static STEPS: [(State, Step, Option<State>); 16] = [
    (State::Free, Step::BorrowForReading, Some(ONE)),
    (State::Free, Step::BorrowForWriting, Some(State::Written)),
    (State::Free, Step::ReturnFromReading, None),
    (State::Free, Step::ReturnFromWriting, None),
    (ONE, Step::BorrowForReading, Some(TWO)),
    (ONE, Step::BorrowForWriting, None),
    (ONE, Step::ReturnFromReading, Some(State::Free)),
    (ONE, Step::ReturnFromWriting, None),
    (TWO, Step::ReturnFromReading, Some(ONE)),
    (NEARLY, Step::BorrowForReading, Some(MOST)),
    (MOST, Step::BorrowForReading, None),
    (MOST, Step::ReturnFromReading, Some(NEARLY)),
    (State::Written, Step::BorrowForReading, None),
    (State::Written, Step::BorrowForWriting, None),
    (State::Written, Step::ReturnFromReading, None),
    (State::Written, Step::ReturnFromWriting, Some(State::Free)),
];

/// The state after a step; none where it is refused, or there can't be so many readers.
fn after(state: State, step: Step) -> Option<State> {
    match state {
        State::Read(readers) if readers == 0 || readers > MOST_READERS => None,
        _ => next_state(state, step),
    }
}

#[test]
fn a_step_is_accepted_where_it_should_be(rt: HostRuntime) {
    let mut wrong = None;
    for (state, step, next) in STEPS.iter() {
        if after(*state, *step) != *next {
            wrong = Some((*state, *step));
        }
    }
    assert_eq!(rt; wrong, None);
}

/// Steps of a cell that begins free, and the state that they lead to: a refused one changes nothing.
static RUNS: [(&[Step], State); 2] = [
    (&[], State::Free),
    (
        &[
            Step::BorrowForReading,
            Step::BorrowForReading,
            Step::BorrowForWriting,
            Step::ReturnFromReading,
        ],
        ONE,
    ),
];

#[test]
fn a_refused_step_changes_nothing(rt: HostRuntime) {
    let mut wrong = None;
    for (steps, state) in RUNS.iter() {
        if run(steps) != *state {
            wrong = Some(*steps);
        }
    }
    assert_eq!(rt; wrong, None);
}

/// Who has a cell that holds a 7.
#[derive(Clone, Copy, Debug, PartialEq, Eq)]
enum Holders {
    Nobody,
    Reader,
    TwoReaders,
    OneOfTwoReaders,
    Writer,
}

/// Who has the cell, what one more reader sees, what one more writer finds, none where it is refused, and what is left.
static BESIDE: [(Holders, Option<u64>, Option<u64>, u64); 5] = [
    (Holders::Nobody, Some(7), Some(7), 11),
    (Holders::Reader, Some(7), None, 7),
    (Holders::TwoReaders, Some(7), None, 7),
    (Holders::OneOfTwoReaders, Some(7), None, 7),
    (Holders::Writer, None, None, 8),
];

/// What a reader sees, where it is accepted.
fn seen(rt: &impl Wait, cell: &TrustCell<u64>) -> Option<u64> {
    match cell.borrow(rt) {
        Ok(lent) => Some(lent.map(|value| *value)),
        Err(_) => None,
    }
}

/// What a writer puts its own number in the place of, where it is accepted.
fn replaced(rt: &impl Wait, cell: &TrustCell<u64>, number: u64) -> Option<u64> {
    match cell.borrow_mut(rt) {
        Ok(lent) => Some(lent.map(|value| mem::replace(value, number))),
        Err(_) => None,
    }
}

/// What a reader sees, and then what a writer finds.
type Found = (Option<u64>, Option<u64>);

/// What a reader sees, and then what a writer finds; none where those that only try are answered otherwise.
fn tried(rt: &impl Wait, cell: &TrustCell<u64>) -> Option<Found> {
    let reads = cell.try_borrow(rt).is_ok();
    let writes = cell.try_borrow_mut(rt).is_ok();
    let seen = seen(rt, cell);
    let found = replaced(rt, cell, 11);
    if seen.is_some() == reads && found.is_some() == writes {
        Some((seen, found))
    } else {
        None
    }
}

/// The same beside a reader, with another one there, or gone again, where said.
fn tried_beside_readers(rt: &impl Wait, cell: &TrustCell<u64>, holders: Holders) -> Option<Found> {
    let Ok(reader) = cell.try_borrow(rt) else {
        return None;
    };
    if *reader != 7 {
        return None;
    }
    match holders {
        Holders::TwoReaders => match cell.try_borrow(rt) {
            Ok(_other) => tried(rt, cell),
            Err(_) => None,
        },
        Holders::OneOfTwoReaders => {
            let _ = seen(rt, cell);
            tried(rt, cell)
        }
        _ => tried(rt, cell),
    }
}

/// The same beside a writer that writes an 8.
fn tried_beside_a_writer(rt: &impl Wait, cell: &TrustCell<u64>) -> Option<Found> {
    let Ok(mut writer) = cell.try_borrow_mut(rt) else {
        return None;
    };
    *writer = 8;
    tried(rt, cell)
}

/// What a reader sees and a writer finds beside these holders, and once they are gone what is left.
fn beside(rt: &impl Wait, holders: Holders) -> (Option<Found>, Option<u64>) {
    let cell = TrustCell::new(7u64);
    let told = match holders {
        Holders::Nobody => tried(rt, &cell),
        Holders::Writer => tried_beside_a_writer(rt, &cell),
        _ => tried_beside_readers(rt, &cell, holders),
    };
    (told, cell.into_inner().ok())
}

#[test]
fn a_borrow_is_refused_beside_the_other_kind(rt: HostRuntime) {
    let mut wrong = None;
    for (holders, seen, found, left) in BESIDE.iter() {
        if beside(&rt, *holders) != (Some((*seen, *found)), Some(*left)) {
            wrong = Some(*holders);
        }
    }
    assert_eq!(rt; wrong, None);
}

/// Whether what the only holder of a cell writes stays in it.
fn only_holder_writes(rt: &impl Wait) -> bool {
    let mut cell = TrustCell::<u64>::default();
    let Ok(mut lone) = cell.get_mut() else {
        return false;
    };
    let began = *lone == 0;
    *lone = 12;
    drop(lone);
    let seen = seen(rt, &cell);
    began && seen == Some(12) && cell.into_inner() == Ok(12)
}

#[test]
fn the_only_holder_writes(rt: HostRuntime) {
    assert!(rt; only_holder_writes(&rt));
}
