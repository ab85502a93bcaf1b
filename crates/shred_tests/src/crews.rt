//! Loads that any number of workers work on, again and again, and the lists that they are dealt by.
ghost use Rattle.std.specs.Prelude.{◌≡◌, length};

use crate::values::Number;
use shred_crew::{Crew, Load, Room, Shift, cut, with_crew};
use std::alloc::{AllocError, Global};
use std::sync::Wait;
use std::thread::Threads;

impl Load<u64> for Number {
    ghost does = { λ _ _ _. Unit {0} };

    fn work<H: AllocGlobal>(&mut self, _rt: &H, shared: &u64) {
        self.0 = self.0.wrapping_add(*shared);
    }
}

/// Numbers to which 10 is added three times, and the room in which they are dealt.
#[derive(Drop)]
struct Raising {
    room: Room<Number>,
    numbers: Vec<Number>,
    ghost counted: { room.count ≡ length numbers.items },
}

impl Shift<u64, Number> for Raising {
    ghost may = { λ _. Unit {0} };

    ghost does = { λ _ _. Unit {0} };

    fn run<R: AllocGlobal + Wait>(&mut self, rt: &R, crew: &mut Crew<u64, Number>) {
        let mut ten = 10;
        for _time in 0..3 {
            ten = crew.work(rt, ten, &mut self.room, &mut self.numbers);
        }
    }
}

/// The numbers 1 to 5.
fn numbers(alloc: Global) -> Result<Vec<Number>, AllocError> {
    Vec::from_slice(
        alloc,
        &[Number(1), Number(2), Number(3), Number(4), Number(5)],
    )
}

/// The numbers, of two digits each, as the digits of one.
fn digits_of(numbers: &Vec<Number>) -> u64 {
    let mut digits = 0u64;
    for number in numbers {
        digits = digits.wrapping_mul(100).wrapping_add(number.0);
    }
    digits
}

/// What is made of the numbers 1 to 5, whose times are 1, 2, 3, 0 and 1; none where no thread can be started.
fn raised<R: AllocGlobal + Threads + Wait + Sync>(
    rt: &R,
    workers: usize,
) -> Result<Option<u64>, AllocError> {
    let numbers = numbers(rt.alloc())?;
    if numbers.len() != 5 {
        return Ok(None);
    }
    let raising = Raising {
        room: Room::new(rt.alloc(), &[1, 2, 3, 0, 1], workers.max(1))?,
        numbers,
    };
    match with_crew(rt, workers, raising) {
        Ok(after) => Ok(Some(digits_of(&after.numbers))),
        Err(_) => Ok(None),
    }
}

#[test]
fn each_load_is_worked_on_in_its_place(rt: HostRuntime) {
    let mut wrong = None;
    for workers in [0, 1, 2, 3, 5, 8] {
        if raised(&rt, workers) != Ok(Some(3_132_333_435)) {
            wrong = Some(workers);
        }
    }
    assert_eq!(rt; wrong, None);
}

/// Times of groups, how many workers there are, and the list of each.
struct Row {
    times: &'static [u32],
    workers: usize,
    lists: &'static [&'static [usize]],
}

static ROWS: [Row; 5] = [
    Row {
        times: &[5, 1, 4, 2],
        workers: 2,
        lists: &[&[0, 1], &[2, 3]],
    },
    Row {
        times: &[3],
        workers: 4,
        lists: &[&[0], &[], &[], &[]],
    },
    Row {
        times: &[3, 3, 3],
        workers: 2,
        lists: &[&[0, 2], &[1]],
    },
    Row {
        times: &[0, 0],
        workers: 2,
        lists: &[&[0, 1], &[]],
    },
    Row {
        times: &[1, 4_294_967_295, 4_294_967_295, 7],
        workers: 1,
        lists: &[&[0, 1, 2, 3]],
    },
];

/// Whether the lists have these numbers.
fn are_lists(made: &[Vec<usize>], lists: &[&[usize]]) -> bool {
    if made.len() != lists.len() {
        return false;
    }
    for (own, list) in made.iter().zip(lists) {
        if own.as_slice() != *list {
            return false;
        }
    }
    true
}

/// Whether the groups of a row are cut into its lists.
fn is_cut(alloc: Global, row: &Row) -> Result<bool, AllocError> {
    if row.workers == 0 {
        return Ok(false);
    }
    let made = cut(alloc, row.times, row.workers)?;
    Ok(are_lists(&made, row.lists))
}

#[test]
fn groups_are_cut_by_their_times(rt: HostRuntime) {
    let mut wrong = None;
    for (at, row) in ROWS.iter().enumerate() {
        if is_cut(rt.alloc(), row) != Ok(true) {
            wrong = Some(at);
        }
    }
    assert_eq!(rt; wrong, None);
}
