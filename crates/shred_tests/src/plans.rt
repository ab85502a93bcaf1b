//! Plans: rows that are given with the rule, and what a plan tells.
use crate::plans::Step::{Adds, Closes};
use crate::workers::Worker;
use RunningTime::{Average, Short, VeryLong, VeryShort};
use shred::laws as laws_of_builders;
use shred_plan::{Adding, Planner, RunningTime, Stage, laws};
use smallvec::SmallVec;
use std::alloc::{AllocError, Global};

/// The ids of the rows.
const A: u32 = 1;

const B: u32 = 2;

/// What a row adds.
enum Step {
    /// A system: the ids that it reads and writes, the numbers of those that it comes after, and its time.
    Adds(&'static [u32], &'static [u32], &'static [u32], RunningTime),
    /// A barrier.
    Closes,
}

/// Systems, numbered from 0 in the order in which they are added, their printed plan, their order, and the most groups of a stage.
struct Row {
    name: &'static str,
    steps: &'static [Step],
    text: &'static str,
    order: &'static [u32],
    most: usize,
}

static ROWS: [Row; 8] = [
    Row {
        name: "a reader of what another writes stands behind it",
        steps: &[
            Adds(&[A], &[], &[], Average),
            Adds(&[], &[B], &[], VeryShort),
            Adds(&[B], &[], &[], Short),
        ],
        text: "0 | 1, 2\n",
        order: &[0, 1, 2],
        most: 2,
    },
    Row {
        name: "each waits for the one before",
        steps: &[
            Adds(&[], &[], &[], Average),
            Adds(&[], &[], &[0], Average),
            Adds(&[], &[], &[1], Average),
        ],
        text: "0\n1\n2\n",
        order: &[0, 1, 2],
        most: 1,
    },
    Row {
        name: "one that waits stands in the group of the other",
        steps: &[
            Adds(&[], &[], &[], VeryLong),
            Adds(&[], &[], &[], VeryShort),
            Adds(&[], &[], &[1], VeryShort),
        ],
        text: "0 | 1, 2\n",
        order: &[0, 1, 2],
        most: 2,
    },
    Row {
        name: "one that waits twice for another opens a stage",
        steps: &[
            Adds(&[], &[], &[], VeryLong),
            Adds(&[], &[], &[], VeryShort),
            Adds(&[], &[], &[1, 1], VeryShort),
        ],
        text: "0 | 1\n2\n",
        order: &[0, 1, 2],
        most: 2,
    },
    Row {
        name: "the fifth writer opens a stage",
        steps: &[
            Adds(&[], &[], &[], VeryLong),
            Adds(&[], &[B], &[], VeryShort),
            Adds(&[], &[B], &[], VeryShort),
            Adds(&[], &[B], &[], VeryShort),
            Adds(&[], &[B], &[], VeryShort),
            Adds(&[], &[B], &[], VeryShort),
        ],
        text: "0 | 1, 2, 3, 4\n5\n",
        order: &[0, 1, 2, 3, 4, 5],
        most: 2,
    },
    Row {
        name: "a group doesn't outlast the longest by much",
        steps: &[
            Adds(&[], &[], &[], Short),
            Adds(&[], &[B], &[], VeryShort),
            Adds(&[], &[B], &[], Short),
        ],
        text: "0 | 1\n2\n",
        order: &[0, 1, 2],
        most: 2,
    },
    Row {
        name: "nothing goes back over a barrier",
        steps: &[
            Adds(&[], &[B], &[], Average),
            Closes,
            Adds(&[], &[B], &[], Average),
            Adds(&[], &[B], &[], Average),
            Adds(&[], &[], &[], Average),
        ],
        text: "0\n1 | 3\n2\n",
        order: &[0, 1, 3, 2],
        most: 2,
    },
    Row {
        name: "a barrier alone is no stage",
        steps: &[Closes],
        text: "",
        order: &[],
        most: 0,
    },
];

/// Adds a system or a barrier, and tells whether there was memory.
fn add(alloc: Global, planner: &mut Planner<u32>, number: u32, step: &Step) -> bool {
    match step {
        Adds(reads, writes, after, time) => {
            let Ok(reads) = Vec::from_slice(alloc, reads) else {
                return false;
            };
            let Ok(writes) = Vec::from_slice(alloc, writes) else {
                return false;
            };
            let Ok(after) = SmallVec::from_slice(alloc, after) else {
                return false;
            };
            planner
                .add(Adding::new(number, reads, writes, after, *time))
                .is_ok()
        }
        Closes => {
            planner.add_barrier();
            true
        }
    }
}

/// Adds systems and barriers, and tells whether there was memory.
fn add_all(alloc: Global, planner: &mut Planner<u32>, steps: &[Step]) -> bool {
    let mut number = 0u32;
    for step in steps {
        if !add(alloc, planner, number, step) {
            return false;
        }
        if let Adds(_, _, _, _) = step {
            number = number.wrapping_add(1);
        }
    }
    true
}

/// Whether a plan is printed and listed as the row says.
fn tells(alloc: Global, planner: &Planner<u32>, row: &Row) -> Result<bool, AllocError> {
    let is_printed = planner.print_par_seq(alloc)?.as_str() == row.text;
    let is_listed = planner.order(alloc)?.as_slice() == row.order;
    Ok(is_printed && is_listed && planner.max_groups() == row.most)
}

/// Whether the systems of a row are planned as it says.
fn holds(alloc: Global, row: &Row) -> Result<bool, AllocError> {
    let mut planner = Planner::new(alloc);
    let is_whole = add_all(alloc, &mut planner, row.steps);
    Ok(is_whole && tells(alloc, &planner, row)?)
}

#[test]
fn systems_are_planned(rt: HostRuntime) {
    let mut wrong = None;
    for row in ROWS.as_slice() {
        if holds(rt.alloc(), row) != Ok(true) {
            wrong = Some(row.name);
        }
    }
    assert_eq!(rt; wrong, None);
}

/// A reader of A, a writer of B, and behind both one that reads B, writes A and waits for the first.
static LOOKED_UP: [Step; 3] = [
    Adds(&[A], &[], &[], Average),
    Adds(&[], &[B], &[], VeryShort),
    Adds(&[B], &[A], &[0], Short),
];

/// Whether a system is the last of those three.
fn is_third(system: &Adding<u32>) -> bool {
    system.number() == 2
        && system.reads() == [B].as_slice()
        && system.writes() == [A].as_slice()
        && system.after() == [0].as_slice()
        && system.units() == 2
        && system.conflicts_with(system)
}

/// Whether a stage is of the last of those three alone.
fn is_of_third(stage: &Stage<u32>) -> bool {
    let Some(group) = stage.groups().first() else {
        return false;
    };
    let Some(system) = group.systems().first() else {
        return false;
    };
    stage.len() == 1
        && stage.longest() == 2
        && group.len() == 1
        && group.time() == 2
        && is_third(system)
}

/// Whether the places of those three are told.
fn are_looked_up(alloc: Global) -> bool {
    let mut planner = Planner::new(alloc);
    let is_whole = add_all(alloc, &mut planner, &LOOKED_UP);
    match planner.stages().last() {
        Some(stage) => {
            is_whole
                && planner.stage_count() == 2
                && planner.stages().len() == 2
                && is_of_third(stage)
        }
        None => false,
    }
}

#[test]
fn places_are_looked_up(rt: HostRuntime) {
    assert!(rt; are_looked_up(rt.alloc()));
    assert!(rt; RunningTime::default() == Average);
}

#[test]
fn laws_hold_of_plans() {
    laws::groups_are_apart::<u32>();
    laws::groups_are_short::<u32>();
    laws::each_system_stands_once::<u32>();
    laws::systems_stay::<u32>();
    laws::barriers_hold::<u32>();
    laws::systems_wait::<u32>();
    laws_of_builders::builders_plan::<Worker>();
    laws_of_builders::named_systems_wait::<Worker>();
    laws_of_builders::no_name_is_passed_over::<Worker>();
}
