//! Calls on what is kept, one after the other, and what each leaves.
ghost use Rattle.std.specs.Prelude.{◌≡◌, IfOk};
ghost use Rattle.scene.specs.Rows.{kinds_kept};

use scene::snapshot::KeptScene;
use std::alloc::{AllocError, Global};

/// A call.
#[derive(Clone, Copy)]
enum Call {
    /// At an index an id is entered.
    Enter(usize, u64),
    /// At an index the entry is taken out, which was of this id.
    LeaveOut(usize, Option<u64>),
    /// At an index a datum is written into the row of a kind.
    Write(usize, usize, Option<u32>),
}

use Call::{Enter, LeaveOut, Write};

/// An index that bears an id, with what stands there of either kind.
type Entry = (usize, u64, Option<u32>, Option<u32>);

/// Calls on nothing, what is kept after them, and how many changes were counted.
struct Row {
    name: &'static str,
    calls: &'static [Call],
    kept: &'static [Entry],
    changes: u64,
}

const ROWS: [Row; 7] = [
    Row {
        name: "nothing",
        calls: &[],
        kept: &[],
        changes: 0,
    },
    Row {
        name: "entries with their data",
        calls: &[
            Write(0, 5, Some(50)),
            Write(1, 5, Some(51)),
            Enter(5, 7),
            Write(1, 1, Some(11)),
            Enter(1, 9),
        ],
        kept: &[(1, 9, None, Some(11)), (5, 7, Some(50), Some(51))],
        changes: 2,
    },
    Row {
        name: "a row without an entry",
        calls: &[Write(0, 3, Some(30)), Enter(4, 2)],
        kept: &[(4, 2, None, None)],
        changes: 1,
    },
    Row {
        name: "an entry that is left out, and two that weren't there",
        calls: &[
            Enter(2, 20),
            Enter(3, 30),
            LeaveOut(2, Some(20)),
            LeaveOut(2, None),
            LeaveOut(7, None),
            LeaveOut(700, None),
        ],
        kept: &[(3, 30, None, None)],
        changes: 3,
    },
    Row {
        name: "an entry that comes again with its row",
        calls: &[
            Write(0, 6, Some(60)),
            Enter(6, 1),
            LeaveOut(6, Some(1)),
            Enter(6, 1),
        ],
        kept: &[(6, 1, Some(60), None)],
        changes: 3,
    },
    Row {
        name: "another id at an index, with other data",
        calls: &[
            Write(0, 0, Some(1)),
            Write(1, 0, Some(2)),
            Enter(0, 4),
            LeaveOut(0, Some(4)),
            Write(0, 0, None),
            Write(1, 0, Some(3)),
            Enter(0, 8),
        ],
        kept: &[(0, 8, None, Some(3))],
        changes: 3,
    },
    Row {
        name: "all are left out",
        calls: &[
            Enter(1, 10),
            Enter(2, 20),
            LeaveOut(2, Some(20)),
            LeaveOut(1, Some(10)),
        ],
        kept: &[],
        changes: 4,
    },
];

/// Makes a call, with room for its index, and tells whether it answers what it does.
fn answers(kept: &mut KeptScene<u32, ()>, call: Call) -> Result<bool, AllocError>
    requires { kinds_kept kept.old ≡ 2 }
    ensures { kinds_kept kept.new ≡ 2 }
{
    match call {
        Enter(index, id) => {
            kept.make_room(index.saturating_add(1))?;
            if index == usize::MAX {
                return Ok(false);
            }
            kept.enter(index, id);
            Ok(kept.seat(index) == Some(id))
        }
        LeaveOut(index, was) => Ok(kept.leave_out(index) == was && kept.seat(index).is_none()),
        Write(place, index, datum) => {
            kept.make_room(index.saturating_add(1))?;
            if place >= 2 || index == usize::MAX || kept.seat(index).is_some() {
                return Ok(false);
            }
            kept.write(place, index, datum);
            Ok(kept.datum(place, index).copied() == datum)
        }
    }
}

/// What is kept at an index, if it bears an id.
fn entry_of(kept: &KeptScene<u32, ()>, index: usize) -> Option<Entry> {
    let id = kept.seat(index)?;
    Some((
        index,
        id,
        kept.datum(0, index).copied(),
        kept.datum(1, index).copied(),
    ))
}

/// Whether these entries are kept, and no others.
fn is_kept(kept: &KeptScene<u32, ()>, entries: &[Entry]) -> bool {
    let mut right = true;
    let mut place: usize = 0;
    for index in 0..kept.seats().len() {
        if let Some(entry) = entry_of(kept, index) {
            right = right && entries.get(place) == Some(&entry);
            place = place.wrapping_add(1);
        }
    }
    right && place == entries.len()
}

/// Whether a row holds.
fn holds(alloc: Global, row: &Row) -> Result<bool, AllocError> {
    let mut kept = KeptScene::new(alloc, 0, (), 2)?;
    let mut right = true;
    for call in row.calls {
        right = answers(&mut kept, *call)? && right;
    }
    Ok(right && is_kept(&kept, row.kept) && kept.changes() == row.changes)
}

#[test]
fn entries_are_kept_by_rows(rt: HostRuntime) {
    let mut wrong = None;
    for row in &ROWS {
        if !matches!(holds(rt.alloc(), row), Ok(true)) {
            wrong = Some(row.name);
        }
    }
    assert_eq!(rt; wrong, None);
}

/// Whether the next id and the globals are what was settled, and what was there is given back.
fn settles(alloc: Global) -> Result<bool, AllocError> {
    let mut kept: KeptScene<u32, u8> = KeptScene::new(alloc, 3, 1, 0)?;
    let began = kept.next() == 3 && *kept.globals() == 1;
    let was = kept.settle(4, 2);
    Ok(began && was == 1 && kept.next() == 4 && *kept.globals() == 2 && kept.changes() == 0)
}

#[test]
fn what_is_settled_is_there(rt: HostRuntime) {
    assert_eq!(rt; settles(rt.alloc()), Ok(true));
}
