//! Texts of scenes that are kept.
ghost use Rattle.std.specs.Prelude.{◌≡◌};
ghost use Rattle.scene.specs.Rows.{kinds_kept};

use scene::snapshot::{KeptScene, kept_text};
use scene_basics::Basics;
use scene_basics::data::Datum;
use std::alloc::{AllocError, Global};

/// What is kept of an entity: its bond, its hp, its owner, its pos and its vel.
type Parts = &'static [Option<Datum>];

/// An index, and what comes to stand there: an id with its parts, or nobody.
type Change = (usize, Option<(u64, Parts)>);

/// Changes of nothing, the value of `g`, and the text after them.
struct Row {
    name: &'static str,
    changes: &'static [Change],
    next: u64,
    g: Option<i64>,
    text: &'static str,
}

const NO_PARTS: Parts = &[None, None, None, None, None];

const ROWS: [Row; 3] = [
    Row {
        name: "nothing",
        changes: &[],
        next: 0,
        g: None,
        text: "{\"entities\":[],\"globals\":{},\"next\":0}",
    },
    Row {
        name: "entities put in out of order, one without parts",
        changes: &[
            (
                0,
                Some((3, &[None, None, Some(Datum::Owner(0)), None, None])),
            ),
            (
                6,
                Some((
                    0,
                    &[
                        Some(Datum::Owner(3)),
                        Some(Datum::Whole(5)),
                        None,
                        Some(Datum::Whole(-1)),
                        Some(Datum::Whole(2)),
                    ],
                )),
            ),
            (1, Some((2, NO_PARTS))),
        ],
        next: 4,
        g: Some(-7),
        text: "{\"entities\":[{\"id\":0,\"parts\":{\"bond\":3,\"hp\":5,\"pos\":-1,\"vel\":2}},{\"id\":2,\"parts\":{}},{\"id\":3,\"parts\":{\"owner\":0}}],\"globals\":{\"g\":-7},\"next\":4}",
    },
    Row {
        name: "an entity that is left out, and one that changes",
        changes: &[
            (
                1,
                Some((1, &[None, Some(Datum::Whole(1)), None, None, None])),
            ),
            (
                2,
                Some((2, &[None, Some(Datum::Whole(2)), None, None, None])),
            ),
            (
                0,
                Some((4, &[None, Some(Datum::Whole(4)), None, None, None])),
            ),
            (2, None),
            (
                1,
                Some((1, &[None, Some(Datum::Whole(11)), None, None, None])),
            ),
        ],
        next: 5,
        g: None,
        text: "{\"entities\":[{\"id\":1,\"parts\":{\"hp\":11}},{\"id\":4,\"parts\":{\"hp\":4}}],\"globals\":{},\"next\":5}",
    },
];

/// Writes these parts into the row of an index that bears nobody, each at its kind's place.
fn write_parts<G>(
    kept: &mut KeptScene<Datum, G>,
    index: usize,
    parts: Parts,
) -> Result<(), AllocError>
    requires { kinds_kept kept.old ≡ 5 }
    ensures { kinds_kept kept.new ≡ 5 }
{
    for (place, part) in parts.iter().enumerate() {
        kept.make_room(index.saturating_add(1))?;
        if place < 5 && index < usize::MAX && kept.seat(index).is_none() {
            kept.write(place, index, *part);
        }
    }
    Ok(())
}

/// Makes a change.
fn make_change<G>(kept: &mut KeptScene<Datum, G>, change: &Change) -> Result<(), AllocError>
    requires { kinds_kept kept.old ≡ 5 }
    ensures { kinds_kept kept.new ≡ 5 }
{
    let index = change.0;
    let _ = kept.leave_out(index);
    let Some((id, parts)) = change.1 else {
        return Ok(());
    };
    write_parts(kept, index, parts)?;
    kept.make_room(index.saturating_add(1))?;
    if index < usize::MAX {
        kept.enter(index, id);
    }
    Ok(())
}

/// The text after the changes of a row.
fn text_after(alloc: Global, row: &Row) -> Result<Vec<u8>, AllocError> {
    let globals = Vec::from_slice(alloc, &[row.g])?;
    let mut kept = KeptScene::new(alloc, row.next, globals, 5)?;
    for change in row.changes {
        make_change(&mut kept, change)?;
    }
    kept_text(alloc, &Basics, &kept)
}

/// Whether the text is the row's.
fn holds(alloc: Global, row: &Row) -> bool {
    match text_after(alloc, row) {
        Ok(text) => text.as_slice() == row.text.as_bytes(),
        Err(_) => false,
    }
}

#[test]
fn what_is_kept_has_the_text_of_its_scene(rt: HostRuntime) {
    let mut wrong = None;
    for row in &ROWS {
        if !holds(rt.alloc(), row) {
            wrong = Some(row.name);
        }
    }
    assert_eq!(rt; wrong, None);
}
