//! Paths in a JSON.
ghost use Rattle.std.specs.Prelude.{◌≡◌, map, option_map, IfOk};
ghost use Rattle.serde_json.specs.View.{view};
ghost use Rattle.scene_sight.specs.Paths.{plain_step, behind, Stands};

use serde_json::Value;
use std::alloc::{AllocError, Global};

/// A step into a JSON.
#[derive(Debug, Drop, PartialEq, Eq)]
pub enum Step {
    /// To what stands under a key of an object.
    Key(String),
    /// To an item of a list, by its place from 0.
    Item(usize),
}

/// What stands behind a step, if anything does.
pub(crate) fn value_behind<'a>(value: &'a Value, step: &Step) -> Option<&'a Value>
    ensures { option_map (λ found. view found.now) result ≡ behind (plain_step step.now) (view value.now) }
{
    match step {
        Step::Key(key) => value.get(key.as_str()),
        Step::Item(index) => value.get(*index),
    }
}

/// The longest part of a path that leads to something in a JSON.
///
/// Errors: want of memory.
pub(crate) fn standing_part(
    alloc: Global,
    value: &Value,
    path: Vec<Step>,
) -> Result<Vec<Step>, AllocError>
    ensures { IfOk result (λ part. Stands (view value.now) part.items) }
{
    let mut part = Vec::new(alloc);
    let mut here = value;
    for step in path {
        let Some(next) = value_behind(here, &step) else {
            return Ok(part);
        };
        part.push(step)?;
        here = next;
    }
    Ok(part)
}
