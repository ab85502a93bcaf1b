//! What two systems conflict on.
use crate::pictures::plan::PlanSystem;
use std::alloc::{AllocError, Global};

/// Whether a word is among these.
fn is_among(words: &[String], word: &str) -> bool {
    for other in words {
        if other.as_str() == word {
            return true;
        }
    }
    false
}

/// Notes what one system writes that another reads or writes, and reads alone where that is asked for.
fn note_touched<'a>(
    one: &'a PlanSystem,
    other: &PlanSystem,
    reads_alone: bool,
    words: &mut Vec<&'a str>,
) -> Result<(), AllocError> {
    for word in &one.writes {
        let text = word.as_str();
        let is_written = is_among(&other.writes, text);
        let is_read = is_among(&other.reads, text);
        if if reads_alone {
            is_read && !is_written
        } else {
            is_read || is_written
        } {
            words.push(text)?;
        }
    }
    Ok(())
}

/// What two systems conflict on: what one of them writes and the other reads or writes, each once.
pub(crate) fn shared_by<'a>(
    alloc: Global,
    one: &'a PlanSystem,
    other: &'a PlanSystem,
) -> Result<Vec<&'a str>, AllocError> {
    let mut words = Vec::new(alloc);
    note_touched(one, other, false, &mut words)?;
    note_touched(other, one, true, &mut words)?;
    Ok(words)
}
