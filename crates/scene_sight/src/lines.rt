//! Faults as lines of text and as JSON.
use crate::faults::Fault;
use crate::paths::Step;
use crate::spots::Spot;
use serde_json::json;
use std::alloc::{AllocError, Global};

/// A path as a reader would write it, as `systems[3].after[1]`; a key that is no plain word stands in quotes, as in
/// `globals["a b"]`, and the empty path is `document`.
pub fn path_text(alloc: Global, path: &[Step]) -> Result<String, AllocError> {
    if path.is_empty() {
        return String::from_str(alloc, "document");
    }
    let mut text = String::new(alloc);
    for step in path {
        push_step(alloc, &mut text, step)?;
    }
    Ok(text)
}

fn push_step(alloc: Global, text: &mut String, step: &Step) -> Result<(), AllocError> {
    match step {
        Step::Item(index) => text.push_str(format!(in alloc; "[{index}]")?.as_str()),
        Step::Key(key) => push_key(alloc, text, key.as_str()),
    }
}

fn push_key(alloc: Global, text: &mut String, key: &str) -> Result<(), AllocError> {
    if !is_word(key) {
        return text.push_str(format!(in alloc; "[{key:?}]")?.as_str());
    }
    if !text.is_empty() {
        text.push_str(".")?;
    }
    text.push_str(key)
}

fn is_word(key: &str) -> bool {
    !key.is_empty()
        && key
            .bytes()
            .all(|byte| byte.is_ascii_alphanumeric() || byte == b'_')
}

/// The line of a fault of a document of this name, whose refusal is told by this name, without a line end: the
/// document, line and column, the path, the refusal and the sentence.
pub fn fault_line(
    alloc: Global,
    document: &str,
    refusal: &str,
    fault: &Fault,
    spot: Spot,
) -> Result<String, AllocError> {
    let path = path_text(alloc, &fault.path)?;
    let line = spot.line;
    let column = spot.column;
    let sentence = fault.sentence.as_str();
    format!(in alloc; "{document}:{line}:{column}: {path}: {refusal}: {sentence}")
}

/// The same as a JSON in one line, of an object with `file`, `line`, `column`, `path`, `refusal` and `sentence`.
pub fn fault_json(
    alloc: Global,
    document: &str,
    refusal: &str,
    fault: &Fault,
    spot: Spot,
) -> Result<String, AllocError> {
    let path = path_text(alloc, &fault.path)?;
    let value = json!(in alloc; {
        "file": document,
        "line": spot.line as u64,
        "column": spot.column as u64,
        "path": path.as_str(),
        "refusal": refusal,
        "sentence": fault.sentence.as_str()
    })?;
    value.to_string(alloc)
}
