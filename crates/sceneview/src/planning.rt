//! The command `plan`.
use crate::reading::bytes_of;
use crate::status::{Status, tell, tell_refused};
use crate::writing::write_to;
use scene::Limits;
use scene_basics::Basics;
use scene_basics::lines::name;
use scene_trace::pictures::plan_svg;
use scene_trace::{LoadError, outline_of};
use std::rt::Files;

/// Tells the plan of a document as text, or draws it, and answers how the program ends.
pub(crate) fn plan_one<R: Files + Input + Print + Eprint + AllocGlobal>(
    rt: &R,
    file: &str,
    svg: bool,
    output: Option<&str>,
) -> Status {
    let bytes = match bytes_of(rt, file) {
        Ok(bytes) => bytes,
        Err(status) => return tell(rt, status, file),
    };
    let outline = match outline_of(rt.alloc(), &Basics, Limits::FULL, &bytes) {
        Ok(outline) => outline,
        Err(LoadError::Document(refusal)) => return tell_refused(rt, file, name(refusal)),
        Err(LoadError::Memory) => return tell(rt, Status::Memory, ""),
    };
    if !svg {
        return write_to(rt, output, outline.text.as_bytes());
    }
    match plan_svg(rt.alloc(), &outline.plan) {
        Ok(drawn) => write_to(rt, output, &drawn),
        Err(_) => tell(rt, Status::Memory, ""),
    }
}
