//! The plans and pages of documents.
use crate::pictures::rows::{REFUSED, ROWS, Row};
use scene::{DocRefusal, Limits};
use scene_basics::Basics;
use scene_sight::check;
use scene_trace::pictures::run_page;
use scene_trace::{LoadError, Outline, Recorder, TraceError, outline_of, trace};
use std::alloc::{AllocError, Global};
use std::sync::Wait;
use std::thread::Threads;

/// The kinds of systems of the program's rules.
const KINDS: [&str; 5] = ["drift", "pull", "decay", "reap", "bud"];

/// What stands between the begin of a page's run and its end.
pub fn run_in(page: &str) -> Option<&str> {
    let (_, rest) = page.split_once("<script type=\"application/json\" id=\"run\">")?;
    let (run, _) = rest.split_once("</script>")?;
    Some(run)
}

/// The page of a document, whose outline this is.
fn page_of<H: AllocGlobal + Threads + Wait + Sync>(
    rt: &H,
    document: &str,
    outline: &Outline,
) -> Result<String, TraceError> {
    let mut recorder = Recorder::new(rt.alloc());
    let bytes = document.as_bytes();
    trace(
        rt,
        Basics,
        &Basics,
        Limits::FULL,
        bytes,
        u32::MAX,
        &mut recorder,
    )?;
    let record = recorder.into_record();
    let page = run_page(rt.alloc(), "a page", &outline.plan, record, outline.frames)?;
    match String::from_utf8(page) {
        Ok(page) => Ok(page),
        Err(_) => Err(TraceError::Memory),
    }
}

/// Whether a document has the plan and the run of its row.
fn holds<H: AllocGlobal + Threads + Wait + Sync>(rt: &H, row: &Row) -> bool {
    let bytes = row.document.as_bytes();
    let Ok(outline) = outline_of(rt.alloc(), &Basics, Limits::FULL, bytes) else {
        return false;
    };
    if outline.text.as_str() != row.plan {
        return false;
    }
    match page_of(rt, row.document, &outline) {
        Ok(page) => run_in(page.as_str()) == Some(row.run),
        Err(_) => false,
    }
}

/// Whether a document is refused so by all: those who list faults, plan and draw.
fn is_refused<H: AllocGlobal + Threads + Wait + Sync>(
    rt: &H,
    document: &str,
    refusal: DocRefusal,
) -> Result<bool, AllocError> {
    let bytes = document.as_bytes();
    let faults = check(rt.alloc(), &Basics, Limits::FULL, &KINDS, bytes)?;
    let mut recorder = Recorder::new(rt.alloc());
    let drawn = trace(
        rt,
        Basics,
        &Basics,
        Limits::FULL,
        bytes,
        u32::MAX,
        &mut recorder,
    );
    let planned = outline_of(rt.alloc(), &Basics, Limits::FULL, bytes);
    let is_listed = match faults.first() {
        Some(fault) => fault.refusal == refusal,
        None => false,
    };
    let is_planned = match planned {
        Err(LoadError::Document(found)) => found != refusal,
        _ => true,
    };
    Ok(is_listed && !is_planned && drawn == Err(TraceError::Document(refusal)))
}

#[test]
fn documents_have_their_plans_and_pages(rt: HostRuntime) {
    let mut wrong = None;
    for row in ROWS.as_slice() {
        if !holds(&rt, row) {
            wrong = Some(row.name);
        }
    }
    for (document, refusal) in REFUSED.as_slice() {
        if is_refused(&rt, *document, *refusal) != Ok(true) {
            wrong = Some(*document);
        }
    }
    assert_eq!(rt; wrong, None);
}
