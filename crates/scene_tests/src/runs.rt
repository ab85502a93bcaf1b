//! What a run and the program make of a document in memory.
use scene::{Counted, DocRefusal, RunError, run};
use scene_basics::Basics;
use scene_basics::program::program;
use std::alloc::AllocError;
use std::sync::Wait;
use std::thread::Threads;

/// A document with the text that goes out.
pub struct Accepted {
    pub document: &'static str,
    pub text: &'static str,
}

/// Whether the program answers this status, writes this text and tells this line.
pub fn program_tells<H: AllocGlobal + Threads + Wait + Sync>(
    rt: &H,
    document: &str,
    status: u8,
    text: &str,
    line: &str,
) -> bool {
    let mut reader = Counted::new(document.as_bytes());
    let mut out = Counted::new(Vec::new(rt.alloc()));
    let mut err = Counted::new(Vec::new(rt.alloc()));
    program(rt, &mut reader, &mut out, &mut err) == status
        && out.get_ref().as_slice() == text.as_bytes()
        && err.get_ref().as_slice() == line.as_bytes()
}

/// Whether a run gives a report that names this frame as refused, or none, and writes this text.
pub fn run_reaches<H: AllocGlobal + Threads + Wait + Sync>(
    rt: &H,
    document: &str,
    refused: Option<u32>,
    text: &str,
) -> bool {
    let mut reader = Counted::new(document.as_bytes());
    let mut out = Counted::new(Vec::new(rt.alloc()));
    let told = match run(rt, Basics, &mut reader, &mut out) {
        Ok(report) => match &report.refused {
            None => refused == None,
            Some((frame, _)) => refused == Some(*frame),
        },
        Err(_) => false,
    };
    told && out.get_ref().as_slice() == text.as_bytes()
}

/// Whether a run refuses the document by this name, and writes nothing.
fn run_refuses<H: AllocGlobal + Threads + Wait + Sync>(
    rt: &H,
    document: &str,
    refusal: DocRefusal,
) -> bool {
    let mut reader = Counted::new(document.as_bytes());
    let mut out = Counted::new(Vec::new(rt.alloc()));
    run(rt, Basics, &mut reader, &mut out).err() == Some(RunError::Document(refusal))
        && out.get_ref().is_empty()
}

/// The line that the program tells of a document's refusal.
fn line_of(refusal: DocRefusal) -> &'static str {
    match refusal {
        DocRefusal::Unreadable => "document refused: Unreadable\n",
        DocRefusal::NotWhole => "document refused: NotWhole\n",
        DocRefusal::WrongShape => "document refused: WrongShape\n",
        DocRefusal::UnknownKind => "document refused: UnknownKind\n",
        DocRefusal::DoubleId => "document refused: DoubleId\n",
        DocRefusal::IdNotBelowNext => "document refused: IdNotBelowNext\n",
        DocRefusal::Dangling => "document refused: Dangling\n",
        DocRefusal::UnknownSystem => "document refused: UnknownSystem\n",
        DocRefusal::NameTaken => "document refused: NameTaken\n",
        DocRefusal::UnknownDependency => "document refused: UnknownDependency\n",
        DocRefusal::MissingGlobal => "document refused: MissingGlobal\n",
        DocRefusal::ReservedWrite => "document refused: ReservedWrite\n",
        DocRefusal::TooManyWorkers => "document refused: TooManyWorkers\n",
        DocRefusal::TooManySystems => "document refused: TooManySystems\n",
        DocRefusal::UnknownStore => "document refused: UnknownStore\n",
        DocRefusal::TooManyEntities => "document refused: TooManyEntities\n",
    }
}

/// The numbers of workers with which each document runs.
pub const WORKERS: [u32; 4] = [0, 1, 2, 8];

/// The stores in which it runs.
pub const STORES: [&str; 4] = ["vec", "dense", "hash", "btree"];

/// Whether the program tells the same of a document with each number of workers and in each store. Said twice, the later one counts.
///
/// Errors: want of memory.
fn tells_the_same<H: AllocGlobal + Threads + Wait + Sync>(
    rt: &H,
    document: &str,
    status: u8,
    text: &str,
    line: &str,
) -> Result<bool, AllocError> {
    let Some(open) = document.strip_suffix("}") else {
        return Ok(false);
    };
    let mut same = true;
    for workers in WORKERS {
        for store in STORES {
            let placed = format!(in rt.alloc();
                "{open},\"workers\":{workers},\"store\":\"{store}\"}}"
            )?;
            same = program_tells(rt, placed.as_str(), status, text, line) && same;
        }
    }
    Ok(same)
}

/// Whether the program answers this status, writes this text and tells this line, as the document is and with any workers and store.
pub fn is_told<H: AllocGlobal + Threads + Wait + Sync>(
    rt: &H,
    document: &str,
    status: u8,
    text: &str,
    line: &str,
) -> bool {
    program_tells(rt, document, status, text, line)
        && tells_the_same(rt, document, status, text, line) == Ok(true)
}

/// Whether all frames of a document are done, and the scene that they reach has this text.
pub fn is_accepted<H: AllocGlobal + Threads + Wait + Sync>(
    rt: &H,
    document: &str,
    text: &str,
) -> bool {
    is_told(rt, document, 0, text, "") && run_reaches(rt, document, None, text)
}

/// Whether the program refuses a document by this name with each number of workers and in each store. One that isn't closed
/// by a brace is left as it is.
///
/// Errors: want of memory.
fn refuses_the_same<H: AllocGlobal + Threads + Wait + Sync>(
    rt: &H,
    document: &str,
    refusal: DocRefusal,
) -> Result<bool, AllocError> {
    let Some(open) = document.strip_suffix("}") else {
        return Ok(true);
    };
    let mut same = true;
    for workers in WORKERS {
        for store in STORES {
            let placed = format!(in rt.alloc();
                "{open},\"workers\":{workers},\"store\":\"{store}\"}}"
            )?;
            same = program_tells(rt, placed.as_str(), 1, "", line_of(refusal)) && same;
        }
    }
    Ok(same)
}

/// Whether the document is refused by this name, by a run and by the program, as it is and with any workers and store.
pub fn is_refused_anyhow<H: AllocGlobal + Threads + Wait + Sync>(
    rt: &H,
    document: &str,
    refusal: DocRefusal,
) -> bool {
    is_refused(rt, document, refusal) && refuses_the_same(rt, document, refusal) == Ok(true)
}

/// Whether the document is refused by this name, by a run and by the program.
pub fn is_refused<H: AllocGlobal + Threads + Wait + Sync>(
    rt: &H,
    document: &str,
    refusal: DocRefusal,
) -> bool {
    program_tells(rt, document, 1, "", line_of(refusal)) && run_refuses(rt, document, refusal)
}
