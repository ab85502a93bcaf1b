//! Documents under the rules whose system takes hp out and sets the global, with what their runs come to.
use crate::leavers::Leavers;
use crate::runs::{STORES, WORKERS};
use scene::{Counted, DocRefusal, FrameRefusal, Report, RunError, run};
use std::alloc::AllocError;
use std::sync::Wait;
use std::thread::Threads;

/// What a run comes to.
#[derive(Clone, Copy, Debug, PartialEq, Eq)]
enum End {
    /// All frames are done.
    Done,
    /// A frame is refused for a reference that is gone, which this id holds.
    Gone { frame: u32, id: u64 },
    /// The document is no scene.
    Refused(DocRefusal),
}

/// A document, what its run comes to, and the text that goes out.
pub struct Row {
    name: &'static str,
    pub document: &'static str,
    end: End,
    text: &'static str,
}

pub const ROWS: [Row; 16] = [
    Row {
        name: "hp goes, and other parts stay",
        document: "{\"next\":9,\"entities\":[{\"id\":8,\"parts\":{\"hp\":-4}},{\"id\":0,\"parts\":{\"hp\":5,\"pos\":1}},{\"id\":3,\"parts\":{\"hp\":2,\"owner\":0,\"vel\":-3}},{\"id\":5,\"parts\":{\"pos\":6}}],\"globals\":{\"g\":1},\"systems\":[{\"kind\":\"leave\",\"config\":true}],\"frames\":1}",
        end: End::Done,
        text: "{\"entities\":[{\"id\":0,\"parts\":{\"pos\":1}},{\"id\":3,\"parts\":{\"owner\":0,\"vel\":-3}},{\"id\":5,\"parts\":{\"pos\":6}},{\"id\":8,\"parts\":{}}],\"globals\":{\"g\":7},\"next\":9}",
    },
    Row {
        name: "the global alone is set",
        document: "{\"next\":1,\"entities\":[{\"id\":0,\"parts\":{\"hp\":5,\"pos\":1}}],\"globals\":{\"g\":-9223372036854775808},\"systems\":[{\"kind\":\"leave\",\"config\":false}],\"frames\":1}",
        end: End::Done,
        text: "{\"entities\":[{\"id\":0,\"parts\":{\"hp\":5,\"pos\":1}}],\"globals\":{\"g\":7},\"next\":1}",
    },
    Row {
        name: "the global is set where no entity lives",
        document: "{\"next\":0,\"entities\":[],\"globals\":{\"g\":0},\"systems\":[{\"kind\":\"leave\",\"config\":true}],\"frames\":1}",
        end: End::Done,
        text: "{\"entities\":[],\"globals\":{\"g\":7},\"next\":0}",
    },
    Row {
        name: "no frame leaves all as it was",
        document: "{\"next\":1,\"entities\":[{\"id\":0,\"parts\":{\"hp\":5}}],\"globals\":{\"g\":3},\"systems\":[{\"kind\":\"leave\",\"config\":true}]}",
        end: End::Done,
        text: "{\"entities\":[{\"id\":0,\"parts\":{\"hp\":5}}],\"globals\":{\"g\":3},\"next\":1}",
    },
    Row {
        name: "a part is put again by a command of the frame",
        document: "{\"next\":1,\"entities\":[{\"id\":0,\"parts\":{\"hp\":1,\"pos\":2}}],\"globals\":{\"g\":0},\"systems\":[{\"kind\":\"leave\",\"config\":true}],\"frames\":1,\"commands\":[[{\"put\":{\"id\":0,\"kind\":\"hp\",\"value\":9}}],[{\"spawn\":{\"hp\":4}}]]}",
        end: End::Done,
        text: "{\"entities\":[{\"id\":0,\"parts\":{\"hp\":9,\"pos\":2}}],\"globals\":{\"g\":7},\"next\":1}",
    },
    Row {
        name: "a part that was put goes in the next frame, and one that is born then stays",
        document: "{\"next\":1,\"entities\":[{\"id\":0,\"parts\":{\"hp\":1,\"pos\":2}}],\"globals\":{\"g\":0},\"systems\":[{\"kind\":\"leave\",\"config\":true}],\"frames\":2,\"commands\":[[{\"put\":{\"id\":0,\"kind\":\"hp\",\"value\":9}}],[{\"spawn\":{\"hp\":4}}]]}",
        end: End::Done,
        text: "{\"entities\":[{\"id\":0,\"parts\":{\"pos\":2}},{\"id\":1,\"parts\":{\"hp\":4}}],\"globals\":{\"g\":7},\"next\":2}",
    },
    Row {
        name: "a local system takes hp out",
        document: "{\"next\":1,\"entities\":[{\"id\":0,\"parts\":{\"hp\":5,\"vel\":2}}],\"globals\":{\"g\":0},\"systems\":[{\"kind\":\"leave\",\"config\":true,\"local\":true}],\"frames\":1}",
        end: End::Done,
        text: "{\"entities\":[{\"id\":0,\"parts\":{\"vel\":2}}],\"globals\":{\"g\":7},\"next\":1}",
    },
    Row {
        name: "three of them, on workers, do what one does",
        document: "{\"next\":2,\"entities\":[{\"id\":0,\"parts\":{\"hp\":5}},{\"id\":1,\"parts\":{\"hp\":6,\"pos\":0}}],\"globals\":{\"g\":8},\"systems\":[{\"kind\":\"leave\",\"config\":false},{\"kind\":\"leave\",\"config\":true},{\"kind\":\"leave\",\"config\":false}],\"workers\":4,\"store\":\"hash\",\"frames\":1}",
        end: End::Done,
        text: "{\"entities\":[{\"id\":0,\"parts\":{}},{\"id\":1,\"parts\":{\"pos\":0}}],\"globals\":{\"g\":7},\"next\":2}",
    },
    Row {
        name: "a refused frame leaves hp and the global as they were",
        document: "{\"next\":2,\"entities\":[{\"id\":0,\"parts\":{\"hp\":3,\"owner\":1}},{\"id\":1,\"parts\":{\"hp\":4}}],\"globals\":{\"g\":1},\"systems\":[{\"kind\":\"leave\",\"config\":true}],\"frames\":2,\"commands\":[[{\"kill\":1}]]}",
        end: End::Gone { frame: 1, id: 0 },
        text: "{\"entities\":[{\"id\":0,\"parts\":{\"hp\":3,\"owner\":1}},{\"id\":1,\"parts\":{\"hp\":4}}],\"globals\":{\"g\":1},\"next\":2}",
    },
    Row {
        name: "a refused second frame leaves what the first has left",
        document: "{\"next\":2,\"entities\":[{\"id\":0,\"parts\":{\"hp\":3,\"owner\":1}},{\"id\":1,\"parts\":{\"hp\":4}}],\"globals\":{\"g\":1},\"systems\":[{\"kind\":\"leave\",\"config\":true}],\"frames\":2,\"commands\":[[{\"put\":{\"id\":1,\"kind\":\"hp\",\"value\":9}}],[{\"kill\":1}]]}",
        end: End::Gone { frame: 2, id: 0 },
        text: "{\"entities\":[{\"id\":0,\"parts\":{\"owner\":1}},{\"id\":1,\"parts\":{\"hp\":9}}],\"globals\":{\"g\":7},\"next\":2}",
    },
    Row {
        name: "the document lacks the global",
        document: "{\"next\":0,\"entities\":[],\"systems\":[{\"kind\":\"leave\",\"config\":true}],\"frames\":1}",
        end: End::Refused(DocRefusal::MissingGlobal),
        text: "",
    },
    Row {
        name: "the document lacks the global, and has no frame",
        document: "{\"next\":0,\"entities\":[],\"globals\":{},\"systems\":[{\"kind\":\"leave\",\"config\":false}]}",
        end: End::Refused(DocRefusal::MissingGlobal),
        text: "",
    },
    Row {
        name: "the lack is told before there are too many workers",
        document: "{\"next\":0,\"entities\":[],\"systems\":[{\"kind\":\"leave\",\"config\":true,\"local\":true}],\"workers\":65}",
        end: End::Refused(DocRefusal::MissingGlobal),
        text: "",
    },
    Row {
        name: "an unknown system is told before the lack",
        document: "{\"next\":0,\"entities\":[],\"systems\":[{\"kind\":\"leave\",\"config\":true},{\"kind\":\"drift\"}]}",
        end: End::Refused(DocRefusal::UnknownSystem),
        text: "",
    },
    Row {
        name: "the configuration is wanting",
        document: "{\"next\":0,\"entities\":[],\"globals\":{\"g\":1},\"systems\":[{\"kind\":\"leave\"}]}",
        end: End::Refused(DocRefusal::WrongShape),
        text: "",
    },
    Row {
        name: "the configuration is a number",
        document: "{\"next\":0,\"entities\":[],\"systems\":[{\"kind\":\"leave\",\"config\":1}]}",
        end: End::Refused(DocRefusal::WrongShape),
        text: "",
    },
];

/// What a run comes to, if it is one of these ends.
fn end_of(outcome: &Result<Report, RunError>) -> Option<End> {
    match outcome {
        Ok(report) => match &report.refused {
            None => Some(End::Done),
            Some((frame, FrameRefusal::GoneReference(id))) => Some(End::Gone {
                frame: *frame,
                id: *id,
            }),
            Some(_) => None,
        },
        Err(RunError::Document(refusal)) => Some(End::Refused(*refusal)),
        Err(_) => None,
    }
}

/// Whether a run of the document under these rules comes to the row's end and writes its text.
fn runs_so<H: AllocGlobal + Threads + Wait + Sync>(rt: &H, document: &str, row: &Row) -> bool {
    let mut reader = Counted::new(document.as_bytes());
    let mut out = Counted::new(Vec::new(rt.alloc()));
    let outcome = run(rt, Leavers, &mut reader, &mut out);
    end_of(&outcome) == Some(row.end) && out.get_ref().as_slice() == row.text.as_bytes()
}

/// Whether the row's document does with each number of workers and in each store. Said twice, the later one counts.
///
/// Errors: want of memory.
fn runs_anyhow<H: AllocGlobal + Threads + Wait + Sync>(
    rt: &H,
    row: &Row,
) -> Result<bool, AllocError> {
    let Some(open) = row.document.strip_suffix("}") else {
        return Ok(false);
    };
    let mut same = true;
    for workers in WORKERS {
        for store in STORES {
            let placed = format!(in rt.alloc();
                "{open},\"workers\":{workers},\"store\":\"{store}\"}}"
            )?;
            same = runs_so(rt, placed.as_str(), row) && same;
        }
    }
    Ok(same)
}

/// Whether it does as it is and with any workers and store.
fn holds<H: AllocGlobal + Threads + Wait + Sync>(rt: &H, row: &Row) -> bool {
    runs_so(rt, row.document, row) && runs_anyhow(rt, row) == Ok(true)
}

#[test]
fn a_system_takes_parts_out_and_sets_the_global(rt: HostRuntime) {
    let mut wrong = None;
    for row in ROWS.as_slice() {
        if !holds(&rt, row) {
            wrong = Some(row.name);
        }
    }
    assert_eq!(rt; wrong, None);
}
