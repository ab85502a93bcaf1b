//! Documents with bonds: who dies with whom, which commands are skipped, and the scene that is left.
use crate::runs::is_told;
use scene::{Counted, run};
use scene_basics::Basics;
use scene_model::Skip;
use std::sync::Wait;
use std::thread::Threads;

/// A document, the status and the line of the program, the skips of its run, and the text that goes out.
pub struct Row {
    pub name: &'static str,
    pub document: &'static str,
    status: u8,
    line: &'static str,
    pub skips: &'static [Skip],
    text: &'static str,
}

pub const ROWS: [Row; 18] = [
    Row {
        name: "a chain falls from its end, and a later command on one of it is skipped",
        document: "{\"next\":3,\"entities\":[{\"id\":0,\"parts\":{}},{\"id\":1,\"parts\":{\"bond\":0}},{\"id\":2,\"parts\":{\"bond\":1}}],\"frames\":1,\"commands\":[[{\"kill\":0},{\"put\":{\"id\":2,\"kind\":\"hp\",\"value\":1}}]]}",
        status: 0,
        line: "",
        skips: &[Skip { frame: 1, place: 2 }],
        text: "{\"entities\":[],\"globals\":{},\"next\":3}",
    },
    Row {
        name: "two that are bound to each other fall together",
        document: "{\"next\":2,\"entities\":[{\"id\":0,\"parts\":{\"bond\":1}},{\"id\":1,\"parts\":{\"bond\":0}}],\"frames\":1,\"commands\":[[{\"kill\":1}]]}",
        status: 0,
        line: "",
        skips: &[],
        text: "{\"entities\":[],\"globals\":{},\"next\":2}",
    },
    Row {
        name: "a plain reference to one that falls is gone",
        document: "{\"next\":3,\"entities\":[{\"id\":0,\"parts\":{}},{\"id\":1,\"parts\":{\"bond\":0}},{\"id\":2,\"parts\":{\"owner\":1}}],\"frames\":1,\"commands\":[[{\"kill\":0}]]}",
        status: 2,
        line: "frame 1 refused: GoneReference 2\n",
        skips: &[],
        text: "{\"entities\":[{\"id\":0,\"parts\":{}},{\"id\":1,\"parts\":{\"bond\":0}},{\"id\":2,\"parts\":{\"owner\":1}}],\"globals\":{},\"next\":3}",
    },
    Row {
        name: "whoever is bound to one that is reaped falls",
        document: "{\"next\":2,\"entities\":[{\"id\":0,\"parts\":{\"hp\":1}},{\"id\":1,\"parts\":{\"hp\":9,\"bond\":0}}],\"systems\":[{\"kind\":\"decay\",\"name\":\"d\"},{\"kind\":\"reap\",\"after\":[\"d\"]}],\"frames\":1}",
        status: 0,
        line: "",
        skips: &[],
        text: "{\"entities\":[],\"globals\":{},\"next\":2}",
    },
    Row {
        name: "one that is bound to itself falls with nobody else",
        document: "{\"next\":2,\"entities\":[{\"id\":0,\"parts\":{\"bond\":0}},{\"id\":1,\"parts\":{}}],\"frames\":1,\"commands\":[[{\"kill\":1}]]}",
        status: 0,
        line: "",
        skips: &[],
        text: "{\"entities\":[{\"id\":0,\"parts\":{\"bond\":0}}],\"globals\":{},\"next\":2}",
    },
    Row {
        name: "a member that is killed again is skipped",
        document: "{\"next\":2,\"entities\":[{\"id\":0,\"parts\":{}},{\"id\":1,\"parts\":{\"bond\":0}}],\"frames\":1,\"commands\":[[{\"kill\":0},{\"kill\":1}]]}",
        status: 0,
        line: "",
        skips: &[Skip { frame: 1, place: 2 }],
        text: "{\"entities\":[],\"globals\":{},\"next\":2}",
    },
    Row {
        name: "a bond that is put before counts",
        document: "{\"next\":3,\"entities\":[{\"id\":0,\"parts\":{}},{\"id\":1,\"parts\":{\"pos\":4}},{\"id\":2,\"parts\":{\"vel\":1}}],\"frames\":1,\"commands\":[[{\"put\":{\"id\":1,\"kind\":\"bond\",\"value\":0}},{\"kill\":0}]]}",
        status: 0,
        line: "",
        skips: &[],
        text: "{\"entities\":[{\"id\":2,\"parts\":{\"vel\":1}}],\"globals\":{},\"next\":3}",
    },
    Row {
        name: "one that is spawned with a bond falls",
        document: "{\"next\":1,\"entities\":[{\"id\":0,\"parts\":{}}],\"frames\":1,\"commands\":[[{\"spawn\":{\"bond\":0,\"hp\":3}},{\"spawn\":{\"bond\":1}},{\"kill\":0}]]}",
        status: 0,
        line: "",
        skips: &[],
        text: "{\"entities\":[],\"globals\":{},\"next\":3}",
    },
    Row {
        name: "a bond that was taken holds no more",
        document: "{\"next\":2,\"entities\":[{\"id\":0,\"parts\":{}},{\"id\":1,\"parts\":{\"bond\":0}}],\"frames\":1,\"commands\":[[{\"take\":{\"id\":1,\"kind\":\"bond\"}},{\"kill\":0}]]}",
        status: 0,
        line: "",
        skips: &[],
        text: "{\"entities\":[{\"id\":1,\"parts\":{}}],\"globals\":{},\"next\":2}",
    },
    Row {
        name: "a bond to another holds where one is put in its place",
        document: "{\"next\":3,\"entities\":[{\"id\":0,\"parts\":{}},{\"id\":1,\"parts\":{\"bond\":0}},{\"id\":2,\"parts\":{}}],\"frames\":1,\"commands\":[[{\"put\":{\"id\":1,\"kind\":\"bond\",\"value\":2}},{\"kill\":0},{\"kill\":2}]]}",
        status: 0,
        line: "",
        skips: &[],
        text: "{\"entities\":[],\"globals\":{},\"next\":3}",
    },
    Row {
        name: "one that is bound to two of the dead falls once, and its index is free",
        document: "{\"next\":5,\"entities\":[{\"id\":0,\"parts\":{}},{\"id\":1,\"parts\":{\"bond\":0}},{\"id\":2,\"parts\":{\"bond\":0}},{\"id\":3,\"parts\":{\"bond\":1,\"owner\":2}},{\"id\":4,\"parts\":{\"owner\":4}}],\"frames\":1,\"commands\":[[{\"kill\":0},{\"spawn\":{\"pos\":1}},{\"spawn\":{\"owner\":4}}]]}",
        status: 0,
        line: "",
        skips: &[],
        text: "{\"entities\":[{\"id\":4,\"parts\":{\"owner\":4}},{\"id\":5,\"parts\":{\"pos\":1}},{\"id\":6,\"parts\":{\"owner\":4}}],\"globals\":{},\"next\":7}",
    },
    Row {
        name: "a bond that is put behind another kill of the frame counts",
        document: "{\"next\":4,\"entities\":[{\"id\":0,\"parts\":{}},{\"id\":1,\"parts\":{}},{\"id\":2,\"parts\":{}},{\"id\":3,\"parts\":{}}],\"frames\":1,\"commands\":[[{\"kill\":3},{\"put\":{\"id\":1,\"kind\":\"bond\",\"value\":0}},{\"kill\":0}]]}",
        status: 0,
        line: "",
        skips: &[],
        text: "{\"entities\":[{\"id\":2,\"parts\":{}}],\"globals\":{},\"next\":4}",
    },
    Row {
        name: "so does that of one that is spawned behind another kill, and of one bound to it",
        document: "{\"next\":3,\"entities\":[{\"id\":0,\"parts\":{}},{\"id\":1,\"parts\":{}},{\"id\":2,\"parts\":{}}],\"frames\":1,\"commands\":[[{\"kill\":2},{\"spawn\":{\"hp\":1,\"bond\":0}},{\"spawn\":{\"bond\":3}},{\"kill\":0}]]}",
        status: 0,
        line: "",
        skips: &[],
        text: "{\"entities\":[{\"id\":1,\"parts\":{}}],\"globals\":{},\"next\":5}",
    },
    Row {
        name: "a bond that is taken behind another kill holds no more",
        document: "{\"next\":4,\"entities\":[{\"id\":0,\"parts\":{}},{\"id\":1,\"parts\":{\"bond\":0}},{\"id\":2,\"parts\":{\"bond\":1}},{\"id\":3,\"parts\":{}}],\"frames\":1,\"commands\":[[{\"kill\":3},{\"take\":{\"id\":1,\"kind\":\"bond\"}},{\"kill\":0}]]}",
        status: 0,
        line: "",
        skips: &[],
        text: "{\"entities\":[{\"id\":1,\"parts\":{}},{\"id\":2,\"parts\":{\"bond\":1}}],\"globals\":{},\"next\":4}",
    },
    Row {
        name: "nor does one behind another kill in whose place another is put, which holds",
        document: "{\"next\":5,\"entities\":[{\"id\":0,\"parts\":{}},{\"id\":1,\"parts\":{\"bond\":0}},{\"id\":2,\"parts\":{}},{\"id\":3,\"parts\":{\"bond\":1}},{\"id\":4,\"parts\":{}}],\"frames\":1,\"commands\":[[{\"kill\":4},{\"put\":{\"id\":1,\"kind\":\"bond\",\"value\":2}},{\"kill\":0},{\"put\":{\"id\":3,\"kind\":\"hp\",\"value\":7}},{\"kill\":2}]]}",
        status: 0,
        line: "",
        skips: &[],
        text: "{\"entities\":[],\"globals\":{},\"next\":5}",
    },
    Row {
        name: "who is born at the index of a holder that died stays",
        document: "{\"next\":2,\"entities\":[{\"id\":0,\"parts\":{}},{\"id\":1,\"parts\":{\"bond\":0}}],\"frames\":1,\"commands\":[[{\"kill\":1},{\"spawn\":{\"pos\":1}},{\"kill\":0}]]}",
        status: 0,
        line: "",
        skips: &[],
        text: "{\"entities\":[{\"id\":2,\"parts\":{\"pos\":1}}],\"globals\":{},\"next\":3}",
    },
    Row {
        name: "a bond that an earlier frame put behind its kill counts",
        document: "{\"next\":4,\"entities\":[{\"id\":0,\"parts\":{}},{\"id\":1,\"parts\":{}},{\"id\":2,\"parts\":{\"bond\":1}},{\"id\":3,\"parts\":{}}],\"frames\":2,\"commands\":[[{\"kill\":3},{\"put\":{\"id\":1,\"kind\":\"bond\",\"value\":0}}],[{\"kill\":0}]]}",
        status: 0,
        line: "",
        skips: &[],
        text: "{\"entities\":[],\"globals\":{},\"next\":4}",
    },
    Row {
        name: "a bond to nobody is a document's refusal",
        document: "{\"next\":1,\"entities\":[{\"id\":0,\"parts\":{\"bond\":7}}]}",
        status: 1,
        line: "document refused: Dangling\n",
        skips: &[],
        text: "",
    },
];

/// Whether a run of a document skips these commands; one that is refused as a whole skips none.
fn skips<H: AllocGlobal + Threads + Wait + Sync>(rt: &H, row: &Row) -> bool {
    let mut reader = Counted::new(row.document.as_bytes());
    let mut out = Counted::new(Vec::new(rt.alloc()));
    match run(rt, Basics, &mut reader, &mut out) {
        Ok(report) => report.skips.as_slice() == row.skips,
        Err(_) => row.skips.is_empty(),
    }
}

#[test]
fn who_is_bound_to_the_dead_dies(rt: HostRuntime) {
    let mut wrong = None;
    for row in ROWS.as_slice() {
        if !is_told(&rt, row.document, row.status, row.text, row.line) || !skips(&rt, row) {
            wrong = Some(row.name);
        }
    }
    assert_eq!(rt; wrong, None);
}
