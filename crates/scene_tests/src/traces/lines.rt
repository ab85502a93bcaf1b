//! The lines of frames.
use scene::Limits;
use scene_basics::Basics;
use scene_trace::{
    FrameTrace, Halted, Kinds, Plain, TraceError, Watcher, frame_jsons, frame_lines, trace,
};
use std::alloc::{AllocError, Global};
use std::sync::Wait;
use std::thread::Threads;

/// Keeps the lines of frames.
#[derive(Drop)]
struct Keeper {
    alloc: Global,
    json: bool,
    lines: String,
}

impl Keeper {
    fn keep(&mut self, frame: &FrameTrace, kinds: &Kinds) -> Result<(), AllocError> {
        let lines = if self.json {
            frame_jsons(self.alloc, frame, kinds)?
        } else {
            frame_lines(self.alloc, frame, kinds)?
        };
        self.lines.push_str(lines.as_str())
    }
}

impl Watcher for Keeper {
    fn see(
        &mut self,
        _before: &Plain,
        frame: &FrameTrace,
        _after: &Plain,
        kinds: &Kinds,
    ) -> Result<(), Halted> {
        match self.keep(frame, kinds) {
            Ok(()) => Ok(()),
            Err(_) => Err(Halted),
        }
    }
}

/// The lines of a document's run under the program's rules.
fn lines_of<H: AllocGlobal + Threads + Wait + Sync>(
    rt: &H,
    document: &str,
    json: bool,
) -> Result<String, TraceError> {
    let mut keeper = Keeper {
        alloc: rt.alloc(),
        json,
        lines: String::new(rt.alloc()),
    };
    let bytes = document.as_bytes();
    trace(
        rt,
        Basics,
        &Basics,
        Limits::FULL,
        bytes,
        u32::MAX,
        &mut keeper,
    )?;
    Ok(keeper.lines)
}

/// Whether a document's run has these lines.
fn has_lines<H: AllocGlobal + Threads + Wait + Sync>(
    rt: &H,
    document: &str,
    json: bool,
    lines: &str,
) -> bool {
    match lines_of(rt, document, json) {
        Ok(found) => found.as_str() == lines,
        Err(_) => false,
    }
}

/// Who dies with whom, what is put, taken and born, and which commands are skipped.
const TOLD: [(&str, &str); 3] = [
    // reap takes 0 out with 1, which is bound to it, and 2, which is bound to 1
    (
        "{\"next\":4,\"entities\":[{\"id\":0,\"parts\":{\"hp\":1}},{\"id\":1,\"parts\":{\"bond\":0}},{\"id\":2,\"parts\":{\"bond\":1}},{\"id\":3,\"parts\":{\"hp\":5}}],\"systems\":[{\"kind\":\"decay\",\"name\":\"d\"},{\"barrier\":true},{\"kind\":\"reap\"}],\"frames\":1}",
        "frame 1: the systems changed hp of 0: 1 -> 0
frame 1: the systems changed hp of 3: 5 -> 4
frame 1: command 1, reap at place 3: 0 died
frame 1: command 1, reap at place 3: 1 died with 0, to whom it was bound by bond
frame 1: command 1, reap at place 3: 2 died with 0: it was bound by bond to 1
",
    ),
    // the first spawn is 2; 5 never lived, and 1 is dead by the third command
    (
        "{\"next\":2,\"entities\":[{\"id\":0,\"parts\":{\"pos\":7}},{\"id\":1,\"parts\":{}}],\"frames\":2,\"commands\":[[{\"spawn\":{\"vel\":3,\"owner\":0}},{\"put\":{\"id\":0,\"kind\":\"owner\",\"value\":5}},{\"kill\":1},{\"put\":{\"id\":1,\"kind\":\"hp\",\"value\":4}},{\"kill\":1}],[{\"put\":{\"id\":0,\"kind\":\"pos\",\"value\":-8}},{\"take\":{\"id\":2,\"kind\":\"owner\"}},{\"take\":{\"id\":2,\"kind\":\"hp\"}},{\"spawn\":{\"bond\":1}},{\"take\":{\"id\":9,\"kind\":\"hp\"}}]]}",
        "frame 1: command 1, the document: 2 is born with {\"owner\":0,\"vel\":3}
frame 1: command 2, the document: a put of owner at 0 is skipped: its owner refers to 5, who is not alive
frame 1: command 3, the document: 1 died
frame 1: command 4, the document: a put of hp at 1 is skipped: 1 is not alive
frame 1: command 5, the document: a kill of 1 is skipped: 1 is not alive
frame 2: command 1, the document: put pos of 0: 7 -> -8
frame 2: command 2, the document: took owner of 2: 0 -> nothing
frame 2: command 3, the document: took hp of 2: nothing -> nothing
frame 2: command 4, the document: a spawn is skipped: its bond refers to 1, who is not alive
frame 2: command 5, the document: a take of hp of 9 is skipped: 9 is not alive
",
    ),
    // two are born beside 0: by the document's command, and by bud at place 1, which runs behind it
    (
        "{\"next\":1,\"entities\":[{\"id\":0,\"parts\":{\"hp\":10,\"pos\":6}}],\"systems\":[{\"kind\":\"bud\"}],\"frames\":1,\"commands\":[[{\"spawn\":{}}]]}",
        "frame 1: command 1, the document: 1 is born with {}
frame 1: command 2, bud at place 1: 2 is born with {\"hp\":1,\"pos\":6}
",
    ),
];

/// What led to refusals.
const REFUSED: [(&str, &str); 4] = [
    (
        "{\"next\":4,\"entities\":[{\"id\":2,\"parts\":{\"hp\":0}},{\"id\":3,\"parts\":{\"owner\":2}}],\"systems\":[{\"kind\":\"decay\"},{\"kind\":\"pull\",\"name\":\"p\"},{\"barrier\":true},{\"kind\":\"reap\"}],\"globals\":{\"g\":1},\"frames\":1}",
        "frame 1: refused: GoneReference 3
frame 1: entity 3 refers by owner to 2, which died by reap at place 4, command 1
",
    ),
    (
        "{\"next\":3,\"entities\":[{\"id\":0,\"parts\":{}},{\"id\":1,\"parts\":{\"bond\":0}},{\"id\":2,\"parts\":{\"owner\":1}}],\"frames\":1,\"commands\":[[{\"spawn\":{}},{\"kill\":0}]]}",
        "frame 1: refused: GoneReference 2
frame 1: entity 2 refers by owner to 1, which died with 0 by the document, command 2
",
    ),
    (
        "{\"next\":1,\"entities\":[{\"id\":0,\"parts\":{\"pos\":9223372036854775807,\"vel\":1}}],\"systems\":[{\"kind\":\"decay\"},{\"kind\":\"drift\"}],\"frames\":1}",
        "frame 1: refused: System 2: overflow
frame 1: drift at place 2 refused
",
    ),
    (
        "{\"next\":18446744073709551615,\"entities\":[{\"id\":0,\"parts\":{\"hp\":12,\"pos\":1}}],\"systems\":[{\"kind\":\"bud\"}],\"frames\":1,\"commands\":[[{\"kill\":7}]]}",
        "frame 1: refused: IdsSpent
frame 1: command 2, bud at place 1: the spawn found no id left
",
    ),
];

/// The same as JSON: keys ascend.
const JSONS: [(&str, &str); 2] = [
    (
        "{\"next\":3,\"entities\":[{\"id\":0,\"parts\":{\"hp\":1}},{\"id\":1,\"parts\":{\"bond\":0}},{\"id\":2,\"parts\":{}}],\"systems\":[{\"kind\":\"decay\",\"name\":\"d\"},{\"kind\":\"reap\",\"after\":[\"d\"]}],\"frames\":1,\"commands\":[[{\"put\":{\"id\":9,\"kind\":\"hp\",\"value\":4}},{\"put\":{\"id\":2,\"kind\":\"vel\",\"value\":4}}]]}",
        "{\"after\":0,\"before\":1,\"by\":\"the systems\",\"event\":\"changed\",\"frame\":1,\"id\":0,\"kind\":\"hp\"}
{\"asked\":\"a put of hp at 9\",\"by\":\"the document\",\"command\":1,\"event\":\"skipped\",\"frame\":1,\"not_alive\":9}
{\"after\":4,\"before\":null,\"by\":\"the document\",\"command\":2,\"event\":\"put\",\"frame\":1,\"id\":2,\"kind\":\"vel\"}
{\"by\":\"reap at place 2\",\"command\":3,\"event\":\"died\",\"frame\":1,\"id\":0,\"place\":2}
{\"bound_to\":0,\"by\":\"reap at place 2\",\"command\":3,\"event\":\"died\",\"frame\":1,\"id\":1,\"kind\":\"bond\",\"place\":2,\"with\":0}
",
    ),
    (
        "{\"next\":2,\"entities\":[{\"id\":0,\"parts\":{\"owner\":1}},{\"id\":1,\"parts\":{}}],\"frames\":1,\"commands\":[[{\"kill\":1}]]}",
        "{\"event\":\"refused\",\"frame\":1,\"refusal\":\"GoneReference 0\"}
{\"event\":\"led\",\"frame\":1,\"sentence\":\"entity 0 refers by owner to 1, which died by the document, command 1\"}
",
    ),
];

/// The first document whose run has other lines than these, if there is one.
fn wrong_in<H: AllocGlobal + Threads + Wait + Sync>(
    rt: &H,
    rows: &[(&'static str, &'static str)],
    json: bool,
) -> Option<&'static str> {
    for (document, lines) in rows {
        if !has_lines(rt, *document, json, *lines) {
            return Some(*document);
        }
    }
    None
}

#[test]
fn frames_have_their_lines(rt: HostRuntime) {
    assert_eq!(rt; wrong_in(&rt, &TOLD, false), None);
    assert_eq!(rt; wrong_in(&rt, &REFUSED, false), None);
    assert_eq!(rt; wrong_in(&rt, &JSONS, true), None);
}
