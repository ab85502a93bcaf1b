//! Frames of several systems and of commands: documents with the scene that they give, or the refusal and the text before it.
use crate::runs::{Accepted, is_accepted, is_told, run_reaches};

pub const ROWS: [Accepted; 14] = [
    // an entity that decays to nothing is reaped
    Accepted {
        document: "{\"next\":8,\"entities\":[{\"id\":3,\"parts\":{\"hp\":2}},{\"id\":7,\"parts\":{\"hp\":5}}],\"systems\":[{\"kind\":\"decay\",\"name\":\"d\"},{\"kind\":\"reap\",\"after\":[\"d\"]}],\"frames\":2}",
        text: "{\"entities\":[{\"id\":7,\"parts\":{\"hp\":3}}],\"globals\":{},\"next\":8}",
    },
    // a reference to an id that is spawned and then put
    Accepted {
        document: "{\"next\":2,\"entities\":[{\"id\":0,\"parts\":{\"owner\":1}},{\"id\":1,\"parts\":{}}],\"frames\":1,\"commands\":[[{\"kill\":1},{\"spawn\":{\"pos\":3}},{\"put\":{\"id\":0,\"kind\":\"owner\",\"value\":2}}]]}",
        text: "{\"entities\":[{\"id\":0,\"parts\":{\"owner\":2}},{\"id\":2,\"parts\":{\"pos\":3}}],\"globals\":{},\"next\":3}",
    },
    // births where the first stage has left them
    Accepted {
        document: "{\"next\":1,\"entities\":[{\"id\":0,\"parts\":{\"hp\":11,\"pos\":5,\"vel\":2}}],\"systems\":[{\"kind\":\"decay\"},{\"kind\":\"bud\"},{\"kind\":\"drift\"}],\"frames\":1}",
        text: "{\"entities\":[{\"id\":0,\"parts\":{\"hp\":10,\"pos\":7,\"vel\":2}},{\"id\":1,\"parts\":{\"hp\":1,\"pos\":7}}],\"globals\":{},\"next\":2}",
    },
    // births before what a barrier holds back
    Accepted {
        document: "{\"next\":1,\"entities\":[{\"id\":0,\"parts\":{\"hp\":11,\"pos\":5,\"vel\":2}}],\"systems\":[{\"kind\":\"decay\"},{\"kind\":\"bud\"},{\"barrier\":true},{\"kind\":\"drift\"}],\"frames\":1}",
        text: "{\"entities\":[{\"id\":0,\"parts\":{\"hp\":10,\"pos\":7,\"vel\":2}},{\"id\":1,\"parts\":{\"hp\":1,\"pos\":5}}],\"globals\":{},\"next\":2}",
    },
    // a put at an id that was killed is skipped
    Accepted {
        document: "{\"next\":1,\"entities\":[{\"id\":0,\"parts\":{}}],\"frames\":1,\"commands\":[[{\"spawn\":{\"pos\":4}},{\"kill\":0},{\"put\":{\"id\":0,\"kind\":\"pos\",\"value\":9}}]]}",
        text: "{\"entities\":[{\"id\":1,\"parts\":{\"pos\":4}}],\"globals\":{},\"next\":2}",
    },
    // births ascending by id
    Accepted {
        document: "{\"next\":10,\"entities\":[{\"id\":9,\"parts\":{\"hp\":10,\"pos\":90}},{\"id\":2,\"parts\":{\"hp\":10,\"pos\":20}}],\"systems\":[{\"kind\":\"bud\"}],\"frames\":1}",
        text: "{\"entities\":[{\"id\":2,\"parts\":{\"hp\":10,\"pos\":20}},{\"id\":9,\"parts\":{\"hp\":10,\"pos\":90}},{\"id\":10,\"parts\":{\"hp\":1,\"pos\":20}},{\"id\":11,\"parts\":{\"hp\":1,\"pos\":90}}],\"globals\":{},\"next\":12}",
    },
    // a local system runs last
    Accepted {
        document: "{\"next\":1,\"entities\":[{\"id\":0,\"parts\":{\"pos\":0,\"vel\":1}}],\"globals\":{\"g\":2},\"systems\":[{\"kind\":\"drift\",\"local\":true},{\"kind\":\"pull\"}],\"frames\":1}",
        text: "{\"entities\":[{\"id\":0,\"parts\":{\"pos\":3,\"vel\":3}}],\"globals\":{\"g\":2},\"next\":1}",
    },
    // a spawn with a dead reference is skipped also where no id is left
    Accepted {
        document: "{\"next\":18446744073709551615,\"entities\":[],\"frames\":1,\"commands\":[[{\"spawn\":{\"owner\":3}}]]}",
        text: "{\"entities\":[],\"globals\":{},\"next\":18446744073709551615}",
    },
    // a spawn that refers to the id that it would get is skipped
    Accepted {
        document: "{\"next\":1,\"entities\":[{\"id\":0,\"parts\":{}}],\"frames\":1,\"commands\":[[{\"spawn\":{\"owner\":1}}]]}",
        text: "{\"entities\":[{\"id\":0,\"parts\":{}}],\"globals\":{},\"next\":1}",
    },
    // a put may refer to its own entity
    Accepted {
        document: "{\"next\":1,\"entities\":[{\"id\":0,\"parts\":{}}],\"frames\":1,\"commands\":[[{\"put\":{\"id\":0,\"kind\":\"owner\",\"value\":0}}]]}",
        text: "{\"entities\":[{\"id\":0,\"parts\":{\"owner\":0}}],\"globals\":{},\"next\":1}",
    },
    // a take of an absent part changes nothing
    Accepted {
        document: "{\"next\":1,\"entities\":[{\"id\":0,\"parts\":{\"hp\":4,\"pos\":1}}],\"frames\":2,\"commands\":[[{\"take\":{\"id\":0,\"kind\":\"vel\"}}],[{\"take\":{\"id\":0,\"kind\":\"pos\"}}]]}",
        text: "{\"entities\":[{\"id\":0,\"parts\":{\"hp\":4}}],\"globals\":{},\"next\":1}",
    },
    // lists past the frames are never run
    Accepted {
        document: "{\"next\":0,\"entities\":[],\"frames\":1,\"commands\":[[],[{\"spawn\":{}}]]}",
        text: "{\"entities\":[],\"globals\":{},\"next\":0}",
    },
    // the document's commands run before the systems'
    Accepted {
        document: "{\"next\":1,\"entities\":[{\"id\":0,\"parts\":{\"hp\":10,\"pos\":1}}],\"systems\":[{\"kind\":\"bud\"}],\"frames\":1,\"commands\":[[{\"spawn\":{\"vel\":8}},{\"put\":{\"id\":0,\"kind\":\"hp\",\"value\":1}}]]}",
        text: "{\"entities\":[{\"id\":0,\"parts\":{\"hp\":1,\"pos\":1}},{\"id\":1,\"parts\":{\"vel\":8}},{\"id\":2,\"parts\":{\"hp\":1,\"pos\":1}}],\"globals\":{},\"next\":3}",
    },
    // systems refer by name to earlier ones, a barrier and a local one between
    Accepted {
        document: "{\"next\":1,\"entities\":[{\"id\":0,\"parts\":{\"hp\":1,\"pos\":0,\"vel\":1}}],\"systems\":[{\"kind\":\"decay\",\"name\":\"a\"},{\"barrier\":true},{\"kind\":\"drift\",\"local\":true},{\"kind\":\"reap\",\"name\":\"b\",\"after\":[\"a\",\"a\"]}],\"frames\":1}",
        text: "{\"entities\":[],\"globals\":{},\"next\":1}",
    },
];

#[test]
fn frames_lead_to_their_scenes(rt: HostRuntime) {
    let mut wrong = None;
    for row in ROWS.as_slice() {
        if !is_accepted(&rt, row.document, row.text) {
            wrong = Some(row.document);
        }
    }
    assert_eq!(rt; wrong, None);
}

/// A document of which a frame is refused, the text of the scene before it, and the line that is told.
pub struct Refused {
    pub document: &'static str,
    frame: u32,
    text: &'static str,
    line: &'static str,
}

pub const REFUSED: [Refused; 8] = [
    Refused {
        document: "{\"next\":2,\"entities\":[{\"id\":0,\"parts\":{\"hp\":1}},{\"id\":1,\"parts\":{\"hp\":9,\"owner\":0}}],\"systems\":[{\"kind\":\"decay\",\"name\":\"d\"},{\"kind\":\"reap\",\"after\":[\"d\"]}],\"frames\":1}",
        frame: 1,
        text: "{\"entities\":[{\"id\":0,\"parts\":{\"hp\":1}},{\"id\":1,\"parts\":{\"hp\":9,\"owner\":0}}],\"globals\":{},\"next\":2}",
        line: "frame 1 refused: GoneReference 1\n",
    },
    Refused {
        document: "{\"next\":2,\"entities\":[{\"id\":0,\"parts\":{\"owner\":1}},{\"id\":1,\"parts\":{}}],\"frames\":1,\"commands\":[[{\"kill\":1},{\"spawn\":{\"pos\":3}}]]}",
        frame: 1,
        text: "{\"entities\":[{\"id\":0,\"parts\":{\"owner\":1}},{\"id\":1,\"parts\":{}}],\"globals\":{},\"next\":2}",
        line: "frame 1 refused: GoneReference 0\n",
    },
    Refused {
        document: "{\"next\":1,\"entities\":[{\"id\":0,\"parts\":{\"hp\":-9223372036854775808,\"pos\":9223372036854775807,\"vel\":1}}],\"systems\":[{\"kind\":\"decay\"},{\"kind\":\"drift\"}],\"workers\":4,\"frames\":1}",
        frame: 1,
        text: "{\"entities\":[{\"id\":0,\"parts\":{\"hp\":-9223372036854775808,\"pos\":9223372036854775807,\"vel\":1}}],\"globals\":{},\"next\":1}",
        line: "frame 1 refused: System 1: overflow\n",
    },
    Refused {
        document: "{\"next\":18446744073709551615,\"entities\":[],\"frames\":1,\"commands\":[[{\"spawn\":{}}]]}",
        frame: 1,
        text: "{\"entities\":[],\"globals\":{},\"next\":18446744073709551615}",
        line: "frame 1 refused: IdsSpent\n",
    },
    Refused {
        document: "{\"next\":1,\"entities\":[{\"id\":0,\"parts\":{\"hp\":-9223372036854775808,\"pos\":9223372036854775807,\"vel\":1}}],\"systems\":[{\"kind\":\"drift\"},{\"kind\":\"decay\"}],\"workers\":4,\"frames\":1}",
        frame: 1,
        text: "{\"entities\":[{\"id\":0,\"parts\":{\"hp\":-9223372036854775808,\"pos\":9223372036854775807,\"vel\":1}}],\"globals\":{},\"next\":1}",
        line: "frame 1 refused: System 1: overflow\n",
    },
    Refused {
        document: "{\"next\":1,\"entities\":[{\"id\":0,\"parts\":{\"hp\":-9223372036854775808,\"pos\":0,\"vel\":1}}],\"systems\":[{\"kind\":\"drift\"},{\"kind\":\"decay\"}],\"workers\":4,\"frames\":1}",
        frame: 1,
        text: "{\"entities\":[{\"id\":0,\"parts\":{\"hp\":-9223372036854775808,\"pos\":0,\"vel\":1}}],\"globals\":{},\"next\":1}",
        line: "frame 1 refused: System 2: overflow\n",
    },
    Refused {
        document: "{\"next\":1,\"entities\":[{\"id\":0,\"parts\":{\"pos\":9223372036854775807,\"vel\":1}}],\"systems\":[{\"kind\":\"drift\"}],\"frames\":3}",
        frame: 1,
        text: "{\"entities\":[{\"id\":0,\"parts\":{\"pos\":9223372036854775807,\"vel\":1}}],\"globals\":{},\"next\":1}",
        line: "frame 1 refused: System 1: overflow\n",
    },
    Refused {
        document: "{\"next\":2,\"entities\":[{\"id\":0,\"parts\":{\"pos\":0,\"vel\":1}},{\"id\":1,\"parts\":{\"pos\":9223372036854775805,\"vel\":1}}],\"systems\":[{\"kind\":\"drift\"}],\"frames\":9}",
        frame: 3,
        text: "{\"entities\":[{\"id\":0,\"parts\":{\"pos\":2,\"vel\":1}},{\"id\":1,\"parts\":{\"pos\":9223372036854775807,\"vel\":1}}],\"globals\":{},\"next\":2}",
        line: "frame 3 refused: System 1: overflow\n",
    },
];

#[test]
fn frames_are_refused_by_name(rt: HostRuntime) {
    let mut wrong = None;
    for row in REFUSED.as_slice() {
        if !is_told(&rt, row.document, 2, row.text, row.line)
            || !run_reaches(&rt, row.document, Some(row.frame), row.text)
        {
            wrong = Some(row.document);
        }
    }
    assert_eq!(rt; wrong, None);
}
