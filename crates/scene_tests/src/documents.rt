//! Documents whose frames are all done, and the texts of the scenes that they reach.
use crate::runs::{Accepted, is_accepted};

pub const ROWS: [Accepted; 11] = [
    Accepted {
        document: "{\"next\":0,\"entities\":[],\"frames\":3}",
        text: "{\"entities\":[],\"globals\":{},\"next\":0}",
    },
    Accepted {
        document: "{\"next\":2,\"entities\":[{\"id\":0,\"parts\":{\"pos\":5,\"vel\":2}},{\"id\":1,\"parts\":{\"pos\":1}}],\"systems\":[{\"kind\":\"drift\"}],\"frames\":3}",
        text: "{\"entities\":[{\"id\":0,\"parts\":{\"pos\":11,\"vel\":2}},{\"id\":1,\"parts\":{\"pos\":1}}],\"globals\":{},\"next\":2}",
    },
    Accepted {
        document: "{\"next\":2,\"entities\":[{\"id\":0,\"parts\":{\"pos\":5,\"vel\":2}},{\"id\":1,\"parts\":{\"pos\":1}}],\"systems\":[{\"kind\":\"drift\"}],\"frames\":3,\"workers\":8,\"store\":\"hash\"}",
        text: "{\"entities\":[{\"id\":0,\"parts\":{\"pos\":11,\"vel\":2}},{\"id\":1,\"parts\":{\"pos\":1}}],\"globals\":{},\"next\":2}",
    },
    Accepted {
        document: "{\"next\":2,\"entities\":[{\"id\":0,\"parts\":{\"pos\":5,\"vel\":2}},{\"id\":1,\"parts\":{\"pos\":1}}],\"systems\":[{\"kind\":\"drift\"}],\"frames\":1}",
        text: "{\"entities\":[{\"id\":0,\"parts\":{\"pos\":7,\"vel\":2}},{\"id\":1,\"parts\":{\"pos\":1}}],\"globals\":{},\"next\":2}",
    },
    Accepted {
        document: "{\"entities\":[{\"id\":0,\"parts\":{\"pos\":7,\"vel\":2}},{\"id\":1,\"parts\":{\"pos\":1}}],\"globals\":{},\"next\":2,\"systems\":[{\"kind\":\"drift\"}],\"frames\":2}",
        text: "{\"entities\":[{\"id\":0,\"parts\":{\"pos\":11,\"vel\":2}},{\"id\":1,\"parts\":{\"pos\":1}}],\"globals\":{},\"next\":2}",
    },
    Accepted {
        document: "{\"next\":1,\"entities\":[{\"id\":0,\"parts\":{\"hp\":3}}],\"systems\":[{\"kind\":\"decay\"}],\"frames\":2}",
        text: "{\"entities\":[{\"id\":0,\"parts\":{\"hp\":1}}],\"globals\":{},\"next\":1}",
    },
    Accepted {
        document: "{\"next\":1,\"entities\":[{\"id\":0,\"parts\":{\"vel\":1}}],\"globals\":{\"g\":2},\"systems\":[{\"kind\":\"pull\"}],\"frames\":1}",
        text: "{\"entities\":[{\"id\":0,\"parts\":{\"vel\":3}}],\"globals\":{\"g\":2},\"next\":1}",
    },
    Accepted {
        document: "{\"next\":1,\"entities\":[{\"id\":0,\"parts\":{\"pos\":0,\"vel\":1}}],\"systems\":[{\"kind\":\"drift\",\"local\":true}],\"frames\":1}",
        text: "{\"entities\":[{\"id\":0,\"parts\":{\"pos\":1,\"vel\":1}}],\"globals\":{},\"next\":1}",
    },
    Accepted {
        document: "{\"next\":10,\"entities\":[{\"id\":9,\"parts\":{\"owner\":2}},{\"id\":2,\"parts\":{}}]}",
        text: "{\"entities\":[{\"id\":2,\"parts\":{}},{\"id\":9,\"parts\":{\"owner\":2}}],\"globals\":{},\"next\":10}",
    },
    Accepted {
        document: "{\"next\":0,\"next\":1,\"entities\":[]}",
        text: "{\"entities\":[],\"globals\":{},\"next\":1}",
    },
    Accepted {
        document: "{\"next\":0,\"entities\":[],\"systems\":[{\"barrier\":true}],\"frames\":1}",
        text: "{\"entities\":[],\"globals\":{},\"next\":0}",
    },
];

#[test]
fn documents_give_their_scenes(rt: HostRuntime) {
    let mut wrong = None;
    for row in ROWS.as_slice() {
        if !is_accepted(&rt, row.document, row.text) {
            wrong = Some(row.document);
        }
    }
    assert_eq!(rt; wrong, None);
}
