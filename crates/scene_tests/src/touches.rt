//! How many changes are made of the entries of what is kept: one for each touched index that bore an entry, and one for each
//! that bears one.
use scene::{Limits, Rules, Scene, run_to_end};
use scene_basics::Basics;
use std::sync::Wait;
use std::thread::Threads;

/// A document, and the changes that are counted once it is loaded and after its frames.
struct Touches {
    name: &'static str,
    document: &'static str,
    loaded: u64,
    after: u64,
}

const ROWS: [Touches; 8] = [
    Touches {
        name: "each entity enters as a document is loaded",
        document: "{\"next\":3,\"entities\":[{\"id\":0,\"parts\":{}},{\"id\":2,\"parts\":{\"pos\":1}}]}",
        loaded: 2,
        after: 2,
    },
    Touches {
        name: "a frame that touches nothing makes no change",
        document: "{\"next\":2,\"entities\":[{\"id\":0,\"parts\":{\"pos\":5}},{\"id\":1,\"parts\":{}}],\"frames\":2}",
        loaded: 2,
        after: 2,
    },
    Touches {
        name: "two indices, of one another entity: four changes",
        document: "{\"next\":2,\"entities\":[{\"id\":0,\"parts\":{\"owner\":1}},{\"id\":1,\"parts\":{}}],\"frames\":1,\"commands\":[[{\"kill\":1},{\"spawn\":{\"pos\":3}},{\"put\":{\"id\":0,\"kind\":\"owner\",\"value\":2}}]]}",
        loaded: 2,
        after: 6,
    },
    Touches {
        name: "a refused frame makes no change",
        document: "{\"next\":2,\"entities\":[{\"id\":0,\"parts\":{\"owner\":1}},{\"id\":1,\"parts\":{}}],\"frames\":1,\"commands\":[[{\"kill\":1},{\"spawn\":{\"pos\":3}}]]}",
        loaded: 2,
        after: 2,
    },
    Touches {
        name: "who drifts is touched in each frame",
        document: "{\"next\":2,\"entities\":[{\"id\":0,\"parts\":{\"pos\":5,\"vel\":2}},{\"id\":1,\"parts\":{\"pos\":1}}],\"systems\":[{\"kind\":\"drift\"}],\"frames\":3}",
        loaded: 2,
        after: 8,
    },
    Touches {
        name: "who comes enters, and who goes leaves",
        document: "{\"next\":1,\"entities\":[{\"id\":0,\"parts\":{}}],\"frames\":3,\"commands\":[[{\"spawn\":{}}],[{\"kill\":0}],[]]}",
        loaded: 1,
        after: 3,
    },
    Touches {
        name: "a part that comes and goes in one frame touches its index",
        document: "{\"next\":1,\"entities\":[{\"id\":0,\"parts\":{}}],\"frames\":2,\"commands\":[[{\"put\":{\"id\":0,\"kind\":\"pos\",\"value\":4}},{\"take\":{\"id\":0,\"kind\":\"pos\"}}],[]]}",
        loaded: 1,
        after: 3,
    },
    Touches {
        name: "who is born and dies in one frame makes no change",
        document: "{\"next\":1,\"entities\":[{\"id\":0,\"parts\":{}}],\"frames\":1,\"commands\":[[{\"spawn\":{\"pos\":2}},{\"kill\":1}]]}",
        loaded: 1,
        after: 1,
    },
];

/// The changes that are counted once a document is loaded and after its frames, none where it isn't loaded.
fn changes_of<R: Rules + Drop + Send + Sync, H: AllocGlobal + Threads + Wait + Sync>(
    rt: &H,
    rules: R,
    document: &str,
) -> Option<(u64, u64)>
where
    R::Value: Drop + Send + Sync,
    R::Data: Send + Sync,
    R::Global: Send + Sync,
    R::System: Send + Sync,
{
    let Ok(scene) = Scene::open(rt.alloc(), rules, Limits::FULL, document.as_bytes()) else {
        return None;
    };
    let loaded = scene.changes();
    let scene = run_to_end(rt, scene);
    Some((loaded, scene.changes()))
}

/// Whether so many changes are counted as a document is loaded and after its frames.
fn are_counted<H: AllocGlobal + Threads + Wait + Sync>(rt: &H, row: &Touches) -> bool {
    changes_of(rt, Basics, row.document) == Some((row.loaded, row.after))
}

#[test]
fn touched_indices_are_counted(rt: HostRuntime) {
    let mut wrong = None;
    for row in &ROWS {
        if !are_counted(&rt, row) {
            wrong = Some(row.name);
        }
    }
    assert_eq!(rt; wrong, None);
}
