//! The laws of scenes at the program's rules, and what they say shown on documents.
ghost use Rattle.std.specs.Prelude.{IfSome};
ghost use Rattle.scene.specs.Members.{IsReadyBy};

use scene::laws::{
    a_printed_scene_is_read_again, a_ready_scene_can_be_read, a_system_changes_what_it_declares,
    an_id_is_given_once, frames_in_two_parts, print_and_load,
};
use scene::{Limits, Rules, Scene};
use scene_basics::Basics;
use scene_basics::laws::{
    a_document_has_one_outcome, a_turn_has_one_outcome, a_turn_keeps_references,
    references_go_on_living, workers_and_store_do_not_show,
};
use std::alloc::{AllocError, Global};
use std::sync::Wait;
use std::test::Fail;
use std::thread::Threads;

#[test]
fn the_laws_are_of_the_program() {
    a_turn_has_one_outcome();
    a_turn_keeps_references();
    a_document_has_one_outcome();
    workers_and_store_do_not_show();
    references_go_on_living();
    an_id_is_given_once(&Basics);
    a_printed_scene_is_read_again(&Basics);
    frames_in_two_parts(&Basics);
    a_system_changes_what_it_declares(&Basics);
}

/// Documents of at least one frame or none, with the next id of the scene after the first.
const ROWS: [(&str, u64); 3] = [
    ("{\"next\":0,\"entities\":[],\"frames\":3}", 0),
    // deaths and births, a reference, and a global
    (
        "{\"next\":3,\"entities\":[{\"id\":0,\"parts\":{\"hp\":11,\"pos\":-5,\"vel\":2}},{\"id\":1,\"parts\":{\"hp\":1}},{\"id\":2,\"parts\":{\"owner\":0}}],\"globals\":{\"g\":-9223372036854775808},\"systems\":[{\"kind\":\"decay\",\"name\":\"d\"},{\"kind\":\"reap\",\"after\":[\"d\"]},{\"kind\":\"bud\",\"after\":[\"d\"]}],\"frames\":2}",
        4,
    ),
    (
        "{\"next\":18446744073709551615,\"entities\":[{\"id\":18446744073709551614,\"parts\":{\"owner\":18446744073709551614}}]}",
        18446744073709551615,
    ),
];

/// The scene of a document after its first frame, where it has one.
fn first_scene<R: Rules + Drop + Send + Sync, H: AllocGlobal + Threads + Wait + Sync>(
    rt: &H,
    rules: R,
    document: &str,
) -> Option<Scene<R>>
where
    R::Value: Drop + Send + Sync,
    R::Data: Send + Sync,
    R::Global: Send + Sync,
    R::System: Send + Sync,
    ensures { IfSome result (IsReadyBy R.Rules R.Value.SceneValue) }
{
    let mut scene = match Scene::open(rt.alloc(), rules, Limits::FULL, document.as_bytes()) {
        Ok(scene) => scene,
        Err(_) => return None,
    };
    if scene.left() > 0 {
        match scene.run_frame(rt) {
            Ok(()) => {}
            Err(_) => return None,
        }
    }
    Some(scene)
}

/// Whether two scenes have one text and this next id, and the second has no frames.
fn are_one(
    alloc: Global,
    scene: &Scene<Basics>,
    again: &Scene<Basics>,
    next: u64,
) -> Result<bool, AllocError> {
    let text = scene.snapshot(alloc)?;
    let same = again.snapshot(alloc)?;
    Ok(
        same.as_slice() == text.as_slice()
            && scene.next() == next
            && again.next() == next
            && again.left() == 0
            && again.report().frames == 0,
    )
}

/// Whether the scene that a document reaches is printed and loaded again.
fn loads_again<H: AllocGlobal + Threads + Wait + Sync>(
    rt: &H,
    document: &str,
    next: u64,
) -> Result<bool, AllocError> {
    let scene = match first_scene(rt, Basics, document) {
        Some(scene) => scene,
        None => return Ok(false),
    };
    a_ready_scene_can_be_read(&scene);
    let outcome = match print_and_load(rt.alloc(), &scene, Basics, Limits::FULL) {
        Ok(again) => {
            let one = are_one(rt.alloc(), &scene, &again, next);
            let _ = again.into_parts();
            one
        }
        Err(_error) => Ok(false),
    };
    let _ = scene.into_parts();
    outcome
}

#[test]
fn a_printed_scene_is_loaded_again(rt: HostRuntime) -> Result<(), Fail> {
    let mut wrong = None;
    for (document, next) in ROWS {
        if !loads_again(&rt, document, next)? {
            wrong = Some(document);
        }
    }
    assert_eq!(rt; wrong, None);
    Ok(())
}
