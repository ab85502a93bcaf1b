//! Two systems without a common kind run at the same time where there are two workers.
use crate::whole_runs::gated::Gated;
use scene::{Counted, run};
use std::sync::Wait;
use std::test::Fail;
use std::thread::Threads;

/// Two gates, each of which is passed once the other is reached, and two workers.
const GATES: &str =
    "{\"next\":1,\"entities\":[{\"id\":0,\"parts\":{\"pos\":5,\"vel\":2}}],\"systems\":[{\"kind\":\"first\"},{\"kind\":\"second\"}],\"frames\":2,\"workers\":2}";

/// What the scene is before them and after them.
const TEXT: &str =
    "{\"entities\":[{\"id\":0,\"parts\":{\"pos\":5,\"vel\":2}}],\"globals\":{},\"next\":1}";

/// Whether both gates of the document are passed in each frame.
fn are_passed<H: AllocGlobal + Threads + Wait + Sync>(rt: &H, rules: Gated) -> bool {
    let mut reader = Counted::new(GATES.as_bytes());
    let mut out = Counted::new(Vec::new(rt.alloc()));
    match run(rt, rules, &mut reader, &mut out) {
        Ok(report) => report.frames == 2 && out.get_ref().as_slice() == TEXT.as_bytes(),
        Err(_) => false,
    }
}

#[test]
fn two_systems_run_at_the_same_time(rt: HostRuntime) -> Result<(), Fail> {
    let rules = Gated::new(rt.alloc())?;
    assert!(rt; are_passed(&rt, rules));
    Ok(())
}
