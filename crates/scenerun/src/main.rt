//! Runs the scene of a JSON document in a world of entities: standard input to standard output.
#![tactic(auto)]

use scene::Counted;
use scene_basics::program::program;
use std::process::ExitCode;

fn main(rt: HostRuntime) -> ExitCode {
    let mut reader = Counted::new(rt.stdin());
    let mut out = Counted::new(rt.stdout());
    let mut err = Counted::new(rt.stderr());
    ExitCode::from(program(&rt, &mut reader, &mut out, &mut err))
}
