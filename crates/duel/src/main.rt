//! A duel: rules of one's own, whose entities strike at each other until they are buried.
//!
//! `data` has the parts; `documents`, `values` and `columns` what the rules say of documents, what a world holds and where,
//! as tools/values writes them from values.list; `rules`, `striking` and `burying` what the systems do there.
#![tactic(auto)]

mod burying;
mod columns;
mod data;
mod documents;
mod rules;
mod striking;
mod values;

use rules::Duel;
use scene::{Counted, run};
use scene_basics::lines::{status, write_line};
use std::process::ExitCode;

fn main(rt: HostRuntime) -> ExitCode {
    let mut reader = Counted::new(rt.stdin());
    let mut out = Counted::new(rt.stdout());
    let outcome = run(&rt, Duel, &mut reader, &mut out);
    write_line(&mut Counted::new(rt.stderr()), &outcome);
    ExitCode::from(status(&outcome))
}
