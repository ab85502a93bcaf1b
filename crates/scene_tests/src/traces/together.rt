//! The traces of runs, put together, and the scenes that the engine has after each frame.
ghost use Rattle.std.specs.Prelude.{◌≡◌};
ghost use Rattle.scene.specs.Limits.{AreLimits};

use crate::whole_runs::Watched;
use crate::whole_runs::rows::{Row, Under};
use crate::{Leavers, bonds, documents, frames, leaver_rows, whole_runs};
use scene::{Limits, Rules, Skip};
use scene_basics::Basics;
use scene_cases::commands::Owning;
use scene_cases::turns::Drifting;
use scene_trace::{
    Act, FrameTrace, Halted, Kinds, Plain, TraceError, Watcher, put_together, trace,
};
use std::alloc::{AllocError, Global};
use std::sync::Wait;
use std::test::Fail;
use std::thread::Threads;

/// Puts the traces of a run together, beginning with its first scene, and notes the skips.
#[derive(Drop)]
struct Judge {
    together: Option<Plain>,
    skips: Vec<Skip>,
    holds: bool,
}

impl Judge {
    fn new(alloc: Global) -> Judge {
        Judge {
            together: None,
            skips: Vec::new(alloc),
            holds: true,
        }
    }

    fn note_skips(&mut self, frame: &FrameTrace) -> Result<(), AllocError> {
        for deed in &frame.deeds {
            if let Act::Skipped(_, _) = &deed.act {
                self.skips.push(Skip {
                    frame: frame.number,
                    place: deed.place,
                })?;
            }
        }
        Ok(())
    }

    fn judge(
        &mut self,
        before: &Plain,
        frame: &FrameTrace,
        after: &Plain,
    ) -> Result<(), AllocError> {
        let mut plain = match self.together.take() {
            Some(plain) => plain,
            None => before.clone()?,
        };
        put_together(&mut plain, frame)?;
        self.holds = self.holds && plain == *after;
        self.together = Some(plain);
        self.note_skips(frame)
    }
}

impl Watcher for Judge {
    fn see(
        &mut self,
        before: &Plain,
        frame: &FrameTrace,
        after: &Plain,
        _kinds: &Kinds,
    ) -> Result<(), Halted> {
        match self.judge(before, frame, after) {
            Ok(()) => Ok(()),
            Err(_) => Err(Halted),
        }
    }
}

/// Whether the traces of a document's run give each of its scenes, and have these skips. One that is refused has none.
fn gives_scenes<R: Rules + Drop + Send + Sync, H: AllocGlobal + Threads + Wait + Sync>(
    rt: &H,
    rules: R,
    own: &R,
    limits: Limits,
    document: &str,
    skips: Option<&[Skip]>,
) -> bool
where
    R::Value: Drop + Send + Sync,
    R::Data: Send + Sync,
    R::Global: Send + Sync,
    R::System: Send + Sync,
    requires { AreLimits limits }
{
    let mut judge = Judge::new(rt.alloc());
    let bytes = document.as_bytes();
    let told = match trace(rt, rules, own, limits, bytes, u32::MAX, &mut judge) {
        Ok(()) => judge.holds,
        Err(TraceError::Document(_)) => judge.together.is_none(),
        Err(_) => false,
    };
    told && match skips {
        Some(skips) => judge.skips.as_slice() == skips,
        None => true,
    }
}

/// Whether a document of the program's rules does.
fn basics_do<H: AllocGlobal + Threads + Wait + Sync>(
    rt: &H,
    document: &str,
    skips: Option<&[Skip]>,
) -> bool {
    gives_scenes(rt, Basics, &Basics, Limits::FULL, document, skips)
}

/// Whether a row of one of three rules does, under its limits.
fn row_does<H: AllocGlobal + Threads + Wait + Sync>(rt: &H, row: &Row) -> Result<bool, AllocError> {
    let limits = row.limits;
    if limits.indices > 16_777_216 || limits.generation < 1 || limits.commands > 1_048_576 {
        return Ok(false);
    }
    let open = row.document;
    let document = format!(in rt.alloc(); "{open}}}")?;
    let text = document.as_str();
    let skips = Some(row.skips);
    Ok(match row.rules {
        Under::Drifting => gives_scenes(rt, Drifting, &Drifting, limits, text, skips),
        Under::Owning => gives_scenes(rt, Owning, &Owning, limits, text, skips),
        Under::Watched => gives_scenes(rt, Watched, &Watched, limits, text, skips),
    })
}

/// A document of the program's rules that doesn't, if there is one.
fn wrong_of_basics<H: AllocGlobal + Threads + Wait + Sync>(rt: &H) -> Option<&'static str> {
    let mut wrong = None;
    for row in &bonds::ROWS {
        if !basics_do(rt, row.document, Some(row.skips)) {
            wrong = Some(row.name);
        }
    }
    for row in &frames::ROWS {
        if !basics_do(rt, row.document, None) {
            wrong = Some(row.document);
        }
    }
    for row in &frames::REFUSED {
        if !basics_do(rt, row.document, Some(&[])) {
            wrong = Some(row.document);
        }
    }
    for row in &documents::ROWS {
        if !basics_do(rt, row.document, Some(&[])) {
            wrong = Some(row.document);
        }
    }
    wrong
}

#[test]
fn traces_give_the_scene_of_each_frame(rt: HostRuntime) -> Result<(), Fail> {
    let mut wrong = wrong_of_basics(&rt);
    for row in &leaver_rows::ROWS {
        if !gives_scenes(&rt, Leavers, &Leavers, Limits::FULL, row.document, None) {
            wrong = Some(row.document);
        }
    }
    for row in &whole_runs::rows::ROWS {
        if !row_does(&rt, row)? {
            wrong = Some(row.name);
        }
    }
    assert_eq!(rt; wrong, None);
    Ok(())
}
