//! The program, over any reader and writers.
ghost use Rattle.scene.specs.Outcomes.{reading, writing};
ghost use Rattle.scene_basics.specs.Program.{RunsProgram};

use crate::lines::{status, write_line};
use crate::rules::Basics;
use scene::{CountedRead, CountedWrite, run};
use std::sync::Wait;
use std::thread::Threads;

/// Runs the document that `reader` gives in a world of entities, its systems on a dispatcher with the document's number of workers,
/// writes the text of the scene that it reaches to `out`, and answers the status.
///
/// The status is 0 where all frames are done, 1 where the document is refused, 2 where a frame is (and the text before it
/// is written), 3 where a read or a write failed, 4 where memory was wanting. But for 0 one line goes to `err`; a failure
/// there is passed over, and the status stays.
pub fn program<
    H: AllocGlobal + Threads + Wait + Sync,
    R: CountedRead,
    O: CountedWrite,
    E: CountedWrite,
>(rt: &H, reader: &mut R, out: &mut O, err: &mut E) -> u8
    ensures { RunsProgram result
        (reading R.remaining R.fault_count reader.old reader.new)
        (writing O.contents O.fault_count O.flushed out.old out.new)
        (E.contents err.old) (E.contents err.new) (E.fault_count err.old) (E.fault_count err.new) }
{
    let outcome = run(rt, Basics, reader, out);
    write_line(err, &outcome);
    status(&outcome)
}
