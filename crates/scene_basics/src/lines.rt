//! The status of the program, and its line on standard error.
ghost use Rattle.std.specs.Prelude.{◌≡◌, OnOk, ◌≤◌, length, OnErr, IfErr, take};
ghost use Rattle.std.specs.List.{flat_map};
ghost use Rattle.std.specs.Io.KnownBytes.{Appends};
ghost use Rattle.scene.specs.Faults.{HasFailed};
ghost use Rattle.scene_basics.specs.Lines.{name_of, piece_text, cause_name, frame_line, error_line, line_of};
ghost use Rattle.scene_basics.specs.Lines.{status_of, Tells};

use itoa::Buffer;
use scene::devices::{CountedWrite, WriteFailure, write_text};
use scene::{DocRefusal, FrameRefusal, Report, RunError};

/// A piece of a line.
#[derive(Clone, Copy)]
pub enum Piece<'a> {
    /// A text as it is.
    Text(&'a str),
    /// A number in decimal digits.
    Number(u64),
}

/// The name of a document's refusal.
pub fn name(refusal: DocRefusal) -> &'static str
    ensures { result.now ≡ name_of refusal }
{
    match refusal {
        DocRefusal::Unreadable => "Unreadable",
        DocRefusal::NotWhole => "NotWhole",
        DocRefusal::WrongShape => "WrongShape",
        DocRefusal::UnknownKind => "UnknownKind",
        DocRefusal::DoubleId => "DoubleId",
        DocRefusal::IdNotBelowNext => "IdNotBelowNext",
        DocRefusal::Dangling => "Dangling",
        DocRefusal::UnknownSystem => "UnknownSystem",
        DocRefusal::NameTaken => "NameTaken",
        DocRefusal::UnknownDependency => "UnknownDependency",
        DocRefusal::MissingGlobal => "MissingGlobal",
        DocRefusal::ReservedWrite => "ReservedWrite",
        DocRefusal::TooManyWorkers => "TooManyWorkers",
        DocRefusal::TooManySystems => "TooManySystems",
        DocRefusal::UnknownStore => "UnknownStore",
        DocRefusal::TooManyEntities => "TooManyEntities",
    }
}

/// The status of what a run came to: 0 where all frames are done, 1 where the document is refused, 2 where a frame is,
/// 3 where a read or a write failed, 4 where memory was wanting.
pub fn status(outcome: &Result<Report, RunError>) -> u8
    ensures { result ≡ status_of outcome.now }
{
    match outcome {
        Ok(report) => if report.refused.is_some() { 2 } else { 0 },
        Err(RunError::Document(_)) => 1,
        Err(RunError::Read) => 3,
        Err(RunError::Write(_)) => 3,
        Err(RunError::Memory) => 4,
    }
}

/// Writes a piece, which takes no memory.
fn write_piece<E: CountedWrite>(err: &mut E, piece: &Piece<'_>) -> Result<(), WriteFailure>
    ensures ok { OnOk result (Appends (E.contents err.old) (E.contents err.new) (piece_text piece.now)) }
    ensures sound { OnOk result (E.fault_count err.new ≡ E.fault_count err.old) }
    ensures sent { IfErr result (λ error. Appends (E.contents err.old) (E.contents err.new)
        (take error.sent (piece_text piece.now))) }
    ensures within { IfErr result (λ error. error.sent ≤ length (piece_text piece.now)) }
    ensures failed { OnErr result (HasFailed (E.fault_count err.old) (E.fault_count err.new)) }
{
    match *piece {
        Piece::Text(text) => write_text(err, text.as_bytes()),
        Piece::Number(number) => {
            let mut buffer = Buffer::new();
            write_text(err, buffer.format(number).as_bytes())
        }
    }
}

/// Writes pieces one after another, up to the first that the writer refuses.
fn write_pieces<E: CountedWrite>(err: &mut E, pieces: &[Piece<'_>])
    ensures { Tells (flat_map piece_text pieces.now) (E.contents err.old) (E.contents err.new)
        (E.fault_count err.old) (E.fault_count err.new) }
{
    for piece in pieces {
        match write_piece(err, piece) {
            Ok(()) => {}
            Err(_error) => return,
        }
    }
}

/// The name of a frame's refusal.
fn refusal_name(refusal: &FrameRefusal) -> &str
    ensures { result.now ≡ cause_name refusal.now }
{
    match refusal {
        FrameRefusal::System(_, _) => "System",
        FrameRefusal::GoneReference(_) => "GoneReference",
        FrameRefusal::IdsSpent => "IdsSpent",
        FrameRefusal::IndicesSpent => "IndicesSpent",
        FrameRefusal::GenerationsSpent => "GenerationsSpent",
        FrameRefusal::TooManyCommands => "TooManyCommands",
        FrameRefusal::Memory => "Memory",
        FrameRefusal::Threads => "Threads",
    }
}

/// Writes the line of a frame that is refused.
fn write_frame_line<E: CountedWrite>(err: &mut E, frame: u32, refusal: &FrameRefusal)
    ensures { Tells (frame_line frame refusal.now) (E.contents err.old) (E.contents err.new)
        (E.fault_count err.old) (E.fault_count err.new) }
{
    let start = Piece::Text("frame ");
    let frame = Piece::Number(frame as u64);
    let refused = Piece::Text(" refused: ");
    let name = Piece::Text(refusal_name(refusal));
    let space = Piece::Text(" ");
    let end = Piece::Text("\n");
    match refusal {
        FrameRefusal::System(position, text) => {
            let position = Piece::Number(*position as u64);
            let text = Piece::Text(text.as_str());
            let colon = Piece::Text(": ");
            write_pieces(
                err,
                &[
                    start, frame, refused, name, space, position, colon, text, end,
                ],
            )
        }
        FrameRefusal::GoneReference(id) => {
            let id = Piece::Number(*id);
            write_pieces(err, &[start, frame, refused, name, space, id, end])
        }
        _ => write_pieces(err, &[start, frame, refused, name, end]),
    }
}

/// Writes the line of a run that gave no report.
fn write_error_line<E: CountedWrite>(err: &mut E, error: RunError)
    ensures { Tells (error_line error) (E.contents err.old) (E.contents err.new)
        (E.fault_count err.old) (E.fault_count err.new) }
{
    match error {
        RunError::Document(refusal) => {
            write_pieces(
                err,
                &[
                    Piece::Text("document refused: "),
                    Piece::Text(name(refusal)),
                    Piece::Text("\n"),
                ],
            )
        }
        RunError::Read => write_pieces(err, &[Piece::Text("read failed\n")]),
        RunError::Write(sent) => {
            write_pieces(
                err,
                &[
                    Piece::Text("write failed after "),
                    Piece::Number(sent),
                    Piece::Text(" bytes\n"),
                ],
            )
        }
        RunError::Memory => write_pieces(err, &[Piece::Text("out of memory\n")]),
    }
}

/// Writes the line of what a run came to, if it has one. A failure of the writer ends it.
pub fn write_line<E: CountedWrite>(err: &mut E, outcome: &Result<Report, RunError>)
    ensures { Tells (line_of outcome.now) (E.contents err.old) (E.contents err.new)
        (E.fault_count err.old) (E.fault_count err.new) }
{
    match outcome {
        Ok(report) => match &report.refused {
            Some((frame, refusal)) => write_frame_line(err, *frame, refusal),
            None => write_pieces(err, &[]),
        },
        Err(error) => write_error_line(err, *error),
    }
}
