//! Why a frame is refused, by how the dispatch of its systems ended.
ghost use Rattle.std.specs.Prelude.{◌≡◌};
ghost use Rattle.scene_dispatch.specs.Frames.{told_as, position_at, cause_of};

use scene_model::{FrameRefusal, Text};
use shred_stages::{DispatchError, Stop};

/// The position of the system at a number.
fn position_at(positions: &[u32], number: usize) -> u32
    ensures { result ≡ position_at positions.now number }
{
    positions.get(number).copied().unwrap_or(0)
}

/// The cause that the stop of a system at a position is.
fn told_as(position: u32, stop: Stop) -> FrameRefusal
    ensures { result ≡ told_as position stop }
{
    match stop {
        Stop::Refused(text) => FrameRefusal::System(position, Text::from_string(text)),
        Stop::Memory => FrameRefusal::Memory,
        Stop::Full => FrameRefusal::TooManyCommands,
    }
}

/// The cause that the end of a dispatch is, by the positions of the staged systems and of the local ones.
pub(crate) fn cause_of(staged: &[u32], locals: &[u32], error: DispatchError) -> FrameRefusal
    ensures { result ≡ cause_of staged.now locals.now error }
{
    match error {
        DispatchError::System(id, stop) => told_as(position_at(staged, id.0 as usize), stop),
        DispatchError::Local(place, stop) => told_as(position_at(locals, place), stop),
        DispatchError::Memory => FrameRefusal::Memory,
        DispatchError::Threads => FrameRefusal::Threads,
    }
}
