//! What stops a system: a command that was not taken in, or a text with which it refuses.
ghost use Rattle.std.specs.Prelude.{◌≡◌};
ghost use Rattle.scene_world.specs.Stops.{stop_for, RefusesWith};

use scene_model::NotQueued;
use shred_stages::Stop;
use std::alloc::Global;

/// The stop of a system whose command was not taken into its queue: `Full` where the queue is full, else `Memory`.
pub fn stop_for<D: Drop>(refused: NotQueued<D>) -> Stop
    ensures { result ≡ stop_for refused }
{
    match refused {
        NotQueued::Full(_) => Stop::Full,
        NotQueued::Memory(_) => Stop::Memory,
    }
}

/// The stop of a system that refuses with a text: `Memory`, where there is none for it.
pub fn refusal(alloc: Global, text: &str) -> Stop
    ensures { RefusesWith text.now result }
{
    match String::from_str(alloc, text) {
        Ok(said) => Stop::Refused(said),
        Err(_) => Stop::Memory,
    }
}
