//! Drift on a dispatcher, staged at one position and local at another.

mod bare;
mod frames;

pub use crate::systems::bare::{bare_frames, bare_world};
pub use crate::systems::frames::{drift_twice, run_frame};
