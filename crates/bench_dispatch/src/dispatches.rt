//! The planner and the dispatcher of `shred`, on one thread and on several.
//!
//! The small runs dispatch and plan small loads and print checksums. The timed ones print the time of a dispatch and of planning, and
//! what threads make of the time of a stage.
mod draws;
mod load;
mod outcomes;
mod stages;
mod standing;
mod timing;

pub use outcomes::checksums;
pub use timing::times;
