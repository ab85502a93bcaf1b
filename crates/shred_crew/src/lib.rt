//! Loads cut into shares, and threads that stand by to work on them.
#![tactic(auto)]

mod crew;
mod cutting;
mod deal;
mod gather;
mod line;
mod load;
mod numbered;
mod room;
mod seat;
mod shift;
mod worker;

pub use crew::Crew;
pub use cutting::cut;
pub use load::Load;
pub use room::Room;
pub use shift::{Shift, Unmanned, Want, with_crew};
