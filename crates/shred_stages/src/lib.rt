//! Stages of systems over a world's resources: a plan is run group by group, by workers or by one thread, or in a thread of its own
//! while the caller goes on.
#![tactic(auto)]

mod access;
mod accessor;
mod alone;
mod apart;
mod away;
mod berth;
mod errand;
mod error;
mod kit;
pub mod laws;
mod moves;
mod pack;
mod pack_run;
mod packing;
mod places;
mod run;
mod seat;
mod seating;
mod setup;
mod slots;
mod stages;
mod stop;
mod system;
mod tour;
mod turn;
mod view;
mod worth;

pub use accessor::BatchAccessor;
pub use alone::run_alone;
pub use away::Away;
pub use errand::{Done, Errand, Unstarted};
pub use error::DispatchError;
pub use pack::Pack;
pub use run::Refusal;
pub use seating::{make_seat, move_values};
pub use stages::StagesBuilder;
pub use stop::{Stop, SystemId};
pub use system::System;
pub use view::View;
