//! The planner: which systems may run at the same time, and in which order the others run.
//!
//! Systems are added one after the other, each with the ids that it reads and writes, those it comes after and how long it is
//! said to run. A plan is a list of stages that run one after another, a stage a list of groups that may run at the same time,
//! and a group a list of systems that run one after another.
#![tactic(auto)]

mod adding;
mod firsts;
mod group;
mod id_table;
mod index;
pub mod laws;
mod planner;
mod running_time;
mod stage;
mod stage_set;
mod text;

pub use adding::Adding;
pub use group::Group;
pub use planner::Planner;
pub use running_time::RunningTime;
pub use stage::{Stage, Way};
