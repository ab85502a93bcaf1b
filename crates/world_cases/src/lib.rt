//! Worlds over `specs`, their values and stories. `world_tests` tries them, and measures and `savetext` share them.
#![tactic(auto)]

pub mod building;
pub mod histories;
pub mod lazy;
pub mod lending;
pub mod reaping;
pub mod saving;
pub mod stories;
pub mod tiring;
pub mod values;
