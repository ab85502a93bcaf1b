//! Storages, systems, commands and dispatchers of a scene that stands in a world, each over rules made for it.
#![tactic(auto)]

pub mod commands;
pub mod stores;
pub mod systems;
pub mod turns;
