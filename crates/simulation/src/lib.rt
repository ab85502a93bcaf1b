//! A simulation as a user of worlds, storages and dispatchers writes it: entities move, and those that have come far enough die.
#![tactic(auto)]

pub mod colonies;
pub mod frames;
pub mod movement;
pub mod parts;
pub mod reaping;
pub mod setup;
pub mod steps;
pub mod values;
