//! Commands that are carried out in a world in which a scene stands, and worlds into which what a document says of a scene is
//! put: entities under their ids, their parts, and the globals.
#![tactic(auto)]

mod births;
mod bringing;
mod catching;
mod deaths;
mod entering;
mod globals;
mod gone;
mod holders;
pub mod laws;
mod lending;
mod lists;
mod load;
mod looking;
mod naming;
pub mod opening;
mod owning;
mod part_lists;
mod parts;
mod reaching;
mod watching;

pub use births::{bring_to_life, mark, spawn_entity};
pub use catching::catch_up_world;
pub use deaths::kill_entity;
pub use entering::enter_entity;
pub use gone::{find_gone, id_marked, living_in};
pub use holders::Holders;
pub use lists::{act, act_all};
pub use load::load_world;
pub use looking::{entities_under, entity_under};
pub use opening::open_world;
pub use parts::{put_part, take_part};
pub use watching::{ReaderTurn, Watcher, Watchers, watch_world};
