//! Entities and their generations: which are born, which are alive, and which come next.
#![tactic(auto)]

mod births;
pub mod builder;
mod closures;
pub mod create_iter;
mod deaths;
mod emptying;
pub mod entities_res;
pub mod errors;
mod holders;
pub mod ids;
pub mod laws;
mod least;
mod parts;
pub mod phase_core;
pub mod phase_rule;
pub mod phase_seat;
pub mod shared_entities;

pub use builder::EntityResBuilder;
pub use create_iter::{CreateIter, CreateIterAtomic};
pub use entities_res::{Entities, EntitiesRes};
pub use errors::{BoxedErr, Error, WrongGeneration};
pub use hibitset::{Index, SeatsOut};
pub use ids::{Entity, Generation};
pub use phase_seat::PhaseSeat;
pub use shared_entities::{AllowanceSpent, EntitySeat, SharedEntities};
