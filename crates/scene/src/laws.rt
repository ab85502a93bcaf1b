//! Laws of scenes: functions with an empty body, each with a law over the definitions of runs as its contract.
//!
//! A function of these takes the rules that its law is of, and does nothing; a caller has the law from then on. Two make the
//! calls that their law is of: `print_and_load` and `run_in_parts`.

mod changes;
mod ids;
mod outcomes;
mod parts;
mod printed;
mod references;
mod refusals;
mod resumed;

pub use changes::a_system_changes_what_it_declares;
pub use ids::an_id_is_given_once;
pub use outcomes::{one_outcome, workers_and_store_change_nothing};
pub use parts::frames_in_two_parts;
pub use printed::{a_printed_scene_is_read_again, a_ready_scene_can_be_read, print_and_load};
pub use references::references_live;
pub use refusals::a_refusal_in_a_world_is_one_of_the_scene;
pub use resumed::{Course, ResumeError, run_in_parts};
