//! Trees of systems: some after one another, some side by side, on the caller's thread or on two.
//!
//! A run of a tree is a chain of its systems' relations in the order of the tree, head before tail, also where the halves of a
//! `Par` run in a thread each.

mod error;
mod halves;
pub mod laws;
mod leaf;
mod macros;
mod nil;
mod par;
mod par_seq;
mod room;
mod run_with_pool;
mod seq;

pub use error::ParError;
pub use leaf::Leaf;
pub use nil::Nil;
pub use par::Par;
pub use par_seq::ParSeq;
pub use run_with_pool::RunWithPool;
pub use seq::Seq;
