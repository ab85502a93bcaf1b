//! Joins: walks over the entities that several storages share, and changes beside them.
#![tactic(auto)]

pub mod accumulate;
pub mod changeset;
pub mod join;
pub mod laws;
pub mod storing;

pub use accumulate::{Accumulate, Overflow};
pub use changeset::taking::TakeIter;
pub use changeset::{ChangeError, ChangeSet};
pub use join::and::BitAnd;
pub use join::change::{Change, EachError};
pub use join::change_each::change_each;
pub use join::cursor::JoinCursor;
pub use join::iter::JoinIter;
pub use join::laid_out::{LaidOut, change_laid_out};
pub use join::par_join::{JoinParIter, ParJoin};
pub use join::shared::SharedSteps;
pub use join::told::change_told;
pub use join::{AntiStorage, Join, MaybeJoin};
pub use storing::store_all;
