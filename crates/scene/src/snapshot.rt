//! What is kept of a scene, by the indices of its world: as a plain scene, and its text.

pub mod by_place;
pub mod kept;
mod lengthen;
pub mod text;

pub use by_place::ByPlace;
pub use kept::KeptScene;
pub use text::kept_text;
