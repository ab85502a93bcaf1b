//! The limits of a run, and why a document is not loaded.
ghost use Rattle.std.specs.Prelude.{◌≡◌};

use scene_model::DocRefusal;
use std::alloc::{AllocError, AllocFailed};

/// Bounds on what a run may use; tests hand in smaller ones.
#[derive(Clone, Copy, Debug, PartialEq, Eq)]
pub struct Limits {
    /// How many entities a document may list, and how many indices the world of a scene may come to use, at most 16,777,216: a
    /// spawn that needs one more refuses its frame.
    pub indices: u32,
    /// The greatest generation of an index, from 1 to 2,147,483,647: a spawn that would need a greater one refuses its frame.
    pub generation: i32,
    /// How many commands a frame may have, at most 1,048,576.
    pub commands: usize,
}

impl Limits {
    /// The greatest limits.
    pub const FULL: Limits = Limits {
        indices: 16_777_216,
        generation: 2_147_483_647,
        commands: 1_048_576,
    };
}

/// Why a document is not loaded.
#[derive(Clone, Copy, Debug, PartialEq, Eq)]
pub enum LoadError {
    /// It is no scene, and this is the least refusal that stands.
    Document(DocRefusal),
    /// Memory was wanting.
    Memory,
}

impl From<AllocError> for LoadError {
    ghost use Rattle.scene_document.specs.declared.loaded.LoadError.TheVariants.{Memory};

    ghost from_gives = { λ _ error. error ≡ Memory };

    fn from(_error: AllocError) -> LoadError {
        LoadError::Memory
    }
}

impl<T: Drop> From<AllocFailed<T>> for LoadError {
    ghost use Rattle.scene_document.specs.declared.loaded.LoadError.TheVariants.{Memory};

    ghost from_gives = { λ _ error. error ≡ Memory };

    fn from(_error: AllocFailed<T>) -> LoadError {
        LoadError::Memory
    }
}
