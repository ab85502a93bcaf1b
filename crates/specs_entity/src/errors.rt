//! What calls on entities and storages are refused for.
ghost use Rattle.std.specs.Prelude.{◌≡◌};

use crate::ids::{Entity, Generation};
use std::alloc::AllocError;
use std::marker::Model;
use thiserror::Error;

/// A refusal of the caller's own, as a text.
#[derive(Debug, Drop, Error)]
#[error("{0}")]
pub struct BoxedErr(pub String);

impl BoxedErr {
    /// The refusal with this text.
    pub fn new(text: String) -> BoxedErr
        ensures { result.0 ≡ text }
    {
        BoxedErr(text)
    }
}

/// An entity that was named isn't alive, or is named twice in a list that takes each once.
#[derive(Debug, Drop, Error)]
#[error("tried to {action} the entity {entity:?}, but the generation of its index is {actual_gen:?}")]
pub struct WrongGeneration {
    /// What was tried. Its text isn't fixed.
    pub action: &'static str,
    /// The generation of the index's last persistent birth, or the first generation.
    pub actual_gen: Generation,
    /// The entity that was named.
    pub entity: Entity,
}

impl Model for WrongGeneration {
    ghost use Rattle.specs_entity.specs.Life.{Refusal};

    ghost Value = { Refusal };

    ghost view = { λ a. record { action = a.action.now; actual_gen = a.actual_gen; entity = a.entity } };
}

impl PartialEq for WrongGeneration {
    ghost use Rattle.std.specs.Cmp.{partial_equiv_from_equiv};
    ghost use Rattle.specs_entity.specs.Life.{same_refusal};
    ghost use Rattle.specs_entity.specs.RefusalLemmas.{refusal-equiv};

    ghost eq = { same_refusal };

    ghost laws = { partial_equiv_from_equiv refusal-equiv };

    fn eq(&self, other: &WrongGeneration) -> bool {
        self.action == other.action
            && self.actual_gen == other.actual_gen
            && self.entity == other.entity
    }
}

impl Eq for WrongGeneration {
    ghost use Rattle.specs_entity.specs.RefusalLemmas.{refusal-equiv};

    ghost laws = { refusal-equiv };
}

/// What a call on entities and storages is refused for.
#[derive(Debug, Drop, Error)]
pub enum Error {
    /// An entity isn't alive, or stands in a list twice.
    #[error("Wrong generation: {0}")]
    WrongGeneration(WrongGeneration),
    /// A refusal of the caller's own.
    #[error("Custom: {0}")]
    Custom(BoxedErr),
    /// No index is left for a further entity.
    #[error("no index is left")]
    IndicesSpent,
    /// The index that comes next has had as many entities as it may have.
    #[error("no generation is left at the next index")]
    GenerationsSpent,
    /// No marker is left.
    #[error("no marker is left")]
    MarkersSpent,
    /// An entity has no marker.
    #[error("the entity has no marker")]
    Unmarked,
    /// A storage isn't registered.
    #[error("the storage is not registered")]
    NotRegistered,
    /// There is more to do than the limit allows.
    #[error("the limit is reached")]
    Limit,
    /// There was no memory for it.
    #[error("out of memory")]
    Memory,
}

impl From<WrongGeneration> for Error {
    ghost use Rattle.std.specs.Prelude.{◌≡◌};
    ghost use Rattle.specs_entity.specs.declared.errors.Error.TheVariants as variant;

    ghost from_gives = { λ refusal error. error ≡ variant.WrongGeneration refusal };

    fn from(refusal: WrongGeneration) -> Error {
        Error::WrongGeneration(refusal)
    }
}

impl From<AllocError> for Error {
    ghost use Rattle.std.specs.Prelude.{◌≡◌};
    ghost use Rattle.specs_entity.specs.declared.errors.Error.TheVariants as variant;

    ghost from_gives = { λ _ error. error ≡ variant.Memory };

    fn from(_refusal: AllocError) -> Error {
        Error::Memory
    }
}
