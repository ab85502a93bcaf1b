//! What is told of a storage's changes.
use crate::index_event::IndexEvent;
use hibitset_sets::Index;

/// A change of the part at an index.
#[derive(Clone, Copy, Debug, PartialEq, Eq)]
pub enum ComponentEvent {
    /// A part was put where none was.
    Inserted(Index),
    /// A part was lent for writing.
    Modified(Index),
    /// A part was taken out.
    Removed(Index),
}

impl IndexEvent for ComponentEvent {
    ghost use Rattle.specs_layouts.specs.Shows.{index_of};
    ghost use Rattle.specs_layouts.specs.SameEvents.{same_event_at, index-same, same-same};

    ghost index_of = { index_of };

    ghost same_at = { same_event_at };

    ghost index_at = { index-same };

    ghost same_again = { same-same };

    fn index(&self) -> Index {
        match self {
            ComponentEvent::Inserted(index) => *index,
            ComponentEvent::Modified(index) => *index,
            ComponentEvent::Removed(index) => *index,
        }
    }

    fn at(&self, index: Index) -> ComponentEvent {
        match self {
            ComponentEvent::Inserted(_) => ComponentEvent::Inserted(index),
            ComponentEvent::Modified(_) => ComponentEvent::Modified(index),
            ComponentEvent::Removed(_) => ComponentEvent::Removed(index),
        }
    }
}
