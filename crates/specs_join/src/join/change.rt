//! What a part becomes beside an item of a join, and why it can't.
use crate::join::Join;
use hibitset::Index;

/// A change of a part, by what a join has at its index.
pub trait Change<T, R: Join> {
    ghost use Rattle.std.specs.Prelude.{◌≡◌, Some, None, Option, IsOk, OnOk, OnErr};

    /// Why a change is refused.
    type Refusal;

    /// What becomes of a part beside an item, or none where the change is refused.
    ghost changed: { Self → T → R.Shown → Option T };

    /// Changes the part.
    ///
    /// Errors: a refusal of the implementor's own, and the part is as it was.
    fn change(&self, part: &mut T, item: R::Type) -> Result<(), Self::Refusal>
        ensures done { OnOk result (changed self.now part.old (R.show item) ≡ Some part.new) }
        ensures refused { OnErr result (changed self.now part.old (R.show item) ≡ None) }
        ensures kept { OnErr result (part.new ≡ part.old) };
}

/// Why the parts of a storage were not all changed.
#[derive(Drop)]
pub enum EachError<R> {
    /// There was no memory for the event of a change.
    Memory,
    /// The change at this index was refused.
    Refused(Index, R),
}
