//! What may be there.
ghost use Rattle.std.specs.Prelude.{Some, true};
ghost use Rattle.specs_join.specs.Joins.{perhaps, shown_of};

use super::Join;
use hibitset::{BitSetAll, BitSetLike, Index};

/// A join with an item at every index: what the join inside has there, or none.
///
/// Beside other joins in a tuple it constrains nothing.
#[derive(Drop)]
pub struct MaybeJoin<J>(pub J);

impl<J: Join> Join for MaybeJoin<J> {
    type Type = Option<J::Type>;

    type Shown = Option<J::Shown>;

    type Value = (J::Mask, J::Value);

    type Mask = BitSetAll;

    ghost show = { shown_of J.show };

    ghost joins = { λ join index. Some (J.joins join.0 index) };

    ghost opens = { λ _ _. Unit {0} };

    ghost unconstrained = { true };

    ghost value_at = { λ values index. perhaps (J.Mask.members values.0 index) (J.value_at values.1 index) };

    fn open(self) -> (BitSetAll, (J::Mask, J::Value)) {
        let MaybeJoin(join) = self;
        (BitSetAll, join.open())
    }

    fn get(values: &(J::Mask, J::Value), id: Index) -> Option<J::Type> {
        if values.0.contains(id) {
            Some(J::get(&values.1, id))
        } else {
            None
        }
    }

    fn is_unconstrained() -> bool {
        true
    }
}
