//! Tuples join at the indices that all their parts have.
use super::Join;
use super::and::BitAnd;
use hibitset::{BitSetAnd, Index};

impl<A: Join, B: Join> Join for (A, B) {
    type Type = (A::Type, B::Type);

    type Shown = (A::Shown, B::Shown);

    type Value = (A::Value, B::Value);

    type Mask = BitSetAnd<A::Mask, B::Mask>;

    ghost use Rattle.std.specs.Prelude.{◌&&◌};
    ghost use Rattle.specs_join.specs.Joins.{both};

    ghost show = { λ item. (A.show item.0, B.show item.1) };

    ghost joins = { λ join index. both (A.joins join.0 index) (B.joins join.1 index) };

    ghost opens = { λ join mask. A.opens join.0 mask.0 × B.opens join.1 mask.1 };

    ghost unconstrained = { A.unconstrained && B.unconstrained };

    ghost value_at = { λ values index. both (A.value_at values.0 index) (B.value_at values.1 index) };

    fn open(self) -> (BitSetAnd<A::Mask, B::Mask>, (A::Value, B::Value)) {
        let (one, other) = self;
        let (one_mask, one_values) = one.open();
        let (other_mask, other_values) = other.open();
        ((one_mask, other_mask).and(), (one_values, other_values))
    }

    fn get(values: &(A::Value, B::Value), id: Index) -> (A::Type, B::Type) {
        (A::get(&values.0, id), B::get(&values.1, id))
    }

    fn is_unconstrained() -> bool {
        A::is_unconstrained() && B::is_unconstrained()
    }
}

impl<A: Join, B: Join, C: Join> Join for (A, B, C) {
    type Type = (A::Type, B::Type, C::Type);

    type Shown = (A::Shown, B::Shown, C::Shown);

    type Value = (A::Value, B::Value, C::Value);

    type Mask = BitSetAnd<A::Mask, BitSetAnd<B::Mask, C::Mask>>;

    ghost use Rattle.std.specs.Prelude.{◌&&◌};
    ghost use Rattle.specs_join.specs.Joins.{all_three};

    ghost show = { λ item. (A.show item.0, B.show item.1, C.show item.2) };

    ghost joins = { λ join index. all_three (A.joins join.0 index) (B.joins join.1 index) (C.joins join.2 index) };

    ghost opens = { λ join mask. A.opens join.0 mask.0 × B.opens join.1 mask.1.0 × C.opens join.2 mask.1.1 };

    ghost unconstrained = { A.unconstrained && (B.unconstrained && C.unconstrained) };

    ghost value_at = { λ values index. all_three (A.value_at values.0 index) (B.value_at values.1 index)
        (C.value_at values.2 index) };

    fn open(
        self,
    ) -> (
        BitSetAnd<A::Mask, BitSetAnd<B::Mask, C::Mask>>,
        (A::Value, B::Value, C::Value),
    ) {
        let (first, second, third) = self;
        let (first_mask, first_values) = first.open();
        let (second_mask, second_values) = second.open();
        let (third_mask, third_values) = third.open();
        (
            (first_mask, second_mask, third_mask).and(),
            (first_values, second_values, third_values),
        )
    }

    fn get(values: &(A::Value, B::Value, C::Value), id: Index) -> (A::Type, B::Type, C::Type) {
        (
            A::get(&values.0, id),
            B::get(&values.1, id),
            C::get(&values.2, id),
        )
    }

    fn is_unconstrained() -> bool {
        A::is_unconstrained() && (B::is_unconstrained() && C::is_unconstrained())
    }
}

impl<A: Join, B: Join, C: Join, D: Join> Join for (A, B, C, D) {
    type Type = (A::Type, B::Type, C::Type, D::Type);

    type Shown = (A::Shown, B::Shown, C::Shown, D::Shown);

    type Value = (A::Value, B::Value, C::Value, D::Value);

    type Mask = BitSetAnd<BitSetAnd<A::Mask, B::Mask>, BitSetAnd<C::Mask, D::Mask>>;

    ghost use Rattle.std.specs.Prelude.{◌&&◌};
    ghost use Rattle.specs_join.specs.Joins.{all_four};

    ghost show = { λ item. (A.show item.0, B.show item.1, C.show item.2, D.show item.3) };

    ghost joins = { λ join index. all_four (A.joins join.0 index) (B.joins join.1 index) (C.joins join.2 index)
        (D.joins join.3 index) };

    ghost opens = { λ join mask. A.opens join.0 mask.0.0 × B.opens join.1 mask.0.1 × C.opens join.2 mask.1.0
        × D.opens join.3 mask.1.1 };

    ghost unconstrained = { (A.unconstrained && B.unconstrained) && (C.unconstrained && D.unconstrained) };

    ghost value_at = { λ values index. all_four (A.value_at values.0 index) (B.value_at values.1 index)
        (C.value_at values.2 index) (D.value_at values.3 index) };

    fn open(
        self,
    ) -> (
        BitSetAnd<BitSetAnd<A::Mask, B::Mask>, BitSetAnd<C::Mask, D::Mask>>,
        (A::Value, B::Value, C::Value, D::Value),
    ) {
        let (first, second, third, fourth) = self;
        let (first_mask, first_values) = first.open();
        let (second_mask, second_values) = second.open();
        let (third_mask, third_values) = third.open();
        let (fourth_mask, fourth_values) = fourth.open();
        (
            (first_mask, second_mask, third_mask, fourth_mask).and(),
            (first_values, second_values, third_values, fourth_values),
        )
    }

    fn get(
        values: &(A::Value, B::Value, C::Value, D::Value),
        id: Index,
    ) -> (A::Type, B::Type, C::Type, D::Type) {
        (
            A::get(&values.0, id),
            B::get(&values.1, id),
            C::get(&values.2, id),
            D::get(&values.3, id),
        )
    }

    fn is_unconstrained() -> bool {
        (A::is_unconstrained() && B::is_unconstrained())
            && (C::is_unconstrained() && D::is_unconstrained())
    }
}
