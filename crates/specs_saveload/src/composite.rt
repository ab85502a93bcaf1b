//! The forms of values that may be absent, and of tuples.
use crate::form::{FormError, JsonForm};
use crate::lists::{as_four, as_one, as_three, as_two, four, is_empty, one, read_item, three, two};
use serde_json::Value;
use std::alloc::{AllocError, Global};

/// The list of none, or of one. `null` is no form, so that an absent part can be told from a part that is none.
impl<T: JsonForm> JsonForm for Option<T> {
    ghost use Rattle.std.specs.Prelude.{[], ◌∷◌};
    ghost use Rattle.specs_saveload.specs.Plain.{is_list, is_one, is_option, option_form, same_option, OptionAll};
    ghost use Rattle.specs_saveload.specs.Places.{place_among};
    ghost use Rattle.specs_saveload.specs.PlainLemmas.{options-apart, options-alike, option-some};

    ghost form = { option_form T.form };

    ghost is_form = { is_list (is_option T.is_form) };

    ghost place_in = { place_among is_one ((T.is_form, T.place_in) ∷ []) };

    ghost is_value = { OptionAll T.is_value };

    ghost same = { same_option T.same };

    fn to_value(&self, alloc: Global) -> Result<Value, AllocError> {
        match self {
            Some(value) => one(alloc, value.to_value(alloc)?),
            None => Ok(Value::Array(Vec::new(alloc))),
        }
    }

    fn from_value(alloc: Global, json: &Value) -> Result<Option<T>, FormError> {
        if is_empty(json) {
            return Ok(None);
        }
        match as_one(json) {
            Some(only) => Ok(Some(read_item(alloc, only, 0)?)),
            None => Err(FormError::whole()),
        }
    }

    ghost told_apart = { options-apart T.form T.is_value T.same T.told_apart };

    ghost has_one_form = { options-alike T.form T.same T.has_one_form };

    ghost never_null = { option-some T.form };
}

/// The list of both.
impl<A: JsonForm, B: JsonForm> JsonForm for (A, B) {
    ghost use Rattle.std.specs.Prelude.{[], ◌∷◌};
    ghost use Rattle.specs_saveload.specs.Plain.{is_list, is_two, is_pair, pair_form};
    ghost use Rattle.specs_saveload.specs.Places.{place_among};
    ghost use Rattle.serde_json.specs.Data.{item, no_items};
    ghost use Rattle.specs_saveload.specs.PlainLemmas.{pairs-apart, pairs-alike, array-some};

    ghost form = { λ both. pair_form (A.form both.0) (B.form both.1) };

    ghost is_form = { is_list (is_pair A.is_form B.is_form) };

    ghost place_in = { place_among is_two ((A.is_form, A.place_in) ∷ (B.is_form, B.place_in) ∷ []) };

    ghost is_value = { λ both. A.is_value both.0 × B.is_value both.1 };

    ghost same = { λ one other. A.same one.0 other.0 × B.same one.1 other.1 };

    fn to_value(&self, alloc: Global) -> Result<Value, AllocError> {
        let first = self.0.to_value(alloc)?;
        let second = self.1.to_value(alloc)?;
        two(alloc, first, second)
    }

    fn from_value(alloc: Global, json: &Value) -> Result<(A, B), FormError> {
        match as_two(json) {
            Some((first, second)) => {
                let one = read_item(alloc, first, 0)?;
                let other = read_item(alloc, second, 1)?;
                Ok((one, other))
            }
            None => Err(FormError::whole()),
        }
    }

    ghost told_apart = { pairs-apart A.form B.form A.is_value B.is_value A.same B.same A.told_apart B.told_apart };

    ghost has_one_form = { λ one other same. pairs-alike _ _ _ _ (A.has_one_form one.0 other.0 same.0)
        (B.has_one_form one.1 other.1 same.1) };

    ghost never_null = { λ both. array-some (item (A.form both.0) (item (B.form both.1) no_items)) };
}

/// The list of all three.
impl<A: JsonForm, B: JsonForm, C: JsonForm> JsonForm for (A, B, C) {
    ghost use Rattle.std.specs.Prelude.{[], ◌∷◌};
    ghost use Rattle.specs_saveload.specs.Plain.{is_list, is_three, is_triple, triple_form};
    ghost use Rattle.specs_saveload.specs.Places.{place_among};
    ghost use Rattle.serde_json.specs.Data.{item, no_items};
    ghost use Rattle.specs_saveload.specs.PlainLemmas.{triples-apart, triples-alike, array-some};

    ghost form = { λ all. triple_form (A.form all.0) (B.form all.1) (C.form all.2) };

    ghost is_form = { is_list (is_triple A.is_form B.is_form C.is_form) };

    ghost place_in = { place_among is_three ((A.is_form, A.place_in) ∷ (B.is_form, B.place_in)
        ∷ (C.is_form, C.place_in) ∷ []) };

    ghost is_value = { λ all. A.is_value all.0 × B.is_value all.1 × C.is_value all.2 };

    ghost same = { λ one other. A.same one.0 other.0 × B.same one.1 other.1 × C.same one.2 other.2 };

    fn to_value(&self, alloc: Global) -> Result<Value, AllocError> {
        let first = self.0.to_value(alloc)?;
        let second = self.1.to_value(alloc)?;
        let third = self.2.to_value(alloc)?;
        three(alloc, first, second, third)
    }

    fn from_value(alloc: Global, json: &Value) -> Result<(A, B, C), FormError> {
        match as_three(json) {
            Some((first, second, third)) => {
                let a = read_item(alloc, first, 0)?;
                let b = read_item(alloc, second, 1)?;
                let c = read_item(alloc, third, 2)?;
                Ok((a, b, c))
            }
            None => Err(FormError::whole()),
        }
    }

    ghost told_apart = { triples-apart A.form B.form C.form A.is_value B.is_value C.is_value A.same B.same C.same
        A.told_apart B.told_apart C.told_apart };

    ghost has_one_form = { λ one other same. triples-alike _ _ _ _ _ _ (A.has_one_form one.0 other.0 same.0)
        (B.has_one_form one.1 other.1 same.1) (C.has_one_form one.2 other.2 same.2) };

    ghost never_null = { λ all. array-some
        (item (A.form all.0) (item (B.form all.1) (item (C.form all.2) no_items))) };
}

/// The list of all four.
impl<A: JsonForm, B: JsonForm, C: JsonForm, D: JsonForm> JsonForm for (A, B, C, D) {
    ghost use Rattle.std.specs.Prelude.{[], ◌∷◌};
    ghost use Rattle.specs_saveload.specs.Plain.{is_list, is_four, is_quadruple, quadruple_form};
    ghost use Rattle.specs_saveload.specs.Places.{place_among};
    ghost use Rattle.serde_json.specs.Data.{item, no_items};
    ghost use Rattle.specs_saveload.specs.PlainLemmas.{quadruples-apart, quadruples-alike, array-some};

    ghost form = { λ all. quadruple_form (A.form all.0) (B.form all.1) (C.form all.2) (D.form all.3) };

    ghost is_form = { is_list (is_quadruple A.is_form B.is_form C.is_form D.is_form) };

    ghost place_in = { place_among is_four ((A.is_form, A.place_in) ∷ (B.is_form, B.place_in)
        ∷ (C.is_form, C.place_in) ∷ (D.is_form, D.place_in) ∷ []) };

    ghost is_value = { λ all. A.is_value all.0 × B.is_value all.1 × C.is_value all.2 × D.is_value all.3 };

    ghost same = { λ one other. A.same one.0 other.0 × B.same one.1 other.1 × C.same one.2 other.2
        × D.same one.3 other.3 };

    fn to_value(&self, alloc: Global) -> Result<Value, AllocError> {
        let first = self.0.to_value(alloc)?;
        let second = self.1.to_value(alloc)?;
        let third = self.2.to_value(alloc)?;
        let fourth = self.3.to_value(alloc)?;
        four(alloc, first, second, third, fourth)
    }

    fn from_value(alloc: Global, json: &Value) -> Result<(A, B, C, D), FormError> {
        match as_four(json) {
            Some((first, second, third, fourth)) => {
                let a = read_item(alloc, first, 0)?;
                let b = read_item(alloc, second, 1)?;
                let c = read_item(alloc, third, 2)?;
                let d = read_item(alloc, fourth, 3)?;
                Ok((a, b, c, d))
            }
            None => Err(FormError::whole()),
        }
    }

    ghost told_apart = { quadruples-apart A.form B.form C.form A.is_value B.is_value C.is_value A.same B.same C.same
        A.told_apart B.told_apart C.told_apart D.form D.is_value D.same D.told_apart };

    ghost has_one_form = { λ one other same. quadruples-alike _ _ _ _ _ _ _ _
        (A.has_one_form one.0 other.0 same.0) (B.has_one_form one.1 other.1 same.1)
        (C.has_one_form one.2 other.2 same.2) (D.has_one_form one.3 other.3 same.3) };

    ghost never_null = { λ all. array-some
        (item (A.form all.0) (item (B.form all.1) (item (C.form all.2) (item (D.form all.3) no_items)))) };
}
