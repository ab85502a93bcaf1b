//! The forms of an entity's parts, each of which may be absent.
ghost use Rattle.std.specs.Prelude.{ℕ, ◌≡◌, ◌≤◌, ◌++◌, List, length, map, Option, None, Some, IfOk, OnOk};
ghost use Rattle.serde_json.specs.Data.{Data};
ghost use Rattle.serde_json.specs.View.{view};
ghost use Rattle.specs_saveload.specs.Places.{IfShape};
ghost use Rattle.specs_saveload.specs.declared.form.Place.{Place};

use crate::form::{FormError, JsonForm};
use crate::lists::read_item;
use serde_json::Value;
use std::alloc::{AllocError, Global};

/// The parts of a saved entity, one after the other, each there or absent: a part that may be, or a pair or three of
/// such, which nest.
///
/// Written they are items of a list, with `null` for an absent part.
pub trait PartForms: Drop + Sized {
    /// The JSON of each part.
    ghost forms: { Self → List Data };

    /// What follows the parts in a list of JSON, or none where it doesn't begin with such.
    ghost rest_of: { List Data → Option (List Data) };

    /// The place that is told where the end of a list of so many doesn't begin with the parts.
    ghost place_in: { ℕ → List Data → Place };

    /// What is true of all parts, and is known once they are written or read.
    ghost is_value: { Self → Type 0 };

    /// Two of them are the same to whoever reads them.
    ghost same: { Self → Self → Type 0 };

    /// Puts the JSON of each part behind a list.
    ///
    /// Errors: `AllocError`, and the list is dropped.
    fn write(&self, alloc: Global, values: Vec<Value>) -> Result<Vec<Value>, AllocError>
        ensures ok { IfOk result (λ all. map view all.items ≡ map view values.items ++ forms self.now) }
        ensures written { OnOk result ((rest : List Data) → rest_of (forms self.now ++ rest) ≡ Some rest) }
        ensures fits { OnOk result (is_value self.now) };

    /// The parts with which the end of a list of so many begins, and what follows them.
    ///
    /// Errors: `Shape` if it begins with no such, with the number in the list of the part that isn't one; `Memory`.
    fn read<'v>(
        alloc: Global,
        values: &'v [Value],
        total: usize,
    ) -> Result<(Self, &'v [Value]), FormError>
        requires { length values.now ≤ total }
        ensures ok { IfOk result (λ read. forms read.0 ++ map view read.1.now ≡ map view values.now) }
        ensures known { IfOk result (λ read. rest_of (map view values.now) ≡ Some (map view read.1.now)) }
        ensures fits { IfOk result (λ read. is_value read.0) }
        ensures left { IfOk result (λ read. length read.1.now ≤ length values.now) }
        ensures shape { IfShape result (λ _. rest_of (map view values.now) ≡ None) }
        ensures place { IfShape result (λ place. place ≡ place_in total (map view values.now)) };

    /// Parts with one form are the same, whatever follows them.
    ghost told_apart: { (one other : Self) (rest left : List Data) → is_value one → is_value other
        → forms one ++ rest ≡ forms other ++ left → same one other × (rest ≡ left) };

    /// Parts that are the same have one form.
    ghost has_one_form: { (one other : Self) → same one other → forms one ≡ forms other };
}

/// The part's form, or `null`.
impl<T: JsonForm> PartForms for Option<T> {
    ghost use Rattle.specs_saveload.specs.Plain.{same_option, OptionAll};
    ghost use Rattle.specs_saveload.specs.Parts.{part_form, part_place, part_rest};
    ghost use Rattle.specs_saveload.specs.PartLemmas.{part-apart, part-alike};

    ghost forms = { part_form T.form };

    ghost rest_of = { part_rest T.is_form };

    ghost place_in = { part_place T.place_in };

    ghost is_value = { OptionAll T.is_value };

    ghost same = { same_option T.same };

    fn write(&self, alloc: Global, mut values: Vec<Value>) -> Result<Vec<Value>, AllocError> {
        match self {
            Some(part) => values.push(part.to_value(alloc)?)?,
            None => values.push(Value::Null)?,
        }
        Ok(values)
    }

    fn read<'v>(
        alloc: Global,
        values: &'v [Value],
        total: usize,
    ) -> Result<(Option<T>, &'v [Value]), FormError> {
        let Some((first, rest)) = values.split_first() else {
            return Err(FormError::whole());
        };
        if first.is_null() {
            return Ok((None, rest));
        }
        let part = read_item(alloc, first, total - values.len())?;
        Ok((Some(part), rest))
    }

    ghost told_apart = { part-apart T.form T.is_value T.same T.told_apart T.never_null };

    ghost has_one_form = { part-alike T.form T.same T.has_one_form };
}

/// First the one's, then the other's.
impl<P: PartForms, Q: PartForms> PartForms for (P, Q) {
    ghost use Rattle.std.specs.Prelude.{◌++◌, option_and_then};
    ghost use Rattle.specs_saveload.specs.Parts.{either_place};
    ghost use Rattle.specs_saveload.specs.PartLemmas.{both-apart, both-alike};

    ghost forms = { λ both. P.forms both.0 ++ Q.forms both.1 };

    ghost rest_of = { λ values. option_and_then Q.rest_of (P.rest_of values) };

    ghost place_in = { λ total values. either_place (P.rest_of values) (P.place_in total values) (Q.place_in total) };

    ghost is_value = { λ both. P.is_value both.0 × Q.is_value both.1 };

    ghost same = { λ one other. P.same one.0 other.0 × Q.same one.1 other.1 };

    fn write(&self, alloc: Global, values: Vec<Value>) -> Result<Vec<Value>, AllocError> {
        let values = self.0.write(alloc, values)?;
        self.1.write(alloc, values)
    }

    fn read<'v>(
        alloc: Global,
        values: &'v [Value],
        total: usize,
    ) -> Result<((P, Q), &'v [Value]), FormError> {
        let (first, values) = P::read(alloc, values, total)?;
        let (second, rest) = Q::read(alloc, values, total)?;
        Ok(((first, second), rest))
    }

    ghost told_apart = { both-apart P.forms Q.forms P.is_value Q.is_value P.same Q.same P.told_apart Q.told_apart };

    ghost has_one_form = { λ one other same. both-alike _ _ _ _ (P.has_one_form one.0 other.0 same.0)
        (Q.has_one_form one.1 other.1 same.1) };
}

/// First the first one's, then the second one's, then the third one's.
impl<P: PartForms, Q: PartForms, R: PartForms> PartForms for (P, Q, R) {
    ghost use Rattle.std.specs.Prelude.{◌++◌, option_and_then};
    ghost use Rattle.specs_saveload.specs.Parts.{either_place};
    ghost use Rattle.specs_saveload.specs.PartLemmas.{three-apart, both-alike};

    ghost forms = { λ all. P.forms all.0 ++ (Q.forms all.1 ++ R.forms all.2) };

    ghost rest_of = { λ values. option_and_then R.rest_of (option_and_then Q.rest_of (P.rest_of values)) };

    ghost place_in = { λ total values. either_place (P.rest_of values) (P.place_in total values)
        (λ left. either_place (Q.rest_of left) (Q.place_in total left) (R.place_in total)) };

    ghost is_value = { λ all. P.is_value all.0 × Q.is_value all.1 × R.is_value all.2 };

    ghost same = { λ one other. P.same one.0 other.0 × Q.same one.1 other.1 × R.same one.2 other.2 };

    fn write(&self, alloc: Global, values: Vec<Value>) -> Result<Vec<Value>, AllocError> {
        let values = self.0.write(alloc, values)?;
        let values = self.1.write(alloc, values)?;
        self.2.write(alloc, values)
    }

    fn read<'v>(
        alloc: Global,
        values: &'v [Value],
        total: usize,
    ) -> Result<((P, Q, R), &'v [Value]), FormError> {
        let (first, values) = P::read(alloc, values, total)?;
        let (second, values) = Q::read(alloc, values, total)?;
        let (third, rest) = R::read(alloc, values, total)?;
        Ok(((first, second, third), rest))
    }

    ghost told_apart = { three-apart P.forms Q.forms R.forms P.is_value Q.is_value R.is_value P.same Q.same R.same
        P.told_apart Q.told_apart R.told_apart };

    ghost has_one_form = { λ one other same. both-alike _ _ _ _ (P.has_one_form one.0 other.0 same.0)
        (both-alike _ _ _ _ (Q.has_one_form one.1 other.1 same.1) (R.has_one_form one.2 other.2 same.2)) };
}
