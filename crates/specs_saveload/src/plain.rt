//! The forms of whole numbers, truth values and texts.
ghost use Rattle.std.specs.Prelude.{◌≡◌, pos, int_lt, false, IsTrue, MatchOption};
ghost use Rattle.serde_json.specs.Data.{number, negative};
ghost use Rattle.serde_json.specs.View.{view};
ghost use Rattle.specs_saveload.specs.Plain.{is_number, is_negative};

use crate::form::{FormError, JsonForm};
use serde_json::Value;
use std::alloc::{AllocError, Global};

/// The number below zero that a JSON is.
fn negative_of(json: &Value) -> Option<i64>
    ensures { MatchOption result (is_number is_negative (view json.now) ≡ false)
        (λ below. (view json.now ≡ number (negative below)) × IsTrue (int_lt below (pos 0))) }
{
    match json.as_i64() {
        Some(below) if below < 0 => Some(below),
        _ => None,
    }
}

impl JsonForm for u8 {
    ghost use Rattle.std.specs.Prelude.{◌^◌};
    ghost use Rattle.serde_json.specs.Data.{number, unsigned};
    ghost use Rattle.specs_saveload.specs.Plain.{is_number, is_below};
    ghost use Rattle.specs_saveload.specs.PlainLemmas.{forms-alike, numbers-apart, number-some};

    ghost form = { λ n. number (unsigned n) };

    ghost is_form = { is_number (is_below (2 ^ 8)) };

    ghost same = { λ one other. one ≡ other };

    fn to_value(&self, _alloc: Global) -> Result<Value, AllocError> {
        Ok(Value::from(*self))
    }

    fn from_value(_alloc: Global, json: &Value) -> Result<u8, FormError> {
        match json.as_u64() {
            Some(number) => u8::try_from(number).ok().ok_or(FormError::whole()),
            None => Err(FormError::whole()),
        }
    }

    ghost told_apart = { λ one other _ _. numbers-apart one other };

    ghost has_one_form = { λ one other same. forms-alike (λ n. number (unsigned n)) one other same };

    ghost never_null = { λ n. number-some (unsigned n) };
}

impl JsonForm for u16 {
    ghost use Rattle.std.specs.Prelude.{◌^◌};
    ghost use Rattle.serde_json.specs.Data.{number, unsigned};
    ghost use Rattle.specs_saveload.specs.Plain.{is_number, is_below};
    ghost use Rattle.specs_saveload.specs.PlainLemmas.{forms-alike, numbers-apart, number-some};

    ghost form = { λ n. number (unsigned n) };

    ghost is_form = { is_number (is_below (2 ^ 16)) };

    ghost same = { λ one other. one ≡ other };

    fn to_value(&self, _alloc: Global) -> Result<Value, AllocError> {
        Ok(Value::from(*self))
    }

    fn from_value(_alloc: Global, json: &Value) -> Result<u16, FormError> {
        match json.as_u64() {
            Some(number) => u16::try_from(number).ok().ok_or(FormError::whole()),
            None => Err(FormError::whole()),
        }
    }

    ghost told_apart = { λ one other _ _. numbers-apart one other };

    ghost has_one_form = { λ one other same. forms-alike (λ n. number (unsigned n)) one other same };

    ghost never_null = { λ n. number-some (unsigned n) };
}

impl JsonForm for u32 {
    ghost use Rattle.std.specs.Prelude.{◌^◌};
    ghost use Rattle.serde_json.specs.Data.{number, unsigned};
    ghost use Rattle.specs_saveload.specs.Plain.{is_number, is_below};
    ghost use Rattle.specs_saveload.specs.PlainLemmas.{forms-alike, numbers-apart, number-some};

    ghost form = { λ n. number (unsigned n) };

    ghost is_form = { is_number (is_below (2 ^ 32)) };

    ghost same = { λ one other. one ≡ other };

    fn to_value(&self, _alloc: Global) -> Result<Value, AllocError> {
        Ok(Value::from(*self))
    }

    fn from_value(_alloc: Global, json: &Value) -> Result<u32, FormError> {
        match json.as_u64() {
            Some(number) => u32::try_from(number).ok().ok_or(FormError::whole()),
            None => Err(FormError::whole()),
        }
    }

    ghost told_apart = { λ one other _ _. numbers-apart one other };

    ghost has_one_form = { λ one other same. forms-alike (λ n. number (unsigned n)) one other same };

    ghost never_null = { λ n. number-some (unsigned n) };
}

impl JsonForm for u64 {
    ghost use Rattle.std.specs.Prelude.{◌^◌};
    ghost use Rattle.serde_json.specs.Data.{number, unsigned};
    ghost use Rattle.specs_saveload.specs.Plain.{is_number, is_below};
    ghost use Rattle.specs_saveload.specs.PlainLemmas.{forms-alike, numbers-apart, number-some};

    ghost form = { λ n. number (unsigned n) };

    ghost is_form = { is_number (is_below (2 ^ 64)) };

    ghost same = { λ one other. one ≡ other };

    fn to_value(&self, _alloc: Global) -> Result<Value, AllocError> {
        Ok(Value::from(*self))
    }

    fn from_value(_alloc: Global, json: &Value) -> Result<u64, FormError> {
        match json.as_u64() {
            Some(number) => Ok(number),
            None => Err(FormError::whole()),
        }
    }

    ghost told_apart = { λ one other _ _. numbers-apart one other };

    ghost has_one_form = { λ one other same. forms-alike (λ n. number (unsigned n)) one other same };

    ghost never_null = { λ n. number-some (unsigned n) };
}

impl JsonForm for usize {
    ghost use Rattle.std.specs.Prelude.{◌^◌};
    ghost use Rattle.serde_json.specs.Data.{number, unsigned};
    ghost use Rattle.specs_saveload.specs.Plain.{is_number, is_below};
    ghost use Rattle.specs_saveload.specs.PlainLemmas.{forms-alike, numbers-apart, number-some};

    ghost form = { λ n. number (unsigned n) };

    ghost is_form = { is_number (is_below (2 ^ 64)) };

    ghost same = { λ one other. one ≡ other };

    fn to_value(&self, _alloc: Global) -> Result<Value, AllocError> {
        Ok(Value::from(*self))
    }

    fn from_value(_alloc: Global, json: &Value) -> Result<usize, FormError> {
        match json.as_u64() {
            Some(number) => Ok(number as usize),
            None => Err(FormError::whole()),
        }
    }

    ghost told_apart = { λ one other _ _. numbers-apart one other };

    ghost has_one_form = { λ one other same. forms-alike (λ n. number (unsigned n)) one other same };

    ghost never_null = { λ n. number-some (unsigned n) };
}

impl JsonForm for i8 {
    ghost use Rattle.std.specs.Prelude.{◌^◌};
    ghost use Rattle.serde_json.specs.Data.{number};
    ghost use Rattle.serde_json.specs.Find.{of_integer};
    ghost use Rattle.specs_saveload.specs.Plain.{is_number, is_between};
    ghost use Rattle.specs_saveload.specs.PlainLemmas.{forms-alike, integers-apart, number-some};

    ghost form = { λ n. number (of_integer n) };

    ghost is_form = { is_number (is_between (2 ^ 7)) };

    ghost same = { λ one other. one ≡ other };

    fn to_value(&self, _alloc: Global) -> Result<Value, AllocError> {
        Ok(Value::from(*self))
    }

    fn from_value(_alloc: Global, json: &Value) -> Result<i8, FormError> {
        match json.as_u64() {
            Some(number) => i8::try_from(number).ok().ok_or(FormError::whole()),
            None => match negative_of(json) {
                Some(number) => i8::try_from(number).ok().ok_or(FormError::whole()),
                None => Err(FormError::whole()),
            },
        }
    }

    ghost told_apart = { λ one other _ _. integers-apart one other };

    ghost has_one_form = { λ one other same. forms-alike (λ n. number (of_integer n)) one other same };

    ghost never_null = { λ n. number-some (of_integer n) };
}

impl JsonForm for i16 {
    ghost use Rattle.std.specs.Prelude.{◌^◌};
    ghost use Rattle.serde_json.specs.Data.{number};
    ghost use Rattle.serde_json.specs.Find.{of_integer};
    ghost use Rattle.specs_saveload.specs.Plain.{is_number, is_between};
    ghost use Rattle.specs_saveload.specs.PlainLemmas.{forms-alike, integers-apart, number-some};

    ghost form = { λ n. number (of_integer n) };

    ghost is_form = { is_number (is_between (2 ^ 15)) };

    ghost same = { λ one other. one ≡ other };

    fn to_value(&self, _alloc: Global) -> Result<Value, AllocError> {
        Ok(Value::from(*self))
    }

    fn from_value(_alloc: Global, json: &Value) -> Result<i16, FormError> {
        match json.as_u64() {
            Some(number) => i16::try_from(number).ok().ok_or(FormError::whole()),
            None => match negative_of(json) {
                Some(number) => i16::try_from(number).ok().ok_or(FormError::whole()),
                None => Err(FormError::whole()),
            },
        }
    }

    ghost told_apart = { λ one other _ _. integers-apart one other };

    ghost has_one_form = { λ one other same. forms-alike (λ n. number (of_integer n)) one other same };

    ghost never_null = { λ n. number-some (of_integer n) };
}

impl JsonForm for i32 {
    ghost use Rattle.std.specs.Prelude.{◌^◌};
    ghost use Rattle.serde_json.specs.Data.{number};
    ghost use Rattle.serde_json.specs.Find.{of_integer};
    ghost use Rattle.specs_saveload.specs.Plain.{is_number, is_between};
    ghost use Rattle.specs_saveload.specs.PlainLemmas.{forms-alike, integers-apart, number-some};

    ghost form = { λ n. number (of_integer n) };

    ghost is_form = { is_number (is_between (2 ^ 31)) };

    ghost same = { λ one other. one ≡ other };

    fn to_value(&self, _alloc: Global) -> Result<Value, AllocError> {
        Ok(Value::from(*self))
    }

    fn from_value(_alloc: Global, json: &Value) -> Result<i32, FormError> {
        match json.as_u64() {
            Some(number) => i32::try_from(number).ok().ok_or(FormError::whole()),
            None => match negative_of(json) {
                Some(number) => i32::try_from(number).ok().ok_or(FormError::whole()),
                None => Err(FormError::whole()),
            },
        }
    }

    ghost told_apart = { λ one other _ _. integers-apart one other };

    ghost has_one_form = { λ one other same. forms-alike (λ n. number (of_integer n)) one other same };

    ghost never_null = { λ n. number-some (of_integer n) };
}

impl JsonForm for i64 {
    ghost use Rattle.std.specs.Prelude.{◌^◌};
    ghost use Rattle.serde_json.specs.Data.{number};
    ghost use Rattle.serde_json.specs.Find.{of_integer};
    ghost use Rattle.specs_saveload.specs.Plain.{is_number, is_between};
    ghost use Rattle.specs_saveload.specs.PlainLemmas.{forms-alike, integers-apart, number-some};

    ghost form = { λ n. number (of_integer n) };

    ghost is_form = { is_number (is_between (2 ^ 63)) };

    ghost same = { λ one other. one ≡ other };

    fn to_value(&self, _alloc: Global) -> Result<Value, AllocError> {
        Ok(Value::from(*self))
    }

    fn from_value(_alloc: Global, json: &Value) -> Result<i64, FormError> {
        match json.as_u64() {
            Some(number) => i64::try_from(number).ok().ok_or(FormError::whole()),
            None => match negative_of(json) {
                Some(number) => Ok(number),
                None => Err(FormError::whole()),
            },
        }
    }

    ghost told_apart = { λ one other _ _. integers-apart one other };

    ghost has_one_form = { λ one other same. forms-alike (λ n. number (of_integer n)) one other same };

    ghost never_null = { λ n. number-some (of_integer n) };
}

impl JsonForm for isize {
    ghost use Rattle.std.specs.Prelude.{◌^◌};
    ghost use Rattle.serde_json.specs.Data.{number};
    ghost use Rattle.serde_json.specs.Find.{of_integer};
    ghost use Rattle.specs_saveload.specs.Plain.{is_number, is_between};
    ghost use Rattle.specs_saveload.specs.PlainLemmas.{forms-alike, integers-apart, number-some};

    ghost form = { λ n. number (of_integer n) };

    ghost is_form = { is_number (is_between (2 ^ 63)) };

    ghost same = { λ one other. one ≡ other };

    fn to_value(&self, _alloc: Global) -> Result<Value, AllocError> {
        Ok(Value::from(*self))
    }

    fn from_value(_alloc: Global, json: &Value) -> Result<isize, FormError> {
        match json.as_u64() {
            Some(number) => isize::try_from(number).ok().ok_or(FormError::whole()),
            None => match negative_of(json) {
                Some(number) => Ok(number as isize),
                None => Err(FormError::whole()),
            },
        }
    }

    ghost told_apart = { λ one other _ _. integers-apart one other };

    ghost has_one_form = { λ one other same. forms-alike (λ n. number (of_integer n)) one other same };

    ghost never_null = { λ n. number-some (of_integer n) };
}

impl JsonForm for bool {
    ghost use Rattle.specs_saveload.specs.PlainLemmas.{forms-alike, booleans-apart, boolean-some};
    ghost use Rattle.serde_json.specs.Data.{boolean};
    ghost use Rattle.specs_saveload.specs.Plain.{is_boolean};

    ghost form = { boolean };

    ghost is_form = { is_boolean };

    ghost same = { λ one other. one ≡ other };

    fn to_value(&self, _alloc: Global) -> Result<Value, AllocError> {
        Ok(Value::Bool(*self))
    }

    fn from_value(_alloc: Global, json: &Value) -> Result<bool, FormError> {
        json.as_bool().ok_or(FormError::whole())
    }

    ghost told_apart = { λ one other _ _. booleans-apart one other };

    ghost has_one_form = { λ one other same. forms-alike boolean one other same };

    ghost never_null = { boolean-some };
}

impl JsonForm for String {
    ghost use Rattle.specs_saveload.specs.PlainLemmas.{forms-alike, texts-apart, text-some};
    ghost use Rattle.std.specs.Prelude.{string_bytes};
    ghost use Rattle.serde_json.specs.Data.{string};
    ghost use Rattle.specs_saveload.specs.Plain.{is_text};

    ghost form = { λ text. string (string_bytes text) };

    ghost is_form = { is_text };

    ghost same = { λ one other. string_bytes one ≡ string_bytes other };

    fn to_value(&self, _alloc: Global) -> Result<Value, AllocError> {
        Ok(Value::String(self.clone()?))
    }

    fn from_value(alloc: Global, json: &Value) -> Result<String, FormError> {
        match json.as_str() {
            Some(text) => Ok(String::from_str(alloc, text)?),
            None => Err(FormError::whole()),
        }
    }

    ghost told_apart = { λ one other _ _. texts-apart (string_bytes one) (string_bytes other) };

    ghost has_one_form = { λ one other same. forms-alike string (string_bytes one) (string_bytes other) same };

    ghost never_null = { λ text. text-some (string_bytes text) };
}
