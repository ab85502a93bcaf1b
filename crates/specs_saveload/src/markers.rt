//! The forms of markers.
use crate::form::{FormError, JsonForm};
use serde_json::Value;
use specs_markers::{Marker, SimpleMarker, UuidMarker};
use std::alloc::{AllocError, Global};
use uuid::Uuid;

/// The whole number.
impl<T> JsonForm for SimpleMarker<T> {
    ghost use Rattle.std.specs.Prelude.{◌≡◌, ◌^◌};
    ghost use Rattle.serde_json.specs.Data.{number, unsigned};
    ghost use Rattle.specs_saveload.specs.Plain.{is_number, is_below};
    ghost use Rattle.specs_saveload.specs.PlainLemmas.{forms-alike, numbers-apart, number-some};

    ghost form = { λ marker. number (unsigned marker) };

    ghost is_form = { is_number (is_below (2 ^ 64)) };

    ghost same = { λ one other. one ≡ other };

    fn to_value(&self, _alloc: Global) -> Result<Value, AllocError> {
        Ok(Value::from(self.id()))
    }

    fn from_value(_alloc: Global, json: &Value) -> Result<SimpleMarker<T>, FormError> {
        match json.as_u64() {
            Some(number) => Ok(SimpleMarker::new(number)),
            None => Err(FormError::whole()),
        }
    }

    ghost told_apart = { λ one other _ _. numbers-apart one other };

    ghost has_one_form = { λ one other same. forms-alike (λ marker. number (unsigned marker)) one other same };

    ghost never_null = { λ marker. number-some (unsigned marker) };
}

/// The hyphenated text in lower case, and no other of the texts of a UUID.
impl<R> JsonForm for UuidMarker<R> {
    ghost use Rattle.std.specs.Prelude.{◌≡◌, Some};
    ghost use Rattle.serde_json.specs.Data.{string};
    ghost use Rattle.uuid.specs.Text.{hyphenated_text, lower, parsed};
    ghost use Rattle.specs_saveload.specs.Uuids.{is_text_of, is_uuid_text};
    ghost use Rattle.specs_saveload.specs.UuidLemmas.{uuids-apart};
    ghost use Rattle.specs_saveload.specs.PlainLemmas.{forms-alike, text-some};

    ghost form = { λ marker. string (hyphenated_text lower marker) };

    ghost is_form = { is_text_of is_uuid_text };

    ghost is_value = { λ marker. Some marker ≡ parsed (hyphenated_text lower marker) };

    ghost same = { λ one other. one ≡ other };

    fn to_value(&self, alloc: Global) -> Result<Value, AllocError> {
        let mut buffer = Uuid::encode_buffer();
        let text = self.uuid().hyphenated().encode_lower(&mut buffer);
        Ok(Value::String(String::from_str(alloc, text)?))
    }

    fn from_value(_alloc: Global, json: &Value) -> Result<UuidMarker<R>, FormError> {
        let Some(text) = json.as_str() else {
            return Err(FormError::whole());
        };
        let Ok(uuid) = Uuid::parse_str(text) else {
            return Err(FormError::whole());
        };
        let mut buffer = Uuid::encode_buffer();
        if uuid.hyphenated().encode_lower(&mut buffer) == text {
            Ok(UuidMarker::new(uuid))
        } else {
            Err(FormError::whole())
        }
    }

    ghost told_apart = { uuids-apart };

    ghost has_one_form = { λ one other same. forms-alike (λ marker. string (hyphenated_text lower marker)) one
        other same };

    ghost never_null = { λ marker. text-some (hyphenated_text lower marker) };
}
