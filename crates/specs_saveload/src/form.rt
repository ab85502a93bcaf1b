//! What has a JSON form.
ghost use Rattle.std.specs.Prelude.{◌≡◌, Bool, true, false, IfOk, OnOk};
ghost use Rattle.serde_json.specs.Data.{Data, null};
ghost use Rattle.serde_json.specs.View.{view};
ghost use Rattle.specs_saveload.specs.Places.{IfShape, at_key, at_number, refused_at, whole};
ghost use Rattle.specs_saveload.specs.declared.form.FormError.TheVariants as refusal;
ghost use Rattle.specs_saveload.specs.declared.form.Place.{Place};

use serde_json::Value;
use std::alloc::{AllocError, Global};
use std::fmt;
use thiserror::Error;

/// A key of an object in a form.
#[derive(Clone, Copy, Debug, PartialEq, Eq)]
pub enum Key {
    /// The parts of a saved entity.
    Components,
    /// The marker of a saved entity.
    Marker,
    /// A key of a form that a caller gives a type of its own.
    Named(&'static str),
}

impl fmt::Display for Key {
    fn fmt<W: fmt::Write>(&self, f: &mut fmt::Formatter<W>) -> fmt::Result {
        match self {
            Key::Components => f.write_str("components"),
            Key::Marker => f.write_str("marker"),
            Key::Named(name) => f.write_str(name),
        }
    }
}

/// Where in a JSON the shape is another than that of a form.
#[derive(Clone, Copy, Debug, PartialEq, Eq)]
pub struct Place {
    /// The item of the outermost list in which it stands, from 0; none where it stands in no list.
    pub number: Option<usize>,
    /// The innermost key under which it stands; none where it stands under none.
    pub key: Option<Key>,
}

impl Place {
    /// The JSON itself.
    pub fn whole() -> Place
        ensures { result ≡ whole }
    {
        Place {
            number: None,
            key: None,
        }
    }

    /// The place in a list whose item with that number has this one.
    pub fn at_number(self, number: usize) -> Place
        ensures { result ≡ at_number number self }
    {
        Place {
            number: Some(number),
            key: self.key,
        }
    }

    /// The place in an object that has this one under that key.
    pub fn at_key(self, key: Key) -> Place
        ensures { result ≡ at_key key self }
    {
        Place {
            number: self.number,
            key: Some(self.key.unwrap_or(key)),
        }
    }
}

/// The text behind a refusal: `` at item 3, under `marker` ``, or one of both, or none.
impl fmt::Display for Place {
    fn fmt<W: fmt::Write>(&self, f: &mut fmt::Formatter<W>) -> fmt::Result {
        match (self.number, self.key) {
            (Some(number), Some(key)) => write!(f, " at item {number}, under `{key}`"),
            (Some(number), None) => write!(f, " at item {number}"),
            (None, Some(key)) => write!(f, " under `{key}`"),
            (None, None) => Ok(()),
        }
    }
}

/// Why a JSON isn't read as a value.
#[derive(Clone, Copy, Debug, PartialEq, Eq, Error)]
pub enum FormError {
    /// The JSON isn't the form of a value of the type: at that place the shape is another.
    #[error("the JSON has another shape{0}")]
    Shape(Place),
    /// There was no memory for the value.
    #[error("out of memory")]
    Memory,
}

impl FormError {
    /// The refusal of a JSON for what it is itself, not for what stands in it.
    pub fn whole() -> FormError
        ensures { result ≡ refusal.Shape whole }
    {
        FormError::Shape(Place::whole())
    }

    /// The refusal of a list whose item with that number has this one. `Memory` stays.
    pub fn at_number(self, number: usize) -> FormError
        ensures { result ≡ refused_at (at_number number) self }
    {
        match self {
            FormError::Shape(place) => FormError::Shape(place.at_number(number)),
            FormError::Memory => FormError::Memory,
        }
    }

    /// The refusal of an object that has this one under that key, which is told where none is yet. `Memory` stays.
    pub fn at_key(self, key: Key) -> FormError
        ensures { result ≡ refused_at (at_key key) self }
    {
        match self {
            FormError::Shape(place) => FormError::Shape(place.at_key(key)),
            FormError::Memory => FormError::Memory,
        }
    }
}

impl From<AllocError> for FormError {
    ghost use Rattle.specs_saveload.specs.declared.form.FormError.TheVariants as refusal;

    ghost from_gives = { λ _ error. error ≡ refusal.Memory };

    fn from(_refusal: AllocError) -> FormError {
        FormError::Memory
    }
}

/// Data that is written as JSON and read back as it was.
///
/// Each value has one form, and none has `null`. It stands for `Serialize` and `DeserializeOwned` in `specs`.
pub trait JsonForm: Drop + Sized {
    /// The JSON of a value.
    ghost form: { Self → Data };

    /// Whether a JSON is that of a value.
    ghost is_form: { Data → Bool };

    /// The place that is told where a JSON isn't that of a value.
    ghost place_in: { Data → Place } = { λ _. whole };

    /// What is true of every value, and is known once it is written or read.
    ghost is_value: { Self → Type 0 } = { λ _. Unit {0} };

    /// Two values are the same to whoever reads them.
    ghost same: { Self → Self → Type 0 };

    /// The JSON of the value.
    ///
    /// Errors: `AllocError`.
    fn to_value(&self, alloc: Global) -> Result<Value, AllocError>
        ensures value { IfOk result (λ json. view json ≡ form self.now) }
        ensures written { OnOk result (is_form (form self.now) ≡ true) }
        ensures fits { OnOk result (is_value self.now) };

    /// The value that has this JSON.
    ///
    /// Errors: `Shape` if it is no value's, with the place where it isn't; `Memory`.
    fn from_value(alloc: Global, json: &Value) -> Result<Self, FormError>
        ensures ok { IfOk result (λ value. form value ≡ view json.now) }
        ensures known { OnOk result (is_form (view json.now) ≡ true) }
        ensures fits { IfOk result is_value }
        ensures shape { IfShape result (λ _. is_form (view json.now) ≡ false) }
        ensures place { IfShape result (λ place. place ≡ place_in (view json.now)) };

    /// Values with one form are the same.
    ghost told_apart: { (one other : Self) → is_value one → is_value other → form one ≡ form other → same one other };

    /// Values that are the same have one form.
    ghost has_one_form: { (one other : Self) → same one other → form one ≡ form other };

    /// No form is `null`.
    ghost never_null: { (value : Self) → form value ≡ null → ⊥ };
}
