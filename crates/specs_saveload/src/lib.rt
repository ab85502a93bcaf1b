//! Saving and loading: JSON forms of plain data, markers and entities; the marked entities of a world as a list of data; and
//! entities made of such a list.
#![tactic(auto)]

mod bearers;
pub mod builder;
pub mod composite;
pub mod convert;
pub mod deserialize;
pub mod entity_data;
pub mod form;
pub mod laws;
pub mod listed;
mod lists;
pub mod markers;
pub mod names;
pub mod parts;
pub mod plain;
mod recursive;
pub mod serialize;

pub use bearers::bearer;
pub use builder::MarkedBuilder;
pub use convert::{ConvertSaveload, plain_from, plain_into};
pub use deserialize::DeserializeComponents;
pub use entity_data::EntityData;
pub use form::{FormError, JsonForm, Key, Place};
pub use listed::list_from_value;
pub use names::{Marks, Names, SavedMarker};
pub use parts::PartForms;
pub use serialize::SerializeComponents;
