//! Kinds that are saved, the values of a world with two kinds of markers, and callers of saving and loading.

pub mod kinds;
pub mod loading;
pub mod round;
pub mod tasks;
pub mod values;
