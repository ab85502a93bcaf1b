//! Sets that are read in place join by their indices.
mod and;
mod atomic;
mod not;
mod or;
mod xor;
