//! Drift on a dispatcher, staged at one position and local at another.

mod frames;
mod world;
