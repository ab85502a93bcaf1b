//! Stories of worlds, simulations, forms, marking, saving and loading, each tried on rows.
#![tactic(auto)]

#[cfg(test)]
mod forms;
#[cfg(test)]
mod marked;
#[cfg(test)]
mod markers;
#[cfg(test)]
mod rows;
#[cfg(test)]
mod simulated;
#[cfg(test)]
mod uuids;
#[cfg(test)]
mod worlds;
