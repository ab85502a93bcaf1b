//! Rows and examples of use of `hibitset_sets` and `hibitset`, which no contract says.
#![tactic(auto)]

#[cfg(test)]
mod calls;
#[cfg(test)]
mod cuts;
#[cfg(test)]
mod drains;
#[cfg(test)]
mod gates;
#[cfg(test)]
mod made;
#[cfg(test)]
mod operators;
#[cfg(test)]
mod shared;
#[cfg(test)]
mod threads;
#[cfg(test)]
mod walked;
#[cfg(test)]
mod words;
