//! Units of C with the first fault of each, by hand from the language's rules: those on the parameters and bodies of functions.
//!
//! They stand in a crate of their own, since a crate with tests is proved twice.
#![tactic(auto)]

#[cfg(test)]
mod constants;
#[cfg(test)]
mod control;
#[cfg(test)]
mod names;
#[cfg(test)]
mod order;
#[cfg(test)]
mod places;
#[cfg(test)]
mod sizes;
#[cfg(test)]
mod values;
#[cfg(test)]
mod vectors;
#[cfg(test)]
mod verdict;
