//! Units of C with the first fault of each, by hand from the language's rules: those on directives and items.
//!
//! They stand in a crate of their own, since a crate with tests is proved twice.
#![tactic(auto)]

#[cfg(test)]
mod again;
#[cfg(test)]
mod builtin;
#[cfg(test)]
mod forms;
#[cfg(test)]
mod listed;
#[cfg(test)]
mod lost;
#[cfg(test)]
mod objects;
#[cfg(test)]
mod order;
#[cfg(test)]
mod redeclared;
#[cfg(test)]
mod sizes;
#[cfg(test)]
mod values;
#[cfg(test)]
mod variants;
#[cfg(test)]
mod verdict;
