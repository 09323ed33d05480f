//! Tests of the front, from bytes to the tree of a unit: texts with what they give, by hand from the language's rules.
//!
//! They stand in a crate of their own, since a crate with tests is proved twice. Trees and tokens are compared as texts
//! (`print`).
#![tactic(auto)]

#[cfg(test)]
mod clauses;
#[cfg(test)]
mod expressions;
#[cfg(test)]
mod front;
#[cfg(test)]
mod print;
#[cfg(test)]
mod statements;
#[cfg(test)]
mod tokens;
#[cfg(test)]
mod units;
#[cfg(test)]
mod words;
