//! From the tokens of a unit of C to its tree.
#![tactic(auto)]

pub mod laws;
mod lines;
pub mod table;
mod unit;

pub use unit::parse;
