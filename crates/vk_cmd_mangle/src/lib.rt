//! The command `mangle`: the vector names that the directives of a unit give.
#![tactic(auto)]

pub mod command;
pub mod laws;

pub use command::mangle;
