//! The machine that runs a linked program, or one entry of it, in memory that is taken beforehand.
#![tactic(auto)]

pub mod entering;
pub mod machine;

pub use machine::Machine;
