//! The scalar reading of a program: what its names are, its cells as they begin, and a call of `main`.
#![tactic(auto)]

pub mod preparing;
pub mod reading;

pub use reading::read_program;
