//! What the operators of C give on whole numbers: types, values and stops, and the constants of a unit.
//!
//! Rules of a unit and the meaning of programs stand on these definitions.
#![tactic(auto)]

pub mod constants;
pub mod laws;
pub mod operators;
pub mod types;

pub use constants::{constant_of, constant_to};
pub use types::{binary_type, unary_type};
