//! The integer types of C on LP64 and the operators on their numbers.
#![tactic(auto)]

pub mod laws;
pub mod numbers;
pub mod operators;
pub mod types;

pub use numbers::{common, convert, number, promote, size, wrap};
pub use operators::{op1, op2};
pub use types::{Op1, Op2, Stop, Ty, UnknownType, Word};

#[cfg(test)]
mod tests;
