//! The small fields of an image, and what the order of its records asks.
#![tactic(auto)]

pub mod fields;
pub mod order;
pub mod parameters;
