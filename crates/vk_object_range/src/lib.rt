//! Whether the numbers of objects are in the ranges that their bytes can hold.
#![tactic(auto)]

pub mod codes;
pub mod directives;
pub mod objects;

pub use objects::is_in_range;
