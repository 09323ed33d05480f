//! What is judged once the last field of an object is complete: that each symbol is used by one record, then the codes.
#![tactic(auto)]

pub mod codes;
pub mod ends;
pub mod lengths;
pub mod names;
pub mod symbols;

pub use ends::object_faults;
