//! Places in memory and pointers that are moved, as code that is appended.
#![tactic(auto)]

pub mod laws;
