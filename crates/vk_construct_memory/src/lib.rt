//! Pointers, loads and stores as code that is appended.
#![tactic(auto)]

pub mod laws;
