//! What holds of every run of an image.
#![tactic(auto)]

pub mod laws;
