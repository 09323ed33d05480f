//! Separate compilation composes: an image that joins objects which carry units carries the units, and runs as they read.
#![tactic(auto)]

pub mod laws;
