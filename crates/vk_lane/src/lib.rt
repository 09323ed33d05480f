//! What code does in one lane, without regard to the other lanes.
#![tactic(auto)]

pub mod laws;
