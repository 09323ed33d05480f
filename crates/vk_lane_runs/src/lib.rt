//! Codes as wholes: from what a code does in each lane to what a call of its entry gives.
#![tactic(auto)]

pub mod laws;
