//! What holds of accepted units, from their bytes.
#![tactic(auto)]

pub mod laws;
