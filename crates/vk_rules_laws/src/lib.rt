//! What holds of units that break no rule.
#![tactic(auto)]

pub mod laws;
