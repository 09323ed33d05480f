#![tactic(auto)]

pub mod fields;
pub mod parameters;
