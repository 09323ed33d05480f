//! The rules by which a unit is refused.
#![tactic(auto)]

pub mod rules;

pub use rules::{UnitFail, UnitRule};
