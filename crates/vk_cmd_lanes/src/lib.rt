//! The command `lanes`: a call of a unit's variant, lane by lane.
#![tactic(auto)]

pub mod callee;
pub mod command;
pub mod laws;
pub mod unit_call;

pub use command::{Call, lanes};
