//! Calls as expressions, in one lane: arguments in order, converted to their parameters' types, and the call behind them.
#![tactic(auto)]

pub mod laws;
