//! What the code of an entry calls, and the frames of calls: words that are passed, results and stops that are taken.
#![tactic(auto)]

pub mod fetch;
pub mod found;
