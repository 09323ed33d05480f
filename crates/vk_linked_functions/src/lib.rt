//! Units that link agree on their functions, as the laws of calls ask.
#![tactic(auto)]

pub mod laws;
