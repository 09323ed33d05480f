//! What functions with directives call.
#![tactic(auto)]

pub mod laws;
