//! Calls of functions with directives are local: what the code of calls asks of the scalar meaning.
#![tactic(auto)]

pub mod laws;
