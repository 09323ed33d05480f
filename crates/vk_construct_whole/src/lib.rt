//! The code of whole functions: so far of those that are one `return` of an expression.
#![tactic(auto)]

pub mod laws;
