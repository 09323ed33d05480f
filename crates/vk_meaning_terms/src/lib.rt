//! What holds of the meaning by the trees of expressions and bodies alone: the ranges of numbers, and that the bound on the depth of calls
//! is of no matter.
#![tactic(auto)]

pub mod laws;
