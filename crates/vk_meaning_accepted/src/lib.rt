//! What the meaning of programs asks of units, from the rules that they break none of.
#![tactic(auto)]

pub mod laws;
