//! What constants and literals mean, whatever the program that they stand in, and what the operators that evaluate one operand leave out.
#![tactic(auto)]

pub mod laws;
