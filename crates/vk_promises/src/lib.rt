//! What the makers of codes promise, and what follows of it for the functions of a program.
#![tactic(auto)]

pub mod laws;
