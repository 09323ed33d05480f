//! What holds of every call of a function: what it reads and writes, that it does the same in the middle of any run, and that numbers are
//! of their types.
#![tactic(auto)]

pub mod laws;
