//! Statements and whole functions as code that is appended: what each does in every lane of every run.
#![tactic(auto)]

pub mod laws;
