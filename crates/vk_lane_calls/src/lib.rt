//! Calls that a code makes: of entries with as many lanes, of entries with one lane, and of functions without directives.
#![tactic(auto)]

pub mod laws;
