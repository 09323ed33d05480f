//! Units that link agree on their objects, and the objects that a text names are arrays of the program.
#![tactic(auto)]

pub mod laws;
