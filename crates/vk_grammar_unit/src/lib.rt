//! The grammar of units: the texts of functions, objects and whole units, and a reader on lists of tokens.
//!
//! As for expressions and statements, the grammar is a relation, and the reader a function between it and the code of the
//! parser.
#![tactic(auto)]

pub mod laws;
