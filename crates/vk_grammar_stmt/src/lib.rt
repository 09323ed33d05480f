//! The grammar of statements: the texts of each tree, and a reader on lists of tokens.
//!
//! As for expressions, the grammar is a relation, and the reader a function between it and the code of the parser.
#![tactic(auto)]

pub mod laws;
