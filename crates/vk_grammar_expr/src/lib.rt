//! The grammar of C in this profile: tokens as it reads them, the texts of each tree, and a reader on lists of tokens.
//!
//! The grammar is a relation between trees and lists of tokens. The reader is a function on such lists, between that
//! relation and the code of the parser, of which each function is one of the reader's.
#![tactic(auto)]

pub mod laws;
pub mod symbols;

pub use symbols::{Keyword, Operator, Prefix, Sym, SymKind, TypeWord};
