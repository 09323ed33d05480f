//! From tokens to what the grammar reads: keywords told apart from names, directive lines apart from the rest, and the rule on
//! words of types and left-out keywords (C7).
#![tactic(auto)]

pub mod faults;
pub mod lines;
pub mod words;

pub use faults::first_word_fault;
pub use lines::{Syms, classify};
