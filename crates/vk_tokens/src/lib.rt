//! The tokens of a unit.
#![tactic(auto)]

pub mod tokens;

pub use tokens::{Mark, Token, TokenKind, Tokens};
