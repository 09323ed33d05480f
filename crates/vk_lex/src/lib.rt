//! The tokens of a unit of C.
//!
//! What tokens a unit has is defined in `specs/`, piece by piece: `Characters` (joined lines), `Comments`, `Headings` (lines
//! that begin with `#`), `Literals` (numbers), `Signs` (punctuators), and `Lexing`, which puts them together. `Tables` says what
//! the table of their names is.
#![tactic(auto)]

pub mod characters;
pub mod comments;
pub mod headings;
pub mod laws;
pub mod literals;
pub mod pieces;
pub mod reader;
pub mod signs;

pub use reader::lex;
pub use vk_tokens::{Mark, Token, TokenKind, Tokens};
pub use vk_unit_rules::{UnitFail, UnitRule};
