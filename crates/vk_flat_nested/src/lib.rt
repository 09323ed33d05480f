//! The compiler of statements that hold statements to lane code.
#![tactic(auto)]

pub mod statement;

pub use statement::{emit_all, emit_statement};
