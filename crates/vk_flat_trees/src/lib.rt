//! The compiler of expressions on numbers and memory to lane code.
#![tactic(auto)]

pub mod expression;
pub mod types;

pub use expression::{emit, emit_place, emit_pointer};
