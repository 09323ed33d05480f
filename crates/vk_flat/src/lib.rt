//! The compiler of expressions to lane code.
#![tactic(auto)]

pub mod appending;
pub mod emitter;
pub mod expression;
pub mod instructions;
pub mod locals;
pub mod logical;
pub mod operators;

pub use emitter::{Emitter, Place, Under};
