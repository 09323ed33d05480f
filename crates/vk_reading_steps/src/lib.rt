//! The steps of the reader of expressions: names, operands that were evaluated, calls of functions, types of expressions.
//!
//! `specs/Runs.antt` says how what the reader holds stands for the worlds of the meaning, and that steps follow one another as their
//! meanings do.
#![tactic(auto)]

pub mod calls;
pub mod names;
pub mod operands;
pub mod setting;
pub mod typing;

pub use calls::Calls;
pub use setting::{Place, Setting};
