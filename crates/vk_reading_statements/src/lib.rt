//! The reader of statements: they are run as they mean, with what the reader of trees makes of their expressions.
//!
//! `specs/Acts.antt` says how the values of variables and what the reader holds stand for states of the meaning.
#![tactic(auto)]

pub mod assigning;
pub mod body;
pub mod flow;
pub mod locals;
pub mod parts;
pub mod statements;

pub use body::{Body, Locals};
pub use flow::Flow;
pub use statements::run_stmt;
