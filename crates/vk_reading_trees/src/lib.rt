//! The reader of trees: expressions are evaluated as they mean.
#![tactic(auto)]

mod arguments;
pub mod expressions;

pub use expressions::{address_of, evaluate, evaluate_arguments};
