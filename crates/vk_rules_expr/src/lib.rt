//! The rules on expressions: C8, C9, C10, C16, D15 and D16, and the types of expressions.
#![tactic(auto)]

pub mod expressions;
pub mod typing;

pub use expressions::{is_simd, judge_in_role};
