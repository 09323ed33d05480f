//! The rules on statements: C8, C14, C15, C16, D12 and D15, and all on the expressions in them.
#![tactic(auto)]

pub mod statements;

pub use statements::{judge_declared, judge_stmt};
