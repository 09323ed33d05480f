//! The rules on the parameters and the bodies of functions.
#![tactic(auto)]

pub mod functions;
pub mod items;

pub use functions::judge_function;
pub use items::{judge_functions, judge_item};
