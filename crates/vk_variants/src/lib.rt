//! The vector names that the directives of a function give, as `_ZGVbN4vl4u_f`.
#![tactic(auto)]

pub mod laws;
pub mod list;

pub use list::{NameList, function_names};
