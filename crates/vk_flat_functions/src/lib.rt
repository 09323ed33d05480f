//! From functions of one `return` to lane code.
#![tactic(auto)]

pub mod code;
pub mod params;

pub use code::compile;
