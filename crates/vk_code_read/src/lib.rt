//! Reads code field by field, for objects and images.
#![tactic(auto)]

pub mod code;
pub mod fields;
pub mod front;

pub use code::CodeFeed;
pub use front::{CodePlace, FrontFeed};
