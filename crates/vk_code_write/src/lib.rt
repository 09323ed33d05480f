//! Writes the parts that objects and images share: code, parameters, elements.
#![tactic(auto)]

pub mod code;
pub mod parameters;
pub mod parts;
pub mod written;

pub use written::{FileKind, Written, put_all};
