//! The compiler of whole bodies of functions to lane code.
#![tactic(auto)]

pub mod body;

pub use body::emit_body;
