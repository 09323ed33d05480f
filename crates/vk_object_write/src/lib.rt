//! Writes objects.
#![tactic(auto)]

pub mod functions;
pub mod object;
pub mod symbols;

pub use object::write_object;
