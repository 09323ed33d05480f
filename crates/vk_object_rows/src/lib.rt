//! Objects from the tables that their fields gave.
#![tactic(auto)]

pub mod directives;
pub mod functions;
pub mod object;

pub use object::object_of;
