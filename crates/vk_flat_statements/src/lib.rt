//! The compiler of statements to lane code.
#![tactic(auto)]

pub mod assigning;
pub mod branching;
pub mod guards;
pub mod leaf;
pub mod leaving;

pub use guards::Guards;
pub use leaf::emit_leaf;
