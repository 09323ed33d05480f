//! What a directive that breaks no rule says of its function: the signature of its variants.
#![tactic(auto)]

pub mod clauses;
pub mod params;
pub mod signatures;
pub mod steps;

pub use params::{is_integer, is_named, pointee};
pub use signatures::{head_of, signature_of};
