//! The clauses of directives (OpenMP 5.2, declare simd and simd).
#![tactic(auto)]

pub mod clauses;
pub mod cuts;
pub mod directives;
pub mod laws;
pub mod miss;
pub mod words;

pub use directives::{read_clauses, read_directive};
