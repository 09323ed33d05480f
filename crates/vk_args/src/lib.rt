//! The words that calls pass: of each kind of parameter, and to the bodies of simd loops.
#![tactic(auto)]

pub mod bodies;
pub mod bounds;
pub mod calls;
pub mod numbers;
pub mod pass;
