//! The machine's cycle: the code of an entry of an image, with its blocks, calls and simd loops.
#![tactic(auto)]

pub mod handing;
pub mod locals;
pub mod run;
