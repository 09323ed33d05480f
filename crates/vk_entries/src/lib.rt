//! Entries that are called: where they run, the room for their frames, and what is left of a simd loop's calls.
#![tactic(auto)]

pub mod callees;
pub mod opening;
pub mod settling;
