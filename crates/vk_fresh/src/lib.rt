//! What a machine has before its first run: the first words of its arrays, counts of 0, and room for the frames of the longest
//! chain of calls.
#![tactic(auto)]

pub mod room;
pub mod stores;
