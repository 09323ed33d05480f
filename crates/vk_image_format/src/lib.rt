//! Images as bytes: the one table of their fields, from which writing, reading and the order of judging follow.
#![tactic(auto)]

pub mod laws;
pub mod rows;

pub use rows::{EntryFront, EntryName, RawArray, RawEntry, RawImage};
