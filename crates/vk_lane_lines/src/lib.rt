//! What a call on lanes prints: the line of each lane.
#![tactic(auto)]

pub mod lines;

pub use lines::{Told, lane_lines};
