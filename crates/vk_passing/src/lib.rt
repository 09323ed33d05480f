//! Words that calls pass to the frames of what they call, and results and stops that they take.
#![tactic(auto)]

pub mod arguments;
pub mod results;
