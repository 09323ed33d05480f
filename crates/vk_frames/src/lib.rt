//! The registers and masks of calls, in one list of words.
#![tactic(auto)]

pub mod frame;
pub mod lanes;
pub mod masks;
pub mod rows;

pub use frame::Frame;
