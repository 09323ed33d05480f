//! The top call of vfabi: what the words of a command line ask.
#![tactic(auto)]

pub mod call;
pub mod laws;

pub use call::vfabi;
