//! The memory of a run, with loads, stores and prints in the order of the lanes; and what a part of a run does to it.
#![tactic(auto)]

pub mod accesses;
pub mod lines;
pub mod store;

pub use store::Store;
