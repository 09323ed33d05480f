//! The words of commands, read by `clap`: for each command one table of options and values, and what its words then ask.
#![tactic(auto)]

pub mod call;
pub mod demangle;
pub mod getters;
pub mod link;
pub mod mangle;
pub mod matching;
pub mod run;
pub mod tables;
pub mod values;

pub use mangle::MangleRequest;
