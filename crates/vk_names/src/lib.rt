//! Reading and writing the names of vector variants, as `_ZGVbN4vl4u_f`.
#![tactic(auto)]

pub mod feed;
pub mod laws;
pub mod names;
mod read;
pub mod rules;
mod shortcuts;
mod states;
mod steps;
mod write;

pub use feed::{NameFeed, Progress};
pub use names::{NameHead, ReadName};
pub use read::read_name;
pub use rules::{NameFault, NameRule};
pub use write::write_name;
