//! Objects from bytes, in pieces or at once.
#![tactic(auto)]

pub mod feed;
pub mod laws;
pub mod read;
pub mod rows;

pub use feed::ObjectFeed;
pub use read::read_object;
