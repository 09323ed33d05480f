//! The reader of statements (C17 6.8): from tokens to a tree, or to the place of the fault.
#![tactic(auto)]

pub mod acts;
pub mod directives;
pub mod locals;
mod nodes;
pub mod read;
mod reader;
pub mod signs;

pub use directives::Directives;
pub use read::read_body;
