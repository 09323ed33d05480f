//! Pointers as the texts of arguments: the name of an array, and how many elements behind or before its first one.
#![tactic(auto)]

pub mod heads;
mod names;
pub mod pointers;
mod texts;

pub use heads::ArrayHead;
pub use pointers::Pointers;
