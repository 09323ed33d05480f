//! Calls of entries from outside: where they run, the words and lanes that they give, and what they take back.
#![tactic(auto)]

pub mod call;
pub mod discard;
pub mod place;
pub mod taken;
pub mod taking;

pub use call::DirectCall;
pub use discard::Discard;
