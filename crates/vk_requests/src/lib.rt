//! What the words of a command line ask: the command that the first word picks, by its table and its values.
#![tactic(auto)]

pub mod request;

pub use request::{Request, WordFail, request_of};
