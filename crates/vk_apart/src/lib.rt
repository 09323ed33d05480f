//! The arguments of a call on lanes of a function with pointers: besides what holds of all arguments, its active lanes have to be
//! apart.
#![tactic(auto)]

pub mod call;
pub mod laws;
pub mod pairs;
pub mod reach;

pub use call::call_arguments;
