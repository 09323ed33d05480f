//! Reads objects field by field.
#![tactic(auto)]

pub mod data;
pub mod function;
pub mod object;

pub use data::DataFeed;
pub use function::FunctionFeed;
pub use object::ObjectFields;
