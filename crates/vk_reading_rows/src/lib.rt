//! What the reader of programs runs over, made from units: the arrays in their order with their first cells, which array each name of a
//! unit is, and where the function of each name is defined.
#![tactic(auto)]

pub mod cells;
pub mod functions;
pub mod numbers;
pub mod objects;
mod texts;
