//! One instruction that calls nothing, in the lanes of a frame: registers, masks, cells of arrays, and printed numbers.
#![tactic(auto)]

pub mod place;
pub mod registers;
pub mod rows;

pub use place::Place;
