//! The reader of units (C17 6.9): from tokens to items, or to the place of the fault.
#![tactic(auto)]

mod functions;
mod lines;
mod nodes;
mod objects;
mod params;
pub mod read;
mod words;

pub use read::read_unit;
