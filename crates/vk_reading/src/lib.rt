//! The scalar reading of a program: its units are read as they mean, one function, statement and expression after another.
//!
//! `specs/` says how what the reader holds stands for what the meaning (`vk_meaning`) speaks of.
#![tactic(auto)]

pub mod cells;
pub mod held;
pub mod operators;
pub mod pointers;
pub mod prints;
pub mod variables;

pub use cells::{Cells, Row};
pub use held::{Halt, Held, Typed};
pub use pointers::Place;
pub use variables::Variable;
