//! What a call on lanes prints of memory: the line of each cell that it changed.
#![tactic(auto)]

pub mod cells;
pub mod lines;

pub use cells::Cells;
pub use lines::cell_lines;
