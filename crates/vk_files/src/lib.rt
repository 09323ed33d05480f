//! The files of a command: its inputs, read one after another, and the file that it writes.
#![tactic(auto)]

pub mod inputs;
pub mod laws;
pub mod output;
pub mod reading;

pub use inputs::Inputs;
pub use output::write_file;
pub use reading::read_inputs;
