//! The reader of calls: a function of a program is called by its name, and its body is run as it means.
//!
//! A type stands for how deep calls may go: `Level<F>` calls a function whose own calls go as deep as `F`'s.
#![tactic(auto)]

pub mod functions;
pub mod level;
pub mod prints;
pub mod program;
pub mod starting;
pub mod unit;

pub use functions::{Functions, NoFunctions};
pub use level::{Level, call_deep};
pub use program::{Program, ProgramUnit};
