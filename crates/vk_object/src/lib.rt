//! Objects and images as values: what one unit gives to a program, and what the program's linker makes of it.
//!
//! `specs/Machine.antt` says what the entries of an image do.
#![tactic(auto)]

pub mod elements;
pub mod image;
pub mod object;
pub mod parameters;
pub mod rows;
pub mod tables;
pub mod texts;

pub use image::Image;
pub use object::Object;
pub use rows::{Codes, DataRow, FunctionRow, Symbol};
pub use tables::{ArrayRow, Entry, EntryKind, ImageTables, LoopTargets};
